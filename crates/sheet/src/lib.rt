// Sheets: what is stated of a plant, in and out of trials. A sheet is made over a domain and set up; statements are added to it,
// trials are opened, kept and dropped, and what is in force is counted and read.
#![tactic(auto)]

ghost use Rattle.sheet.specs.Views.{View};

pub mod refusal;
pub mod sheet;
pub mod statement;
pub mod totals;
pub mod trial;

// what a sheet keeps its statements and trials in
mod stack;

// the calls, by what they are about
mod comparing;
mod counting;
mod others;
mod reading;
mod setup;
mod stating;
mod trials;

pub use refusal::Refusal;
pub use sheet::Sheet;
pub use statement::{Reading, Stored};
pub use totals::Totals;
pub use trial::Token;
