// Concept tables and plants as a technician writes them down: reading them, and writing normal forms.
#![tactic(auto)]

pub mod fault;
mod form;
mod line;
mod node;
mod read;
mod reader;
mod sheet;
pub mod words;

pub use fault::{Expected, Fault, Trouble};
pub use read::read_sheet;
pub use sheet::Sheet;
