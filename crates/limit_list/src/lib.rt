// Limits on named readings, as a technician writes them down: what a line says, what it asks of the readings, and whether a
// list of them can hold together.
#![tactic(auto)]

mod answering;
mod comparison;
pub mod fault;
mod limit;
mod list;
mod listing;
mod meaning;
mod numeral;
mod parse;
pub mod words;

pub use answering::{Unanswered, answer};
pub use comparison::Comparison;
pub use fault::{Expected, Fault, Trouble};
pub use limit::{Limit, Operator, Quantity};
pub use list::LimitList;
pub use listing::read_list;
pub use meaning::predicate_of;
pub use parse::parse_line;
pub use words::Answered;
