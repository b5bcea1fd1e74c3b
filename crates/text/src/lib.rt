// What every reader of a text of lines shares: the bytes at its front, whole numbers, lines, and where a fault is.
#![tactic(auto)]

mod bytes;
pub mod fault;
mod lines;
mod numeral;
mod trouble;

pub use bytes::{Class, after, bare, cut, first};
pub use fault::{Fault, Stop};
pub use lines::Lines;
pub use numeral::digits_value;
pub use trouble::Trouble;
