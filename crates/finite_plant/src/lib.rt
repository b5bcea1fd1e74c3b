// Small plants written out as data, and which of their things lie in a concept.
#![tactic(auto)]

mod answering;
mod answers;
mod entries;
mod plant;
mod steps;

pub use answering::{MOST_THINGS, members};
pub use plant::{FinitePlant, Link, Named, Pair, Reading};
