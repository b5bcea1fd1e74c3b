// What a line of a list says.
use crate::comparison::Comparison;

// How a quantity is compared with a number.
#[derive(Clone, Copy, Debug, PartialEq, Eq)]
pub enum Operator {
    AtMost,
    Below,
    AtLeast,
    Above,
}

// What a limit is about: one reading, or the first reading less the second. A reading is told by its name or by its place.
#[derive(Clone, Copy, Debug, PartialEq, Eq)]
pub enum Quantity<T> {
    Reading(T),
    Difference(T, T),
}

// A quantity, and how it is compared with a whole number of tenths of a degree.
#[derive(Clone, Copy, Debug, PartialEq, Eq)]
pub struct Limit<'a> {
    pub quantity: Quantity<&'a [u8]>,
    pub comparison: Comparison,
}
