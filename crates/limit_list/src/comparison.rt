// What a quantity is compared with.
ghost use Rattle.std.specs.Prelude.{◌≡◌, true, false, Some, MatchOption};
ghost use Rattle.limit_list.specs.Limits.{allowed, paired, predicate_of};

use crate::limit::{Operator, Quantity};
use crate::meaning::{constant_of, predicate_of};
use domain::Predicate;

// An operator, and a number that may stand after it.
#[derive(Clone, Copy, Debug, PartialEq, Eq)]
pub struct Comparison {
    pub operator: Operator,
    pub number: i32,
    pub ghost fits: { allowed operator number ≡ true },
}

impl Comparison {
    // There is one if the number may stand after the operator.
    pub fn new(operator: Operator, number: i32) -> Option<Comparison>
        ensures { MatchOption result (allowed operator number ≡ false) (λ c. (c.operator ≡ operator) × (c.number ≡ number)) }
    {
        constant_of(operator, number)?;
        Some(Comparison { operator, number })
    }

    // The predicate of a limit on this quantity.
    pub(crate) fn predicate(self, over: Quantity<usize>) -> Predicate
        ensures { Some result ≡ predicate_of (paired over) self.operator self.number }
    {
        let paired = matches!(over, Quantity::Difference(..));
        predicate_of(paired, self.operator, self.number).unwrap()
    }
}
