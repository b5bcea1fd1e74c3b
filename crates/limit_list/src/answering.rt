// Whether the limits of a list can hold together.
ghost use Rattle.std.specs.Prelude.{◌≡◌};
ghost use Rattle.limit_list.specs.declared.answering.Unanswered.TheVariants.{Memory, Refused};
ghost use Rattle.limit_list.specs.Answers.{Answers};

use crate::list::LimitList;
use domain::{Domain, Outcome, Refusal};
use std::alloc::{AllocError, Global};

// Why a list has no answer: the domain refuses to solve it, or there is not enough memory.
#[derive(Clone, Copy, Debug, PartialEq, Eq)]
pub enum Unanswered {
    Memory,
    Refused(Refusal),
}

impl From<AllocError> for Unanswered {
    ghost from_gives = { λ _ r. r ≡ Memory };

    fn from(_e: AllocError) -> Unanswered {
        Unanswered::Memory
    }
}

impl From<Refusal> for Unanswered {
    ghost from_gives = { λ refusal r. r ≡ Refused refusal };

    fn from(refusal: Refusal) -> Unanswered {
        Unanswered::Refused(refusal)
    }
}

// One value for each reading in the order of the list, or nothing if no values satisfy all limits.
pub fn answer<D: Domain>(
    heap: Global,
    domain: &mut D,
    list: &LimitList<'_>,
) -> Result<Option<Vec<i32>>, Unanswered>
    ensures answered { Answers (D.meaning domain.old) list.now result }
    ensures meant { D.meaning domain.new ≡ D.meaning domain.old }
{
    let mut values = vec![in heap; 0i32; list.kinds.len()]?;
    let outcome = domain.solve(
        list.kinds.as_slice(),
        list.rows.as_slice(),
        values.as_mut_slice(),
    )?;
    match outcome {
        Outcome::Unsolvable => Ok(None),
        Outcome::Solved => Ok(Some(values)),
    }
}
