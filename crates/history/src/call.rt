// The calls of a history, and their answers.
ghost use Rattle.std.specs.Prelude.{◌≡◌};
ghost use Rattle.history.specs.Playing.{told};

use concept::node::Node;
use sheet::refusal::Refusal;
use sheet::statement::Reading;

// A call on a sheet. A token is named by its place among the tokens at hand: those that were brought along, then those that
// opening gave.
#[derive(Clone, Copy)]
pub enum Call<'a> {
    Open,
    SetUp(u32, &'a [u32]),
    State(u32, &'a [Node]),
    Link(u32, u32, u32),
    Apart(u32, u32),
    // the predicate's form and constant, and the two readings
    Compare(u32, i32, Reading, Reading),
    Keep(usize),
    Drop(usize),
}

// What a call answered.
#[derive(Clone, Copy, PartialEq, Eq, Debug)]
pub enum Answer {
    // the token that the call names is not there, or was spent: nothing was called
    NoToken,
    Accepted,
    Refused(Refusal),
    // the number of the trial
    Opened(u32),
    // the number of the token that was spent, and how many trials closed
    Closed(u32, usize),
}

impl From<Result<(), Refusal>> for Answer {
    ghost from_gives = { λ outcome answer. answer ≡ told outcome };

    fn from(outcome: Result<(), Refusal>) -> Answer {
        match outcome {
            Ok(()) => Answer::Accepted,
            Err(refusal) => Answer::Refused(refusal),
        }
    }
}
