// Trials, and the tokens that stand for them.
ghost use Rattle.std.specs.Prelude.{◌≡◌};

// An open trial: its number, and how many statements were in force when it was opened.
#[derive(Clone, Copy, PartialEq, Eq, Debug, Default)]
pub struct Trial {
    pub number: u32,
    pub mark: usize,
}

// The right to close a trial. It comes from opening alone, cannot be copied, and may not be let go: it is spent by keeping or
// dropping the trial.
pub struct Token {
    pub(crate) number: u32,
}

impl Token {
    pub fn number(&self) -> u32
        ensures { result ≡ self.now.number }
    {
        self.number
    }
}
