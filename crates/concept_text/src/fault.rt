// Why a text cannot be read.

// What was expected where the reading of a line stopped.
#[derive(Clone, Copy, Debug, PartialEq, Eq)]
pub enum Expected {
    Start,
    Form,
    Comparison,
    // this byte
    Sign(u8),
    // a whole number between these two
    Number(u32, u32),
    Constant(i32, i32),
    // the line that says how many things the plant has
    Plant,
    EndOfLine,
}

// Where the reading of a line stopped.
pub type Stop = text::Stop<Expected>;

// Why a line cannot be read to its end. What it said before that may have been added.
pub type Halt = text::Trouble<Stop>;

// Where a text cannot be read on.
pub type Fault = text::Fault<Expected>;

// A line cannot be read, or there is not enough memory.
pub type Trouble = text::Trouble<Fault>;
