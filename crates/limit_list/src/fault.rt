// Why a line cannot be read.
use crate::limit::Operator;

// What was expected where the reading of a line stopped. A number is one that fits the operator before it.
#[derive(Clone, Copy, Debug, PartialEq, Eq)]
pub enum Expected {
    Name,
    MinusOrOperator,
    Operator,
    Number(Operator),
    EndOfLine,
}

// Where the reading of a line stopped.
pub type Stop = text::Stop<Expected>;

// A fault of a list.
pub type Fault = text::Fault<Expected>;

// Why a text gives no list: a line cannot be read, or there is not enough memory.
pub type Trouble = text::Trouble<Fault>;
