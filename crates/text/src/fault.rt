// Where a text cannot be read on.
ghost use Rattle.std.specs.Prelude.{◌≡◌, ◌+◌, ◌-◌, length};

use std::fmt;

// Where the reading of a line stopped: what was expected, and how many bytes of the line were left.
#[derive(Clone, Copy, Debug, PartialEq, Eq)]
pub struct Stop<E> {
    pub expected: E,
    pub left: usize,
}

// A fault of a text: its line and its column, both from 1, and what was expected there.
#[derive(Clone, Copy, Debug, PartialEq, Eq)]
pub struct Fault<E> {
    pub line: usize,
    pub column: usize,
    pub expected: E,
}

impl<E> Stop<E> {
    // The fault that this stop is in a line with this number.
    pub fn in_line(self, number: usize, line: &[u8]) -> Fault<E>
        ensures { result ≡ record { line = number; column = length line.now - self.left + 1; expected = self.expected } }
    {
        Fault {
            line: number,
            column: line.len().saturating_sub(self.left) + 1,
            expected: self.expected,
        }
    }
}

impl<E: fmt::Display> fmt::Display for Fault<E> {
    ghost use Rattle.std.specs.Prelude.{◌++◌, codes, option_map};
    ghost use Rattle.std.specs.Fmt.{decimal};

    ghost output = { λ f. option_map (λ e. codes "line " ++ (decimal f.line ++ (codes ", column " ++ (decimal f.column ++ (codes ": expected " ++ e))))) (E.output f.expected) };

    fn fmt<W: fmt::Write>(&self, f: &mut fmt::Formatter<W>) -> fmt::Result {
        let Fault {
            line,
            column,
            expected,
        } = self;
        write!(f, "line {line}, column {column}: expected {expected}")
    }
}
