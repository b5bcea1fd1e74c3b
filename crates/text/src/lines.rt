// The lines of a text.
ghost use Rattle.std.specs.Prelude.{◌≡◌, ◌≤◌, length};
ghost use Rattle.std.specs.Iterator.{YieldsFirstRef, item_count};
ghost use Rattle.text.specs.Lines.{lines, left_in};

use crate::bytes::{Class, after, cut};

// The lines that are left of a text, each without the line feed that ends it. What follows the last line feed is a line only if it
// is not empty.
#[derive(Clone, Copy, Debug)]
pub struct Lines<'a> {
    rest: &'a [u8],
}

impl<'a> Lines<'a> {
    // All lines of a text.
    #[tactic(auto, using(crate::proofs::Cuts::few_lines))]
    pub fn new(text: &'a [u8]) -> Lines<'a>
        ensures all { left_in result ≡ lines text.now }
        ensures few { length (left_in result) ≤ length text.now }
    {
        Lines { rest: text }
    }
}

impl<'a> Iterator for Lines<'a> {
    type Item = &'a [u8];

    ghost next_gives = { YieldsFirstRef left_in };

    ghost remaining = { item_count left_in };

    #[tactic(auto, using(crate::proofs::Cuts::lines_cut))]
    fn next(&mut self) -> Option<&'a [u8]> {
        if self.rest.is_empty() {
            return None;
        }
        let (line, more) = cut(Class::Inline, self.rest);
        self.rest = after(more, 1);
        Some(line)
    }
}
