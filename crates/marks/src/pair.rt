// Two variables that must have different marks.
ghost use Rattle.std.specs.Prelude.{◌<◌};

// Both are listed, so each can be looked up in a table of all variables.
#[derive(Clone, Copy)]
pub struct Pair {
    pub left: usize,
    pub right: usize,
    ghost left_listed: { left < 512 },
    ghost right_listed: { right < 512 },
}

// What fills the unused places of a list of pairs.
impl Default for Pair {
    fn default() -> Self {
        Pair { left: 0, right: 0 }
    }
}

impl Pair {
    ghost use Rattle.marks.specs.Choices.{Other};

    // The other of the two, where v is one of them.
    pub fn other(self, v: usize) -> Option<usize>
        ensures { Other self v result }
    {
        if self.left == v {
            Some(self.right)
        } else if self.right == v {
            Some(self.left)
        } else {
            None
        }
    }
}
