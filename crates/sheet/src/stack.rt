// Stacks: what a sheet adds at one end, and gives up there.
ghost use Rattle.std.specs.Prelude.{◌≡◌, ℕ, ◌+◌, ◌-◌, ◌<◌, ◌≤◌, ◌==◌, [], ◌∷◌, ◌++◌, length, take};
ghost use Rattle.sheet.specs.Stacks.{height};

use std::marker::Model;

// A stack of at most `CAP` elements, which lie in the value itself. Cutting it down sets its length and no more, so that this costs
// the same however many go: what lay there stays until it is written over, and nothing reads it.
#[derive(Drop)]
pub(crate) struct Stack<T, const CAP: usize> {
    cells: [T; CAP],
    len: usize,
}

impl<T, const CAP: usize> Model for Stack<T, CAP> {
    ghost use Rattle.std.specs.Prelude.{◌≡◌, ◌≤◌, length, take};
    ghost use Rattle.sheet.specs.Stacks.{Stack as Items};

    ghost Value = { Items T };

    ghost view = { λ s. record { items = take s.len s.cells } };

    ghost invariant = { λ s. (s.len ≤ CAP) × (length s.cells ≡ CAP) };
}

impl<T: Copy + Default, const CAP: usize> Stack<T, CAP> {
    // An empty stack.
    pub(crate) fn new() -> Self
        ensures { result.items ≡ [] }
    {
        Stack {
            cells: [T::default(); CAP],
            len: 0,
        }
    }
}

impl<T, const CAP: usize> Stack<T, CAP> {
    pub(crate) fn len(&self) -> usize
        ensures value { result ≡ height self.now }
        ensures fits { result ≤ CAP }
    {
        self.len
    }

    pub(crate) fn is_full(&self) -> bool
        ensures value { result ≡ (height self.now == CAP) }
        ensures fits { height self.now ≤ CAP }
    {
        self.len == CAP
    }

    // The elements, lowest first.
    pub(crate) fn as_slice(&self) -> &[T]
        ensures value { result.now ≡ self.now.items }
        ensures fits { length result.now ≤ CAP }
    {
        &self.cells[..self.len]
    }

    // Keeps the lowest `len` elements.
    pub(crate) fn truncate(&mut self, len: usize)
        ensures items { self.new.items ≡ take len self.old.items }
        ensures len { height self.new + (height self.old - len) ≡ height self.old }
    {
        if len < self.len {
            self.len = len;
        }
    }
}

impl<T: Copy, const CAP: usize> Stack<T, CAP> {
    // Puts an element on top. There must be room.
    pub(crate) fn push(&mut self, element: T)
        requires { height self.old < CAP }
        ensures items { self.new.items ≡ self.old.items ++ element ∷ [] }
        ensures len { height self.new ≡ height self.old + 1 }
    {
        self.cells[self.len] = element;
        self.len += 1;
    }
}
