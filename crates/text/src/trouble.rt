// Why a text is not read.
ghost use Rattle.std.specs.Prelude.{◌≡◌};
ghost use Rattle.text.specs.declared.trouble.Trouble.TheVariants.{Memory, Misread};

use crate::fault::{Fault, Stop};
use std::alloc::AllocError;
use std::error::Error;
use std::fmt;

// It cannot be read on, or there is not enough memory.
#[derive(Clone, Copy, Debug, PartialEq, Eq)]
pub enum Trouble<F> {
    Memory,
    Misread(F),
}

impl<F> From<AllocError> for Trouble<F> {
    ghost from_gives = { λ _ r. r ≡ Memory };

    fn from(_e: AllocError) -> Trouble<F> {
        Trouble::Memory
    }
}

impl<E> From<Stop<E>> for Trouble<Stop<E>> {
    ghost from_gives = { λ s r. r ≡ Misread s };

    fn from(stop: Stop<E>) -> Trouble<Stop<E>> {
        Trouble::Misread(stop)
    }
}

impl<E> From<Fault<E>> for Trouble<Fault<E>> {
    ghost from_gives = { λ f r. r ≡ Misread f };

    fn from(fault: Fault<E>) -> Trouble<Fault<E>> {
        Trouble::Misread(fault)
    }
}

impl<F: fmt::Display> fmt::Display for Trouble<F> {
    ghost use Rattle.text.specs.Words.{trouble_text};

    ghost output = { λ t. trouble_text F.output t };

    fn fmt<W: fmt::Write>(&self, f: &mut fmt::Formatter<W>) -> fmt::Result {
        match self {
            Trouble::Memory => write!(f, "not enough memory"),
            Trouble::Misread(misread) => write!(f, "{misread}"),
        }
    }
}

impl<F: fmt::Debug + fmt::Display + Drop> Error for Trouble<F> {}
