//! A fault of a call's own, or want of memory.

ghost use Rattle.std.specs.Prelude.{◌≡◌};
ghost use Rattle.rt_words.specs.declared.or_memory.OrMemory.TheVariants.{Memory};

use std::alloc::{AllocError, AllocFailed};
use std::error::Error;
use std::fmt::{self, Display};

/// Why a call that takes memory gave nothing.
#[derive(Clone, Copy, Debug, PartialEq, Eq)]
pub enum OrMemory<E> {
    /// There was no memory.
    Memory,
    /// A reason of its own.
    Fault(E),
}

impl<E: Display> Display for OrMemory<E> {
    ghost use Rattle.rt_words.specs.OrMemory.{or_memory};

    ghost output = { or_memory E.output };

    fn fmt<W: fmt::Write>(&self, f: &mut fmt::Formatter<W>) -> fmt::Result {
        match self {
            OrMemory::Memory => f.write_str("memory"),
            OrMemory::Fault(fault) => write!(f, "{fault}"),
        }
    }
}

impl<E: Error> Error for OrMemory<E> {}

impl<E> From<AllocError> for OrMemory<E> {
    ghost from_gives = { λ _ fault. fault ≡ Memory };

    fn from(_fault: AllocError) -> OrMemory<E> {
        OrMemory::Memory
    }
}

impl<E, T: Drop> From<AllocFailed<T>> for OrMemory<E> {
    ghost from_gives = { λ _ fault. fault ≡ Memory };

    fn from(_fault: AllocFailed<T>) -> OrMemory<E> {
        OrMemory::Memory
    }
}
