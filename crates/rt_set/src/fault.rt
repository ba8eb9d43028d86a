//! Why a set file isn't read.

ghost use Rattle.std.specs.Prelude.{◌≡◌};

use std::alloc::{AllocError, AllocFailed};
use std::fmt;

/// Why a set file isn't read.
#[derive(Clone, Copy, Debug, PartialEq, Eq)]
pub enum SetFault {
    /// There was no memory for the lines.
    Memory,
    /// The first faulty line, counted from 1. Where the file ends without a `hyper` line, it is the
    /// one after the last.
    Line(u64),
}

impl fmt::Display for SetFault {
    ghost use Rattle.std.specs.Prelude.{Some};
    ghost use Rattle.rt_set.specs.FaultText.{set_text};

    ghost output = { λ fault. Some (set_text fault) };

    fn fmt<W: fmt::Write>(&self, f: &mut fmt::Formatter<W>) -> fmt::Result {
        match self {
            SetFault::Memory => f.write_str("memory"),
            SetFault::Line(line) => write!(f, "set file line {line}"),
        }
    }
}

impl std::error::Error for SetFault {}

impl From<AllocError> for SetFault {
    ghost use Rattle.rt_set.specs.declared.fault.SetFault.TheVariants.{Memory};

    ghost from_gives = { λ _ fault. fault ≡ Memory };

    fn from(_fault: AllocError) -> SetFault {
        SetFault::Memory
    }
}

impl<T: Drop> From<AllocFailed<T>> for SetFault {
    ghost use Rattle.rt_set.specs.declared.fault.SetFault.TheVariants.{Memory};

    ghost from_gives = { λ _ fault. fault ≡ Memory };

    fn from(_fault: AllocFailed<T>) -> SetFault {
        SetFault::Memory
    }
}
