//! Why there is no object.

ghost use Rattle.std.specs.Prelude.{◌≡◌};
ghost use Rattle.rt_elf.specs.declared.flat.fault.FlatFault.TheVariants.{Memory};

use std::alloc::{AllocError, AllocFailed};
use std::fmt;

/// Why no object was made of an image.
#[derive(Clone, Copy, Debug, PartialEq, Eq)]
pub enum FlatFault {
    /// The image is an ELF file.
    IsElf,
    /// The image has over 1,048,576 bytes.
    TooLarge,
    /// The first faulty line of the names, counted from 1.
    Names(u64),
    /// The names are there, and none of them lies in the image.
    Misplaced,
    /// The entry is no multiple of 4, or its word isn't in the image, or no symbol has its name.
    BadEntry,
    /// There was no memory.
    Memory,
}

impl fmt::Display for FlatFault {
    ghost use Rattle.std.specs.Prelude.{Some};
    ghost use Rattle.rt_elf.specs.flat.FaultText.{flat_text};

    ghost output = { λ fault. Some (flat_text fault) };

    fn fmt<W: fmt::Write>(&self, f: &mut fmt::Formatter<W>) -> fmt::Result {
        match self {
            FlatFault::IsElf => f.write_str("image: IsElf"),
            FlatFault::TooLarge => f.write_str("image: TooLarge"),
            FlatFault::Names(line) => write!(f, "symbols line {line}"),
            FlatFault::Misplaced => f.write_str("image: Misplaced"),
            FlatFault::BadEntry => f.write_str("image: BadEntry"),
            FlatFault::Memory => f.write_str("memory"),
        }
    }
}

impl std::error::Error for FlatFault {}

impl From<AllocError> for FlatFault {
    ghost from_gives = { λ _ e. e ≡ Memory };

    fn from(_fault: AllocError) -> FlatFault {
        FlatFault::Memory
    }
}

impl<T: Drop> From<AllocFailed<T>> for FlatFault {
    ghost from_gives = { λ _ e. e ≡ Memory };

    fn from(_fault: AllocFailed<T>) -> FlatFault {
        FlatFault::Memory
    }
}
