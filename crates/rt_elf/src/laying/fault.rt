//! Why bytes don't come to stand in an image.

ghost use Rattle.std.specs.Prelude.{◌≡◌};
ghost use Rattle.rt_elf.specs.declared.laying.fault.NotLaid.TheVariants.{Memory};

use std::alloc::{AllocError, AllocFailed};
use std::fmt;

/// Why bytes don't come to stand in an image.
#[derive(Clone, Copy, PartialEq, Eq)]
pub enum NotLaid {
    /// The object has no symbol of this name.
    NoSymbol,
    /// There are so many bytes, and there is room for fewer.
    TooLarge { len: usize, room: u32 },
    /// There is no memory.
    Memory,
}

impl From<AllocError> for NotLaid {
    ghost from_gives = { λ _ e. e ≡ Memory };

    fn from(_fault: AllocError) -> NotLaid {
        NotLaid::Memory
    }
}

impl<T: Drop> From<AllocFailed<T>> for NotLaid {
    ghost from_gives = { λ _ e. e ≡ Memory };

    fn from(_fault: AllocFailed<T>) -> NotLaid {
        NotLaid::Memory
    }
}

/// Why the bytes for a symbol don't come to stand in the image of an object, which is made of an ELF file or of a flat image.
#[derive(Clone, Copy, PartialEq, Eq)]
pub struct DataFault<'a> {
    pub symbol: &'a str,
    pub of_elf: bool,
    pub fault: NotLaid,
}

impl fmt::Display for DataFault<'_> {
    ghost use Rattle.std.specs.Prelude.{Some};
    ghost use Rattle.rt_elf.specs.laying.FaultText.{data_text};

    ghost output = { λ f. Some (data_text f.of_elf f.fault) };

    fn fmt<W: fmt::Write>(&self, f: &mut fmt::Formatter<W>) -> fmt::Result {
        let program = if self.of_elf { "elf" } else { "image" };
        match self.fault {
            NotLaid::NoSymbol => write!(f, "{program}: NoSymbol"),
            NotLaid::TooLarge { .. } => write!(f, "{program}: DataTooLarge"),
            NotLaid::Memory => f.write_str("memory"),
        }
    }
}
