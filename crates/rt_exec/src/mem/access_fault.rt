//! Why a load or a store is refused.

ghost use Rattle.std.specs.Prelude.{◌≡◌};

use thiserror::Error;

/// Why a load or a store was refused. A misaligned address is found before one outside RAM, and not at
/// all where an access may have any address. A refused access changes nothing.
#[derive(Clone, Copy, Debug, PartialEq, Eq, Error)]
pub enum AccessFault {
    /// A load of 2 or 4 bytes at an address that is no multiple of its size.
    #[error("LoadMisaligned")]
    LoadMisaligned = 4,
    /// A load whose bytes aren't all in RAM.
    #[error("LoadAccess")]
    LoadAccess = 5,
    /// A store of 2 or 4 bytes at an address that is no multiple of its size.
    #[error("StoreMisaligned")]
    StoreMisaligned = 6,
    /// A store whose bytes aren't all in RAM.
    #[error("StoreAccess")]
    StoreAccess = 7,
}

impl AccessFault {
    ghost use Rattle.rt_exec.specs.mem.Numbering.{access_number};

    /// The fault's number among those of an attempt, 4 to 7.
    pub fn number(self) -> u8
        ensures { result ≡ access_number self }
    {
        self as u8
    }
}
