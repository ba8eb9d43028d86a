//! Why a file could not be read.

ghost use Rattle.std.specs.Prelude.{◌≡◌};
ghost use Rattle.rt_words.specs.declared.or_memory.OrMemory.TheVariants.{Fault};
ghost use Rattle.rt_image.specs.declared.fault.WriteFault.TheVariants.{NoMemory};

use rt_words::OrMemory;
use std::alloc::AllocError;
use std::fmt;
use thiserror::Error;

/// What is wrong with the bytes of a file: the first fault that is met from front to back.
#[derive(Clone, Copy, Debug, PartialEq, Eq)]
pub enum ImageFault {
    /// The file doesn't begin with the four bytes of its kind.
    BadMagic = 1,
    /// The file ends within a field.
    Truncated = 2,
    /// Bytes stand after the last field.
    Trailing = 3,
    /// A field has a value that it may not have.
    BadField = 4,
    /// A name isn't above the one before it.
    NotCanonical = 5,
}

impl fmt::Display for ImageFault {
    ghost use Rattle.std.specs.Prelude.{Some};
    ghost use Rattle.rt_image.specs.FaultText.{image_text};

    ghost output = { λ fault. Some (image_text fault) };

    fn fmt<W: fmt::Write>(&self, f: &mut fmt::Formatter<W>) -> fmt::Result {
        match self {
            ImageFault::BadMagic => f.write_str("image: BadMagic"),
            ImageFault::Truncated => f.write_str("image: Truncated"),
            ImageFault::Trailing => f.write_str("image: Trailing"),
            ImageFault::BadField => f.write_str("image: BadField"),
            ImageFault::NotCanonical => f.write_str("image: NotCanonical"),
        }
    }
}

impl std::error::Error for ImageFault {}

impl ImageFault {
    ghost use Rattle.rt_image.specs.ImageFaults.{fault_number};

    /// The number of the fault, 1 to 5.
    pub fn number(self) -> u8
        ensures { result ≡ fault_number self }
    {
        self as u8
    }
}

/// Why reading gave no value: there was no memory for it, or the bytes spell none.
pub type ReadFault = OrMemory<ImageFault>;

impl From<ImageFault> for ReadFault {
    ghost from_gives = { λ fault e. e ≡ Fault fault };

    fn from(fault: ImageFault) -> ReadFault {
        OrMemory::Fault(fault)
    }
}

/// Why a value was not written.
#[derive(Clone, Copy, Debug, PartialEq, Eq, Error)]
pub enum WriteFault {
    /// A field has a value that no file can hold.
    #[error("image: BadField")]
    BadField,
    /// There was no memory for the bytes.
    #[error("memory")]
    NoMemory,
}

impl From<AllocError> for WriteFault {
    ghost from_gives = { λ _ e. e ≡ NoMemory };

    fn from(_fault: AllocError) -> WriteFault {
        WriteFault::NoMemory
    }
}

impl From<WriteFault> for ReadFault {
    ghost use Rattle.rt_image.specs.ReadFaults.{fault_of_write};

    ghost from_gives = { λ fault e. e ≡ fault_of_write fault };

    fn from(fault: WriteFault) -> ReadFault {
        match fault {
            WriteFault::NoMemory => OrMemory::Memory,
            WriteFault::BadField => OrMemory::Fault(ImageFault::BadField),
        }
    }
}
