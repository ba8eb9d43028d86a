//! Why an object's entry can't have a name.

use crate::naming::entry_name::EntryName;
use rt_image::{ImageFault, ReadFault, Symbol};
use std::alloc::AllocFailed;
use std::fmt;

/// Why an object's entry can't have a name.
#[derive(Clone, Copy, PartialEq, Eq)]
pub enum NameFault {
    /// The bytes are no object file.
    Object(ImageFault),
    /// A symbol of that name stands at this address, which isn't the entry.
    Elsewhere(u32),
    /// The entry lies neither in the image nor at its end.
    BadEntry,
    /// The object has 65,536 symbols without it.
    TooMany,
    /// There is no memory.
    Memory,
}

impl From<ReadFault> for NameFault {
    ghost use Rattle.std.specs.Prelude.{◌≡◌};
    ghost use Rattle.rt_elf.specs.naming.NamedEntry.{read_fault};

    ghost from_gives = { λ fault e. e ≡ read_fault fault };

    fn from(fault: ReadFault) -> Self {
        match fault {
            ReadFault::Fault(fault) => NameFault::Object(fault),
            ReadFault::Memory => NameFault::Memory,
        }
    }
}

impl From<AllocFailed<Symbol<'_>>> for NameFault {
    ghost use Rattle.std.specs.Prelude.{◌≡◌};
    ghost use Rattle.rt_elf.specs.declared.naming.fault.NameFault.TheVariants.{Memory};

    ghost from_gives = { λ _ e. e ≡ Memory };

    fn from(_fault: AllocFailed<Symbol<'_>>) -> Self {
        NameFault::Memory
    }
}

/// An address, as eight hexadecimal digits.
#[derive(Clone, Copy)]
struct Address(u32);

#[tactic(auto, using(crate::proofs::naming::Hex::eight_digits))]
impl fmt::Display for Address {
    ghost use Rattle.std.specs.Prelude.{Some};
    ghost use Rattle.rt_words.specs.Hex.{hex};

    ghost output = { λ a. Some (hex 8 a.0) };

    fn fmt<W: fmt::Write>(&self, f: &mut fmt::Formatter<W>) -> fmt::Result {
        let address = self.0;
        write!(f, "{address:08x}")
    }
}

/// Why an object's entry can't have this name.
#[derive(Clone, Copy, PartialEq, Eq)]
pub struct NamingFault<'a> {
    pub name: EntryName<'a>,
    pub fault: NameFault,
}

impl fmt::Display for NamingFault<'_> {
    ghost use Rattle.std.specs.Prelude.{Some};
    ghost use Rattle.rt_elf.specs.naming.FaultText.{name_text};

    ghost output = { λ f. Some (name_text f.name.word.now f.fault) };

    fn fmt<W: fmt::Write>(&self, f: &mut fmt::Formatter<W>) -> fmt::Result {
        let word = self.name.word();
        match self.fault {
            NameFault::Object(fault) => write!(f, "{fault}"),
            NameFault::Elsewhere(address) => {
                write!(f, "name {word} stands at {}", Address(address))
            }
            NameFault::BadEntry => write!(f, "name {word}: BadEntry"),
            NameFault::TooMany => write!(f, "name {word}: TooMany"),
            NameFault::Memory => f.write_str("memory"),
        }
    }
}
