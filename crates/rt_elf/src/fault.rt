//! Why there is no object.

ghost use Rattle.std.specs.Prelude.{◌≡◌, Some, None, if◌then◌else◌};
ghost use Rattle.rt_elf.specs.declared.fault.ElfFault.TheVariants.{Memory};
ghost use Rattle.rt_elf.specs.Working.Checks.{Checks};

use std::alloc::{AllocError, AllocFailed};
use std::fmt;

/// Why no object was made of an ELF file.
#[derive(Clone, Copy, Debug, PartialEq, Eq)]
pub enum ElfFault {
    /// The file has over 67,108,864 bytes.
    TooLarge,
    /// The file doesn't begin with 0x7F, `E`, `L`, `F`.
    BadMagic,
    /// The file ends before its header, or before something that it says it has.
    Truncated,
    /// The file isn't of the class of 32 bits.
    Not32Bit,
    /// The highest byte of a number comes first.
    NotLittleEndian,
    /// The file is for another machine.
    NotRiscV,
    /// The file is an object of a compiler, and isn't linked.
    Relocatable,
    /// The file is a library, or is independent of its position.
    Shared,
    /// The file is no program.
    NotExecutable,
    /// The program has compressed instructions.
    Compressed,
    /// The program passes floats in registers that aren't there.
    FloatAbi,
    /// The program has other flags, as those of RV32E.
    OtherAbi,
    /// There are over 256 program headers, or headers of another size.
    BadHeader,
    /// The program wants a dynamic loader.
    Dynamic,
    /// A segment has more bytes in the file than in memory.
    BadSegment,
    /// A segment is loaded, or runs, outside of 0x80000000 to 0x80100000.
    OutsideRam,
    /// No segment has a byte.
    Empty,
    /// Two segments are loaded to one address.
    Overlap,
    /// The symbol table or its names are faulty.
    BadSymbols,
    /// The symbol table has over 1,048,576 entries, or over 65,536 symbols would be kept.
    TooManySymbols,
    /// There was no memory.
    Memory,
}

impl fmt::Display for ElfFault {
    ghost use Rattle.std.specs.Prelude.{Some};
    ghost use Rattle.rt_elf.specs.FaultText.{elf_text};

    ghost output = { λ fault. Some (elf_text fault) };

    fn fmt<W: fmt::Write>(&self, f: &mut fmt::Formatter<W>) -> fmt::Result {
        match self {
            ElfFault::TooLarge => f.write_str("elf: TooLarge"),
            ElfFault::BadMagic => f.write_str("elf: BadMagic"),
            ElfFault::Truncated => f.write_str("elf: Truncated"),
            ElfFault::Not32Bit => f.write_str("elf: Not32Bit"),
            ElfFault::NotLittleEndian => f.write_str("elf: NotLittleEndian"),
            ElfFault::NotRiscV => f.write_str("elf: NotRiscV"),
            ElfFault::Relocatable => f.write_str("elf: Relocatable"),
            ElfFault::Shared => f.write_str("elf: Shared"),
            ElfFault::NotExecutable => f.write_str("elf: NotExecutable"),
            ElfFault::Compressed => f.write_str("elf: Compressed"),
            ElfFault::FloatAbi => f.write_str("elf: FloatAbi"),
            ElfFault::OtherAbi => f.write_str("elf: OtherAbi"),
            ElfFault::BadHeader => f.write_str("elf: BadHeader"),
            ElfFault::Dynamic => f.write_str("elf: Dynamic"),
            ElfFault::BadSegment => f.write_str("elf: BadSegment"),
            ElfFault::OutsideRam => f.write_str("elf: OutsideRam"),
            ElfFault::Empty => f.write_str("elf: Empty"),
            ElfFault::Overlap => f.write_str("elf: Overlap"),
            ElfFault::BadSymbols => f.write_str("elf: BadSymbols"),
            ElfFault::TooManySymbols => f.write_str("elf: TooManySymbols"),
            ElfFault::Memory => f.write_str("memory"),
        }
    }
}

impl std::error::Error for ElfFault {}

/// The fault, where the test holds.
pub fn refuse_if(test: bool, fault: ElfFault) -> Result<(), ElfFault>
    ensures { Checks result (if test then Some fault else None) }
{
    if test { Err(fault) } else { Ok(()) }
}

impl From<AllocError> for ElfFault {
    ghost from_gives = { λ _ e. e ≡ Memory };

    fn from(_fault: AllocError) -> ElfFault {
        ElfFault::Memory
    }
}

impl<T: Drop> From<AllocFailed<T>> for ElfFault {
    ghost from_gives = { λ _ e. e ≡ Memory };

    fn from(_fault: AllocFailed<T>) -> ElfFault {
        ElfFault::Memory
    }
}
