//! What the header of a file is refused for.

ghost use Rattle.std.specs.Prelude.{◌≡◌, ◌≤◌, length, OnOk};
ghost use Rattle.rt_elf.specs.Refusals.{first, kind_rows, program_rows, table_rows, section_rows};
ghost use Rattle.rt_elf.specs.SymbolTable.{has_sections};
ghost use Rattle.rt_elf.specs.Working.Checks.{Checks};

use crate::fault::{ElfFault, refuse_if};
use crate::fields::{byte_at, u16_at, u32_at};

/// The most bytes of a file.
const MAX_FILE: usize = 67_108_864;

/// The most program headers.
const MAX_HEADERS: u16 = 256;

/// The bytes of the header.
const HEADER_LEN: usize = 52;

const MAGIC: [u8; 4] = [0x7F, b'E', b'L', b'F'];

/// Tests that it is an ELF file of 32 bits for RISC-V.
pub fn check_kind(file: &[u8]) -> Result<(), ElfFault>
    ensures checked { Checks result (first (kind_rows file.now)) }
    ensures long { OnOk result (52 ≤ length file.now) }
{
    let magic = &file[..file.len().min(4)];
    refuse_if(file.len() > MAX_FILE, ElfFault::TooLarge)?;
    refuse_if(!MAGIC.starts_with(magic), ElfFault::BadMagic)?;
    refuse_if(file.len() < HEADER_LEN, ElfFault::Truncated)?;
    refuse_if(byte_at(file, 4) != 1, ElfFault::Not32Bit)?;
    refuse_if(byte_at(file, 5) != 1, ElfFault::NotLittleEndian)?;
    refuse_if(u16_at(file, 18) != 243, ElfFault::NotRiscV)
}

/// Tests that it is a linked program without extensions.
pub fn check_program(file: &[u8]) -> Result<(), ElfFault>
    requires { 52 ≤ length file.now }
    ensures { Checks result (first (program_rows file.now)) }
{
    let kind = u16_at(file, 16);
    let flags = u32_at(file, 36);
    refuse_if(kind == 1, ElfFault::Relocatable)?;
    refuse_if(kind == 3, ElfFault::Shared)?;
    refuse_if(kind != 2, ElfFault::NotExecutable)?;
    refuse_if(flags % 2 == 1, ElfFault::Compressed)?;
    refuse_if(flags / 2 % 4 != 0, ElfFault::FloatAbi)?;
    refuse_if(flags != 0, ElfFault::OtherAbi)
}

/// Tests that the table of program headers can be read.
pub fn check_table(file: &[u8]) -> Result<(), ElfFault>
    requires { 52 ≤ length file.now }
    ensures { Checks result (first (table_rows file.now)) }
{
    let count = u16_at(file, 44);
    let size = u16_at(file, 42);
    let end = u64::from(u32_at(file, 28)) + 32 * u64::from(count);
    refuse_if(
        count > MAX_HEADERS || (count != 0 && size != 32),
        ElfFault::BadHeader,
    )?;
    refuse_if(count != 0 && (file.len() as u64) < end, ElfFault::Truncated)
}

/// Whether there are section headers.
pub fn has_sections(file: &[u8]) -> bool
    requires { 52 ≤ length file.now }
    ensures { result ≡ has_sections file.now }
{
    u32_at(file, 32) != 0 && u16_at(file, 48) != 0
}

/// Tests that the table of section headers can be read.
pub fn check_sections(file: &[u8]) -> Result<(), ElfFault>
    requires { 52 ≤ length file.now }
    ensures { Checks result (first (section_rows file.now)) }
{
    let there = has_sections(file);
    let end = u64::from(u32_at(file, 32)) + 40 * u64::from(u16_at(file, 48));
    refuse_if(there && u16_at(file, 46) != 40, ElfFault::BadHeader)?;
    refuse_if(there && (file.len() as u64) < end, ElfFault::Truncated)
}
