//! The entries of a symbol table, and what a symbol table is refused for.

ghost use Rattle.std.specs.Prelude.{◌≡◌, ◌+◌, ◌<◌, ◌≤◌, length};
ghost use Rattle.std.specs.List.{list_any};
ghost use Rattle.rt_elf.specs.SymbolTable.{entry, entries, entry_count};
ghost use Rattle.rt_elf.specs.Telling.{may_tell, is_local};
ghost use Rattle.rt_elf.specs.Refusals.{first, has_shape, lacks_name, symbol_rows};
ghost use Rattle.rt_elf.specs.Working.Checks.{Checks, HasSections};

use crate::fault::{ElfFault, refuse_if};
use crate::fields::{byte_at, u16_at, u32_at};
use crate::sections::{SectionHeader, is_unended, section_count, section_header};

/// The most entries of a symbol table.
const MAX_ENTRIES: usize = 1_048_576;

/// An entry, as far as it is looked at.
#[derive(Clone, Copy)]
pub struct Entry {
    /// `st_name`: where its name begins among the names.
    pub name: u32,
    /// `st_value`: its address.
    pub value: u32,
    /// The low half of `st_info`.
    pub kind: u8,
    /// The high half of `st_info`.
    pub binding: u8,
    /// `st_shndx`: the number of its section.
    pub section: u16,
}

impl Entry {
    /// Whether it may tell a symbol, by its type and its section.
    pub fn may_tell(&self) -> bool
        ensures { result ≡ may_tell self.now }
    {
        self.kind <= 2
            && ((1 <= self.section && self.section <= 0xFEFF)
                || self.section == 0xFFF1
                || self.section == 0xFFFF)
    }

    /// Whether other files can't name its symbol.
    pub fn is_local(&self) -> bool
        ensures { result ≡ is_local self.now }
    {
        self.binding == 0
    }

    /// Whether it may tell a symbol, but its name isn't among so many bytes.
    fn lacks_name(&self, len: usize) -> bool
        ensures { result ≡ lacks_name len self.now }
    {
        self.may_tell() && len <= self.name as usize
    }
}

/// How many entries a symbol table has.
pub fn entry_count(table: &SectionHeader) -> usize
    ensures { result ≡ entry_count table.now }
{
    table.size as usize / 16
}

/// Entry `number`, counted from 0.
#[tactic(auto, unfolding(crate::specs::SymbolTable::entry))]
pub fn entry_at(file: &[u8], table: &SectionHeader, number: usize) -> Entry
    requires whole { table.now.offset + table.now.size ≤ length file.now }
    requires there { number < entry_count table.now }
    ensures { result ≡ entry file.now table.now number }
{
    let at = table.offset as usize + 16 * number;
    let info = byte_at(file, at + 12);
    Entry {
        name: u32_at(file, at),
        value: u32_at(file, at + 4),
        kind: info % 16,
        binding: info / 16,
        section: u16_at(file, at + 14),
    }
}

/// Whether an entry that may tell a symbol has its name behind so many bytes.
fn any_unnamed(file: &[u8], table: &SectionHeader, len: usize) -> bool
    requires { table.now.offset + table.now.size ≤ length file.now }
    ensures { result ≡ list_any (lacks_name len) (entries file.now table.now) }
{
    for number in 0..entry_count(table) {
        if entry_at(file, table, number).lacks_name(len) {
            return true;
        }
    }
    false
}

/// Whether the sizes and the link are those of a symbol table.
fn has_shape(file: &[u8], table: &SectionHeader) -> bool
    requires { HasSections file.now }
    ensures { result ≡ has_shape file.now table.now }
{
    table.entsize == 16
        && table.size.is_multiple_of(16)
        && (table.link as usize) < section_count(file)
        && section_header(file, table.link as usize).kind == 3
}

/// Tests a symbol table, its names and its entries.
pub fn check_symbols(file: &[u8], table: &SectionHeader) -> Result<(), ElfFault>
    requires { HasSections file.now }
    ensures { Checks result (first (symbol_rows file.now table.now)) }
{
    refuse_if(!has_shape(file, table), ElfFault::BadSymbols)?;
    let strings = section_header(file, table.link as usize);
    refuse_if(
        table.is_cut(file) || strings.is_cut(file),
        ElfFault::Truncated,
    )?;
    let names = strings.contents(file);
    refuse_if(is_unended(names), ElfFault::BadSymbols)?;
    refuse_if(entry_count(table) > MAX_ENTRIES, ElfFault::TooManySymbols)?;
    refuse_if(any_unnamed(file, table, names.len()), ElfFault::BadSymbols)
}
