//! Section headers, the symbol table, and what they are refused for.

ghost use Rattle.std.specs.Prelude.{◌≡◌, ◌+◌, ◌*◌, ◌<◌, ◌≤◌, length, OnOk, IsTrue};
ghost use Rattle.rt_elf.specs.Fields.{e_shnum};
ghost use Rattle.rt_elf.specs.SymbolTable.{has_sections, section_header, symbol_table, contents, string_table};
ghost use Rattle.rt_elf.specs.Refusals.{is_cut, is_unended};
ghost use Rattle.rt_elf.specs.Working.Checks.{HasSections};

use crate::elf_header::has_sections;
use crate::fields::{u16_at, u32_at};

/// A section header, as far as it is looked at.
#[derive(Clone, Copy)]
pub struct SectionHeader {
    /// `sh_type`.
    pub kind: u32,
    /// `sh_offset`: where its bytes begin in the file.
    pub offset: u32,
    /// `sh_size`: how many it has.
    pub size: u32,
    /// `sh_link`: of a symbol table, the number of the header of its names.
    pub link: u32,
    /// `sh_entsize`: the bytes of an entry.
    pub entsize: u32,
}

impl SectionHeader {
    /// Whether the section ends behind the file.
    pub fn is_cut(&self, file: &[u8]) -> bool
        ensures { result ≡ is_cut file.now self.now }
    {
        (file.len() as u64) < u64::from(self.offset) + u64::from(self.size)
    }

    /// Its bytes.
    pub fn contents<'a>(&self, file: &'a [u8]) -> &'a [u8]
        requires { self.now.offset + self.now.size ≤ length file.now }
        ensures { result.now ≡ contents file.now self.now }
    {
        &file[self.offset as usize..self.offset as usize + self.size as usize]
    }
}

/// How many section headers there are.
pub fn section_count(file: &[u8]) -> usize
    requires { 52 ≤ length file.now }
    ensures { result ≡ e_shnum file.now }
{
    u16_at(file, 48) as usize
}

/// Section header `number`, counted from 0.
#[tactic(auto, unfolding(crate::specs::SymbolTable::section_header))]
pub fn section_header(file: &[u8], number: usize) -> SectionHeader
    requires table { HasSections file.now }
    requires there { number < e_shnum file.now }
    ensures { result ≡ section_header file.now number }
{
    let at = u32_at(file, 32) as usize + 40 * number;
    SectionHeader {
        kind: u32_at(file, at + 4),
        offset: u32_at(file, at + 16),
        size: u32_at(file, at + 20),
        link: u32_at(file, at + 24),
        entsize: u32_at(file, at + 36),
    }
}

/// The first symbol table, if there is one.
pub fn symbol_table(file: &[u8]) -> Option<SectionHeader>
    requires header { 52 ≤ length file.now }
    requires table { IsTrue (has_sections file.now) → HasSections file.now }
    ensures { result ≡ symbol_table file.now }
{
    if !has_sections(file) {
        return None;
    }
    for number in 0..section_count(file) {
        let header = section_header(file, number);
        if header.kind == 2 {
            return Some(header);
        }
    }
    None
}

/// Whether names are empty, or don't end in 0.
pub fn is_unended(names: &[u8]) -> bool
    ensures { result ≡ is_unended names.now }
{
    names.is_empty() || names[names.len() - 1] != 0
}
