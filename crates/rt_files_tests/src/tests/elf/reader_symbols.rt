//! The symbols that the rules of ELF files keep, computed a second time.

use super::reader::{LOW, has_sections, number, size, test};
use rt_elf::ElfFault;
use std::alloc::{AllocError, Global};

/// A section header.
#[derive(Clone, Copy)]
struct Section {
    kind: u64,
    offset: u64,
    size: u64,
    link: u64,
    entsize: u64,
}

impl Section {
    fn end(&self) -> u64 {
        self.offset.saturating_add(self.size)
    }
}

/// Section header `k`.
fn section_at(file: &[u8], k: u64) -> Section {
    let at = number(file, 32, 4).saturating_add(k.saturating_mul(40));
    Section {
        kind: number(file, at.saturating_add(4), 4),
        offset: number(file, at.saturating_add(16), 4),
        size: number(file, at.saturating_add(20), 4),
        link: number(file, at.saturating_add(24), 4),
        entsize: number(file, at.saturating_add(36), 4),
    }
}

/// The symbol table.
fn table(file: &[u8]) -> Option<Section> {
    if !has_sections(file) {
        return None;
    }
    for k in 0..number(file, 48, 2) {
        let section = section_at(file, k);
        if section.kind == 2 {
            return Some(section);
        }
    }
    None
}

/// An entry of a symbol table.
#[derive(Clone, Copy)]
struct Entry {
    name: u64,
    value: u64,
    kind: u64,
    is_local: bool,
    section: u64,
}

impl Entry {
    /// Whether its type and its section are such as tell.
    fn may_tell(&self) -> bool {
        let in_section = matches!(self.section, 1..=0xFEFF | 0xFFF1 | 0xFFFF);
        matches!(self.kind, 0 | 1 | 2) && in_section
    }
}

/// Entry `k` of a table.
fn entry_at(file: &[u8], table: &Section, k: u64) -> Entry {
    let at = table.offset.saturating_add(k.saturating_mul(16));
    let info = number(file, at.saturating_add(12), 1);
    Entry {
        name: number(file, at, 4),
        value: number(file, at.saturating_add(4), 4),
        kind: info & 15,
        is_local: info < 16,
        section: number(file, at.saturating_add(14), 2),
    }
}

/// Whether an entry that may tell begins its name at or past the end of the names.
fn any_nameless(file: &[u8], table: &Section, names: &Section) -> bool {
    for k in 0..table.size / 16 {
        let entry = entry_at(file, table, k);
        if entry.may_tell() && entry.name >= names.size {
            return true;
        }
    }
    false
}

/// Whether the sizes and the link of a table are those of one.
fn is_well_made(file: &[u8], table: &Section) -> bool {
    table.entsize == 16
        && table.size % 16 == 0
        && table.link < number(file, 48, 2)
        && section_at(file, table.link).kind == 3
}

/// Rows 20 to 24.
pub fn test_symbols(file: &[u8]) -> Result<(), ElfFault> {
    let Some(table) = table(file) else {
        return Ok(());
    };
    let names = section_at(file, table.link);
    let last = number(file, names.end().saturating_sub(1), 1);
    test(&[
        (!is_well_made(file, &table), ElfFault::BadSymbols),
        (table.end() > size(file), ElfFault::Truncated),
        (names.end() > size(file), ElfFault::Truncated),
        (names.size == 0 || last != 0, ElfFault::BadSymbols),
        (table.size / 16 > 1_048_576, ElfFault::TooManySymbols),
    ])?;
    test(&[(any_nameless(file, &table, &names), ElfFault::BadSymbols)])
}

/// The name of an entry: the names' bytes up to the next 0.
fn name_of<'a>(file: &'a [u8], names: &Section, entry: &Entry) -> &'a [u8] {
    let begin = names.offset.saturating_add(entry.name);
    let rest = file.get(begin as usize..).unwrap_or(b"");
    let end = rest.iter().position(|byte| *byte == 0);
    rest.get(..end.unwrap_or(rest.len())).unwrap_or(b"")
}

/// Whether a name is there at all.
fn is_there(name: &[u8]) -> bool {
    !matches!(
        name,
        [] | [b'$', b'x', ..] | [b'$', b'd', ..] | [b'.', b'L', ..]
    )
}

fn is_letter(byte: u8) -> bool {
    matches!(byte, b'a'..=b'z' | b'A'..=b'Z' | b'_' | b'.' | b'$')
}

/// Whether a name is a word of at most 512 bytes.
fn is_word(name: &[u8]) -> bool {
    let Some(first) = name.first() else {
        return false;
    };
    name.len() <= 512
        && is_letter(*first)
        && name
            .iter()
            .all(|byte| is_letter(*byte) || matches!(byte, b'0'..=b'9'))
}

/// The symbols that are kept, and how many are left out.
#[derive(Drop)]
pub struct Kept<'a> {
    pub symbols: Vec<(&'a [u8], u64)>,
    pub left_out: u64,
}

impl<'a> Kept<'a> {
    /// Takes a symbol that is told.
    fn take(&mut self, name: &'a [u8], value: u64, len: u64) -> Result<(), AllocError> {
        let is_placed = LOW <= value && value <= LOW.saturating_add(len);
        let is_new = self.symbols.iter().all(|(kept, _)| *kept != name);
        if is_word(name) && is_placed && is_new {
            self.symbols.push((name, value))?;
        } else {
            self.left_out = self.left_out.saturating_add(1);
        }
        Ok(())
    }
}

/// The symbols that are kept of an image of so many bytes, in the order of their names.
pub fn kept_symbols(alloc: Global, file: &[u8], len: u64) -> Result<Kept<'_>, AllocError> {
    let mut kept = Kept {
        symbols: Vec::new(alloc),
        left_out: 0,
    };
    let Some(table) = table(file) else {
        return Ok(kept);
    };
    let names = section_at(file, table.link);
    for is_local in [false, true] {
        for k in 0..table.size / 16 {
            let entry = entry_at(file, &table, k);
            let name = name_of(file, &names, &entry);
            if entry.is_local == is_local && entry.may_tell() && is_there(name) {
                kept.take(name, entry.value, len)?;
            }
        }
    }
    kept.symbols.sort()?;
    Ok(kept)
}
