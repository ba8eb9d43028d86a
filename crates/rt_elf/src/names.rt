//! The names of a symbol table, and which of them are kept.

ghost use Rattle.std.specs.Prelude.{◌≡◌, ◌+◌, ◌^◌, ◌<◌, ◌≤◌, [], length, take, true, Some, None, Option, IfOk, OnOk, IfSome, false};
ghost use Rattle.std.specs.List.{fold, position_or_len};
ghost use Rattle.rt_image.specs.ObjectFile.{label, labels, are_labels};
ghost use Rattle.rt_elf.specs.flat.FlatNames.{may_stand};
ghost use Rattle.rt_elf.specs.flat.Working.Listed.{entry_labels};
ghost use Rattle.rt_elf.specs.SymbolTable.{names_of, entries, entry_count};
ghost use Rattle.rt_elf.specs.Telling.{is_end, string_at, told_by};
ghost use Rattle.rt_elf.specs.KeptNames.{keep, kept_of};
ghost use Rattle.rt_elf.specs.LoadedImage.{image_size};
ghost use Rattle.rt_elf.specs.Refusals.{lacks_name};
ghost use Rattle.rt_elf.specs.Working.Checks.{HasSections, HasSymbols};
ghost use Rattle.rt_elf.specs.Working.Keeping.{kept, taken};

use crate::flat::is_shown;
use crate::sections::{SectionHeader, section_header};
use crate::symbols::{Entry, entry_at, entry_count};
use memchr::memchr;
use rt_image::Symbol;
use rt_token::is_word;
use rt_words::{MAX_IMAGE, MAX_LINE, RAM_BASE};
use std::alloc::{AllocError, Global};
use std::collections::BTreeMap;

/// How many bytes of a name are looked at: one more than a name may have.
const LOOKED_AT: usize = 513;

/// Where the first 0 stands, or the length where there is none.
fn end_place(bytes: &[u8]) -> usize
    ensures value { result ≡ position_or_len is_end bytes.now }
    ensures within { result ≤ length bytes.now }
{
    memchr(0, bytes).unwrap_or(bytes.len())
}

/// The name at a place, or its first 513 bytes where it is longer.
pub fn name_at(names: &[u8], at: usize) -> &[u8]
    requires { at ≤ length names.now }
    ensures { result.now ≡ take 513 (string_at names.now at) }
{
    let rest = &names[at..];
    let front = &rest[..rest.len().min(LOOKED_AT)];
    &front[..end_place(front)]
}

/// Whether an object of so many bytes may have the symbol.
fn may_stand(size: u32, symbol: &Symbol) -> bool
    requires { size ≤ MAX_IMAGE }
    ensures { result ≡ may_stand size (label symbol.now) }
{
    let len = symbol.name.len();
    let address = symbol.address;
    1 <= len
        && len <= MAX_LINE as usize
        && is_word(symbol.name)
        && RAM_BASE <= address
        && address <= RAM_BASE + size
}

/// The symbols so far.
#[derive(Drop)]
pub struct Kept<'a> {
    /// The addresses of the symbols that are kept, by their names.
    pub symbols: BTreeMap<&'a [u8], u32>,
    /// How many names were left out.
    pub left_out: u64,
}

impl<'a> Kept<'a> {
    /// Takes one more symbol of an image of so many bytes.
    fn keep(&mut self, size: u32, symbol: Symbol<'a>) -> Result<(), AllocError>
        requires size { size ≤ MAX_IMAGE }
        requires fit { are_labels size [] (entry_labels self.old.symbols.entries) ≡ true }
        requires few { self.old.left_out + 1 < 2 ^ 64 }
        ensures kept { OnOk result (kept self.new ≡ keep size (kept self.old) (label symbol.entry)) }
        ensures fit { are_labels size [] (entry_labels self.new.symbols.entries) ≡ true }
        ensures few { self.new.left_out ≤ self.old.left_out + 1 }
    {
        if may_stand(size, &symbol) && !self.symbols.contains_key(symbol.name) {
            self.symbols.insert(symbol.name, symbol.address)?;
        } else {
            self.left_out += 1;
        }
        Ok(())
    }

    /// Takes the symbol of an entry, if it is local or not as said and tells one.
    fn take_entry(
        &mut self,
        size: u32,
        names: &'a [u8],
        entry: &Entry,
        local: bool,
    ) -> Result<(), AllocError>
        requires size { size ≤ MAX_IMAGE }
        requires fit { are_labels size [] (entry_labels self.old.symbols.entries) ≡ true }
        requires few { self.old.left_out + 1 < 2 ^ 64 }
        requires named { lacks_name (length names.now) entry.now ≡ false }
        ensures kept { OnOk result (kept self.new ≡ taken size names.now local (kept self.old) entry.now) }
        ensures fit { are_labels size [] (entry_labels self.new.symbols.entries) ≡ true }
        ensures few { self.new.left_out ≤ self.old.left_out + 1 }
    {
        if entry.is_local() != local || !entry.may_tell() {
            return Ok(());
        }
        let name = name_at(names, entry.name as usize);
        if !is_shown(name) {
            return Ok(());
        }
        let address = entry.value;
        self.keep(size, Symbol { name, address })
    }

    /// Takes the symbols of all entries that are local, or of the others.
    fn take_entries(
        &mut self,
        size: u32,
        file: &'a [u8],
        table: &SectionHeader,
        local: bool,
    ) -> Result<(), AllocError>
        requires size { size ≤ MAX_IMAGE }
        requires sections { HasSections file.now }
        requires table { HasSymbols file.now table.now }
        requires fit { are_labels size [] (entry_labels self.old.symbols.entries) ≡ true }
        requires few { self.old.left_out + entry_count table.now < 2 ^ 64 }
        ensures kept { OnOk result (kept self.new ≡ fold (keep size) (kept self.old) (told_by local (names_of file.now table.now) (entries file.now table.now))) }
        ensures fit { are_labels size [] (entry_labels self.new.symbols.entries) ≡ true }
        ensures few { self.new.left_out ≤ self.old.left_out + entry_count table.now }
    {
        let names = section_header(file, table.link as usize).contents(file);
        for number in 0..entry_count(table) {
            self.take_entry(size, names, &entry_at(file, table, number), local)?;
        }
        Ok(())
    }

    /// The symbols that are kept, in the order of their names' bytes.
    pub fn in_order(&self, alloc: Global) -> Result<Vec<Symbol<'a>>, AllocError>
        ensures { IfOk result (λ symbols. labels symbols.items ≡ entry_labels self.now.symbols.entries) }
    {
        let mut symbols = Vec::with_capacity(alloc, self.symbols.len())?;
        for (name, address) in &self.symbols {
            symbols.push(Symbol {
                name: *name,
                address: *address,
            })?;
        }
        Ok(symbols)
    }
}

/// The symbols of an image of so many bytes: those that aren't local come first.
pub fn kept_names<'a>(
    alloc: Global,
    size: u32,
    file: &'a [u8],
    table: Option<SectionHeader>,
) -> Result<Kept<'a>, AllocError>
    requires size { size ≤ MAX_IMAGE }
    requires sized { size ≡ image_size file.now }
    requires sections { IfSome table (λ t. HasSections file.now × HasSymbols file.now t) }
    ensures kept { IfOk result (λ names. kept names ≡ kept_of file.now table) }
    ensures fit { IfOk result (λ names. are_labels size [] (entry_labels names.symbols.entries) ≡ true) }
    ensures few { IfOk result (λ names. names.left_out < 2 ^ 32) }
{
    let mut kept = Kept {
        symbols: BTreeMap::new(alloc),
        left_out: 0,
    };
    if let Some(table) = table {
        kept.take_entries(size, file, &table, false)?;
        kept.take_entries(size, file, &table, true)?;
    }
    Ok(kept)
}
