//! Reading a list of names line by line.

ghost use Rattle.std.specs.Prelude.{ℕ, ◌≡◌, ◌+◌, ◌^◌, ◌<◌, ◌≤◌, IfOk, Ok, Some, None, if◌then◌else◌};
ghost use Rattle.rt_image.specs.ObjectFile.{label, labels};
ghost use Rattle.rt_elf.specs.flat.FlatEntry.{address_in, entry_in};
ghost use Rattle.rt_elf.specs.flat.Misplaced.{is_misplaced};
ghost use Rattle.rt_elf.specs.flat.FlatNames.{after_symbol, after_line, names_of};
ghost use Rattle.rt_elf.specs.flat.Working.Listed.{named, entry_labels, AreListed, Reads};

use crate::flat::entry::Entry;
use crate::flat::fault::FlatFault;
use crate::flat::places::{is_misplaced, may_be_entry};
use crate::flat::symbols::{is_shown, may_stand, symbol_of};
use rt_image::Symbol;
use rt_token::cut_line;
use rt_words::{MAX_IMAGE, MAX_SYMBOLS};
use std::alloc::{AllocError, Global};
use std::collections::BTreeMap;

/// What the lines so far said.
#[derive(Drop)]
pub struct Names<'a> {
    /// The addresses of the symbols that are kept, by their names.
    pub symbols: BTreeMap<&'a [u8], u32>,
    /// How many names were left out.
    pub left_out: u64,
}

/// Takes one more symbol of an image of so many bytes. It says whether there was room for it.
#[tactic(auto, unfolding(crate::specs::flat::FlatNames::after_symbol))]
fn take_symbol<'a>(names: &mut Names<'a>, size: u32, symbol: Symbol<'a>) -> Result<bool, AllocError>
    requires size { size ≤ MAX_IMAGE }
    requires listed { AreListed size (entry_labels names.old.symbols.entries) }
    requires few { names.old.left_out + 1 < 2 ^ 64 }
    ensures taken { IfOk result (λ taken. after_symbol size (named names.old) (label symbol.entry) ≡ (if taken then Some (named names.new) else None)) }
    ensures listed { AreListed size (entry_labels names.new.symbols.entries) }
    ensures few { names.new.left_out ≤ names.old.left_out + 1 }
{
    if !may_stand(size, &symbol) || names.symbols.contains_key(symbol.name) {
        names.left_out += 1;
        return Ok(true);
    }
    if names.symbols.len() >= MAX_SYMBOLS as usize {
        return Ok(false);
    }
    names.symbols.insert(symbol.name, symbol.address)?;
    Ok(true)
}

impl<'a> Names<'a> {
    /// The address of the symbol that is kept of this name.
    fn address_in(&self, name: &[u8]) -> Option<u32>
        ensures { result ≡ address_in (entry_labels self.now.symbols.entries) name.now }
    {
        self.symbols.get(name).copied()
    }

    /// Whether the text that said them is a list for another image.
    pub fn are_misplaced(&self, size: u32, text: &[u8]) -> bool
        requires size { size ≤ MAX_IMAGE }
        requires read { names_of size text.now ≡ Ok (named self.now) }
        ensures { result ≡ is_misplaced size text.now }
    {
        self.symbols.is_empty() && is_misplaced(size, text)
    }

    /// Where an image of so many bytes begins to run, if it can begin at the entry.
    pub fn entry_in(&self, size: u32, entry: Entry<'_>) -> Option<u32>
        requires { size ≤ MAX_IMAGE }
        ensures { result ≡ entry_in size (entry_labels self.now.symbols.entries) entry.entry }
    {
        let address = match entry {
            Entry::Address(address) => address,
            Entry::Name(name) => self.address_in(name.as_bytes())?,
        };
        may_be_entry(size, address).then_some(address)
    }

    /// The symbols that are kept, in the order of their names' bytes.
    pub fn in_order(&self, alloc: Global) -> Result<Vec<Symbol<'a>>, AllocError>
        ensures { IfOk result (λ symbols. labels symbols.items ≡ entry_labels self.now.symbols.entries) }
    {
        let mut symbols = Vec::with_capacity(alloc, self.symbols.len())?;
        for (name, address) in &self.symbols {
            symbols.push(Symbol {
                name: *name,
                address: *address,
            })?;
        }
        Ok(symbols)
    }
}

/// Takes one more line. Returns false if the line is faulty; discard the names then.
fn take_line<'a>(names: &mut Names<'a>, size: u32, line: &'a [u8]) -> Result<bool, AllocError>
    requires size { size ≤ MAX_IMAGE }
    requires listed { AreListed size (entry_labels names.old.symbols.entries) }
    requires few { names.old.left_out + 1 < 2 ^ 64 }
    ensures taken { IfOk result (λ taken. after_line size (named names.old) line.now ≡ (if taken then Some (named names.new) else None)) }
    ensures listed { AreListed size (entry_labels names.new.symbols.entries) }
    ensures few { names.new.left_out ≤ names.old.left_out + 1 }
{
    if line.is_empty() {
        return Ok(true);
    }
    let Some(symbol) = symbol_of(line) else {
        return Ok(false);
    };
    if !is_shown(symbol.name) {
        return Ok(true);
    }
    take_symbol(names, size, symbol)
}

/// The names of an image of so many bytes, up to the end of the text or its first faulty line.
pub fn read_names(alloc: Global, size: u32, text: &[u8]) -> Result<Names<'_>, FlatFault>
    requires { size ≤ MAX_IMAGE }
    ensures read { Reads result (names_of size text.now) }
    ensures listed { IfOk result (λ names. AreListed size (entry_labels names.symbols.entries)) }
{
    let mut names = Names {
        symbols: BTreeMap::new(alloc),
        left_out: 0,
    };
    let mut rest = text;
    let mut number: u64 = 1;
    while !rest.is_empty() {
        let (line, after) = cut_line(rest);
        if !take_line(&mut names, size, line)? {
            return Err(FlatFault::Names(number));
        }
        rest = after;
        number += 1;
    }
    Ok(names)
}
