//! The names of a list that an object doesn't have.

use crate::listed::{is_name, is_placed, shown_symbols};
use rt_elf::{ElfFault, told_symbols};
use rt_fault_lines::shown::{Explanation, Printable, line};
use rt_image::Symbol;
use std::alloc::{AllocError, Global};
use std::collections::BTreeSet;
use std::fmt;

/// The most names that are shown.
const SHOWN: usize = 10;

/// Names in one line.
#[derive(Drop)]
struct LeftOut<'a> {
    names: Vec<&'a [u8]>,
}

impl fmt::Display for LeftOut<'_> {
    fn fmt<W: fmt::Write>(&self, f: &mut fmt::Formatter<W>) -> fmt::Result {
        for (place, name) in self.names.iter().take(SHOWN).enumerate() {
            if place > 0 {
                f.write_str(" ")?;
            }
            let name = Printable(*name);
            write!(f, "{name}")?;
        }
        let more = self.names.len().saturating_sub(SHOWN);
        if more > 0 {
            write!(f, " and {more} more")?;
        }
        Ok(())
    }
}

/// The names of these symbols that the object of an image of so many bytes doesn't have.
fn left_out(alloc: Global, size: usize, symbols: &[Symbol<'_>]) -> Explanation {
    let mut kept: BTreeSet<&[u8]> = BTreeSet::new(alloc);
    let mut names = Vec::new(alloc);
    for symbol in symbols {
        let may_stand = is_name(symbol.name) && is_placed(size, symbol.address);
        if may_stand && !kept.contains(symbol.name) {
            kept.insert(symbol.name)?;
        } else {
            names.push(symbol.name)?;
        }
    }
    if names.is_empty() {
        return Ok(None);
    }
    line(alloc, LeftOut { names })
}

/// The names of a list that the object of an image of so many bytes doesn't have: up to ten, and how many more.
pub fn left_out_hint(alloc: Global, size: usize, list: &[u8]) -> Explanation {
    left_out(alloc, size, &shown_symbols(alloc, list)?)
}

/// The names that the object of an ELF file doesn't have.
pub fn elf_left_out_hint(alloc: Global, elf: &[u8]) -> Explanation {
    match told_symbols(alloc, elf) {
        Ok(told) => left_out(alloc, told.image_size as usize, &told.symbols),
        Err(ElfFault::Memory) => Err(AllocError),
        Err(_) => Ok(None),
    }
}
