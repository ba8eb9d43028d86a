//! The symbols that a list of names says.

use rt_elf::flat::{is_shown, symbol_of};
use rt_image::Symbol;
use rt_token::{cut_line, is_word};
use rt_words::{MAX_LINE, RAM_BASE};
use std::alloc::{AllocError, Global};

/// The symbols that nm shows, in the order of their lines, up to the first line that is faulty.
pub(crate) fn shown_symbols(alloc: Global, text: &[u8]) -> Result<Vec<Symbol<'_>>, AllocError> {
    let mut symbols = Vec::new(alloc);
    let mut rest = text;
    while !rest.is_empty() {
        let (line, after) = cut_line(rest);
        match symbol_of(line) {
            Some(symbol) if is_shown(symbol.name) => symbols.push(symbol)?,
            Some(_) => {}
            None if line.is_empty() => {}
            None => return Ok(symbols),
        }
        rest = after;
    }
    Ok(symbols)
}

/// Where an image of so many bytes ends.
pub(crate) fn image_end(size: usize) -> u64 {
    u64::from(RAM_BASE).saturating_add(size as u64)
}

/// Whether an address lies in an image of so many bytes, or at its end.
pub(crate) fn is_placed(size: usize, address: u32) -> bool {
    RAM_BASE <= address && u64::from(address) <= image_end(size)
}

/// Whether the word at an address is in so many bytes of RAM or of an image.
pub(crate) fn has_word(size: u64, address: u32) -> bool {
    let end = u64::from(RAM_BASE).saturating_add(size);
    RAM_BASE <= address && u64::from(address).saturating_add(4) <= end
}

/// Whether an object may have the name.
pub(crate) fn is_name(name: &[u8]) -> bool {
    is_word(name) && name.len() <= usize::from(MAX_LINE)
}

/// The first symbol of a name that an object with an image of so many bytes may have.
pub(crate) fn kept<'a>(symbols: &[Symbol<'a>], size: usize, name: &[u8]) -> Option<Symbol<'a>> {
    if !is_name(name) {
        return None;
    }
    for symbol in symbols {
        if symbol.name == name && is_placed(size, symbol.address) {
            return Some(*symbol);
        }
    }
    None
}

/// The first symbol of a name.
pub(crate) fn named<'a>(symbols: &[Symbol<'a>], name: &[u8]) -> Option<Symbol<'a>> {
    for symbol in symbols {
        if symbol.name == name {
            return Some(*symbol);
        }
    }
    None
}
