//! Why a flat image has no object, and where it may begin instead.

use crate::listed::{has_word, image_end, is_placed, kept, named, shown_symbols};
use crate::names::names_hint;
use rt_elf::flat::{Entry, FlatFault};
use rt_fault_lines::shown::{Escaped, Explanation, line};
use rt_image::Symbol;
use rt_words::{MAX_IMAGE, RAM_BASE};
use std::alloc::{AllocError, Global};
use std::fmt;

/// What is made into an object, and of which files.
#[derive(Clone, Copy)]
pub struct FlatFiles<'a> {
    /// The path of the image.
    pub image: &'a str,
    /// Its bytes.
    pub bytes: &'a [u8],
    /// The path of the object.
    pub object: &'a str,
    /// The path of the list of names, if there is one.
    pub list: Option<&'a str>,
    /// The bytes of the list.
    pub names: &'a [u8],
    /// Where the image is to begin.
    pub entry: Entry<'a>,
}

/// Where the names of another image lie, and where this one does.
fn misplaced(alloc: Global, list: &str, files: &FlatFiles<'_>) -> Explanation {
    let symbols = shown_symbols(alloc, files.names)?;
    let mut low = u32::MAX;
    let mut high = 0;
    for symbol in &symbols {
        low = low.min(symbol.address);
        high = high.max(symbol.address);
    }
    let list = Escaped::line(list);
    let end = image_end(files.bytes.len());
    line(
        alloc,
        format_args!(
            "{list}: addresses {low:08x} to {high:08x}; the image lies at {RAM_BASE:08x} to {end:08x}: link it to {RAM_BASE:08x}"
        ),
    )
}

/// The address that a number in decimal digits would be if the same digits were hexadecimal.
fn meant_address(alloc: Global, address: u32) -> Result<Option<u32>, AllocError> {
    let digits = format!(in alloc; "{address}")?;
    let meant = rt_token::value_up_to(u64::from(u32::MAX), 16, digits.as_bytes());
    Ok(meant.map(|meant| meant as u32))
}

/// Why an image can't begin at an address, said of the entry `shown`.
fn address_hint<D: fmt::Display + Drop>(
    alloc: Global,
    shown: D,
    size: usize,
    address: u32,
) -> Explanation {
    if address % 4 != 0 {
        return line(
            alloc,
            format_args!("entry {shown}: no multiple of 4; put .align 2 before it"),
        );
    }
    let end = image_end(size);
    line(
        alloc,
        format_args!("entry {shown}: its word isn't in the image, {RAM_BASE:08x} to {end:08x}"),
    )
}

/// Whether an image of so many bytes can begin at an address.
fn can_begin(size: usize, address: u32) -> bool {
    address % 4 == 0 && has_word(size as u64, address)
}

/// Why an image can't begin at an address that was written as a number.
fn number_hint(alloc: Global, size: usize, address: u32) -> Explanation {
    match meant_address(alloc, address)? {
        Some(meant) if can_begin(size, meant) => line(
            alloc,
            format_args!("entry {address:08x}: the number is decimal; write 0x{meant:08x}"),
        ),
        _ => address_hint(alloc, format_args!("{address:08x}"), size, address),
    }
}

/// Why an image can't begin at a name.
fn name_hint(alloc: Global, files: &FlatFiles<'_>, name: &str) -> Explanation {
    let shown = Escaped::line(name);
    let Some(list) = files.list else {
        return line(
            alloc,
            format_args!("--entry {shown}: a name needs a list of names, --symbols FILE"),
        );
    };
    let size = files.bytes.len();
    let symbols = shown_symbols(alloc, files.names)?;
    if let Some(Symbol { address, .. }) = kept(&symbols, size, name.as_bytes()) {
        return address_hint(alloc, format_args!("{shown} {address:08x}"), size, address);
    }
    let list = Escaped::line(list);
    let Some(Symbol { address, .. }) = named(&symbols, name.as_bytes()) else {
        return line(
            alloc,
            format_args!("{list}: {shown}: no line has this name"),
        );
    };
    let why = if is_placed(size, address) {
        "no object may have the name"
    } else {
        "it isn't in the image"
    };
    line(alloc, format_args!("{list}: {shown} {address:08x}: {why}"))
}

/// Why an image has no object: the line of its list that is faulty, the addresses, or the command for what it is.
pub fn flat_hint(alloc: Global, fault: FlatFault, files: &FlatFiles<'_>) -> Explanation {
    let image = Escaped::line(files.image);
    let size = files.bytes.len();
    match (fault, files.entry, files.list) {
        (FlatFault::IsElf, _, _) => {
            let object = Escaped::line(files.object);
            line(
                alloc,
                format_args!("this is an ELF file: rt_sim elf {image} {object}"),
            )
        }
        (FlatFault::TooLarge, _, _) => line(
            alloc,
            format_args!("{image}: at least {size} bytes, an image has at most {MAX_IMAGE}"),
        ),
        (FlatFault::Names(number), _, Some(list)) => {
            names_hint(alloc, list, files.names, number)
        }
        (FlatFault::Misplaced, _, Some(list)) => misplaced(alloc, list, files),
        (FlatFault::BadEntry, Entry::Address(address), _) => number_hint(alloc, size, address),
        (FlatFault::BadEntry, Entry::Name(name), _) => name_hint(alloc, files, name),
        _ => Ok(None),
    }
}

/// Where `_start` lies, if the image is to begin elsewhere and can begin there.
pub fn start_hint(alloc: Global, files: &FlatFiles<'_>) -> Explanation {
    let (Some(list), Entry::Address(entry)) = (files.list, files.entry) else {
        return Ok(None);
    };
    let size = files.bytes.len();
    let symbols = shown_symbols(alloc, files.names)?;
    let Some(Symbol { address, .. }) = kept(&symbols, size, b"_start") else {
        return Ok(None);
    };
    if address == entry || !can_begin(size, address) {
        return Ok(None);
    }
    let list = Escaped::line(list);
    line(
        alloc,
        format_args!("{list}: _start is {address:08x}, the entry {entry:08x}: --entry _start"),
    )
}
