//! The object of a flat image.

ghost use Rattle.std.specs.Prelude.{◌≡◌, ◌≤◌, length, MatchResult};
ghost use Rattle.rt_elf.specs.flat.FlatObject.{text_of, object_of, FlatMeans};
ghost use Rattle.rt_elf.specs.flat.Working.Listed.{named, entry_labels, AreListed};
ghost use Rattle.rt_elf.specs.flat.Working.Spelled.{Spells};

use crate::flat::entry::Entry;
use crate::flat::fault::FlatFault;
use crate::flat::names::{Names, read_names};
use crate::magic::is_elf;
use rt_image::{Object, WriteFault, write_object};
use rt_words::MAX_IMAGE;
use std::alloc::Global;

/// What was made of an image.
#[derive(PartialEq, Eq, Drop)]
pub struct Flat {
    /// All bytes of the object file.
    pub bytes: Vec<u8>,
    /// How many names were left out.
    pub left_out: u64,
}

/// The text of a list, if there is one.
fn text_of(names: Option<&[u8]>) -> &[u8]
    ensures { result.now ≡ text_of names.entry }
{
    names.unwrap_or(&[])
}

/// The bytes of the object file of an image that begins at the address, with the symbols that are kept.
fn spelled(
    alloc: Global,
    image: &[u8],
    address: u32,
    names: &Names<'_>,
) -> Result<Vec<u8>, FlatFault>
    requires size { length image.now ≤ MAX_IMAGE }
    requires listed { AreListed (length image.now) (entry_labels names.now.symbols.entries) }
    ensures { MatchResult result (λ bytes. Spells bytes.items (object_of image.now address (named names.now))) (λ fault. fault ≡ FlatFault.Memory) }
{
    let object = Object {
        entry: address,
        bytes: image,
        symbols: names.in_order(alloc)?,
    };
    let mut bytes = Vec::new(alloc);
    match write_object(&object, &mut bytes) {
        Ok(()) => Ok(bytes),
        Err(WriteFault::NoMemory) => Err(FlatFault::Memory),
        // An image with symbols that were kept has a spelling.
        Err(WriteFault::BadField) => unreachable!(),
    }
}

/// The object file (RTI1) of an image that is linked to 0x80000000: the bytes as they are, the entry,
/// and symbols from a text of lines `ADDRESS LETTER NAME`, as `nm` prints them: eight hexadecimal
/// digits, a byte and a name, with single spaces. Empty lines say nothing, nor do names that begin
/// with `$x`, `$d` or `.L`, which only some `nm` print.
///
/// A symbol is kept where an object may have it (its name is a word of at most 512 bytes, and its
/// address is from 0x80000000 to the end of the image), and no symbol that is kept before has its
/// name. The others are left out and counted.
///
/// # Errors
///
/// `IsElf` for an ELF file. Else `TooLarge` for an image of over 1,048,576 bytes. Else `Names` with the
/// first line, counted from 1, that isn't so, or that has one symbol more than 65,536 to be kept. Else
/// `Misplaced` where no symbol of the text lies in the image or at its end, and there is one. Else
/// `BadEntry` where no symbol that is kept has the entry's name, or the entry is no multiple of 4, or its
/// four bytes don't lie in the image; or `Memory`, where there is no memory.
pub fn flat_object(
    alloc: Global,
    image: &[u8],
    entry: Entry<'_>,
    names: Option<&[u8]>,
) -> Result<Flat, FlatFault>
    ensures { FlatMeans image.now entry.entry (text_of names.entry) result }
{
    if is_elf(image) {
        return Err(FlatFault::IsElf);
    }
    if image.len() > MAX_IMAGE as usize {
        return Err(FlatFault::TooLarge);
    }
    let size = image.len() as u32;
    let text = text_of(names);
    let names = read_names(alloc, size, text)?;
    if names.are_misplaced(size, text) {
        return Err(FlatFault::Misplaced);
    }
    let Some(entry) = names.entry_in(size, entry) else {
        return Err(FlatFault::BadEntry);
    };
    Ok(Flat {
        bytes: spelled(alloc, image, entry, &names)?,
        left_out: names.left_out,
    })
}
