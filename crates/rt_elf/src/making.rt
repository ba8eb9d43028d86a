//! The object of an ELF file.

ghost use Rattle.std.specs.Prelude.{◌≡◌, ◌^◌, ◌<◌, ◌≤◌, [], length, true, IfOk, MatchResult};
ghost use Rattle.rt_image.specs.ObjectFile.{are_labels};
ghost use Rattle.rt_elf.specs.flat.Working.Listed.{entry_labels};
ghost use Rattle.rt_elf.specs.ElfObject.{ElfMeans};
ghost use Rattle.rt_elf.specs.Working.Making.{Spells};

use crate::checking::check_file;
use crate::fault::{ElfFault, refuse_if};
use crate::fields::u32_at;
use crate::loading::load_image;
use crate::names::{Kept, kept_names};
use rt_image::{Object, WriteFault, write_object};
use rt_words::{MAX_IMAGE, MAX_SYMBOLS};
use std::alloc::Global;

/// What was made of a file.
#[derive(PartialEq, Eq, Drop)]
pub struct Made {
    /// All bytes of the object file.
    pub bytes: Vec<u8>,
    /// How many names were left out.
    pub left_out: u64,
}

/// The bytes of the object file of an image with the symbols that are kept.
fn spelled(alloc: Global, entry: u32, image: &[u8], kept: &Kept) -> Result<Vec<u8>, ElfFault>
    requires size { length image.now ≤ MAX_IMAGE }
    requires fit { are_labels (length image.now) [] (entry_labels kept.now.symbols.entries) ≡ true }
    requires few { length (entry_labels kept.now.symbols.entries) ≤ MAX_SYMBOLS }
    ensures { MatchResult result (λ bytes. Spells bytes.items (record { entry = entry; bytes = image.now; labels = entry_labels kept.now.symbols.entries })) (λ fault. fault ≡ ElfFault.Memory) }
{
    let object = Object {
        entry,
        bytes: image,
        symbols: kept.in_order(alloc)?,
    };
    let mut bytes = Vec::new(alloc);
    match write_object(&object, &mut bytes) {
        Ok(()) => Ok(bytes),
        Err(WriteFault::NoMemory) => Err(ElfFault::Memory),
        // An image within RAM, with symbols that were kept, has a spelling.
        Err(WriteFault::BadField) => unreachable!(),
    }
}

/// The object file (RTI1) of an ELF file: a linked program of RV32I without compressed instructions
/// and without a float ABI (`e_flags` is 0), for the class of 32 bits, little-endian.
///
/// The image has the bytes of each segment (`PT_LOAD`) where it is loaded (`p_paddr`, `p_filesz`), and
/// reaches to where each runs (`p_vaddr`, `p_memsz`); the other bytes are 0. All lies within 0x80000000
/// to 0x80100000, and no two segments are loaded to one address. The entry is `e_entry`.
///
/// The symbols are those of the first symbol table, if there is one: of no type, objects or
/// functions, in a section or a number, whose names aren't empty and begin with none of `$x`, `$d`
/// and `.L`. A symbol is kept where an object may have it (its name is a word of at most 512 bytes,
/// and its address is from 0x80000000 to the end of the image), and no symbol that is kept before has
/// its name; those that aren't local come first. The others are left out and counted.
///
/// # Errors
///
/// The refusal of the file that comes first in the order of the variants' rows; or `Memory`, where
/// there is no memory. None is requested before all rows but the last are tested.
pub fn elf_object(alloc: Global, file: &[u8]) -> Result<Made, ElfFault>
    ensures means { ElfMeans file.now result }
    ensures few { IfOk result (λ made. made.left_out < 2 ^ 32) }
{
    let table = check_file(file)?;
    let image = load_image(alloc, file)?;
    let kept = kept_names(alloc, image.len() as u32, file, table)?;
    refuse_if(
        kept.symbols.len() > MAX_SYMBOLS as usize,
        ElfFault::TooManySymbols,
    )?;
    Ok(Made {
        bytes: spelled(alloc, u32_at(file, 24), &image, &kept)?,
        left_out: kept.left_out,
    })
}
