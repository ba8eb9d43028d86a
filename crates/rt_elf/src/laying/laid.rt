//! An object with the bytes of another file in its image.

ghost use Rattle.std.specs.Prelude.{◌≡◌, ◌≤◌, length, None, IfOk, IfSome, MatchResult};
ghost use Rattle.std.specs.Option.{option_map};
ghost use Rattle.rt_image.specs.ObjectFile.{ObjectValue, IsObject, object_value, spelling};
ghost use Rattle.rt_elf.specs.Refusals.{refusal};
ghost use Rattle.rt_elf.specs.Working.Making.{Spells};
ghost use Rattle.rt_elf.specs.laying.LaidData.{laid_over, Lays, LaysNone};

use crate::laying::fault::NotLaid;
use crate::laying::room::room_of;
use crate::naming::address_in;
use rt_image::{Object, ReadFault, Symbol, WriteFault, read_object, write_object};
use rt_words::RAM_BASE;
use std::alloc::{AllocError, Global};

/// The bytes of an image with these in place of those from a place on.
fn laid_over(alloc: Global, image: &[u8], at: usize, bytes: &[u8]) -> Result<Vec<u8>, AllocError>
    requires { at ≤ length image.now }
    ensures { IfOk result (λ laid. laid.items ≡ laid_over at bytes.now image.now) }
{
    let mut laid = Vec::new(alloc);
    laid.extend_from_slice(&image[..at])?;
    laid.extend_from_slice(bytes)?;
    if let Some(rest) = image.get(at + bytes.len()..) {
        laid.extend_from_slice(rest)?;
    }
    Ok(laid)
}

/// The object file of an object that has one.
fn spelled(alloc: Global, object: &Object<'_>) -> Result<Vec<u8>, NotLaid>
    requires { IsObject (object_value object.now) }
    ensures { MatchResult result (λ file. Spells file.items (object_value object.now)) (λ fault. fault ≡ NotLaid.Memory) }
{
    let mut file = Vec::new(alloc);
    match write_object(object, &mut file) {
        Ok(()) => Ok(file),
        Err(WriteFault::NoMemory) => Err(NotLaid::Memory),
        Err(WriteFault::BadField) => unreachable!(),
    }
}

/// The object file (RTI1) of the object of this one, in whose image these bytes stand from the symbol of this name on, in place of those
/// that were there. The image grows where it ends before them. The object was made of this ELF file, if it was made of one.
///
/// # Errors
///
/// `NoSymbol` where the object has no symbol of this name. Else `TooLarge` where the bytes don't fit into the greatest RAM from there on,
/// or the ELF file says that the symbol has fewer. Or `Memory`, where there is no memory.
pub fn lay_data(
    alloc: Global,
    file: &[u8],
    elf: Option<&[u8]>,
    symbol: &str,
    bytes: &[u8],
) -> Result<Vec<u8>, NotLaid>
    requires object { (o : ObjectValue) × IsObject o × (file.now ≡ spelling o) }
    requires taken { IfSome elf (λ elf. refusal elf.now ≡ None) }
    ensures { MatchResult result (λ new. Lays (option_map (λ elf. elf.now) elf.entry) symbol.now bytes.now file.now new.items)
        (λ fault. LaysNone (option_map (λ elf. elf.now) elf.entry) symbol.now bytes.now file.now fault) }
{
    let object = match read_object(alloc, file) {
        Ok(object) => object,
        Err(ReadFault::Memory) => return Err(NotLaid::Memory),
        // The bytes spell an object.
        Err(ReadFault::Fault(_)) => unreachable!(),
    };
    let name = symbol.as_bytes();
    let Some(address) = address_in(&object.symbols, name) else {
        return Err(NotLaid::NoSymbol);
    };
    let room = room_of(elf, &Symbol { name, address });
    let len = bytes.len();
    if len > room as usize {
        return Err(NotLaid::TooLarge { len, room });
    }
    let image = laid_over(alloc, object.bytes, (address - RAM_BASE) as usize, bytes)?;
    spelled(
        alloc,
        &Object {
            entry: object.entry,
            bytes: &image,
            symbols: object.symbols,
        },
    )
}
