//! Naming the entry of an object.

ghost use Rattle.std.specs.Prelude.{◌≡◌, ◌≤◌, insert, length, None, Ok, Err, IfOk, IfErr};
ghost use Rattle.rt_image.specs.ObjectFile.{Label, IsObject, object_value, labels};
ghost use Rattle.rt_image.specs.ObjectFile as files;
ghost use Rattle.rt_elf.specs.flat.FlatEntry.{address_in};
ghost use Rattle.rt_elf.specs.flat.FlatNames.{put};
ghost use Rattle.rt_elf.specs.naming.NamedEntry.{newly_named, named, NamesFile};
ghost use Rattle.rt_elf.specs.naming.Working.Naming.{Names};

use crate::naming::entry_name::EntryName;
use crate::naming::fault::{NameFault, NamingFault};
use rt_image::{Object, Symbol, WriteFault, read_object, write_object};
use rt_words::{MAX_SYMBOLS, RAM_BASE};
use std::alloc::Global;

/// The address of the symbol of this name.
pub(crate) fn address_in(symbols: &[Symbol<'_>], name: &[u8]) -> Option<u32>
    ensures { result ≡ address_in (labels symbols.now) name.now }
{
    for symbol in symbols {
        if name == symbol.name {
            return Some(symbol.address);
        }
    }
    None
}

/// Where a symbol of this name comes to stand among these.
fn place_of(symbols: &[Symbol<'_>], name: &[u8]) -> usize
    ensures value { (l : Label) → l.name ≡ name.now → put l (labels symbols.now) ≡ insert (labels symbols.now) result l }
    ensures within { result ≤ length symbols.now }
{
    let mut place = 0;
    for symbol in symbols {
        if symbol.name.cmp(name).is_ge() {
            return place;
        }
        place += 1;
    }
    place
}

/// Whether the entry of an object lies in its image or at its end.
fn is_placed(object: &Object<'_>) -> bool
    requires { IsObject (object_value object.now) }
    ensures { result ≡ files.is_placed (length object.now.bytes.now) object.now.entry }
{
    let entry = object.entry;
    RAM_BASE <= entry && entry <= RAM_BASE + object.bytes.len() as u32
}

/// The object with a symbol of this name, which it doesn't have, at its entry.
fn newly_named<'a>(mut object: Object<'a>, name: EntryName<'a>) -> Result<Object<'a>, NameFault>
    requires spelled { IsObject (object_value object) }
    requires new { address_in (labels object.symbols.items) name.word.now ≡ None }
    ensures { Names result (newly_named name.entry.word.now (object_value object.entry)) }
{
    if !is_placed(&object) {
        return Err(NameFault::BadEntry);
    }
    if object.symbols.len() >= MAX_SYMBOLS as usize {
        return Err(NameFault::TooMany);
    }
    let name = name.word().as_bytes();
    let at = place_of(&object.symbols, name);
    let address = object.entry;
    object.symbols.insert(at, Symbol { name, address })?;
    Ok(object)
}

/// The object whose entry has this name.
fn named<'a>(object: Object<'a>, name: EntryName<'a>) -> Result<Object<'a>, NameFault>
    requires { IsObject (object_value object) }
    ensures { Names result (named name.entry.word.now (object_value object.entry)) }
{
    match address_in(&object.symbols, name.word().as_bytes()) {
        None => newly_named(object, name),
        Some(address) if address == object.entry => Ok(object),
        Some(address) => Err(NameFault::Elsewhere(address)),
    }
}

/// The object file of a named object.
pub(crate) fn named_bytes(
    alloc: Global,
    file: &[u8],
    name: EntryName<'_>,
) -> Result<Vec<u8>, NameFault>
    ensures { NamesFile file.now name.entry.word.now result }
{
    let object = named(read_object(alloc, file)?, name)?;
    let mut bytes = Vec::new(alloc);
    match write_object(&object, &mut bytes) {
        Ok(()) => Ok(bytes),
        Err(WriteFault::NoMemory) => Err(NameFault::Memory),
        // An object with one symbol more, at its place, has a spelling.
        Err(WriteFault::BadField) => unreachable!(),
    }
}

/// The object file (RTI1) of the object of this one, with a symbol of this name at its entry. It names the task that runs the object,
/// where no symbol at the entry has a shorter name, or one as short and before it by its bytes. An object that has the symbol stays as it
/// is.
///
/// # Errors
///
/// `Object` with the refusal of a file that is none. Else `Elsewhere` where a symbol of this name stands at another address. Else
/// `BadEntry` where the entry lies neither in the image nor at its end. Else `TooMany` where the object has 65,536 symbols. Or `Memory`,
/// where there is no memory.
pub fn named_file<'a>(
    alloc: Global,
    file: &[u8],
    name: EntryName<'a>,
) -> Result<Vec<u8>, NamingFault<'a>>
    ensures ok { IfOk result (λ bytes. NamesFile file.now name.entry.word.now (Ok bytes)) }
    ensures err { IfErr result (λ f. (f.name ≡ name.entry) × NamesFile file.now name.entry.word.now (Err f.fault)) }
{
    match named_bytes(alloc, file, name) {
        Ok(bytes) => Ok(bytes),
        Err(fault) => Err(NamingFault { name, fault }),
    }
}
