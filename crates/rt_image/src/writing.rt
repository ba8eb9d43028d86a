//! Writing object files.

ghost use Rattle.std.specs.Prelude.{◌≡◌, ◌++◌, ◌↔◌, IsErrOf, OnOk, OnErr};
ghost use Rattle.std.specs.List.{flat_map};
ghost use Rattle.byteorder.specs.Endian.{little_bytes};
ghost use Rattle.rt_image.specs.ObjectFile.{IsObject, label, labels, object_value, label_spelling, header_spelling, spelling};

use crate::fault::WriteFault;
use crate::fits::object_fits;
use crate::object::{Object, Symbol};
use std::alloc::AllocError;

/// Appends the two low bytes of a number, the lowest first.
fn push_two(out: &mut Vec<u8>, number: usize) -> Result<(), AllocError>
    ensures { OnOk result (out.new.items ≡ out.old.items ++ little_bytes 2 number) }
{
    out.extend_from_slice(&number.to_le_bytes()[..2])
}

/// Appends the four low bytes of a number, the lowest first.
pub fn push_four(out: &mut Vec<u8>, number: usize) -> Result<(), AllocError>
    ensures { OnOk result (out.new.items ≡ out.old.items ++ little_bytes 4 number) }
{
    out.extend_from_slice(&number.to_le_bytes()[..4])
}

fn push_symbol(out: &mut Vec<u8>, symbol: &Symbol) -> Result<(), AllocError>
    ensures { OnOk result (out.new.items ≡ out.old.items ++ label_spelling (label symbol.now)) }
{
    push_two(out, symbol.name.len())?;
    out.extend_from_slice(symbol.name)?;
    push_four(out, symbol.address as usize)
}

fn push_symbols(out: &mut Vec<u8>, symbols: &[Symbol]) -> Result<(), AllocError>
    ensures { OnOk result (out.new.items ≡ out.old.items ++ flat_map label_spelling (labels symbols.now)) }
{
    for symbol in symbols {
        push_symbol(out, symbol)?;
    }
    Ok(())
}

/// Appends what stands before the image.
fn push_header(out: &mut Vec<u8>, entry: u32, size: usize, count: usize) -> Result<(), AllocError>
    ensures { OnOk result (out.new.items ≡ out.old.items ++ header_spelling entry size count) }
{
    out.extend_from_slice(b"RTI1")?;
    push_four(out, entry as usize)?;
    push_four(out, size)?;
    push_four(out, count)
}

/// Appends the spelling of the object.
pub fn push_object(out: &mut Vec<u8>, object: &Object) -> Result<(), AllocError>
    ensures { OnOk result (out.new.items ≡ out.old.items ++ spelling (object_value object.now)) }
{
    let symbols = object.symbols.as_slice();
    push_header(out, object.entry, object.bytes.len(), symbols.len())?;
    out.extend_from_slice(object.bytes)?;
    push_symbols(out, symbols)
}

/// How many bytes the file of the object has, so that it is written into room of its own size.
fn file_len(object: &Object) -> usize {
    let mut len = object.bytes.len().saturating_add(16);
    for symbol in &object.symbols {
        len = len.saturating_add(symbol.name.len()).saturating_add(6);
    }
    len
}

/// Appends the bytes of a file. Where there were none before, it is kept as it is, and not copied.
fn append(out: &mut Vec<u8>, file: Vec<u8>) -> Result<(), AllocError>
    ensures ok { OnOk result (out.new.items ≡ out.old.items ++ file.items) }
    ensures err { OnErr result (out.new.items ≡ out.old.items) }
{
    if out.is_empty() {
        *out = file;
        return Ok(());
    }
    out.extend_from_slice(&file)
}

/// Appends the spelling of an object, as [`write_object`] does, but doesn't ask whether it has one: for a caller that knows.
///
/// # Errors
///
/// There is no memory. The bytes are then as they were.
pub fn write_spelling(object: &Object, out: &mut Vec<u8>) -> Result<(), AllocError>
    ensures ok { OnOk result (out.new.items ≡ out.old.items ++ spelling (object_value object.now)) }
    ensures err { OnErr result (out.new.items ≡ out.old.items) }
{
    let mut file = Vec::with_capacity(*out.allocator(), file_len(object))?;
    push_object(&mut file, object)?;
    append(out, file)
}

/// Appends the one spelling of the object.
///
/// # Errors
///
/// `BadField` exactly for an object that has none: too many bytes or symbols, a name that is no
/// word of 1 to 512 bytes, names that don't rise strictly, an address outside of the image; or
/// `NoMemory`. After both the bytes are as they were.
pub fn write_object(object: &Object, out: &mut Vec<u8>) -> Result<(), WriteFault>
    ensures ok { OnOk result (out.new.items ≡ out.old.items ++ spelling (object_value object.now)) }
    ensures fits { OnOk result (IsObject (object_value object.now)) }
    ensures bad_field { IsErrOf result WriteFault.BadField ↔ ¬ IsObject (object_value object.now) }
    ensures no_memory { IsErrOf result WriteFault.NoMemory → IsObject (object_value object.now) }
    ensures err { OnErr result (out.new.items ≡ out.old.items) }
{
    if !object_fits(object.entry, object.bytes, &object.symbols) {
        return Err(WriteFault::BadField);
    }
    write_spelling(object, out)?;
    Ok(())
}
