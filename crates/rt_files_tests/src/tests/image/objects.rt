//! Object files.

use super::{LABELS, OBJECT_43, START, changed, longer, refusal, refuses};
use crate::tests::{LOOP_FILE, same};
use rt_image::*;
use std::alloc::{AllocError, Global};
use std::process::Abort;
use std::test::Fail;

/// Appends the length field, the name and the address of a symbol.
fn push_symbol(file: &mut Vec<u8>, len: u16, name: &[u8], address: u32) -> Result<(), AllocError> {
    file.extend_from_slice(&len.to_le_bytes())?;
    file.extend_from_slice(name)?;
    file.extend_from_slice(&address.to_le_bytes())?;
    Ok(())
}

/// The loop with symbols, each the length field, the name and the address.
fn file_of(alloc: Global, count: u8, symbols: &[(u16, &[u8], u32)]) -> Result<Vec<u8>, AllocError> {
    let mut file = Vec::from_slice(alloc, &LOOP_FILE[..12])?;
    file.extend_from_slice(&[count, 0, 0, 0])?;
    file.extend_from_slice(&LOOP_FILE[16..])?;
    for (len, name, address) in symbols {
        push_symbol(&mut file, *len, name, *address)?;
    }
    Ok(file)
}

/// Looks at the loop with these symbols.
fn look_at_loop(rt: &impl Abort, object: &Object, symbols: &[Symbol]) {
    same(rt, "entry", object.entry, 0x8000_0000);
    same(rt, "bytes", object.bytes, &LOOP_FILE[16..]);
    same(rt, "symbols", object.symbols.as_slice(), symbols);
}

/// Looks at it as a file is read.
fn reads_loop(
    rt: &impl Abort,
    alloc: Global,
    file: &[u8],
    symbols: &[Symbol],
) -> Result<(), ReadFault> {
    let object = read_object(alloc, file)?;
    look_at_loop(rt, &object, symbols);
    Ok(())
}

/// Each front of a file ends too soon.
fn fronts_are_truncated(rt: &impl Abort, alloc: Global, file: &[u8]) {
    for len in 0..file.len() {
        refuses(rt, alloc, &file[..len], ImageFault::Truncated);
    }
}

#[test]
fn an_object_without_symbols(rt: HostRuntime) -> Result<(), Fail> {
    reads_loop(&rt, rt.alloc(), &LOOP_FILE, &[])?;
    Ok(())
}

#[test]
fn an_object_with_symbols(rt: HostRuntime) -> Result<(), Fail> {
    reads_loop(&rt, rt.alloc(), &OBJECT_43, &LABELS)?;
    fronts_are_truncated(&rt, rt.alloc(), &OBJECT_43);
    Ok(())
}

#[test]
fn ends_and_magic(rt: HostRuntime) -> Result<(), Fail> {
    fronts_are_truncated(&rt, rt.alloc(), &LOOP_FILE);
    let file = longer(rt.alloc(), &LOOP_FILE)?;
    refuses(&rt, rt.alloc(), &file, ImageFault::Trailing);
    refuses(&rt, rt.alloc(), b"S", ImageFault::BadMagic);
    refuses(&rt, rt.alloc(), b"RTS1", ImageFault::BadMagic);
    Ok(())
}

const BAD_FIELD: Option<ReadFault> = Some(ReadFault::Fault(ImageFault::BadField));

/// Symbols, each with the refusal of the loop that has it alone.
static SYMBOLS: [(u16, &[u8], u32, Option<ReadFault>); 10] = [
    (0, b"", START, BAD_FIELD),
    (2, b"5x", START, BAD_FIELD),
    (2, b"a-", START, BAD_FIELD),
    (1, b" ", START, BAD_FIELD),
    (1, b"x", START + 9, BAD_FIELD),
    (1, b"x", START - 1, BAD_FIELD),
    (1, b"x", 0, BAD_FIELD),
    (1, b"x", START + 8, None),
    (1, b"_", START, None),
    (4, b"$.Z9", START, None),
];

/// The refusal of the loop with one symbol.
fn refusal_of(
    alloc: Global,
    len: u16,
    name: &[u8],
    address: u32,
) -> Result<Option<ReadFault>, AllocError> {
    let file = file_of(alloc, 1, &[(len, name, address)])?;
    Ok(refusal(alloc, &file))
}

#[test]
fn faults_of_symbols(rt: HostRuntime) -> Result<(), Fail> {
    for (len, name, address, expected) in &SYMBOLS {
        let found = refusal_of(rt.alloc(), *len, name, *address)?;
        same(&rt, *name, found, *expected);
    }
    Ok(())
}

/// Names have at most 512 bytes.
#[test]
fn long_names_of_symbols(rt: HostRuntime) -> Result<(), Fail> {
    let name = [b'a'; 513];
    let found = refusal_of(rt.alloc(), 513, &name, START)?;
    same(&rt, 513, found, BAD_FIELD);
    let found = refusal_of(rt.alloc(), 512, &name[..512], START)?;
    same(&rt, 512, found, None);
    Ok(())
}

/// Names that don't rise.
static NOT_RISING: [[(u16, &[u8], u32); 2]; 2] = [
    [(1, b"b", START), (1, b"a", START)],
    [(1, b"a", START), (1, b"a", START)],
];

static RISING: [(u16, &[u8], u32); 2] = [(1, b"a", START), (2, b"ab", START)];

/// The refusal of the loop with two symbols.
fn refusal_of_two(
    alloc: Global,
    symbols: &[(u16, &[u8], u32)],
) -> Result<Option<ReadFault>, AllocError> {
    let file = file_of(alloc, 2, symbols)?;
    Ok(refusal(alloc, &file))
}

#[test]
fn names_rise(rt: HostRuntime) -> Result<(), Fail> {
    let refused = Some(ReadFault::Fault(ImageFault::NotCanonical));
    for symbols in &NOT_RISING {
        let found = refusal_of_two(rt.alloc(), symbols)?;
        same(&rt, "not rising", found, refused);
    }
    let found = refusal_of_two(rt.alloc(), &RISING)?;
    same(&rt, "rising", found, None);
    Ok(())
}

/// A header of 1,048,576 and 8 bytes, which are too many before any of them is looked for.
static MANY_BYTES: [u8; 12] = [
    0x52, 0x54, 0x49, 0x31, 0x00, 0x00, 0x00, 0x80, 0x08, 0x00, 0x10, 0x00,
];

/// One of 65,537 symbols, which are too many as well.
static MANY_SYMBOLS: [u8; 16] = [
    0x52, 0x54, 0x49, 0x31, 0x00, 0x00, 0x00, 0x80, 0x08, 0x00, 0x00, 0x00, 0x01, 0x00, 0x01, 0x00,
];

#[test]
fn sizes_of_the_header(rt: HostRuntime) {
    refuses(&rt, rt.alloc(), &MANY_BYTES, ImageFault::BadField);
    refuses(&rt, rt.alloc(), &MANY_SYMBOLS, ImageFault::BadField);
}

/// The loop with these symbols.
fn object_of<'a>(alloc: Global, symbols: &[Symbol<'a>]) -> Result<Object<'a>, AllocError> {
    Ok(Object {
        entry: START,
        bytes: &LOOP_FILE[16..],
        symbols: Vec::from_slice(alloc, symbols)?,
    })
}

/// What an object is written as, after six bytes.
fn written_of(alloc: Global, object: &Object) -> Result<Vec<u8>, WriteFault> {
    let mut out = Vec::from_slice(alloc, b"before")?;
    write_object(object, &mut out)?;
    Ok(out)
}

#[test]
fn an_object_is_written(rt: HostRuntime) {
    let object = object_of(rt.alloc(), &LABELS).expect(&rt, "memory");
    let out = written_of(rt.alloc(), &object).expect(&rt, "memory");
    same(&rt, "before", out.get(..6), Some(b"before".as_slice()));
    same(&rt, "after", out.get(6..), Some(OBJECT_43.as_slice()));
}

/// How often a file is read as an object: if so, it is written as that file.
fn times_read(rt: &impl Abort, alloc: Global, file: &[u8]) -> Result<u32, WriteFault> {
    let Ok(object) = read_object(alloc, file) else {
        return Ok(0);
    };
    let mut out = Vec::new(alloc);
    write_object(&object, &mut out)?;
    same(rt, "a spelling", out.as_slice(), file);
    Ok(1)
}

/// How many of the files with any byte at this place are read.
fn read_with_any(rt: &impl Abort, alloc: Global, place: usize) -> Result<u32, WriteFault> {
    let mut read = 0_u32;
    for byte in 0..=255 {
        let file = changed(alloc, &OBJECT_43, place, &[byte])?;
        read = read.saturating_add(times_read(rt, alloc, &file)?);
    }
    Ok(read)
}

#[test]
fn broken_objects(rt: HostRuntime) -> Result<(), Fail> {
    let mut read = 0_u32;
    for place in 0..OBJECT_43.len() {
        read = read.saturating_add(read_with_any(&rt, rt.alloc(), place)?);
    }
    // At least the 43 times that the byte is the file's own, and all entries.
    same(&rt, read, read >= 43 + 4 * 255, true);
    Ok(())
}

/// Names and addresses of symbols that no file can hold.
static UNSPELT: [[(&[u8], u32); 2]; 6] = [
    [(b"", START), (b"x", START)],
    [(b"x", START), (b"x", START)],
    [(b"x", START), (b"a", START)],
    [(b"5", START), (b"x", START)],
    [(b"a", START), (b"x", START + 9)],
    [(b"a", START - 1), (b"x", START)],
];

fn symbols_of<'a>(alloc: Global, names: &[(&'a [u8], u32)]) -> Result<Vec<Symbol<'a>>, AllocError> {
    let mut symbols = Vec::new(alloc);
    for (name, address) in names {
        symbols.push(Symbol {
            name: *name,
            address: *address,
        })?;
    }
    Ok(symbols)
}

/// An object that no file can hold leaves the bytes as they were.
fn isnt_written(rt: &impl Abort, alloc: Global, object: &Object) -> Result<(), AllocError> {
    let mut out = Vec::from_slice(alloc, b"before")?;
    let written = write_object(object, &mut out);
    same(rt, "written", written, Err(WriteFault::BadField));
    same(rt, "bytes", out.as_slice(), b"before".as_slice());
    Ok(())
}

fn pair_isnt_written(
    rt: &impl Abort,
    alloc: Global,
    names: &[(&[u8], u32)],
) -> Result<(), AllocError> {
    let object = Object {
        entry: 0,
        bytes: &LOOP_FILE[16..],
        symbols: symbols_of(alloc, names)?,
    };
    isnt_written(rt, alloc, &object)
}

/// An object of so many bytes, and of no symbols.
fn plain(alloc: Global, bytes: &[u8]) -> Object<'_> {
    Object {
        entry: 0,
        bytes,
        symbols: Vec::new(alloc),
    }
}

#[test]
fn objects_without_a_spelling(rt: HostRuntime) -> Result<(), Fail> {
    for names in &UNSPELT {
        pair_isnt_written(&rt, rt.alloc(), names)?;
    }
    let long = [b'a'; 513];
    pair_isnt_written(&rt, rt.alloc(), &[(&long, START), (b"x", START)])?;
    Ok(())
}

#[test]
fn most_bytes_of_an_object(rt: HostRuntime) -> Result<(), Fail> {
    let bytes = vec![in rt.alloc(); 0_u8; 1_048_577]?;
    isnt_written(&rt, rt.alloc(), &plain(rt.alloc(), &bytes))?;
    let out = written_of(rt.alloc(), &plain(rt.alloc(), &bytes[1..]))?;
    same(&rt, "length", out.len(), 6 + 1_048_592);
    Ok(())
}
