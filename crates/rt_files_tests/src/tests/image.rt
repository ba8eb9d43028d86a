//! What no clause says: that files are read, and their faults' texts.

use crate::tests::same;
use rt_image::*;
use std::alloc::{AllocError, Global};
use std::process::Abort;
use std::test::Fail;

mod memory;
mod objects;
mod systems;
mod versions;

/// Where the image begins.
const START: u32 = 0x8000_0000;

/// The same object with the symbols `_start` and `x`.
static OBJECT_43: [u8; 43] = [
    0x52, 0x54, 0x49, 0x31, 0x00, 0x00, 0x00, 0x80, 0x08, 0x00, 0x00, 0x00, 0x02, 0x00, 0x00, 0x00,
    0x93, 0x00, 0xf0, 0xff, 0x6f, 0x00, 0x00, 0x00, 0x06, 0x00, 0x5f, 0x73, 0x74, 0x61, 0x72, 0x74,
    0x00, 0x00, 0x00, 0x80, 0x01, 0x00, 0x78, 0x04, 0x00, 0x00, 0x80,
];

static LABELS: [Symbol; 2] = [
    Symbol {
        name: b"_start",
        address: 0x8000_0000,
    },
    Symbol {
        name: b"x",
        address: 0x8000_0004,
    },
];

/// One task that runs the loop.
static SYSTEM_56: [u8; 56] = [
    0x52, 0x54, 0x53, 0x31, 0x0c, 0x00, 0x00, 0x00, 0x01, 0x00, 0x00, 0x00, 0x01, 0x00, 0x00, 0x00,
    0x03, 0x00, 0x00, 0x00, 0x00, 0x00, 0x00, 0x00, 0x40, 0x00, 0x00, 0x00, 0x18, 0x00, 0x00, 0x00,
    0x52, 0x54, 0x49, 0x31, 0x00, 0x00, 0x00, 0x80, 0x08, 0x00, 0x00, 0x00, 0x00, 0x00, 0x00, 0x00,
    0x93, 0x00, 0xf0, 0xff, 0x6f, 0x00, 0x00, 0x00,
];

/// A file, and a byte more.
fn longer(alloc: Global, file: &[u8]) -> Result<Vec<u8>, AllocError> {
    let mut longer = Vec::from_slice(alloc, file)?;
    longer.push(0)?;
    Ok(longer)
}

/// A file with other bytes from a place on.
fn changed(alloc: Global, file: &[u8], place: usize, bytes: &[u8]) -> Result<Vec<u8>, AllocError> {
    let mut changed = Vec::from_slice(alloc, file)?;
    for (byte, other) in changed.iter_mut().skip(place).zip(bytes) {
        *byte = *other;
    }
    Ok(changed)
}

fn refusal(alloc: Global, file: &[u8]) -> Option<ReadFault> {
    read_object(alloc, file).err()
}

/// Looks whether a file is refused as an object.
fn refuses(rt: &impl Abort, alloc: Global, file: &[u8], fault: ImageFault) {
    let expected = ReadFault::Fault(fault);
    same(rt, file, refusal(alloc, file), Some(expected));
}

/// A task of a size of RAM, with an object of so many bytes.
fn task_of(alloc: Global, ram: u32, bytes: &[u8]) -> Task<'_> {
    let object = Object {
        entry: 0,
        bytes,
        symbols: Vec::new(alloc),
    };
    Task {
        budget: 0,
        period: 0,
        start: 0,
        split: false,
        ram,
        object,
    }
}

static READ_FAULTS: [(ImageFault, u8, &str); 5] = [
    (ImageFault::BadMagic, 1, "image: BadMagic"),
    (ImageFault::Truncated, 2, "image: Truncated"),
    (ImageFault::Trailing, 3, "image: Trailing"),
    (ImageFault::BadField, 4, "image: BadField"),
    (ImageFault::NotCanonical, 5, "image: NotCanonical"),
];

#[test]
fn texts_and_numbers(rt: HostRuntime) -> Result<(), Fail> {
    for (fault, number, text) in &READ_FAULTS {
        same(&rt, *text, fault.number(), *number);
        let printed = format!(in rt.alloc(); "{}", ReadFault::Fault(*fault))?;
        same(&rt, "a text", printed.as_str(), *text);
    }
    Ok(())
}

#[test]
fn texts_of_writing(rt: HostRuntime) -> Result<(), Fail> {
    let printed = format!(in rt.alloc(); "{} {}", WriteFault::BadField, WriteFault::NoMemory)?;
    let expected = "image: BadField memory";
    same(&rt, "a text", printed.as_str(), expected);
    Ok(())
}
