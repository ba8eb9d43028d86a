//! Files that were worked out by hand, and what is refused.

use crate::tests::same;
use rt_elf::{ElfFault, elf_object};
use std::alloc::{AllocError, Global};
use std::process::Abort;
use std::test::Fail;

mod attributes;
mod bytes;
mod files;
mod memory;
mod names;
mod reader;
mod reader_symbols;
mod segments;

use files::{ONE_SEGMENT, ONE_SEGMENT_OBJECT, ROM_AND_NAMES, ROM_AND_NAMES_OBJECT};

/// Why a file is refused.
fn refusal(alloc: Global, file: &[u8]) -> Option<ElfFault> {
    elf_object(alloc, file).err()
}

/// Looks at the object file of a file, and at how many names are left out.
fn makes(
    rt: &impl Abort,
    alloc: Global,
    file: &[u8],
    object: &[u8],
    left_out: u64,
) -> Result<(), ElfFault> {
    let made = elf_object(alloc, file)?;
    same(rt, "object", made.bytes.as_slice(), object);
    same(rt, "left out", made.left_out, left_out);
    Ok(())
}

#[test]
fn one_segment(rt: HostRuntime) -> Result<(), Fail> {
    makes(&rt, rt.alloc(), &ONE_SEGMENT, &ONE_SEGMENT_OBJECT, 0)?;
    Ok(())
}

#[test]
fn rom_and_names(rt: HostRuntime) -> Result<(), Fail> {
    makes(&rt, rt.alloc(), &ROM_AND_NAMES, &ROM_AND_NAMES_OBJECT, 2)?;
    Ok(())
}

/// Places of the first file, each with another byte there and the refusal of that.
static CHANGES: [(usize, u8, ElfFault); 24] = [
    (0, 0x7e, ElfFault::BadMagic),
    (3, 0x47, ElfFault::BadMagic),
    (4, 2, ElfFault::Not32Bit),
    (5, 2, ElfFault::NotLittleEndian),
    (16, 1, ElfFault::Relocatable),
    (16, 3, ElfFault::Shared),
    (16, 4, ElfFault::NotExecutable),
    (18, 0x28, ElfFault::NotRiscV),
    (36, 1, ElfFault::Compressed),
    (36, 3, ElfFault::Compressed),
    (36, 2, ElfFault::FloatAbi),
    (36, 4, ElfFault::FloatAbi),
    (36, 6, ElfFault::FloatAbi),
    (36, 8, ElfFault::OtherAbi),
    (36, 0x10, ElfFault::OtherAbi),
    (42, 0x38, ElfFault::BadHeader),
    (44, 0, ElfFault::Empty),
    (44, 2, ElfFault::Truncated),
    (52, 2, ElfFault::Dynamic),
    (52, 3, ElfFault::Dynamic),
    (52, 6, ElfFault::Empty),
    (68, 5, ElfFault::Truncated),
    (68, 9, ElfFault::BadSegment),
    (68, 0, ElfFault::Empty),
];

/// Writes a byte at a place of a file, if it is there.
fn set(file: &mut [u8], place: usize, byte: u8) {
    if let Some(there) = file.get_mut(place) {
        *there = byte;
    }
}

/// The refusal of a file with another byte at a place.
fn refusal_with(
    alloc: Global,
    file: &[u8],
    place: usize,
    byte: u8,
) -> Result<Option<ElfFault>, AllocError> {
    let mut file = Vec::from_slice(alloc, file)?;
    set(&mut file, place, byte);
    Ok(refusal(alloc, &file))
}

#[test]
fn one_byte_changed(rt: HostRuntime) -> Result<(), Fail> {
    for (place, byte, fault) in &CHANGES {
        let found = refusal_with(rt.alloc(), &ONE_SEGMENT, *place, *byte)?;
        same(&rt, (*place, *byte), found, Some(*fault));
    }
    Ok(())
}

#[test]
fn cut_short(rt: HostRuntime) {
    for len in 0..ONE_SEGMENT.len() {
        let found = refusal(rt.alloc(), &ONE_SEGMENT[..len]);
        same(&rt, len, found, Some(ElfFault::Truncated));
    }
}

/// Bytes that are written into the first file one after the other, each with the refusal then.
static IN_ORDER: [(usize, u8, ElfFault); 6] = [
    (44, 0, ElfFault::Empty),
    (36, 1, ElfFault::Compressed),
    (16, 1, ElfFault::Relocatable),
    (18, 0, ElfFault::NotRiscV),
    (5, 0, ElfFault::NotLittleEndian),
    (4, 0, ElfFault::Not32Bit),
];

#[test]
fn in_order_of_the_rows(rt: HostRuntime) -> Result<(), Fail> {
    let mut file = Vec::from_slice(rt.alloc(), &ONE_SEGMENT)?;
    // without headers their size doesn't matter
    set(&mut file, 42, 0);
    for (place, byte, fault) in &IN_ORDER {
        set(&mut file, *place, *byte);
        same(&rt, *place, refusal(rt.alloc(), &file), Some(*fault));
    }
    Ok(())
}

#[test]
fn short_files(rt: HostRuntime) {
    let found = refusal(rt.alloc(), b"\x7fELF\x02");
    same(&rt, "five bytes", found, Some(ElfFault::Truncated));
    let found = refusal(rt.alloc(), b"\x7fe");
    same(&rt, "two bytes", found, Some(ElfFault::BadMagic));
}

/// The second file with so many zeros behind it.
fn with_zeros(alloc: Global, count: usize) -> Result<Vec<u8>, AllocError> {
    let mut file = Vec::from_slice(alloc, &ROM_AND_NAMES)?;
    let zeros = vec![in alloc; 0u8; count]?;
    file.extend_from_slice(&zeros)?;
    Ok(file)
}

#[test]
fn zeros_behind_a_file(rt: HostRuntime) -> Result<(), Fail> {
    let file = with_zeros(rt.alloc(), 67_108_433)?;
    makes(&rt, rt.alloc(), &file, &ROM_AND_NAMES_OBJECT, 2)?;
    let file = with_zeros(rt.alloc(), 67_108_434)?;
    let found = refusal(rt.alloc(), &file);
    same(&rt, "too many", found, Some(ElfFault::TooLarge));
    Ok(())
}

static TEXTS: [(ElfFault, &str); 4] = [
    (ElfFault::TooLarge, "elf: TooLarge"),
    (ElfFault::Not32Bit, "elf: Not32Bit"),
    (ElfFault::TooManySymbols, "elf: TooManySymbols"),
    (ElfFault::Memory, "memory"),
];

#[test]
fn texts_of_faults(rt: HostRuntime) -> Result<(), Fail> {
    for (fault, text) in &TEXTS {
        let shown = format!(in rt.alloc(); "{fault}")?;
        same(&rt, "a text", shown.as_str(), *text);
    }
    Ok(())
}

/// With each allocation refused in turn, no other fault may be seen.
#[test]
fn wants_memory(rt: HostRuntime) {
    match elf_object(rt.alloc(), &ROM_AND_NAMES) {
        Ok(made) => same(&rt, "bytes", made.bytes.len(), 68),
        Err(fault) => same(&rt, "fault", fault, ElfFault::Memory),
    }
}
