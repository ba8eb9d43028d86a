//! Files beside the two: each byte changed to each other, and each length.

use super::files::{ONE_SEGMENT, ROM_AND_NAMES};
use super::reader::object_by_rules;
use super::set;
use crate::tests::same;
use rt_elf::{Made, elf_object};
use std::alloc::{AllocError, Global};
use std::test::Fail;

/// Whether the call makes of a file what the rules make of it.
fn agrees(alloc: Global, file: &[u8]) -> Result<bool, AllocError> {
    let wanted = object_by_rules(alloc, file)?;
    let wanted = wanted.map(|(bytes, left_out)| Made { bytes, left_out });
    Ok(elf_object(alloc, file) == wanted)
}

/// The first place, and the first byte there, with which the call and the rules don't agree.
fn first_apart(alloc: Global, whole: &[u8]) -> Result<Option<(usize, u8)>, AllocError> {
    let mut file = Vec::from_slice(alloc, whole)?;
    for (place, byte) in whole.iter().enumerate() {
        for other in 0..=255 {
            set(&mut file, place, other);
            if !agrees(alloc, &file)? {
                return Ok(Some((place, other)));
            }
        }
        set(&mut file, place, *byte);
    }
    Ok(None)
}

/// The first length to which a file is cut where they don't agree.
fn first_cut_apart(alloc: Global, whole: &[u8]) -> Result<Option<usize>, AllocError> {
    for len in 0..=whole.len() {
        if !agrees(alloc, &whole[..len])? {
            return Ok(Some(len));
        }
    }
    Ok(None)
}

#[test]
fn each_byte_of_one_segment(rt: HostRuntime) -> Result<(), Fail> {
    let found = first_apart(rt.alloc(), &ONE_SEGMENT)?;
    same(&rt, "apart", found, None);
    Ok(())
}

#[test]
fn each_byte_of_rom_and_names(rt: HostRuntime) -> Result<(), Fail> {
    let found = first_apart(rt.alloc(), &ROM_AND_NAMES)?;
    same(&rt, "apart", found, None);
    Ok(())
}

#[test]
fn each_length(rt: HostRuntime) -> Result<(), Fail> {
    let found = first_cut_apart(rt.alloc(), &ONE_SEGMENT)?;
    same(&rt, "one segment", found, None);
    let found = first_cut_apart(rt.alloc(), &ROM_AND_NAMES)?;
    same(&rt, "names", found, None);
    Ok(())
}
