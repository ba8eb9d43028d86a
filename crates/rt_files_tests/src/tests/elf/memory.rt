//! Requests for memory, of which one may be refused: with `rt try --test --fail-alloc N` the Nth.

use super::files::{ROM_AND_NAMES, ROM_AND_NAMES_OBJECT};
use crate::tests::same;
use rt_elf::{ElfFault, Made, Told, elf_object, told_symbols};
use std::alloc::Global;
use std::test::Fail;

/// Makes an object, and once more where there was no memory.
fn made_again(alloc: Global, file: &[u8]) -> Result<Made, ElfFault> {
    match elf_object(alloc, file) {
        Err(ElfFault::Memory) => elf_object(alloc, file),
        answer => answer,
    }
}

#[test]
fn objects_are_made_again(rt: HostRuntime) -> Result<(), Fail> {
    let made = made_again(rt.alloc(), &ROM_AND_NAMES)?;
    let object = ROM_AND_NAMES_OBJECT.as_slice();
    same(&rt, "object", made.bytes.as_slice(), object);
    Ok(())
}

/// Lists the symbols of a file, and once more where there was no memory.
fn told_again(alloc: Global, file: &[u8]) -> Result<Told<'_>, ElfFault> {
    match told_symbols(alloc, file) {
        Err(ElfFault::Memory) => told_symbols(alloc, file),
        answer => answer,
    }
}

/// The object has three of the symbols, and two are left out.
#[test]
fn symbols_are_told_again(rt: HostRuntime) -> Result<(), Fail> {
    let told = told_again(rt.alloc(), &ROM_AND_NAMES)?;
    same(&rt, "image", told.image_size, 24);
    same(&rt, "symbols", told.symbols.len(), 5);
    Ok(())
}
