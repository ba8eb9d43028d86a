//! Accesses at the edges, and what they leave.

use crate::tests::same;
use rt_exec::mem::{AccessFault, NewRamFault, Ram};
use rt_words::{MAX_RAM, RAM_BASE};
use std::alloc::Global;
use std::process::Abort;
use std::test::Fail;

mod split;

#[test]
fn starts_as_zero_bytes(rt: HostRuntime) -> Result<(), Fail> {
    let ram = Ram::new(rt.alloc(), 16)?;
    same(&rt, "length", ram.len(), 16);
    let bytes = ram.slice(RAM_BASE, 16);
    same(&rt, "bytes", bytes, Some([0u8; 16].as_slice()));
    Ok(())
}

static OTHER_SIZES: [u32; 10] = [
    0,
    2,
    3,
    5,
    6,
    18,
    MAX_RAM - 1,
    MAX_RAM + 4,
    0x8000_0000,
    0xFFFF_FFFC,
];

#[test]
fn refuses_other_sizes(rt: HostRuntime) -> Result<(), Fail> {
    for size in &OTHER_SIZES {
        let fault = Ram::new(rt.alloc(), *size).err();
        same(&rt, *size, fault, Some(NewRamFault::BadSize));
    }
    for size in &[4, 8, 64, 65_536, MAX_RAM] {
        same(&rt, "a length", Ram::new(rt.alloc(), *size)?.len(), *size);
    }
    Ok(())
}

fn loads_of_all_sizes(rt: &impl Abort, ram: &Ram) {
    same(rt, "byte 4", ram.load8(0x8000_0004), Ok(0x50));
    same(rt, "byte 7", ram.load8(0x8000_0007), Ok(0x80));
    same(rt, "half 4", ram.load16(0x8000_0004), Ok(0x6050));
    same(rt, "half 6", ram.load16(0x8000_0006), Ok(0x8070));
    same(rt, "word 4", ram.load32(0x8000_0004), Ok(0x8070_6050));
}

#[test]
fn loads_low_byte_first(rt: HostRuntime) -> Result<(), Fail> {
    let mut ram = Ram::new(rt.alloc(), 16)?;
    ram.store32(0x8000_0004, 0x8070_6050)?;
    loads_of_all_sizes(&rt, &ram);
    ram.store16(0x8000_0006, 0x1234)?;
    ram.store8(0x8000_0005, 0xAB)?;
    same(&rt, "4", ram.load32(0x8000_0004), Ok(0x1234_AB50));
    same(&rt, "0", ram.load32(0x8000_0000), Ok(0));
    same(&rt, "8", ram.load32(0x8000_0008), Ok(0));
    Ok(())
}

/// Multiples of 4 outside 16 bytes of RAM.
static OUTSIDE: [u32; 4] = [0, 0x7FFF_FFFC, 0x8000_0010, 0xFFFF_FFFC];

/// Addresses that are no multiples of 2, in RAM and outside.
static ODD: [u32; 6] = [
    1,
    0x7FFF_FFFF,
    0x8000_0001,
    0x8000_000F,
    0x8000_0011,
    0xFFFF_FFFF,
];

/// Loads from outside, and from where they aren't aligned.
fn loads_fault(rt: &impl Abort, ram: &Ram) {
    let fault = AccessFault::LoadAccess;
    for outside in &OUTSIDE {
        same(rt, *outside, ram.load8(*outside), Err(fault));
        same(rt, *outside, ram.load16(*outside), Err(fault));
        same(rt, *outside, ram.load32(*outside), Err(fault));
    }
    let fault = AccessFault::LoadMisaligned;
    for odd in &ODD {
        same(rt, *odd, ram.load16(*odd), Err(fault));
        same(rt, *odd, ram.load32(*odd), Err(fault));
    }
    same(rt, "by 2", ram.load32(0x8000_0002), Err(fault));
    let fault = AccessFault::LoadAccess;
    same(rt, "a byte", ram.load8(0xFFFF_FFFF), Err(fault));
}

#[test]
fn loads_fault_at_the_edges(rt: HostRuntime) -> Result<(), Fail> {
    let mut ram = Ram::new(rt.alloc(), 16)?;
    ram.store8(0x8000_0000, 1)?;
    ram.store8(0x8000_000F, 2)?;
    same(&rt, "the first", ram.load8(0x8000_0000), Ok(1));
    same(&rt, "the last", ram.load8(0x8000_000F), Ok(2));
    same(&rt, "a half", ram.load16(0x8000_000E), Ok(0x0200));
    same(&rt, "a word", ram.load32(0x8000_000C), Ok(0x0200_0000));
    loads_fault(&rt, &ram);
    Ok(())
}

/// The same of stores, in RAM at other places.
static ODD_STORES: [u32; 6] = [
    1,
    0x7FFF_FFFF,
    0x8000_000D,
    0x8000_000F,
    0x8000_0011,
    0xFFFF_FFFF,
];

fn stores_fault(rt: &impl Abort, ram: &mut Ram) {
    let fault = AccessFault::StoreAccess;
    for outside in &OUTSIDE {
        same(rt, *outside, ram.store8(*outside, 0xFF), Err(fault));
        same(rt, *outside, ram.store16(*outside, 0xFFFF), Err(fault));
        same(rt, *outside, ram.store32(*outside, 0xFFFF_FFFF), Err(fault));
    }
    let fault = AccessFault::StoreMisaligned;
    for odd in &ODD_STORES {
        same(rt, *odd, ram.store16(*odd, 0xFFFF), Err(fault));
        same(rt, *odd, ram.store32(*odd, 0xFFFF_FFFF), Err(fault));
    }
    let stored = ram.store32(0x8000_000E, 0xFFFF_FFFF);
    same(rt, "by 2", stored, Err(fault));
}

/// What RAM holds but for its last word.
static LAST_WORD: [u8; 16] = [0, 0, 0, 0, 0, 0, 0, 0, 0, 0, 0, 0, 1, 2, 3, 4];

#[test]
fn faulting_stores_change_nothing(rt: HostRuntime) -> Result<(), Fail> {
    let mut ram = Ram::new(rt.alloc(), 16)?;
    ram.store32(0x8000_000C, 0x0403_0201)?;
    stores_fault(&rt, &mut ram);
    same(&rt, "bytes", ram.bytes(), LAST_WORD.as_slice());
    Ok(())
}

/// Bytes that aren't all in 8 bytes of RAM.
static NOT_INSIDE: [(u32, u32); 5] = [
    (0x8000_0000, 9),
    (0x8000_0008, 1),
    (0x7FFF_FFFF, 2),
    (0xFFFF_FFFF, 2),
    (0x8000_0000, 0xFFFF_FFFF),
];

/// Where no bytes are lent, in RAM and outside.
static ANYWHERE: [u32; 6] = [
    0,
    0x7FFF_FFFF,
    0x8000_0000,
    0x8000_0008,
    0x8000_0009,
    0xFFFF_FFFF,
];

fn lends_nothing_else(rt: &impl Abort, ram: &Ram) {
    for (address, count) in &NOT_INSIDE {
        same(rt, *address, ram.slice(*address, *count), None);
    }
    for address in &ANYWHERE {
        let none: &[u8] = &[];
        same(rt, *address, ram.slice(*address, 0), Some(none));
    }
}

#[test]
fn lends_what_lies_in_ram(rt: HostRuntime) -> Result<(), Fail> {
    let mut ram = Ram::new(rt.alloc(), 8)?;
    ram.place(&[1, 2, 3, 4, 5]);
    let middle = ram.slice(0x8000_0001, 4);
    same(&rt, "the middle", middle, Some([2, 3, 4, 5].as_slice()));
    let whole: [u8; 8] = [1, 2, 3, 4, 5, 0, 0, 0];
    same(&rt, "all", ram.slice(RAM_BASE, 8), Some(whole.as_slice()));
    lends_nothing_else(&rt, &ram);
    Ok(())
}

/// A RAM of 8 bytes whose last two are these.
fn beef(alloc: Global) -> Result<Ram, Fail> {
    let mut ram = Ram::new(alloc, 8)?;
    ram.store16(0x8000_0006, 0xBEEF)?;
    Ok(ram)
}

#[test]
fn copies_are_their_own(rt: HostRuntime) -> Result<(), Fail> {
    let mut ram = beef(rt.alloc())?;
    let copy = ram.copy()?;
    ram.store8(0x8000_0000, 9)?;
    let bytes: [u8; 8] = [0, 0, 0, 0, 0, 0, 0xEF, 0xBE];
    same(
        &rt,
        "the copy",
        copy.slice(RAM_BASE, 8),
        Some(bytes.as_slice()),
    );
    Ok(())
}

static FAULTS: [(AccessFault, u8, &str); 4] = [
    (AccessFault::LoadMisaligned, 4, "LoadMisaligned"),
    (AccessFault::LoadAccess, 5, "LoadAccess"),
    (AccessFault::StoreMisaligned, 6, "StoreMisaligned"),
    (AccessFault::StoreAccess, 7, "StoreAccess"),
];

#[test]
fn faults_have_numbers_and_names(rt: HostRuntime) -> Result<(), Fail> {
    for (fault, number, name) in &FAULTS {
        same(&rt, *name, fault.number(), *number);
        let printed = format!(in rt.alloc(); "{fault}")?;
        same(&rt, "a name", printed.as_str(), *name);
    }
    Ok(())
}
