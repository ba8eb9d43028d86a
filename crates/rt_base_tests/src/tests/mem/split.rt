//! Accesses at any address, whatever its alignment.

use crate::tests::same;
use rt_exec::mem::{AccessFault, Ram};
use rt_words::RAM_BASE;
use std::alloc::Global;
use std::process::Abort;
use std::test::Fail;

/// The bytes of RAM.
static BYTES: [u8; 8] = [0x10, 0x21, 0x32, 0x43, 0xd4, 0xe5, 0xf6, 0x87];

/// Addresses from which neither two nor four bytes are in RAM.
static OUTSIDE: [u32; 12] = [
    0,
    1,
    0x7fff_fffc,
    0x7fff_fffd,
    0x7fff_fffe,
    0x7fff_ffff,
    0x8000_0007,
    0x8000_0008,
    0x8000_0009,
    0xffff_fffd,
    0xffff_fffe,
    0xffff_ffff,
];

/// What a store of 0xb2a1 leaves of the bytes.
#[rattlefmt::skip]
static HALVES: [(u32, [u8; 8]); 7] = [
    (0x8000_0000, [0xa1, 0xb2, 0x32, 0x43, 0xd4, 0xe5, 0xf6, 0x87]),
    (0x8000_0001, [0x10, 0xa1, 0xb2, 0x43, 0xd4, 0xe5, 0xf6, 0x87]),
    (0x8000_0002, [0x10, 0x21, 0xa1, 0xb2, 0xd4, 0xe5, 0xf6, 0x87]),
    (0x8000_0003, [0x10, 0x21, 0x32, 0xa1, 0xb2, 0xe5, 0xf6, 0x87]),
    (0x8000_0004, [0x10, 0x21, 0x32, 0x43, 0xa1, 0xb2, 0xf6, 0x87]),
    (0x8000_0005, [0x10, 0x21, 0x32, 0x43, 0xd4, 0xa1, 0xb2, 0x87]),
    (0x8000_0006, [0x10, 0x21, 0x32, 0x43, 0xd4, 0xe5, 0xa1, 0xb2]),
];

/// What a store of 0x5ac3b2a1 leaves of the bytes.
#[rattlefmt::skip]
static WORDS: [(u32, [u8; 8]); 5] = [
    (0x8000_0000, [0xa1, 0xb2, 0xc3, 0x5a, 0xd4, 0xe5, 0xf6, 0x87]),
    (0x8000_0001, [0x10, 0xa1, 0xb2, 0xc3, 0x5a, 0xe5, 0xf6, 0x87]),
    (0x8000_0002, [0x10, 0x21, 0xa1, 0xb2, 0xc3, 0x5a, 0xf6, 0x87]),
    (0x8000_0003, [0x10, 0x21, 0x32, 0xa1, 0xb2, 0xc3, 0x5a, 0x87]),
    (0x8000_0004, [0x10, 0x21, 0x32, 0x43, 0xa1, 0xb2, 0xc3, 0x5a]),
];

fn ram_of(alloc: Global) -> Result<Ram, Fail> {
    let mut ram = Ram::new(alloc, 8)?;
    if ram.len() == 8 {
        ram.place(&BYTES);
    }
    Ok(ram)
}

static LOADED_HALVES: [u16; 7] = [0x2110, 0x3221, 0x4332, 0xd443, 0xe5d4, 0xf6e5, 0x87f6];

static LOADED_WORDS: [u32; 5] = [
    0x4332_2110,
    0xd443_3221,
    0xe5d4_4332,
    0xf6e5_d443,
    0x87f6_e5d4,
];

#[test]
fn loads_at_any_address(rt: HostRuntime) -> Result<(), Fail> {
    let ram = ram_of(rt.alloc())?;
    for (address, half) in (RAM_BASE..).zip(&LOADED_HALVES) {
        same(&rt, address, ram.load16_any(address), Ok(*half));
    }
    for (address, word) in (RAM_BASE..).zip(&LOADED_WORDS) {
        same(&rt, address, ram.load32_any(address), Ok(*word));
    }
    Ok(())
}

fn stores_half(rt: &impl Abort, ram: &mut Ram, address: u32, bytes: &[u8]) {
    same(rt, address, ram.store16_any(address, 0xb2a1), Ok(()));
    same(rt, address, ram.bytes(), bytes);
    same(rt, address, ram.load16_any(address), Ok(0xb2a1));
}

#[test]
fn stores_of_two_bytes_at_any_address(rt: HostRuntime) -> Result<(), Fail> {
    for (address, bytes) in &HALVES {
        let mut ram = ram_of(rt.alloc())?;
        stores_half(&rt, &mut ram, *address, bytes);
    }
    Ok(())
}

fn stores_word(rt: &impl Abort, ram: &mut Ram, address: u32, bytes: &[u8]) {
    same(rt, address, ram.store32_any(address, 0x5ac3_b2a1), Ok(()));
    same(rt, address, ram.bytes(), bytes);
    same(rt, address, ram.load32_any(address), Ok(0x5ac3_b2a1));
}

#[test]
fn stores_of_four_bytes_at_any_address(rt: HostRuntime) -> Result<(), Fail> {
    for (address, bytes) in &WORDS {
        let mut ram = ram_of(rt.alloc())?;
        stores_word(&rt, &mut ram, *address, bytes);
    }
    Ok(())
}

/// Addresses from which two bytes are in RAM, and not four.
static TOO_LATE: [u32; 2] = [0x8000_0005, 0x8000_0006];

#[test]
fn loads_outside_at_any_address(rt: HostRuntime) -> Result<(), Fail> {
    let ram = ram_of(rt.alloc())?;
    let fault = AccessFault::LoadAccess;
    for address in &OUTSIDE {
        same(&rt, *address, ram.load16_any(*address), Err(fault));
        same(&rt, *address, ram.load32_any(*address), Err(fault));
    }
    for address in &TOO_LATE {
        same(&rt, *address, ram.load32_any(*address), Err(fault));
    }
    Ok(())
}

fn half_is_refused(rt: &impl Abort, ram: &mut Ram, address: u32) {
    let fault = AccessFault::StoreAccess;
    same(rt, address, ram.store16_any(address, 0xb2a1), Err(fault));
    same(rt, address, ram.bytes(), BYTES.as_slice());
}

fn word_is_refused(rt: &impl Abort, ram: &mut Ram, address: u32) {
    let fault = AccessFault::StoreAccess;
    let stored = ram.store32_any(address, 0x5ac3_b2a1);
    same(rt, address, stored, Err(fault));
    same(rt, address, ram.bytes(), BYTES.as_slice());
}

#[test]
fn stores_outside_at_any_address(rt: HostRuntime) -> Result<(), Fail> {
    let mut ram = ram_of(rt.alloc())?;
    for address in &OUTSIDE {
        half_is_refused(&rt, &mut ram, *address);
        word_is_refused(&rt, &mut ram, *address);
    }
    for address in &TOO_LATE {
        word_is_refused(&rt, &mut ram, *address);
    }
    Ok(())
}
