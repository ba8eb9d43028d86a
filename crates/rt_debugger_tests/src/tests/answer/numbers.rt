//! Registers, and bytes of RAM and of texts.

use super::{same_found, same_payload};
use crate::tests::same;
use rt_packet::answer::{
    TaskNumbers, bytes_answer, console_answer, memory_answer, register_answer, registers_answer,
};

/// x10 is 0x8000001c, x11 is 3, x17 is 1.
static X: [u32; 32] = [
    0,
    0,
    0,
    0,
    0,
    0,
    0,
    0,
    0,
    0,
    0x8000_001c,
    3,
    0,
    0,
    0,
    0,
    0,
    1,
    0,
    0,
    0,
    0,
    0,
    0,
    0,
    0,
    0,
    0,
    0,
    0,
    0,
    0,
];

/// Indices, and the digits of their values: of x10, x17, pc, the tick, the budget and the deadline.
static NUMBERS: [(u64, Option<&[u8]>); 11] = [
    (0, Some(b"00000000")),
    (10, Some(b"1c000080")),
    (17, Some(b"01000000")),
    (31, Some(b"00000000")),
    (0x20, Some(b"10000080")),
    (0x21, Some(b"0400000000000000")),
    (0x22, Some(b"02000000")),
    (0x23, Some(b"0c00000000000000")),
    (0x24, None),
    (0x1_0000_0000, None),
    (0xffff_ffff_ffff_ffff, None),
];

#[test]
fn all_registers(rt: HostRuntime) {
    let expected = b"0000000000000000000000000000000000000000\
        0000000000000000000000000000000000000000\
        1c00008003000000\
        0000000000000000000000000000000000000000\
        01000000\
        00000000000000000000000000000000000000000000000000000000\
        00000000000000000000000000000000000000000000000000000000\
        10000080";
    same(&rt, "digits", expected.len(), 264);
    same_payload(
        &rt,
        "x and pc",
        &registers_answer(&X, 0x8000_0010),
        expected,
    );
}

#[test]
fn single_numbers(rt: HostRuntime) {
    let numbers = TaskNumbers {
        x: &X,
        pc: 0x8000_0010,
        tick: 4,
        budget: 2,
        deadline: 12,
    };
    for (n, expected) in &NUMBERS {
        same_found(&rt, *n, &register_answer(&numbers, *n), *expected);
    }
}

#[test]
fn numbers_of_64_bits(rt: HostRuntime) {
    let numbers = TaskNumbers {
        x: &X,
        pc: 0,
        tick: 0x0102_0304_0506_0708,
        budget: 0x0a0b_0c0d,
        deadline: 0x1122_3344_5566_7788,
    };
    same_found(
        &rt,
        "tick",
        &register_answer(&numbers, 0x21),
        Some(b"0807060504030201"),
    );
    same_found(
        &rt,
        "budget",
        &register_answer(&numbers, 0x22),
        Some(b"0d0c0b0a"),
    );
    same_found(
        &rt,
        "deadline",
        &register_answer(&numbers, 0x23),
        Some(b"8877665544332211"),
    );
}

/// RAM of 64 bytes, whose first three are `hi` and an LF.
fn ram() -> [u8; 64] {
    let mut ram = [0; 64];
    ram[0] = b'h';
    ram[1] = b'i';
    ram[2] = b'\n';
    ram
}

/// Addresses, counts, and the digits of the bytes.
static READ: [(u64, u64, Option<&[u8]>); 11] = [
    (0x8000_0000, 3, Some(b"68690a")),
    (0x8000_0001, 1, Some(b"69")),
    (0x8000_0002, 4, Some(b"0a000000")),
    (0x8000_0000, 0, Some(b"")),
    (0x8000_003e, 8, Some(b"0000")),
    (0x8000_003f, 0xffff_ffff_ffff_ffff, Some(b"00")),
    (0x8000_0040, 8, None),
    (0x8000_0040, 0, None),
    (0x7fff_ffff, 8, None),
    (0, 1, None),
    (0x1_8000_0000, 1, None),
];

#[test]
fn bytes_of_ram(rt: HostRuntime) {
    for (address, count, expected) in &READ {
        same_found(
            &rt,
            *address,
            &memory_answer(&ram(), *address, *count),
            *expected,
        );
    }
}

/// An address, a count, and the digits of the answer.
static LENGTHS: [(u64, u64, usize); 5] = [
    (0x8000_0000, 1999, 3998),
    (0x8000_0000, 2000, 4000),
    (0x8000_0000, 2001, 4000),
    (0x8000_0063, 3000, 4000),
    (0x8000_0065, 3000, 3998),
];

#[test]
fn at_most_2000_bytes_of_ram(rt: HostRuntime) {
    let ram = [7; 2100];
    for (address, count, expected) in &LENGTHS {
        let payload = memory_answer(&ram, *address, *count);
        let found = payload.as_ref().map(|payload| payload.len());
        same(&rt, (*address, *count), found, Some(*expected));
    }
}

#[test]
fn texts(rt: HostRuntime) {
    same_payload(&rt, "bytes", &bytes_answer(b"hi\n"), b"68690a");
    same_payload(&rt, "no bytes", &bytes_answer(b""), b"");
    same_payload(
        &rt,
        "line",
        &console_answer(b"tick 5 next 0 80000014\n"),
        b"O7469636b2035206e65787420302038303030303031340a",
    );
    same_payload(&rt, "no line", &console_answer(b""), b"O");
}

#[test]
fn long_texts(rt: HostRuntime) {
    same(&rt, "2047", bytes_answer(&[1; 2047]).len(), 4094);
    same(&rt, "2049", bytes_answer(&[1; 2049]).len(), 4096);
    same(&rt, "1023", console_answer(&[1; 1023]).len(), 2047);
    same(&rt, "1025", console_answer(&[1; 1025]).len(), 2049);
}
