//! The description, a text of 1807 bytes.

use crate::tests::same;
use rt_packet::answer::{Payload, description_answer};

/// Offsets and counts, and the mark and the number of bytes of the piece.
static PIECES: [(u64, u64, u8, usize); 13] = [
    (0, 0, b'm', 0),
    (0, 1, b'm', 1),
    (0, 1806, b'm', 1806),
    (0, 1807, b'l', 1807),
    (0, 2048, b'l', 1807),
    (0, 0xffff_ffff_ffff_ffff, b'l', 1807),
    (1000, 806, b'm', 806),
    (1000, 807, b'l', 807),
    (1806, 1, b'l', 1),
    (1806, 0, b'm', 0),
    (1807, 0, b'l', 0),
    (1807, 100, b'l', 0),
    (0xffff_ffff_ffff_ffff, 0xffff_ffff_ffff_ffff, b'l', 0),
];

#[test]
fn pieces(rt: HostRuntime) {
    for (offset, count, mark, size) in &PIECES {
        let piece = description_answer(*offset, *count);
        same(&rt, *offset, piece.as_slice().first(), Some(mark));
        same(&rt, *offset, piece.len(), *size + 1);
    }
}

/// Bytes of the text, and what stands there.
static PARTS: [(u64, &[u8]); 13] = [
    (
        0,
        b"<?xml version=\"1.0\"?><!DOCTYPE target SYSTEM \"gdb-target.dtd\">",
    ),
    (62, b"<target version=\"1.0\">"),
    (84, b"<architecture>riscv:rv32</architecture>"),
    (123, b"<feature name=\"org.gnu.gdb.riscv.cpu\">"),
    (161, b"<reg name=\"zero\" bitsize=\"32\" regnum=\"0\"/>"),
    (203, b"<reg name=\"ra\" bitsize=\"32\" regnum=\"1\"/>"),
    (483, b"<reg name=\"fp\" bitsize=\"32\" regnum=\"8\"/>"),
    (1426, b"<reg name=\"t6\" bitsize=\"32\" regnum=\"31\"/>"),
    (
        1467,
        b"<reg name=\"pc\" bitsize=\"32\" regnum=\"32\" type=\"code_ptr\"/></feature>",
    ),
    (1534, b"<feature name=\"naphluy.machine\">"),
    (
        1566,
        b"<reg name=\"tick\" bitsize=\"64\" regnum=\"33\" type=\"uint64\" group=\"system\"/>",
    ),
    (
        1712,
        b"<reg name=\"deadline\" bitsize=\"64\" regnum=\"35\" type=\"uint64\" group=\"system\"/>",
    ),
    (1788, b"</feature></target>"),
];

#[test]
fn its_text(rt: HostRuntime) {
    for (offset, text) in &PARTS {
        let piece = description_answer(*offset, text.len() as u64);
        same(&rt, *offset, piece.as_slice().get(1..), Some(*text));
    }
}

/// Whether a piece is this one and, behind it, that one.
fn meet(whole: &Payload, first: &Payload, second: &Payload) -> bool {
    whole.as_slice().get(1..first.len()) == first.as_slice().get(1..)
        && whole.as_slice().get(first.len()..) == second.as_slice().get(1..)
}

static CUTS: [u64; 7] = [0, 1, 62, 511, 1000, 1806, 1807];

#[test]
fn pieces_meet(rt: HostRuntime) {
    let whole = description_answer(0, 2048);
    for cut in &CUTS {
        let first = description_answer(0, *cut);
        let second = description_answer(*cut, 2048);
        same(&rt, *cut, meet(&whole, &first, &second), true);
    }
}
