//! The names of registers and fence sets, and the look-up of a name in a table.

ghost use Rattle.std.specs.Prelude.{◌≡◌, true, map, IfOk};
ghost use Rattle.rt_text.specs.Names.{value_of, register_of, fence_set_of};
ghost use Rattle.rt_text.specs.Working.Rows.{seen_row, mark, are_placed};

use crate::fence_set::FenceSet;
use rt_isa::Reg;
use std::alloc::{AllocError, Global};

/// The registers by number, and by their names in the calling convention.
static REGISTERS: [(&[u8], u8); 65] = [
    (b"x0", 0),
    (b"x1", 1),
    (b"x2", 2),
    (b"x3", 3),
    (b"x4", 4),
    (b"x5", 5),
    (b"x6", 6),
    (b"x7", 7),
    (b"x8", 8),
    (b"x9", 9),
    (b"x10", 10),
    (b"x11", 11),
    (b"x12", 12),
    (b"x13", 13),
    (b"x14", 14),
    (b"x15", 15),
    (b"x16", 16),
    (b"x17", 17),
    (b"x18", 18),
    (b"x19", 19),
    (b"x20", 20),
    (b"x21", 21),
    (b"x22", 22),
    (b"x23", 23),
    (b"x24", 24),
    (b"x25", 25),
    (b"x26", 26),
    (b"x27", 27),
    (b"x28", 28),
    (b"x29", 29),
    (b"x30", 30),
    (b"x31", 31),
    (b"zero", 0),
    (b"ra", 1),
    (b"sp", 2),
    (b"gp", 3),
    (b"tp", 4),
    (b"t0", 5),
    (b"t1", 6),
    (b"t2", 7),
    (b"s0", 8),
    (b"fp", 8),
    (b"s1", 9),
    (b"a0", 10),
    (b"a1", 11),
    (b"a2", 12),
    (b"a3", 13),
    (b"a4", 14),
    (b"a5", 15),
    (b"a6", 16),
    (b"a7", 17),
    (b"s2", 18),
    (b"s3", 19),
    (b"s4", 20),
    (b"s5", 21),
    (b"s6", 22),
    (b"s7", 23),
    (b"s8", 24),
    (b"s9", 25),
    (b"s10", 26),
    (b"s11", 27),
    (b"t3", 28),
    (b"t4", 29),
    (b"t5", 30),
    (b"t6", 31),
];

/// Where each of these names stands in the table, by its mark.
static REGISTER_PLACES: [u8; 256] = [
    0, 0, 0, 0, 44, 57, 0, 0, 18, 0, 0, 0, 0, 0, 0, 45, 58, 0, 0, 19, 0, 0, 0, 0, 0, 0, 46, 0, 0,
    0, 0, 0, 0, 41, 0, 0, 1, 47, 0, 0, 0, 0, 37, 0, 0, 20, 0, 2, 48, 0, 0, 0, 0, 38, 0, 0, 21, 0,
    3, 49, 0, 0, 0, 0, 39, 0, 0, 22, 0, 4, 50, 0, 0, 0, 33, 61, 0, 0, 23, 0, 5, 0, 0, 0, 0, 0, 62,
    0, 24, 0, 0, 6, 0, 0, 0, 0, 63, 0, 0, 25, 0, 0, 7, 0, 0, 0, 34, 64, 0, 0, 26, 32, 0, 8, 0, 0,
    0, 0, 0, 0, 0, 27, 0, 0, 9, 0, 0, 0, 0, 0, 0, 0, 28, 0, 0, 59, 0, 0, 0, 0, 0, 0, 0, 29, 0, 0,
    60, 0, 0, 0, 0, 0, 0, 0, 0, 0, 35, 0, 0, 0, 0, 0, 0, 0, 0, 0, 0, 0, 0, 30, 0, 0, 0, 0, 40, 0,
    0, 10, 0, 31, 0, 0, 0, 0, 0, 42, 0, 0, 11, 0, 0, 0, 0, 0, 0, 0, 51, 0, 0, 12, 0, 0, 0, 0, 0, 0,
    0, 52, 0, 0, 13, 0, 0, 0, 0, 0, 0, 0, 53, 0, 0, 14, 0, 0, 0, 0, 0, 0, 0, 54, 36, 0, 15, 0, 0,
    0, 0, 0, 0, 0, 55, 0, 0, 16, 0, 0, 0, 0, 0, 43, 0, 56, 0, 17, 0, 0,
];

/// The sets of accesses that a FENCE orders, as the four bits of a word: i 8, o 4, r 2, w 1.
static FENCE_SETS: [(&[u8], u8); 15] = [
    (b"w", 1),
    (b"r", 2),
    (b"rw", 3),
    (b"o", 4),
    (b"ow", 5),
    (b"or", 6),
    (b"orw", 7),
    (b"i", 8),
    (b"iw", 9),
    (b"ir", 10),
    (b"irw", 11),
    (b"io", 12),
    (b"iow", 13),
    (b"ior", 14),
    (b"iorw", 15),
];

/// The mark of a name. By this factor no two names of a table have the same.
fn mark(name: &[u8]) -> u8
    ensures { result ≡ mark name.now }
{
    let mut sum: u64 = 0;
    for byte in name {
        sum = (sum + u64::from(*byte)) * 183_630_065 % 0x1_0000_0000;
    }
    (sum / 0x100_0000) as u8
}

/// The value that stands beside a name in a table whose names stand at the places of their marks.
#[inline(always)]
pub(crate) fn value_at<V: Copy>(table: &[(&[u8], V)], places: &[u8; 256], name: &[u8]) -> Option<V>
    requires { are_placed places.now 0 (map seen_row table.now) ≡ true }
    ensures { result ≡ value_of (map seen_row table.now) name.now }
{
    let place = usize::from(places[usize::from(mark(name))]);
    if place >= table.len() {
        return None;
    }
    let (row_name, value) = &table[place];
    if name == *row_name {
        Some(*value)
    } else {
        None
    }
}

/// The value that stands beside a name in a table.
pub(crate) fn value_of<V: Copy>(table: &[(&[u8], V)], name: &[u8]) -> Option<V>
    ensures { result ≡ value_of (map seen_row table.now) name.now }
{
    for (row_name, value) in table {
        if name == *row_name {
            return Some(*value);
        }
    }
    None
}

/// The names of a table.
pub(crate) fn names_in<V: Copy>(
    alloc: Global,
    table: &[(&'static [u8], V)],
) -> Result<Vec<&'static [u8]>, AllocError>
    ensures { IfOk result (λ names. map (λ name. name.now) names.items ≡ map (λ row. row.0) (map seen_row table.now)) }
{
    let mut names = Vec::with_capacity(alloc, table.len())?;
    for (name, _) in table {
        names.push(*name)?;
    }
    Ok(names)
}

/// The register of this name.
pub(crate) fn register_of(name: &[u8]) -> Option<Reg>
    ensures { result ≡ register_of name.now }
{
    Reg::new(value_at(&REGISTERS, &REGISTER_PLACES, name)?)
}

/// The fence set of these letters.
pub(crate) fn fence_set_of(name: &[u8]) -> Option<FenceSet>
    ensures { result ≡ fence_set_of name.now }
{
    FenceSet::new(value_of(&FENCE_SETS, name)?)
}
