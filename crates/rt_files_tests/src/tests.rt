//! Objects, systems, sets, and what compilers and linkers make, all worked out by hand.

mod elf;
mod flat;
mod image;
mod naming;
mod set;

use std::fmt::Debug;
use std::process::Abort;

/// `addi x1,x0,-1`, and a jump to itself.
static LOOP_FILE: [u8; 24] = [
    0x52, 0x54, 0x49, 0x31, 0x00, 0x00, 0x00, 0x80, 0x08, 0x00, 0x00, 0x00, 0x00, 0x00, 0x00, 0x00,
    0x93, 0x00, 0xf0, 0xff, 0x6f, 0x00, 0x00, 0x00,
];

/// Fails where both differ, and says both, and in which case.
fn same<N: Copy + Debug, T: Copy + PartialEq>(rt: &impl Abort, case: N, found: T, expected: T) {
    assert!(rt; found == expected, "{case:?}");
}
