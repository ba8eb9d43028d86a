//! The lowest crates, beside values from elsewhere: sinks, instructions, RAM, attempts, and assembly text.

mod exec;
mod isa;
mod mem;
mod sink;
mod text;

use std::fmt::Debug;
use std::process::Abort;

/// Fails where both differ, and says both, and in which case.
fn same<N: Copy + Debug, T: Copy + PartialEq>(rt: &impl Abort, case: N, found: T, expected: T) {
    assert!(rt; found == expected, "{case:?}");
}
