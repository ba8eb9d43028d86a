//! What no clause says: that calls succeed, and marks and lines from outside.

mod drawings;
mod memory;
mod plain_ticks;

use std::fmt::Debug;
use std::process::Abort;

/// Fails where both differ, and tells both, and in which case.
fn same<N: Copy + Debug, T: Copy + Debug + PartialEq>(
    rt: &impl Abort,
    case: N,
    found: T,
    expected: T,
) {
    assert_eq!(rt; found, expected, "{case:?}");
}
