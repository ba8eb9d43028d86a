//! Reports, traces, pictures and lines of ticks, worked out by hand; what no transcript reaches of the programs.

mod chart;
mod programs;
mod report;
mod trace;

use std::fmt::Debug;
use std::process::Abort;

/// Fails where both differ, and says both, and in which case.
fn same<N: Copy + Debug, T: Copy + PartialEq>(rt: &impl Abort, case: N, found: T, expected: T) {
    assert!(rt; found == expected, "{case:?}");
}
