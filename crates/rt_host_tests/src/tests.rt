//! The program on hosts that fail, whose devices fill, or which are refused memory: what no transcript reaches.

mod desk;
mod devices;
mod files;
mod memory;
mod perform;
mod programs;
mod reading;
mod session;
mod terminals;

use crate::host_in_memory::Record;
use std::fmt::Debug;
use std::process::{Abort, ExitCode};

/// Fails where both differ, and tells both, and in which case.
fn same<N: Copy + Debug, T: Copy + Debug + PartialEq>(
    rt: &impl Abort,
    case: N,
    found: T,
    expected: T,
) {
    assert_eq!(rt; found, expected, "{case:?}");
}

/// Looks at the exit status of a program, and at what it told.
fn ends(rt: &impl Abort, status: ExitCode, record: &Record, want: u8, told: &str) {
    same(rt, "told", record.told.as_slice(), told.as_bytes());
    same(rt, told, status == ExitCode::from(want), true);
}

/// Looks whether a program printed nothing, and wrote nothing.
fn makes_nothing(rt: &impl Abort, record: &Record) {
    same(rt, "printed", record.printed.as_slice(), b"".as_slice());
    same(rt, "written", record.written.as_slice(), b"".as_slice());
}
