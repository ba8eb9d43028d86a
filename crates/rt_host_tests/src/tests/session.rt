//! Sessions whose input comes in pieces or fails, and whose output does: what no transcript reaches.

mod sessions;

use crate::host_in_memory::{Record, Setup, run_on};
use std::alloc::Global;
use std::fmt::Debug;
use std::process::{Abort, ExitCode};

/// Two tasks that jump to themselves.
const BUSY: &[u8] =
    b"RTS1\x0c\0\0\0\x02\0\0\0\x01\0\0\0\x03\0\0\0\0\0\0\0@\0\0\0\x14\0\0\0RTI1\0\0\0\x80\x04\0\0\0\0\0\0\0o\0\0\0\x02\0\0\0\x04\0\0\0\0\0\0\0@\0\0\0\x14\0\0\0RTI1\0\0\0\x80\x04\0\0\0\0\0\0\0o\0\0\0";

/// A task that sleeps until tick 7 and then jumps to itself.
const EARLY: &[u8] =
    b"RTS1\n\0\0\0\x01\0\0\0\x05\0\0\0\n\0\0\0\0\0\0\0@\0\0\0$\0\0\0RTI1\0\0\0\x80\x14\0\0\0\0\0\0\0\x93\x08 \0\x13\x05p\0\x93\x05\0\0s\0\0\0o\0\0\0";

/// The system files of the sessions.
static FILES: [(&str, &[u8]); 2] = [("busy", BUSY), ("early", EARLY)];

/// Fails where both differ, and tells both, and in which case.
fn same<N: Copy + Debug, T: Copy + Debug + PartialEq>(
    rt: &impl Abort,
    case: N,
    found: T,
    expected: T,
) {
    assert_eq!(rt; found, expected, "{case:?}");
}

/// Runs the program, and looks at its exit status, at what it printed and at what it told.
fn performs(
    rt: &impl Abort,
    memory: Global,
    setup: Setup,
    status: u8,
    printed: &[u8],
    told: &[u8],
) {
    let record = Record::new(memory, setup.room);
    let (found, record) = run_on(memory, setup, &FILES, record);
    same(rt, "told", record.told.as_slice(), told);
    same(rt, told, record.printed.as_slice(), printed);
    same(rt, told, found == ExitCode::from(status), true);
}
