//! Walks, sessions, and the packets, requests and answers of gdb, written by hand.

mod answer;
mod debug;
mod packet;
mod points;
mod remote_dialogue;
mod request;
mod stops;
mod walk;

use std::fmt::Debug;
use std::process::Abort;

/// Fails where both differ, and says both, and in which case.
fn same<N: Copy + Debug, T: Copy + PartialEq>(rt: &impl Abort, case: N, found: T, expected: T) {
    assert!(rt; found == expected, "{case:?}");
}
