//! What no transcript reaches: other queues and fetchers, sinks that fail, and ticks beyond the last.

mod memory;
mod queues;
mod sinks;

use std::fmt::Debug;
use std::process::Abort;

/// Two tasks that jump to themselves.
const BUSY: &[u8] =
    b"RTS1\x0c\0\0\0\x02\0\0\0\x01\0\0\0\x03\0\0\0\0\0\0\0@\0\0\0\x14\0\0\0RTI1\0\0\0\x80\x04\0\0\0\0\0\0\0o\0\0\0\x02\0\0\0\x04\0\0\0\0\0\0\0@\0\0\0\x14\0\0\0RTI1\0\0\0\x80\x04\0\0\0\0\0\0\0o\0\0\0";

/// A task that sleeps until tick 8 and then jumps to itself.
const SLEEPER: &[u8] =
    b"RTS1\n\0\0\0\x01\0\0\0\x05\0\0\0\n\0\0\0\0\0\0\0@\0\0\0$\0\0\0RTI1\0\0\0\x80\x14\0\0\0\0\0\0\0\x93\x08 \0\x13\x05\x80\0\x93\x05\0\0s\0\0\0o\0\0\0";

/// A task that works 3 ticks in each 10 and sleeps.
const BEAT: &[u8] = b"RTS1\x0a\0\0\0\x01\0\0\0\x03\0\0\0\x0a\0\0\0\0\0\0\0@\0\0\0B\0\0\0\
    RTI1\0\0\0\x80\x10\0\0\0\x03\0\0\0\x93\x08 \0\x13\x05\xa5\0s\0\0\0o\xf0\x9f\xff\
    \x06\0_begin\0\0\0\x80\x05\0again\x04\0\0\x80\x05\0begin\0\0\0\x80";

/// Fails where both differ, and says both, and in which case.
fn same<N: Copy + Debug, T: Copy + PartialEq>(rt: &impl Abort, case: N, found: T, expected: T) {
    assert!(rt; found == expected, "{case:?}");
}
