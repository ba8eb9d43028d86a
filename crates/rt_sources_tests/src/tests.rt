//! Tokens, what is made of sources, what is said of their faults, and listings, all worked out by hand.

mod asm;
mod listing;
mod source_hints;
mod token;

use std::fmt::Debug;
use std::process::Abort;

/// Fails where both differ, and says both, and in which case.
fn same<N: Copy + Debug, T: Copy + PartialEq>(rt: &impl Abort, case: N, found: T, expected: T) {
    assert!(rt; found == expected, "{case:?}");
}
