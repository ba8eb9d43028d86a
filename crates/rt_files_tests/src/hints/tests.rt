//! What is said of mistakes in files: each text is worked out by hand.

mod admissions;
mod elf_files;
mod flat_images;
mod kinds;
mod names;
mod sets;

use std::fmt::Debug;
use std::process::Abort;

/// Fails where both differ, and says both, and in which case.
fn same<N: Copy + Debug, T: Copy + Debug + PartialEq>(
    rt: &impl Abort,
    case: N,
    found: T,
    expected: T,
) {
    assert_eq!(rt; found, expected, "{case:?}");
}
