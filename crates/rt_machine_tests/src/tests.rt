//! Admission, servers, queues, machines, breaches, certificates and reasons, beside what was worked out by hand.

mod admit;
mod breach;
mod certify;
mod machine;
mod plain;
mod queue;
mod reasons;
mod reserve;
mod ring;
mod server;

use std::alloc::{AllocError, Global};
use std::fmt::Debug;
use std::process::Abort;

/// Fails where both differ, and says both, and in which case.
fn same<N: Copy + Debug, T: Copy + PartialEq>(rt: &impl Abort, case: N, found: T, expected: T) {
    assert!(rt; found == expected, "{case:?}");
}

/// The bytes of an image of these words.
fn image_of(alloc: Global, words: &[u32]) -> Result<Vec<u8>, AllocError> {
    let mut image = Vec::new(alloc);
    for word in words {
        image.extend_from_slice(&word.to_le_bytes())?;
    }
    Ok(image)
}
