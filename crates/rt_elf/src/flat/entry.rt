//! Where a flat image begins to run.

/// Which instruction of an image is the first.
#[derive(Clone, Copy, PartialEq, Eq)]
pub enum Entry<'a> {
    /// The one at this address.
    Address(u32),
    /// The one that the list of names calls so.
    Name(&'a str),
}
