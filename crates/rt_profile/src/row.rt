//! A row of a profile.

use rt_image::Symbol;

/// What is reported of a part with ticks.
#[derive(Clone, Copy, PartialEq, Eq)]
pub(crate) struct Row<'a> {
    pub(crate) task: u32,
    /// The symbol at which the part begins, and by which it is named.
    pub(crate) symbol: Option<Symbol<'a>>,
    pub(crate) ticks: u64,
    /// Those at its first address.
    pub(crate) entered: u64,
    /// The most that one job has.
    pub(crate) most: u64,
}
