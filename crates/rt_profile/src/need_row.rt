//! A row of needs.

/// What is reported of a bracket with needs.
#[derive(Clone, Copy, PartialEq, Eq)]
pub(crate) struct NeedRow {
    pub(crate) task: u32,
    /// The first and the last number of the bracket.
    pub(crate) from: u64,
    pub(crate) to: u64,
    /// How many needs are in it.
    pub(crate) jobs: u64,
    /// How many are at most its last number.
    pub(crate) within: u64,
}
