//! What is reported of a task whose budget doesn't fit.

/// A task whose budget doesn't fit before its deadline.
#[derive(Clone, Copy, PartialEq, Eq)]
pub struct Breach {
    /// The task's number, from 0.
    pub task: u32,
    /// What is left to spend of its budget, in ticks.
    pub c: u32,
    /// Its deadline, a tick.
    pub d: u64,
}
