//! What counts as a failure of a task.

/// What counts as a failure of a task in a run.
#[derive(Clone, Copy, PartialEq, Eq)]
pub enum Failing {
    /// It has faulted.
    Fault,
    /// A response of a finished job was over the period, or that of the open one is by now.
    Over,
    /// A finished job isn't hard.
    Soft,
    /// A reserve was refused.
    Refused,
    /// It has finished fewer jobs than have had a period, where a job is released each period from its first release on.
    Few,
    /// A write was refused since the output had no room for it.
    Lost,
}
