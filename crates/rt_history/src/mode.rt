//! How a task stands.

use rt_exec::Fault;

/// How a task stands.
#[derive(Clone, Copy, PartialEq, Eq)]
pub enum Mode {
    /// It competes for the hart.
    Active,
    /// It competes again from this tick on.
    Asleep(u64),
    /// Ended by its own call, for good.
    Ended,
    /// Faulted, for good.
    Faulted(Fault),
}
