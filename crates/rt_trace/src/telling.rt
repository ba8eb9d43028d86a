//! What a run's text tells of its tasks.

/// What a run's text tells of its tasks in the end.
#[derive(Clone, Copy, PartialEq, Eq)]
pub enum Telling {
    /// Their servers' current budgets and deadlines too.
    WithServers,
    /// Nothing of servers, for an object that runs alone.
    Alone,
}
