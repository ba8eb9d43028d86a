//! Words that mean a task of a set.

/// A word that means a task of a set.
#[derive(Clone, Copy, PartialEq, Eq)]
pub enum TaskWord<'a> {
    /// The task's number, from 0.
    Number(u32),
    /// The task's name, which no other task has.
    Name(&'a str),
}

/// Why a word means no task of a set.
#[derive(Clone, Copy, PartialEq, Eq)]
pub enum TaskFault<'a> {
    /// The set has only so many tasks.
    NoTask { task: u32, count: u64 },
    /// No task has this name.
    NoName(&'a str),
    /// So many tasks have this name.
    Several(&'a str, u64),
}
