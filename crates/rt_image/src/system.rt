//! What a system file spells.

use crate::object::Object;

/// The version of a system file.
#[derive(Clone, Copy, PartialEq, Eq)]
pub enum Version {
    /// RTS1: no task's accesses are split.
    One,
    /// RTS2: each task has a flag that says whether its accesses are split.
    Two,
}

/// A task: its server's parameters and its program. It borrows the program from the file's bytes.
#[derive(Drop)]
pub struct Task<'a> {
    /// Of the server, in ticks. Any number will do.
    pub budget: u32,
    /// Of the server, in ticks. Any number will do.
    pub period: u32,
    /// The tick up to which the task is asleep at first. Any number will do.
    pub start: u32,
    /// Whether the task's loads and stores of 2 and 4 bytes may have any address; else they fault at one
    /// that is no multiple of their size. In version One it isn't set.
    pub split: bool,
    /// The size of RAM in bytes: a multiple of 4, from 4 to 1,048,576.
    pub ram: u32,
    /// What the task runs.
    pub object: Object<'a>,
}

/// A system: its tasks, in the order of their numbers.
#[derive(Drop)]
pub struct System<'a> {
    /// Of the file.
    pub version: Version,
    /// The hyperperiod in ticks. Any number will do.
    pub hyper: u32,
    /// At most 256.
    pub tasks: Vec<Task<'a>>,
}
