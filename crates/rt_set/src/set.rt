//! What a set file says.

/// A task line. It borrows its path from the text.
#[derive(Clone, Copy, PartialEq, Eq)]
pub struct TaskLine<'a> {
    /// Of the task's server, in ticks. Any number will do.
    pub budget: u32,
    /// Of the task's server, in ticks. Any number will do.
    pub period: u32,
    /// The tick up to which the task is asleep at first. Any number will do.
    pub start: u32,
    /// Whether the task's loads and stores of 2 and 4 bytes may have any address; else they fault at one
    /// that is no multiple of their size.
    pub split: bool,
    /// The size of RAM in bytes: in a line that was read a multiple of 4, from 4 to 1,048,576.
    pub ram: u32,
    /// The file of the task's object: in a line that was read not empty.
    pub path: &'a str,
}

/// A whole set file.
#[derive(Drop)]
pub struct SetFile<'a> {
    /// The hyperperiod in ticks. Any number will do.
    pub hyper: u32,
    /// The task lines in order: in a file that was read at most 256.
    pub tasks: Vec<TaskLine<'a>>,
}
