//! The tasks that are looked at, and what a session tells of them.

use rt_packet::answer::Stop;
use rt_packet::request::Action;

/// The most tasks of a machine.
pub const MAX_TASKS: usize = 64;

/// How each task goes on, by its number. One without an action is not looked at.
pub type Actions = [Option<Action>; MAX_TASKS];

/// Why a session stands still, and the task that it tells of.
#[derive(Clone, Copy, PartialEq, Eq)]
pub struct Told {
    pub stop: Stop,
    /// The task's number, from 0.
    pub task: u32,
}
