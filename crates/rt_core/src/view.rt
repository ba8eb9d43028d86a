//! What a machine shows.

use rt_history::Mode;

/// What the coming tick is to be.
#[derive(Clone, Copy, PartialEq, Eq)]
pub enum Next {
    /// No task is active, or tick 2^40 is reached.
    Idle,
    /// This task attempts the instruction at this pc.
    Run { task: u32, pc: u32 },
}

/// How a task stands, with the wakes of the coming tick applied.
#[derive(Clone, Copy)]
pub struct View<'a> {
    /// The address of the next instruction.
    pub pc: u32,
    /// The registers by number.
    pub x: &'a [u32; 32],
    /// The bytes of RAM, of which the first lies at 0x80000000.
    pub ram: &'a [u8],
    pub mode: Mode,
    /// The current budget, in ticks.
    pub c: u32,
    /// The deadline, a tick.
    pub d: u64,
    /// The budget, in ticks.
    pub q: u32,
    /// The period, in ticks.
    pub p: u32,
    /// The budget that the task has reserved from its next fresh wake on, in ticks.
    pub pending: Option<u32>,
}
