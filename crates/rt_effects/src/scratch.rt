//! What lines are made with.

use crate::trace_line::TraceLine;
use rt_trace::Hundred;

/// A line that is built up before it goes to a page, the registers that a task had before its tick, and the digits of the last hundred
/// of ticks.
#[derive(Drop)]
pub(crate) struct Scratch {
    pub(crate) line: TraceLine,
    pub(crate) before: [u32; 32],
    pub(crate) hundred: Hundred,
}

impl Scratch {
    #[inline(always)]
    pub(crate) fn new() -> Scratch {
        Scratch {
            line: TraceLine::new(),
            before: [0; 32],
            hundred: Hundred::new(),
        }
    }
}
