//! What a machine tells of plain ticks.

ghost use Rattle.std.specs.Prelude.{◌≡◌, true};

/// Ticks of one task that each carried out an instruction and were no call.
#[derive(Clone, Copy, PartialEq, Eq)]
pub struct PlainTicks {
    /// The task's number; without meaning where there are no ticks.
    pub task: u32,
    /// How many ticks, 0 to 2^40.
    pub count: u64,
    /// Whether the tick that comes next is better attempted by itself, as [`advance`] does: it may be idle, a call or a fault.
    ///
    /// [`advance`]: crate::Machine::advance
    pub stopped: bool,
}

/// Whether so many plain ticks, of `most` that there might have been, say that the next one is better attempted by itself.
#[inline(always)]
fn has_stopped(count: u64, most: u64) -> bool
    ensures { count ≡ 0 → result ≡ true }
{
    count < most || count == 0
}

impl PlainTicks {
    /// So many ticks of a task, where there might have been `most`.
    #[inline(always)]
    pub(crate) fn new(task: u32, count: u64, most: u64) -> PlainTicks
        ensures task { result.task ≡ task }
        ensures count { result.count ≡ count }
        ensures stopped { count ≡ 0 → result.stopped ≡ true }
    {
        PlainTicks {
            task,
            count,
            stopped: has_stopped(count, most),
        }
    }
}

/// Ticks that each carried out an instruction and were no call, of the tasks that were named.
#[derive(Clone, Copy, PartialEq, Eq)]
pub struct PlainTurns {
    /// How many ticks, 0 to 2^40.
    pub count: u64,
    /// Whether the tick that comes next is better attempted by itself, as [`advance`] does: it may be idle, a call or a fault.
    ///
    /// [`advance`]: crate::Machine::advance
    pub stopped: bool,
}

impl PlainTurns {
    /// So many ticks, where there might have been `most`.
    #[inline(always)]
    pub(crate) fn new(count: u64, most: u64) -> PlainTurns
        ensures count { result.count ≡ count }
        ensures stopped { count ≡ 0 → result.stopped ≡ true }
    {
        PlainTurns {
            count,
            stopped: has_stopped(count, most),
        }
    }
}
