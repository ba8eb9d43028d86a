//! What a tick leaves to report.

ghost use Rattle.std.specs.Prelude.{◌≡◌};

use rt_exec::Fault;

/// How an attempt came out, a call with its answer.
#[derive(Clone, Copy, PartialEq, Eq)]
pub enum AttemptOutcome {
    /// The instruction was carried out, and is no call.
    Next,
    /// The task has ended.
    End,
    /// So many bytes were appended to the task's output.
    Write(u32),
    /// A write was refused, and nothing was appended.
    WriteRefused,
    /// The task sleeps until this tick; where it isn't to come, its next job was pending already.
    Sleep(u64),
    /// The task gave up the rest of its budget.
    Yield,
    /// The task learned this tick.
    Now(u64),
    /// The task has reserved this budget, in ticks, for its next fresh wake on.
    Reserve(u32),
    /// A reserve was refused, and nothing was reserved.
    ReserveRefused,
    /// Nothing was carried out, and the task has faulted.
    Fault(Fault),
}

/// One attempted instruction of a task.
#[derive(Clone, Copy, PartialEq, Eq)]
pub struct Attempt {
    /// The task's number, from 0.
    pub task: u32,
    /// The address of the instruction.
    pub pc: u32,
    /// The word at pc; none where it is not in RAM.
    pub word: Option<u32>,
    pub outcome: AttemptOutcome,
}

/// A tick, and the address of the instruction that was attempted in it.
#[derive(Clone, Copy, PartialEq, Eq)]
pub struct Moment {
    pub tick: u64,
    pub pc: u32,
}

/// What one tick was: no task was active, or one attempted an instruction.
#[derive(Clone, Copy, PartialEq, Eq)]
pub enum Record {
    Idle,
    Busy(Attempt),
}

/// One line of a history: a busy tick, or a stretch of idle ones.
#[derive(Clone, Copy, PartialEq, Eq)]
pub enum Entry {
    /// The attempt of tick `t`.
    Busy { t: u64, rec: Attempt },
    /// The `n` idle ticks from tick `t` on.
    Idle { t: u64, n: u64 },
}

impl Entry {
    ghost use Rattle.rt_history.specs.Entries.{start_of, ticks_of};

    /// The tick at which it begins.
    pub fn start(&self) -> u64
        ensures { result ≡ start_of self.now }
    {
        match self {
            Entry::Busy { t, .. } | Entry::Idle { t, .. } => *t,
        }
    }

    /// How many ticks it takes.
    #[inline]
    pub fn ticks(&self) -> u64
        ensures { result ≡ ticks_of self.now }
    {
        match self {
            Entry::Busy { .. } => 1,
            Entry::Idle { n, .. } => *n,
        }
    }
}
