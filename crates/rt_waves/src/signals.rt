//! The values of a task's signals.

ghost use Rattle.std.specs.Prelude.{◌≡◌};
ghost use Rattle.rt_waves.specs.Waves as waves;
ghost use Rattle.rt_waves.specs.WavesText as text;

use rt_history::Mode;

/// What is written of a task's mode.
#[derive(Clone, Copy, PartialEq, Eq)]
pub(crate) enum ModeSignal {
    Asleep,
    Active,
    Ended,
    Faulted,
}

impl ModeSignal {
    /// What is written of a mode.
    #[inline(always)]
    pub(crate) fn of(mode: Mode) -> ModeSignal
        ensures { result ≡ waves.mode_signal mode }
    {
        match mode {
            Mode::Asleep(_) => ModeSignal::Asleep,
            Mode::Active => ModeSignal::Active,
            Mode::Ended => ModeSignal::Ended,
            Mode::Faulted(_) => ModeSignal::Faulted,
        }
    }

    /// Its number in the text.
    #[inline(always)]
    pub(crate) fn number(&self) -> u64
        ensures { result ≡ text.mode_number self.now }
    {
        match self {
            ModeSignal::Asleep => 0,
            ModeSignal::Active => 1,
            ModeSignal::Ended => 2,
            ModeSignal::Faulted => 3,
        }
    }
}

/// The values of a task's signals at one time.
#[derive(Clone, Copy, PartialEq, Eq)]
pub(crate) struct TaskWaves {
    /// Whether the tick is the task's.
    pub(crate) running: bool,
    pub(crate) mode: ModeSignal,
    pub(crate) pc: u32,
    /// Where the part of the pc begins, and 0 where no symbol stands at it or below.
    pub(crate) part: u32,
    /// The current budget, in ticks.
    pub(crate) c: u32,
    /// The deadline, a tick.
    pub(crate) d: u64,
    /// How many bytes the task has written.
    pub(crate) out: u32,
    /// Whether it wakes afresh at this tick.
    pub(crate) fresh: bool,
    /// Whether it wakes at this tick with the account that it had.
    pub(crate) kept: bool,
    /// Whether the record of this tick moves its deadline on.
    pub(crate) postponed: bool,
    /// Whether the record of this tick is the last of a job.
    pub(crate) finish: bool,
}

impl TaskWaves {
    ghost use Rattle.rt_waves.specs.Standing.{untold};

    /// What stands where nothing was written yet.
    pub(crate) fn untold() -> TaskWaves
        ensures { result ≡ untold }
    {
        TaskWaves {
            running: false,
            mode: ModeSignal::Asleep,
            pc: 0,
            part: 0,
            c: 0,
            d: 0,
            out: 0,
            fresh: false,
            kept: false,
            postponed: false,
            finish: false,
        }
    }
}

/// The value of a signal.
#[derive(Clone, Copy, PartialEq, Eq)]
pub(crate) enum Value {
    /// Of one bit.
    Wire(bool),
    /// Of more.
    Number(u64),
}

impl Value {
    /// Whether it is the same.
    #[inline(always)]
    pub(crate) fn is_same(&self, other: &Value) -> bool
        ensures { result ≡ text.is_same self.now other.now }
    {
        match (self, other) {
            (Value::Wire(a), Value::Wire(b)) => *a == *b,
            (Value::Number(a), Value::Number(b)) => *a == *b,
            _ => false,
        }
    }
}
