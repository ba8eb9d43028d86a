//! What is looked for on the way back.

ghost use Rattle.std.specs.Prelude.{◌≡◌, ◌==◌, ◌&&◌, ◌+◌, ◌<◌, nat_lt, true, not, if◌then◌else◌, None, false};
ghost use Rattle.rt_history.specs.MachineState.{MachineState};
ghost use Rattle.rt_walk.specs.Position.{stand_of};
ghost use Rattle.rt_walk.specs.Met.{first_of, Meets};
ghost use Rattle.rt_walk.specs.Working.Piece.{noted};

use crate::position::Position;
use rt_core::Machine;
use rt_exec::Fetcher;
use rt_history::Entry;
use rt_queue::MinQueue;

/// What is looked for on the way back: where a task is named, by the attempt that comes, and by the same once it has been; and behind a tick.
pub trait HaltBack: Copy {
    ghost use Rattle.std.specs.Prelude.{ℕ, Option};
    ghost use Rattle.rt_history.specs.declared.record.Record.{Record};
    ghost use Rattle.rt_history.specs.MachineState.{MachineState};
    ghost use Rattle.rt_walk.specs.Jobs.{Stand};

    /// What can be met.
    type Found: Copy;

    /// What it notes of the machine before a tick.
    type Before: Copy;

    /// The same, of which machine.
    ghost notes: { Self → MachineState → Self.Before };

    /// What it meets behind a tick, as a `Halt`.
    ghost behind: { Self → MachineState → Record → Stand → Option Self.Found };

    /// What it meets before an attempt, by the task's number and pc.
    ghost here: { Self → ℕ → ℕ → MachineState → Option Self.Found };

    /// What it meets behind that attempt.
    ghost left: { Self → ℕ → ℕ → MachineState → Option Self.Found };

    /// Whether it may meet something there. Each busy tick asks.
    fn may_meet<Q: MinQueue, F: Fetcher>(&self, task: u32, pc: u32, machine: &Machine<Q, F>) -> bool
        ensures here { result ≡ false → here self.now task pc machine.now ≡ None }
        ensures left { result ≡ false → left self.now task pc machine.now ≡ None };

    /// What it meets before this attempt.
    fn look_here<Q: MinQueue, F: Fetcher>(
        &self,
        task: u32,
        pc: u32,
        machine: &Machine<Q, F>,
    ) -> Option<Self::Found>
        ensures { result ≡ here self.now task pc machine.now };

    /// What it meets behind this attempt.
    fn look_left<Q: MinQueue, F: Fetcher>(
        &self,
        task: u32,
        pc: u32,
        machine: &Machine<Q, F>,
    ) -> Option<Self::Found>
        ensures { result ≡ left self.now task pc machine.now };

    /// What it notes before a tick.
    fn note<Q: MinQueue, F: Fetcher>(&self, machine: &Machine<Q, F>) -> Self::Before
        ensures { result ≡ notes self.now machine.now };

    /// What it meets behind an entry.
    fn look_behind<Q: MinQueue, F: Fetcher>(
        &self,
        before: Self::Before,
        entry: &Entry,
        place: &Position<Q, F>,
    ) -> Option<Self::Found>
        ensures { (m : MachineState) → before ≡ notes self.now m → Meets (behind self.now) m entry.now (stand_of place.now) result };
}

/// Which ticks a look back takes in.
#[derive(Clone, Copy, PartialEq, Eq)]
pub struct WayBack {
    /// The lowest tick. What lies outside of the way is left out.
    pub low: u64,
    /// Whether what is met behind the attempt before its begin is passed by.
    pub passes: bool,
}

/// What a look back finds.
#[derive(Clone, Copy, PartialEq, Eq)]
pub enum Last<A> {
    /// The last tick at which something is met, and what.
    Met(u64, A),
    /// Nothing is met down to the lowest tick.
    Unmet,
    /// Nothing is met down to this tick, and its pace asked for a pause.
    Paused(u64),
}

/// A way back from tick `now`.
#[derive(Clone, Copy)]
pub(crate) struct Way {
    pub(crate) low: u64,
    pub(crate) passes: bool,
    pub(crate) now: u64,
}

impl Way {
    /// What is met at a tick: before the attempt that comes, unless the way begins there, else by the one before, else behind that.
    #[inline(always)]
    pub(crate) fn met<A: Copy>(
        self,
        tick: u64,
        here: Option<A>,
        left: Option<A>,
        behind: Option<A>,
    ) -> Option<A>
        ensures { result ≡ first_of (if nat_lt tick self.now then here else None) (first_of (if not (self.passes && (tick == self.now)) then left else None) (if nat_lt tick self.now then behind else None)) }
    {
        if tick < self.now && here.is_some() {
            return here;
        }
        if left.is_some() && !(self.passes && tick == self.now) {
            return left;
        }
        if tick < self.now { behind } else { None }
    }

    /// The last tick so far at which something is met, where this is met at one more. None below the lowest is.
    #[inline(always)]
    pub(crate) fn noted<A: Copy>(
        self,
        last: Option<(u64, A)>,
        tick: u64,
        found: Option<A>,
    ) -> Option<(u64, A)>
        ensures { result ≡ noted last self.low tick found }
    {
        match found {
            Some(found) if self.low <= tick => Some((tick, found)),
            _ => last,
        }
    }

    /// Whether a pause is possible where the way is looked through down to behind tick `top`: neither at its end nor at its begin.
    pub(crate) fn has_pause(self, bottom: u64, top: u64) -> bool
        ensures above { result ≡ true → bottom < top }
        ensures below { result ≡ true → top + 1 < self.now }
    {
        bottom < top && top.saturating_add(1) < self.now
    }
}
