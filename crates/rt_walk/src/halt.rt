//! What a walk halts at.

ghost use Rattle.std.specs.Prelude.{◌≡◌, None, false};
ghost use Rattle.rt_history.specs.declared.record.Record.TheVariants.{Busy, Idle};
ghost use Rattle.rt_history.specs.MachineState.{MachineState};
ghost use Rattle.rt_walk.specs.Jobs.{Stand};
ghost use Rattle.rt_walk.specs.Position.{stand_of};
ghost use Rattle.rt_walk.specs.FirstMet.{is_unmet};

use crate::position::Position;
use rt_core::Machine;
use rt_exec::Fetcher;
use rt_history::Attempt;
use rt_queue::MinQueue;

/// What is looked for while a walk goes on: behind a tick, by what was noted before it, and of the attempt that comes.
pub trait Halt: Copy {
    ghost use Rattle.std.specs.Prelude.{ℕ, Option};
    ghost use Rattle.rt_history.specs.declared.record.Record.{Record};
    ghost use Rattle.rt_history.specs.MachineState.{MachineState};
    ghost use Rattle.rt_walk.specs.Jobs.{Stand};

    /// What can be met.
    type Found: Copy;

    /// What it notes of the machine before a tick.
    type Before: Copy;

    /// The same, of which machine.
    ghost notes: { Self → MachineState → Self.Before };

    /// What it meets behind a tick, by the machine before it, its record, and how the machine and the jobs stand after. Behind an idle one it is asked only where a
    /// task goes on then.
    ghost behind: { Self → MachineState → Record → Stand → Option Self.Found };

    /// What it meets where a task is named, by its number and pc.
    ghost ahead: { Self → ℕ → ℕ → MachineState → Option Self.Found };

    /// What it notes before a tick.
    fn note<Q: MinQueue, F: Fetcher>(&self, machine: &Machine<Q, F>) -> Self::Before
        ensures { result ≡ notes self.now machine.now };

    /// Whether it may meet something behind the tick of this attempt. Each busy tick asks.
    fn may_stop(&self, attempt: &Attempt) -> bool
        ensures { result ≡ false → (m : MachineState) (after : Stand) → behind self.now m (Busy attempt.now) after ≡ None };

    /// What it meets behind the tick of this attempt.
    fn look_behind<Q: MinQueue, F: Fetcher>(
        &self,
        before: Self::Before,
        attempt: &Attempt,
        place: &Position<Q, F>,
    ) -> Option<Self::Found>
        ensures { (m : MachineState) → before ≡ notes self.now m → behind self.now m (Busy attempt.now) (stand_of place.now) ≡ result };

    /// What it meets behind idle ticks.
    fn look_risen<Q: MinQueue, F: Fetcher>(&self, place: &Position<Q, F>) -> Option<Self::Found>
        ensures { (m : MachineState) → behind self.now m Idle (stand_of place.now) ≡ result };

    /// Whether it may meet something where this task is to attempt the instruction at this pc. Each busy tick asks.
    fn may_meet<Q: MinQueue, F: Fetcher>(&self, task: u32, pc: u32, machine: &Machine<Q, F>) -> bool
        ensures { result ≡ false → ahead self.now task pc machine.now ≡ None };

    /// What it meets there.
    fn look_ahead<Q: MinQueue, F: Fetcher>(
        &self,
        task: u32,
        pc: u32,
        machine: &Machine<Q, F>,
    ) -> Option<Self::Found>
        ensures { result ≡ ahead self.now task pc machine.now };
}

/// How a walk that goes on comes to stand still.
#[derive(Clone, Copy, PartialEq, Eq)]
pub enum Sought<A> {
    /// This was met.
    Met(A),
    /// Nothing was met within its ticks, or up to tick 2^40.
    Unmet,
    /// Nothing was met so far, and its pace asked for a pause.
    Paused,
}

impl<A: Copy> Sought<A> {
    /// Whether nothing was met, nor was there a pause.
    pub fn is_unmet(self) -> bool
        ensures { result ≡ is_unmet self }
    {
        matches!(self, Sought::Unmet)
    }
}
