//! Where a walk on halts for the stops of the looked-at tasks: each busy tick is looked at by as little as points and actions ask for.

ghost use Rattle.std.specs.Prelude.{◌≡◌, None, false};
ghost use Rattle.std.specs.List.{list_any};
ghost use Rattle.rt_points.specs.declared.points.Breaking.TheVariants as breaking;
ghost use Rattle.rt_points.specs.Events.{any_asked};
ghost use Rattle.rt_points.specs.Met.{is_watch, break_at};
ghost use Rattle.rt_remote.specs.stops.Ahead.{watch_met};
ghost use Rattle.rt_remote.specs.stops.Working.Looks.{BreaksAlone};
ghost use Rattle.rt_remote.specs.stops.Looked.{is_step};
ghost use Rattle.rt_remote.specs.stops.Working.Stepped.{may_stop};

use crate::stops::ahead::{done_by, may_watch};
use crate::stops::asked::happened;
use crate::stops::looked::any_step;
use crate::stops::onward::{Onward, met_on};
use crate::stops::told::Told;
use rt_core::Machine;
use rt_exec::Fetcher;
use rt_history::{Attempt, AttemptOutcome};
use rt_points::{Place, Points};
use rt_queue::MinQueue;
use rt_walk::{Halt, Noted, Position, happens_behind, happens_idle, note};

/// Whether an attempt may stop a task, where one is stepped at all or none is.
#[inline(always)]
fn may_stop(steps: bool, outcome: AttemptOutcome) -> bool
    ensures { result ≡ may_stop steps outcome }
{
    match outcome {
        AttemptOutcome::End | AttemptOutcome::Fault(_) => true,
        _ => steps,
    }
}

/// Whether a task may meet a point at pc, of points among which there is a watchpoint or none.
#[inline(always)]
pub(crate) fn may_meet<Q: MinQueue, F: Fetcher>(
    points: &Points,
    watches: bool,
    task: u32,
    pc: u32,
    machine: &Machine<Q, F>,
) -> bool
    requires { watches ≡ list_any is_watch points.now }
    ensures breaks { result ≡ false → break_at points.now task pc ≡ None }
    ensures watches { result ≡ false → watch_met points.now task pc machine.now ≡ None }
{
    if points.may_break(task, pc) {
        return true;
    }
    if !watches {
        return false;
    }
    may_watch(points, task, pc, machine)
}

/// The halts of a way on of which no task is stepped, no event asked for, and no point may be met.
#[derive(Clone, Copy)]
pub(crate) struct Nowhere<'a> {
    way: Onward<'a>,
    ghost alone: { ∥ BreaksAlone breaking.Nowhere way ∥₁ },
}

impl<'a> Nowhere<'a> {
    /// The halts of this way.
    pub(crate) fn new(way: Onward<'a>) -> Nowhere<'a>
        requires { BreaksAlone breaking.Nowhere way }
        ensures { result.way ≡ way.entry }
    {
        Nowhere { way }
    }
}

impl<'a> Halt for Nowhere<'a> {
    ghost use Rattle.std.specs.Prelude.{false};
    ghost use Rattle.rt_remote.specs.stops.Ahead.{behind_on};
    ghost use Rattle.rt_remote.specs.stops.Onward.{met_on};

    type Found = Told;

    type Before = ();

    ghost notes = { λ _ _. tt };

    ghost behind = { λ h before r after. behind_on h.way.actions.now h.way.events.now before r after };

    ghost ahead = { λ h task pc m. met_on h.way false task pc m };

    #[inline(always)]
    fn note<Q: MinQueue, F: Fetcher>(&self, _machine: &Machine<Q, F>) {}

    #[inline(always)]
    fn may_stop(&self, attempt: &Attempt) -> bool {
        may_stop(false, attempt.outcome)
    }

    #[inline(always)]
    fn look_behind<Q: MinQueue, F: Fetcher>(
        &self,
        _before: (),
        attempt: &Attempt,
        _place: &Position<Q, F>,
    ) -> Option<Told> {
        done_by(self.way.actions, attempt)
    }

    fn look_risen<Q: MinQueue, F: Fetcher>(&self, _place: &Position<Q, F>) -> Option<Told> {
        None
    }

    #[inline(always)]
    fn may_meet<Q: MinQueue, F: Fetcher>(
        &self,
        _task: u32,
        _pc: u32,
        _machine: &Machine<Q, F>,
    ) -> bool {
        false
    }

    #[inline(always)]
    fn look_ahead<Q: MinQueue, F: Fetcher>(
        &self,
        task: u32,
        pc: u32,
        machine: &Machine<Q, F>,
    ) -> Option<Told> {
        met_on(&self.way, false, task, pc, machine)
    }
}

/// The halts of a way on of which no task is stepped, no event asked for, and the points that may be met are breakpoints at one place.
#[derive(Clone, Copy)]
pub(crate) struct AtPlace<'a> {
    way: Onward<'a>,
    place: Place,
    ghost alone: { ∥ BreaksAlone (breaking.At place) way ∥₁ },
}

impl<'a> AtPlace<'a> {
    /// The halts of this way.
    pub(crate) fn new(way: Onward<'a>, place: Place) -> AtPlace<'a>
        requires { BreaksAlone (breaking.At place) way }
        ensures { result.way ≡ way.entry }
    {
        AtPlace { way, place }
    }
}

impl<'a> Halt for AtPlace<'a> {
    ghost use Rattle.std.specs.Prelude.{false};
    ghost use Rattle.rt_remote.specs.stops.Ahead.{behind_on};
    ghost use Rattle.rt_remote.specs.stops.Onward.{met_on};

    type Found = Told;

    type Before = ();

    ghost notes = { λ _ _. tt };

    ghost behind = { λ h before r after. behind_on h.way.actions.now h.way.events.now before r after };

    ghost ahead = { λ h task pc m. met_on h.way false task pc m };

    #[inline(always)]
    fn note<Q: MinQueue, F: Fetcher>(&self, _machine: &Machine<Q, F>) {}

    #[inline(always)]
    fn may_stop(&self, attempt: &Attempt) -> bool {
        may_stop(false, attempt.outcome)
    }

    #[inline(always)]
    fn look_behind<Q: MinQueue, F: Fetcher>(
        &self,
        _before: (),
        attempt: &Attempt,
        _place: &Position<Q, F>,
    ) -> Option<Told> {
        done_by(self.way.actions, attempt)
    }

    fn look_risen<Q: MinQueue, F: Fetcher>(&self, _place: &Position<Q, F>) -> Option<Told> {
        None
    }

    #[inline(always)]
    fn may_meet<Q: MinQueue, F: Fetcher>(
        &self,
        task: u32,
        pc: u32,
        _machine: &Machine<Q, F>,
    ) -> bool {
        self.place.task == task && self.place.pc == pc
    }

    #[inline(always)]
    fn look_ahead<Q: MinQueue, F: Fetcher>(
        &self,
        task: u32,
        pc: u32,
        machine: &Machine<Q, F>,
    ) -> Option<Told> {
        met_on(&self.way, false, task, pc, machine)
    }
}

/// The halts of a way on of any points and actions, without events.
#[derive(Clone, Copy)]
pub(crate) struct Anywhere<'a> {
    way: Onward<'a>,
    /// Whether a task is stepped.
    steps: bool,
    /// Whether there is a watchpoint.
    watches: bool,
    ghost stepped: { steps ≡ list_any is_step way.actions.now },
    ghost watched: { watches ≡ list_any is_watch way.points.now },
    ghost unasked: { any_asked way.events.now ≡ false },
}

impl<'a> Anywhere<'a> {
    /// The halts of this way.
    pub(crate) fn new(way: Onward<'a>) -> Anywhere<'a>
        requires { any_asked way.events.now ≡ false }
        ensures { result.way ≡ way.entry }
    {
        Anywhere {
            way,
            steps: any_step(way.actions),
            watches: way.points.has_watches(),
        }
    }
}

impl<'a> Halt for Anywhere<'a> {
    ghost use Rattle.std.specs.Prelude.{false};
    ghost use Rattle.rt_remote.specs.stops.Ahead.{behind_on};
    ghost use Rattle.rt_remote.specs.stops.Onward.{met_on};

    type Found = Told;

    type Before = ();

    ghost notes = { λ _ _. tt };

    ghost behind = { λ h before r after. behind_on h.way.actions.now h.way.events.now before r after };

    ghost ahead = { λ h task pc m. met_on h.way false task pc m };

    #[inline(always)]
    fn note<Q: MinQueue, F: Fetcher>(&self, _machine: &Machine<Q, F>) {}

    #[inline(always)]
    fn may_stop(&self, attempt: &Attempt) -> bool {
        may_stop(self.steps, attempt.outcome)
    }

    #[inline(always)]
    fn look_behind<Q: MinQueue, F: Fetcher>(
        &self,
        _before: (),
        attempt: &Attempt,
        _place: &Position<Q, F>,
    ) -> Option<Told> {
        done_by(self.way.actions, attempt)
    }

    fn look_risen<Q: MinQueue, F: Fetcher>(&self, _place: &Position<Q, F>) -> Option<Told> {
        None
    }

    #[inline(always)]
    fn may_meet<Q: MinQueue, F: Fetcher>(
        &self,
        task: u32,
        pc: u32,
        machine: &Machine<Q, F>,
    ) -> bool {
        may_meet(self.way.points, self.watches, task, pc, machine)
    }

    #[inline(always)]
    fn look_ahead<Q: MinQueue, F: Fetcher>(
        &self,
        task: u32,
        pc: u32,
        machine: &Machine<Q, F>,
    ) -> Option<Told> {
        met_on(&self.way, false, task, pc, machine)
    }
}

/// The halts of a way on of any points, actions and events.
#[derive(Clone, Copy)]
pub(crate) struct Asking<'a> {
    way: Onward<'a>,
    /// Whether there is a watchpoint.
    watches: bool,
    ghost watched: { watches ≡ list_any is_watch way.points.now },
}

impl<'a> Asking<'a> {
    /// The halts of this way.
    pub(crate) fn new(way: Onward<'a>) -> Asking<'a>
        ensures { result.way ≡ way.entry }
    {
        Asking {
            way,
            watches: way.points.has_watches(),
        }
    }
}

impl<'a> Halt for Asking<'a> {
    ghost use Rattle.std.specs.Prelude.{false};
    ghost use Rattle.rt_walk.specs.Events.{noted_of};
    ghost use Rattle.rt_remote.specs.stops.Ahead.{asks_of, behind_on};
    ghost use Rattle.rt_remote.specs.stops.Onward.{met_on};

    type Found = Told;

    type Before = Noted;

    ghost notes = { λ h m. noted_of (asks_of h.way.actions.now h.way.events.now) m };

    ghost behind = { λ h before r after. behind_on h.way.actions.now h.way.events.now before r after };

    ghost ahead = { λ h task pc m. met_on h.way false task pc m };

    fn note<Q: MinQueue, F: Fetcher>(&self, machine: &Machine<Q, F>) -> Noted {
        note(&self.way, machine)
    }

    fn may_stop(&self, _attempt: &Attempt) -> bool {
        true
    }

    fn look_behind<Q: MinQueue, F: Fetcher>(
        &self,
        before: Noted,
        attempt: &Attempt,
        place: &Position<Q, F>,
    ) -> Option<Told> {
        match done_by(self.way.actions, attempt) {
            Some(told) => Some(told),
            None => happened(happens_behind(&self.way, before, attempt, place)),
        }
    }

    fn look_risen<Q: MinQueue, F: Fetcher>(&self, place: &Position<Q, F>) -> Option<Told> {
        happened(happens_idle(&self.way, place))
    }

    fn may_meet<Q: MinQueue, F: Fetcher>(
        &self,
        task: u32,
        pc: u32,
        machine: &Machine<Q, F>,
    ) -> bool {
        may_meet(self.way.points, self.watches, task, pc, machine)
    }

    fn look_ahead<Q: MinQueue, F: Fetcher>(
        &self,
        task: u32,
        pc: u32,
        machine: &Machine<Q, F>,
    ) -> Option<Told> {
        met_on(&self.way, false, task, pc, machine)
    }
}
