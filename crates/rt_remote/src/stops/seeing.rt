//! Where a walk back halts for the stops of the looked-at tasks.

ghost use Rattle.std.specs.Prelude.{◌≡◌, false};
ghost use Rattle.std.specs.List.{list_any};
ghost use Rattle.rt_points.specs.Events.{any_asked};
ghost use Rattle.rt_points.specs.Met.{is_watch};
ghost use Rattle.rt_remote.specs.stops.Backward.{here_back, left_back};

use crate::stops::ahead::{break_met, watch_met, watched_at};
use crate::stops::asked::event_behind;
use crate::stops::backward::Backward;
use crate::stops::looked::is_looked;
use crate::stops::looks::may_meet;
use crate::stops::one_back::OneBack;
use crate::stops::told::Told;
use rt_core::Machine;
use rt_exec::Fetcher;
use rt_history::Entry;
use rt_points::Watched;
use rt_queue::MinQueue;
use rt_walk::{HaltBack, Noted, Position, note};

/// The breakpoint that a looked-at task meets.
#[inline(always)]
fn met_here<Q: MinQueue, F: Fetcher>(
    way: &Backward<'_>,
    task: u32,
    pc: u32,
    _machine: &Machine<Q, F>,
) -> Option<Told>
    ensures { result ≡ here_back way.now task pc _machine.now }
{
    if is_looked(way.actions, task) {
        break_met(way.points, task, pc)
    } else {
        None
    }
}

/// The watchpoint that it meets.
#[inline(always)]
fn met_left<Q: MinQueue, F: Fetcher>(
    way: &Backward<'_>,
    task: u32,
    pc: u32,
    machine: &Machine<Q, F>,
) -> Option<Told>
    ensures { result ≡ left_back way.now task pc machine.now }
{
    if is_looked(way.actions, task) {
        watch_met(way.points, task, pc, machine)
    } else {
        None
    }
}

/// The halts of a way back without events.
#[derive(Clone, Copy)]
pub(crate) struct Back<'a> {
    way: Backward<'a>,
    /// Whether there is a watchpoint.
    watches: bool,
    ghost watched: { watches ≡ list_any is_watch way.points.now },
    ghost unasked: { any_asked way.events.now ≡ false },
}

impl<'a> Back<'a> {
    /// The halts of this way.
    pub(crate) fn new(way: Backward<'a>) -> Back<'a>
        requires { any_asked way.events.now ≡ false }
        ensures { result.way ≡ way.entry }
    {
        Back {
            way,
            watches: way.points.has_watches(),
        }
    }
}

impl<'a> HaltBack for Back<'a> {
    ghost use Rattle.rt_remote.specs.stops.Backward.{here_back, left_back, behind_back};

    type Found = Told;

    type Before = ();

    ghost notes = { λ _ _. tt };

    ghost behind = { λ h before r after. behind_back h.way before r after };

    ghost here = { λ h task pc m. here_back h.way task pc m };

    ghost left = { λ h task pc m. left_back h.way task pc m };

    #[inline(always)]
    fn may_meet<Q: MinQueue, F: Fetcher>(
        &self,
        task: u32,
        pc: u32,
        machine: &Machine<Q, F>,
    ) -> bool {
        may_meet(self.way.points, self.watches, task, pc, machine)
    }

    #[inline(always)]
    fn look_here<Q: MinQueue, F: Fetcher>(
        &self,
        task: u32,
        pc: u32,
        machine: &Machine<Q, F>,
    ) -> Option<Told> {
        met_here(&self.way, task, pc, machine)
    }

    #[inline(always)]
    fn look_left<Q: MinQueue, F: Fetcher>(
        &self,
        task: u32,
        pc: u32,
        machine: &Machine<Q, F>,
    ) -> Option<Told> {
        met_left(&self.way, task, pc, machine)
    }

    #[inline(always)]
    fn note<Q: MinQueue, F: Fetcher>(&self, _machine: &Machine<Q, F>) {}

    #[inline(always)]
    fn look_behind<Q: MinQueue, F: Fetcher>(
        &self,
        _before: (),
        _entry: &Entry,
        _place: &Position<Q, F>,
    ) -> Option<Told> {
        None
    }
}

/// The halts of a way back.
#[derive(Clone, Copy)]
pub(crate) struct AskingBack<'a> {
    way: Backward<'a>,
    /// Whether there is a watchpoint.
    watches: bool,
    ghost watched: { watches ≡ list_any is_watch way.points.now },
}

impl<'a> AskingBack<'a> {
    /// The halts of this way.
    pub(crate) fn new(way: Backward<'a>) -> AskingBack<'a>
        ensures { result.way ≡ way.entry }
    {
        AskingBack {
            way,
            watches: way.points.has_watches(),
        }
    }
}

impl<'a> HaltBack for AskingBack<'a> {
    ghost use Rattle.rt_walk.specs.Events.{noted_of};
    ghost use Rattle.rt_remote.specs.stops.Ahead.{asks_of};
    ghost use Rattle.rt_remote.specs.stops.Backward.{here_back, left_back, behind_back};

    type Found = Told;

    type Before = Noted;

    ghost notes = { λ h m. noted_of (asks_of h.way.actions.now h.way.events.now) m };

    ghost behind = { λ h before r after. behind_back h.way before r after };

    ghost here = { λ h task pc m. here_back h.way task pc m };

    ghost left = { λ h task pc m. left_back h.way task pc m };

    #[inline(always)]
    fn may_meet<Q: MinQueue, F: Fetcher>(
        &self,
        task: u32,
        pc: u32,
        machine: &Machine<Q, F>,
    ) -> bool {
        may_meet(self.way.points, self.watches, task, pc, machine)
    }

    #[inline(always)]
    fn look_here<Q: MinQueue, F: Fetcher>(
        &self,
        task: u32,
        pc: u32,
        machine: &Machine<Q, F>,
    ) -> Option<Told> {
        met_here(&self.way, task, pc, machine)
    }

    #[inline(always)]
    fn look_left<Q: MinQueue, F: Fetcher>(
        &self,
        task: u32,
        pc: u32,
        machine: &Machine<Q, F>,
    ) -> Option<Told> {
        met_left(&self.way, task, pc, machine)
    }

    #[inline(always)]
    fn note<Q: MinQueue, F: Fetcher>(&self, machine: &Machine<Q, F>) -> Noted {
        note(&self.way, machine)
    }

    #[inline(always)]
    fn look_behind<Q: MinQueue, F: Fetcher>(
        &self,
        before: Noted,
        entry: &Entry,
        place: &Position<Q, F>,
    ) -> Option<Told> {
        event_behind(&self.way, before, entry, place)
    }
}

/// The halts of a way back by one instruction: each tick of its task, behind it.
#[derive(Clone, Copy)]
pub(crate) struct Own<'a>(pub(crate) OneBack<'a>);

impl<'a> HaltBack for Own<'a> {
    ghost use Rattle.std.specs.Prelude.{None};
    ghost use Rattle.rt_remote.specs.stops.OneBack.{own_tick};

    type Found = Option<Watched>;

    type Before = ();

    ghost notes = { λ _ _. tt };

    ghost behind = { λ _ _ _ _. None };

    ghost here = { λ _ _ _ _. None };

    ghost left = { λ h task pc m. own_tick h.0 task pc m };

    #[inline(always)]
    fn may_meet<Q: MinQueue, F: Fetcher>(
        &self,
        task: u32,
        _pc: u32,
        _machine: &Machine<Q, F>,
    ) -> bool {
        task == self.0.task
    }

    #[inline(always)]
    fn look_here<Q: MinQueue, F: Fetcher>(
        &self,
        _task: u32,
        _pc: u32,
        _machine: &Machine<Q, F>,
    ) -> Option<Option<Watched>> {
        None
    }

    #[inline(always)]
    fn look_left<Q: MinQueue, F: Fetcher>(
        &self,
        task: u32,
        pc: u32,
        machine: &Machine<Q, F>,
    ) -> Option<Option<Watched>> {
        if task == self.0.task {
            Some(watched_at(self.0.points, task, pc, machine))
        } else {
            None
        }
    }

    #[inline(always)]
    fn note<Q: MinQueue, F: Fetcher>(&self, _machine: &Machine<Q, F>) {}

    #[inline(always)]
    fn look_behind<Q: MinQueue, F: Fetcher>(
        &self,
        _before: (),
        _entry: &Entry,
        _place: &Position<Q, F>,
    ) -> Option<Option<Watched>> {
        None
    }
}
