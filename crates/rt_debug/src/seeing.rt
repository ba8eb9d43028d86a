//! Where the walk of a session halts for its stops: wherever one may be met, by how little a tick needs to look at; and for its events.

ghost use Rattle.std.specs.Prelude.{◌≡◌, Some};
ghost use Rattle.std.specs.Option.{option_map};
ghost use Rattle.rt_core.specs.declared.view.Next.TheVariants.{Run};
ghost use Rattle.rt_debug.specs.Working.Watch.{sees};

use crate::watch::Watch;
use rt_core::Machine;
use rt_exec::Fetcher;
use rt_history::Attempt;
use rt_points::{Events, Marks, Place as PlaceStop};
use rt_queue::MinQueue;
use rt_walk::{Halt, Happening, Noted, Position, happens_behind, happens_idle, note};

/// How a tick looks whether a stop may be met, known while the loop over ticks is compiled.
pub(crate) trait Look: Copy {
    ghost use Rattle.rt_debug.specs.declared.watch.Watch.{Watch};

    /// The watch that sees the same.
    ghost watch: { Self → Watch };

    /// Whether a stop may be met by this task at this pc, where these places are marked.
    fn sees(&self, marks: &Marks, task: u32, pc: u32) -> bool
        ensures { result ≡ sees marks.now.words.items (watch self.now) (Run task pc) };
}

/// There is no stop.
#[derive(Clone, Copy)]
pub(crate) struct Nowhere;

/// There is a stop for one place, and no other.
#[derive(Clone, Copy)]
pub(crate) struct AtPlace(pub(crate) PlaceStop);

/// All stops are for places that are marked.
#[derive(Clone, Copy)]
pub(crate) struct AtMarks;

/// All stops have to be asked.
#[derive(Clone, Copy)]
pub(crate) struct Anywhere;

impl Look for Nowhere {
    ghost use Rattle.rt_debug.specs.declared.watch.Watch.TheVariants as watches;

    ghost watch = { λ _. watches.Nowhere };

    #[inline(always)]
    fn sees(&self, _marks: &Marks, _task: u32, _pc: u32) -> bool {
        false
    }
}

impl Look for AtPlace {
    ghost use Rattle.rt_debug.specs.declared.watch.Watch.TheVariants as watches;

    ghost watch = { λ look. watches.At look.0 };

    #[inline(always)]
    fn sees(&self, _marks: &Marks, task: u32, pc: u32) -> bool {
        self.0.task == task && self.0.pc == pc
    }
}

impl Look for AtMarks {
    ghost use Rattle.rt_debug.specs.declared.watch.Watch.TheVariants as watches;

    ghost watch = { λ _. watches.Marked };

    #[inline(always)]
    fn sees(&self, marks: &Marks, task: u32, pc: u32) -> bool {
        marks.has(task, pc)
    }
}

impl Look for Anywhere {
    ghost use Rattle.rt_debug.specs.declared.watch.Watch.TheVariants as watches;

    ghost watch = { λ _. watches.Anywhere };

    #[inline(always)]
    fn sees(&self, _marks: &Marks, _task: u32, _pc: u32) -> bool {
        true
    }
}

/// A halt wherever a stop may be met, where these places are marked.
#[derive(Clone, Copy)]
pub(crate) struct Seen<'a, L> {
    pub(crate) look: L,
    pub(crate) marks: &'a Marks,
}

impl<'a, L: Look> Halt for Seen<'a, L> {
    ghost use Rattle.std.specs.Prelude.{None};
    ghost use Rattle.rt_debug.specs.Working.Watch.{seen_at};

    type Found = ();

    type Before = ();

    ghost notes = { λ _ _. tt };

    ghost behind = { λ _ _ _ _. None };

    ghost ahead = { λ h task pc _. seen_at h.marks.now.words.items (L.watch h.look) task pc };

    #[inline(always)]
    fn note<Q: MinQueue, F: Fetcher>(&self, _machine: &Machine<Q, F>) {}

    #[inline(always)]
    fn may_stop(&self, _attempt: &Attempt) -> bool {
        false
    }

    #[inline(always)]
    fn look_behind<Q: MinQueue, F: Fetcher>(
        &self,
        _before: (),
        _attempt: &Attempt,
        _place: &Position<Q, F>,
    ) -> Option<()> {
        None
    }

    fn look_risen<Q: MinQueue, F: Fetcher>(&self, _place: &Position<Q, F>) -> Option<()> {
        None
    }

    #[inline(always)]
    fn may_meet<Q: MinQueue, F: Fetcher>(
        &self,
        task: u32,
        pc: u32,
        _machine: &Machine<Q, F>,
    ) -> bool {
        self.look.sees(self.marks, task, pc)
    }

    #[inline(always)]
    fn look_ahead<Q: MinQueue, F: Fetcher>(
        &self,
        task: u32,
        pc: u32,
        _machine: &Machine<Q, F>,
    ) -> Option<()> {
        if self.look.sees(self.marks, task, pc) {
            Some(())
        } else {
            None
        }
    }
}

impl Look for Watch {
    ghost watch = { λ look. look };

    fn sees(&self, marks: &Marks, task: u32, pc: u32) -> bool {
        match self {
            Watch::Nowhere => false,
            Watch::At(place) => place.task == task && place.pc == pc,
            Watch::Marked => marks.has(task, pc),
            Watch::Anywhere => true,
        }
    }
}

/// What happened, if anything did, as what is met.
fn met(happening: Option<Happening>) -> Option<Option<Happening>>
    ensures { result ≡ option_map Some happening }
{
    Some(Some(happening?))
}

/// A halt wherever an event happened that is asked for, which it tells, or a stop may be met.
#[derive(Clone, Copy)]
pub(crate) struct Asking<'a> {
    pub(crate) watch: Watch,
    pub(crate) marks: &'a Marks,
    pub(crate) events: &'a Events,
}

impl<'a> Halt for Asking<'a> {
    ghost use Rattle.rt_points.specs.Events.{asks};
    ghost use Rattle.rt_walk.specs.Events.{noted_of};
    ghost use Rattle.rt_debug.specs.Working.Watch.{asked_behind, asked_ahead};

    type Found = Option<Happening>;

    type Before = Noted;

    ghost notes = { λ h m. noted_of (asks h.events.now) m };

    ghost behind = { λ h before r after. asked_behind h.events.now before r after };

    ghost ahead = { λ h task pc m. asked_ahead h.marks.now.words.items h.watch task pc m };

    fn note<Q: MinQueue, F: Fetcher>(&self, machine: &Machine<Q, F>) -> Noted {
        note(self.events, machine)
    }

    fn may_stop(&self, _attempt: &Attempt) -> bool {
        true
    }

    fn look_behind<Q: MinQueue, F: Fetcher>(
        &self,
        before: Noted,
        attempt: &Attempt,
        place: &Position<Q, F>,
    ) -> Option<Option<Happening>> {
        met(happens_behind(self.events, before, attempt, place))
    }

    fn look_risen<Q: MinQueue, F: Fetcher>(
        &self,
        place: &Position<Q, F>,
    ) -> Option<Option<Happening>> {
        met(happens_idle(self.events, place))
    }

    fn may_meet<Q: MinQueue, F: Fetcher>(
        &self,
        task: u32,
        pc: u32,
        _machine: &Machine<Q, F>,
    ) -> bool {
        self.watch.sees(self.marks, task, pc)
    }

    fn look_ahead<Q: MinQueue, F: Fetcher>(
        &self,
        task: u32,
        pc: u32,
        _machine: &Machine<Q, F>,
    ) -> Option<Option<Happening>> {
        if self.watch.sees(self.marks, task, pc) {
            Some(None)
        } else {
            None
        }
    }
}
