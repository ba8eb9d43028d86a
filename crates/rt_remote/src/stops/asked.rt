//! The events that are asked for, of the looked-at tasks.

ghost use Rattle.std.specs.Prelude.{◌≡◌, None};
ghost use Rattle.std.specs.Option.{option_map};
ghost use Rattle.rt_history.specs.MachineState.{MachineState};
ghost use Rattle.rt_walk.specs.Events.{noted_of};
ghost use Rattle.rt_walk.specs.Position.{stand_of};
ghost use Rattle.rt_walk.specs.Met.{Meets};
ghost use Rattle.rt_remote.specs.stops.Backward.{behind_back};
ghost use Rattle.rt_remote.specs.stops.Ahead.{asks_of, happened};

use crate::stops::backward::Backward;
use crate::stops::looked::is_looked;
use crate::stops::onward::Onward;
use crate::stops::told::Told;
use rt_core::Next;
use rt_exec::Fetcher;
use rt_history::Entry;
use rt_packet::answer::Stop;
use rt_points::Event;
use rt_queue::MinQueue;
use rt_walk::{Asks, Happening, Noted, Position, happens_behind, happens_idle};

impl<'a> Asks for Onward<'a> {
    ghost use Rattle.rt_remote.specs.stops.Ahead.{asks_of};

    ghost asks = { λ way event task. asks_of way.actions.now way.events.now event task };

    #[inline(always)]
    fn asks(&self, event: Event, task: u32) -> bool {
        is_looked(self.actions, task) && self.events.asks(event, task)
    }
}

impl<'a> Asks for Backward<'a> {
    ghost use Rattle.rt_remote.specs.stops.Ahead.{asks_of};

    ghost asks = { λ way event task. asks_of way.actions.now way.events.now event task };

    #[inline(always)]
    fn asks(&self, event: Event, task: u32) -> bool {
        is_looked(self.actions, task) && self.events.asks(event, task)
    }
}

/// What happened, as it is reported.
pub(crate) fn happened(happening: Option<Happening>) -> Option<Told>
    ensures { result ≡ option_map happened happening }
{
    let happening = happening?;
    Some(Told {
        stop: Stop::Happened(happening.event, happening.job),
        task: happening.task,
    })
}

/// The event behind an entry, by what was noted before it.
pub(crate) fn event_behind<Q: MinQueue, F: Fetcher>(
    way: &Backward<'_>,
    noted: Noted,
    entry: &Entry,
    place: &Position<Q, F>,
) -> Option<Told>
    ensures { (m : MachineState) → noted ≡ noted_of (asks_of way.now.actions.now way.now.events.now) m
        → Meets (behind_back way.now) m entry.now (stand_of place.now) result }
{
    match entry {
        Entry::Busy { rec, .. } => happened(happens_behind(way, noted, rec, place)),
        Entry::Idle { .. } => match place.next() {
            Next::Run { .. } => happened(happens_idle(way, place)),
            Next::Idle => None,
        },
    }
}
