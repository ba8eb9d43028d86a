//! A debugging session.

ghost use Rattle.std.specs.Prelude.{◌≡◌, ◌^◌, ◌<◌, [], length, IfOk, IfErr, Ok, Result, Option, false};
ghost use Rattle.std.specs.Option.{unwrap_or};
ghost use Rattle.circular_buffer.specs.Buffer.{buffer};
ghost use Rattle.rt_image.specs.SystemFile.{task_set};
ghost use Rattle.rt_names.specs.TaskNames.{task_names};
ghost use Rattle.rt_walk.specs.Jobs.{first_jobs};
ghost use Rattle.rt_walk.specs.Position.{ring_limit, stand_of};
ghost use Rattle.rt_debug.specs.StopSlots.{meets_of, Adds, HandsBack};
ghost use Rattle.rt_points.specs.Events.{no_events};
ghost use Rattle.rt_debug.specs.Stopping.{stopping};
ghost use Rattle.rt_debug.specs.FirstStop.{stop_at, stands_at};
ghost use Rattle.rt_debug.specs.Looking.{tick_reply, shows};
ghost use Rattle.rt_debug.specs.Whose.{meant};
ghost use Rattle.rt_debug.specs.Session.{Continues, AsksEvent, Executes, Answers};
ghost use Rattle.rt_debug.specs.Working.Watch.{Covers, standing};
ghost use Rattle.rt_debug.specs.declared.stops.AnyStop.TheVariants.{Place, Boxed};
ghost use Rattle.rt_command.specs.declared.refusal.Refusal.{Refusal};
ghost use Rattle.rt_debug.specs.reply.ShownText.{bytes_lent, shown_text};
ghost use Rattle.rt_debug.specs.declared.reply.reply.Reply.{Reply};
ghost use Rattle.rt_debug.specs.declared.reply.reply.Reply.TheVariants as replies;

use crate::looking::{look, place_pc, shows};
use crate::reply::{Reply, Shown, Stopped, Text};
use crate::seeing::{Anywhere, Asking, AtMarks, AtPlace, Look, Nowhere, Seen};
use crate::stops::{AnyStop, Stop, Stops};
use crate::watch::Watch;
use crate::whose::meant;
use rt_command::{Command, Refusal, Whose};
use rt_core::Machine;
use rt_exec::Fetcher;
use rt_history::ring::Ring;
use rt_image::System;
use rt_points::{Event, Events, Place as PlaceStop};
use rt_queue::MinQueue;
use rt_walk::{Endless, Happening, Sought, Walk};
use std::alloc::Global;

/// A machine that is looked at: where it began, what is shown of it now, and the stops. It borrows the system that the machine
/// was loaded of, for its symbols.
#[derive(Drop)]
pub struct Session<'s, 'd, Q: MinQueue, F: Fetcher> {
    alloc: Global,
    pub(crate) system: &'s System<'d>,
    walk: Walk<Q, F>,
    stops: Stops,
    events: Events,
}

/// Goes on to the first tick at which a stop is met that this look sees, at most `n` ticks.
fn seek_by<Q: MinQueue, F: Fetcher, L: Look>(
    walk: &mut Walk<Q, F>,
    stops: &Stops,
    look: L,
    n: u64,
) -> Option<u32>
    requires { Covers (meets_of (λ b. (⟦<dyn Stop as Stop>⟧ b.vtable).meets b.value)) stops.now.slots.items stops.now.marks.words.items (L.watch look) }
    ensures { Continues (stop_at (meets_of (λ b. (⟦<dyn Stop as Stop>⟧ b.vtable).meets b.value)) stops.now.slots.items) walk.old n result walk.new }
{
    let mut left = n;
    let mut start = walk.shown().now();
    while left > 0 {
        let seen = Seen {
            look,
            marks: &stops.marks,
        };
        if walk.seek(seen, &mut Endless, left).is_unmet() {
            return None;
        }
        let hit = stops.met_by(walk.shown().next());
        if hit.is_some() {
            return hit;
        }
        let now = walk.shown().now();
        left -= now - start;
        start = now;
    }
    None
}

/// Goes on to the first tick at which a stop is met, at most `n` ticks, and answers the least number of such a stop.
fn seek_stop<Q: MinQueue, F: Fetcher>(walk: &mut Walk<Q, F>, stops: &Stops, n: u64) -> Option<u32>
    ensures { Continues (stop_at (meets_of (λ b. (⟦<dyn Stop as Stop>⟧ b.vtable).meets b.value)) stops.now.slots.items) walk.old n result walk.new }
{
    match stops.watch() {
        Watch::Nowhere => seek_by(walk, stops, Nowhere, n),
        Watch::At(place) => seek_by(walk, stops, AtPlace(place), n),
        Watch::Marked => seek_by(walk, stops, AtMarks, n),
        Watch::Anywhere => seek_by(walk, stops, Anywhere, n),
    }
}

/// What is met where a walk has come to stand still, where this stop is.
fn standing(sought: Sought<Option<Happening>>, hit: Option<u32>) -> Option<Stopped>
    ensures { result ≡ standing sought hit }
{
    match sought {
        Sought::Met(Some(happening)) => Some(Stopped::Happened(happening)),
        Sought::Met(None) => Some(Stopped::At(hit?)),
        Sought::Unmet | Sought::Paused => None,
    }
}

/// Goes on to the first tick at which an event happens that is asked for, or a stop is met, at most `n` ticks.
fn seek_event<Q: MinQueue, F: Fetcher>(
    walk: &mut Walk<Q, F>,
    stops: &Stops,
    events: &Events,
    n: u64,
) -> Option<Stopped>
    ensures { Continues (stands_at (meets_of (λ b. (⟦<dyn Stop as Stop>⟧ b.vtable).meets b.value)) (stopping stops.now.slots.items events.now) (stand_of walk.old.shown)) walk.old n result walk.new }
{
    let watch = stops.watch();
    let mut left = n;
    let mut start = walk.shown().now();
    while left > 0 {
        let asking = Asking {
            watch,
            marks: &stops.marks,
            events,
        };
        let sought = walk.seek(asking, &mut Endless, left);
        if sought.is_unmet() {
            return None;
        }
        let hit = stops.met_by(walk.shown().next());
        let met = standing(sought, hit);
        if met.is_some() {
            return met;
        }
        let now = walk.shown().now();
        left -= now - start;
        start = now;
    }
    None
}

/// The same, by less where no event is asked for.
fn seek<Q: MinQueue, F: Fetcher>(
    walk: &mut Walk<Q, F>,
    stops: &Stops,
    events: &Events,
    n: u64,
) -> Option<Stopped>
    ensures { Continues (stands_at (meets_of (λ b. (⟦<dyn Stop as Stop>⟧ b.vtable).meets b.value)) (stopping stops.now.slots.items events.now) (stand_of walk.old.shown)) walk.old n result walk.new }
{
    if events.is_any() {
        return seek_event(walk, stops, events, n);
    }
    match seek_stop(walk, stops, n) {
        Some(number) => Some(Stopped::At(number)),
        None => None,
    }
}

/// The reply of what a command shows.
fn gathered(alloc: Global, shown: &Shown) -> Result<Reply, Refusal>
    requires { length (bytes_lent shown.now) < 2 ^ 34 }
    ensures { Answers (Ok (replies.Text (shown_text shown.now))) result }
{
    Ok(Reply::Text(Text::of(alloc, shown)?))
}

impl<'s, 'd, Q: MinQueue, F: Fetcher> Session<'s, 'd, Q, F> {
    /// A session of a machine that was loaded of this system, at whichever tick it stands, without stops.
    ///
    /// # Errors
    ///
    /// There is no memory for it: the machine is handed back.
    pub fn new(
        alloc: Global,
        machine: Machine<Q, F>,
        system: &'s System<'d>,
    ) -> Result<Session<'s, 'd, Q, F>, Machine<Q, F>>
        ensures first { IfOk result (λ session. session.walk.first ≡ record { machine = machine; ring = buffer [] ring_limit; jobs = first_jobs machine }) }
        ensures shown { IfOk result (λ session. session.walk.shown ≡ session.walk.first) }
        ensures stops { IfOk result (λ session. session.stops.slots.items ≡ []) }
        ensures events { IfOk result (λ session. session.events ≡ no_events) }
        ensures system { IfOk result (λ session. session.system.now ≡ system.now) }
        ensures handed { IfErr result (λ back. back ≡ machine) }
    {
        let walk = Walk::begin(alloc, machine, &system.tasks)?;
        Ok(Session {
            alloc,
            system,
            walk,
            stops: Stops::new(alloc),
            events: Events::none(),
        })
    }

    /// The tick line.
    fn told(&self, stop: Stopped) -> Reply
        ensures { result ≡ tick_reply stop self.now.walk.shown.machine }
    {
        let shown = self.walk.shown();
        Reply::Tick {
            stop,
            t: shown.now(),
            next: shown.next(),
        }
    }

    /// The machine that is shown.
    pub fn shown(&self) -> &Machine<Q, F>
        ensures { result.now ≡ self.now.walk.shown.machine }
    {
        self.walk.shown().machine()
    }

    /// The last entries of the shown history, at most 256 of them.
    pub fn ring(&self) -> &Ring
        ensures { result.now ≡ self.now.walk.shown.ring }
    {
        self.walk.shown().ring()
    }

    /// Asks for an event, or no more.
    fn ask(&mut self, event: Event, whose: &Whose, is_asked: bool) -> Result<Reply, Refusal>
        ensures asks { AsksEvent (meant (task_names (task_set self.old.system.now)) self.old.walk.shown.machine whose.now) (stopping self.old.stops.slots.items self.old.events) event is_asked result
            (stopping self.new.stops.slots.items self.new.events) }
        ensures walk { self.new.walk ≡ self.old.walk }
        ensures system { self.new.system.now ≡ self.old.system.now }
    {
        let task = meant(&self.system.tasks, self.shown(), whose)?;
        self.events = self.events.with(event, task, is_asked);
        Ok(Reply::Events {
            event,
            task,
            is_asked,
        })
    }

    /// Executes a command that shows neither a task nor the ring.
    pub(crate) fn act(&mut self, command: Command) -> Result<Reply, Refusal>
        requires { shows command ≡ false }
        ensures executes { Executes (meets_of (λ b. (⟦<dyn Stop as Stop>⟧ b.vtable).meets b.value)) (task_set self.old.system.now) self.old.walk (stopping self.old.stops.slots.items self.old.events)
            command.entry result self.new.walk (stopping self.new.stops.slots.items self.new.events) }
        ensures system { self.new.system.now ≡ self.old.system.now }
    {
        match command {
            Command::Step(n) => {
                self.walk.step(n);
                Ok(self.told(Stopped::Unasked))
            }
            Command::Back(n) => {
                self.walk.back(n)?;
                Ok(self.told(Stopped::Unasked))
            }
            Command::Continue(n) => {
                self.stops.mark_anew(self.alloc);
                let met = seek(&mut self.walk, &self.stops, &self.events, n);
                Ok(self.told(met.unwrap_or(Stopped::NoStop)))
            }
            Command::Shown => Ok(self.told(Stopped::Unasked)),
            Command::Break { task, place } => {
                let pc = place_pc(self.system, self.shown(), task, &place)?;
                Ok(Reply::Break { task, pc })
            }
            Command::Delete(number) => {
                self.stops.delete(number)?;
                Ok(Reply::Deleted(number))
            }
            Command::Events {
                event,
                whose,
                is_asked,
            } => self.ask(event, &whose, is_asked),
            Command::Quit => Ok(Reply::Quit),
            _ => unreachable!(),
        }
    }

    /// Executes a command. `Break` changes nothing: its reply says where a stop may be added.
    ///
    /// # Errors
    ///
    /// Then the session is as it was. `UnknownTask` before all others; `UnknownSymbol` and `BadAddress` as the command line names
    /// a place or bytes that aren't there; `BeforeStart` for a way back past the session's first tick; `NoSuchStop`; or there is
    /// no memory for the reply or the way back. `Step` and `Continue` are never refused.
    pub fn exec(&mut self, command: Command) -> Result<Reply, Refusal>
        ensures executes { (want : Result Reply Refusal) × Executes (meets_of (λ b. (⟦<dyn Stop as Stop>⟧ b.vtable).meets b.value)) (task_set self.old.system.now) self.old.walk (stopping self.old.stops.slots.items self.old.events)
            command.entry want self.new.walk (stopping self.new.stops.slots.items self.new.events) × Answers want result }
        ensures system { self.new.system.now ≡ self.old.system.now }
    {
        if shows(&command) {
            let shown = look(&self.system.tasks, self.shown(), self.ring(), &command)?;
            return gathered(self.alloc, &shown);
        }
        self.act(command)
    }

    /// Adds a stop, and answers its number: 1, 2, .. in the order of adding, and never used again.
    ///
    /// # Errors
    ///
    /// `TooManyStops` exactly where 65,535 were added before, else want of memory. The box is handed back, and the session is as
    /// it was.
    pub fn add_stop(&mut self, stop: Box<dyn Stop>) -> Result<u32, (Box<dyn Stop>, Refusal)>
        ensures stops { HandsBack stop (Boxed stop) self.old.stops.slots.items result self.new.stops.slots.items }
        ensures walk { self.new.walk ≡ self.old.walk }
        ensures events { self.new.events ≡ self.old.events }
        ensures system { self.new.system.now ≡ self.old.system.now }
    {
        match self.stops.add(AnyStop::Boxed(stop)) {
            Ok(number) => Ok(number),
            Err((stop, refusal)) => match stop {
                AnyStop::Boxed(stop) => Err((stop, refusal)),
                AnyStop::Place(_) => unreachable!(),
            },
        }
    }

    /// Adds a stop for one task at one pc, and answers its number as `add_stop` does. It needs no box.
    ///
    /// # Errors
    ///
    /// `TooManyStops` exactly where 65,535 were added before, else want of memory. The session is as it was.
    pub fn add_place(&mut self, place: PlaceStop) -> Result<u32, Refusal>
        ensures stops { Adds (Place place) self.old.stops.slots.items result self.new.stops.slots.items }
        ensures walk { self.new.walk ≡ self.old.walk }
        ensures events { self.new.events ≡ self.old.events }
        ensures system { self.new.system.now ≡ self.old.system.now }
    {
        match self.stops.add(AnyStop::Place(place)) {
            Ok(number) => Ok(number),
            Err((_, refusal)) => Err(refusal),
        }
    }
}
