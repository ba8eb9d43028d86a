//! Positions on the way of a session, at which a way back may begin.

ghost use Rattle.std.specs.Prelude.{◌≡◌, ◌==◌, ◌%◌, if◌then◌else◌, ℕ, ◌+◌, ◌-◌, ◌<◌, ◌≤◌, ◌^◌, ◌++◌, ◌∷◌, min, [], length, Option, IfSome, IfOk, IfErr, true, false};
ghost use Rattle.rt_words.specs.Limits.{tick_limit};
ghost use Rattle.rt_image.specs.SystemFile.{TaskSet};
ghost use Rattle.rt_walk.specs.Jobs.{Stand};
ghost use Rattle.rt_walk.specs.Position.{PositionState, IsReached, IsAt, stand_of};
ghost use Rattle.rt_walk.specs.Met.{met_at};
ghost use Rattle.rt_walk.specs.FirstMet.{SeeksOrPauses, Moves, is_paused};
ghost use Rattle.rt_walk.specs.Working.Kept.{tick_of, AreKept};
ghost use Rattle.rt_walk.specs.Working.Reached.{AreReached};

use crate::halt::{Halt, Sought};
use crate::pace::{Pace, is_to_pause};
use crate::position::{ParkedPosition, Position};
use crate::trail::latest_of;
use rt_exec::Fetcher;
use rt_image::Task;
use rt_queue::MinQueue;
use rt_words::MAX_TICKS;
use std::alloc::{AllocError, Global};

/// The most positions that are kept, and how many bytes of RAM they may hold in all, unless they are two.
const MOST_PLACES: u64 = 32;

const MOST_RAM: u64 = 1 << 26;

/// How many ticks lie between two of them at first.
const FIRST_DISTANCE: u64 = 65_536;

/// The positions at ticks that are multiples of a distance, in the order of their ticks. Where they become too many, every
/// second one goes and the distance doubles. One for which there was no memory isn't there, nor are those that were given up for a
/// way back.
#[derive(Drop)]
pub(crate) struct Checkpoints<Q: MinQueue> {
    places: Vec<ParkedPosition<Q>>,
    /// How many there may be.
    most: usize,
    /// The ticks between two of them.
    distance: u64,
    /// The tick at which the next one is to be kept.
    due: u64,
    /// Whether none is missing for want of memory.
    is_whole: bool,
    ghost apart: { 1 ≤ distance },
    ghost two: { 2 ≤ most },
    ghost few: { length places.items ≤ most },
}

/// How many positions of these tasks may be kept.
pub(crate) fn most_places(tasks: &[Task]) -> usize
    ensures { 2 ≤ result }
{
    let mut ram = 0u64;
    for task in tasks {
        ram = ram.saturating_add(u64::from(task.ram));
    }
    (MOST_RAM / ram.max(1)).max(2).min(MOST_PLACES) as usize
}

/// A tick that is a multiple of a distance, or where it is none of the doubled distance, the next one.
fn due_behind(due: u64, distance: u64, doubled: u64) -> u64
    ensures { result ≡ (if due % doubled == 0 then due else min (due + distance) (2 ^ 64 - 1)) }
{
    if due.is_multiple_of(doubled) {
        due
    } else {
        due.saturating_add(distance)
    }
}

impl<Q: MinQueue> Checkpoints<Q> {
    /// None yet, of a session of these tasks that begins at tick `start`.
    pub(crate) fn new(alloc: Global, tasks: &[Task], start: u64) -> Checkpoints<Q>
        requires { start ≤ MAX_TICKS }
        ensures none { result.places.items ≡ [] }
        ensures later { start < result.due }
        ensures kept { AreKept tick_of start result.due result.distance result.most result.places.items }
    {
        Checkpoints {
            places: Vec::new(alloc),
            most: most_places(tasks),
            distance: FIRST_DISTANCE,
            due: (start / FIRST_DISTANCE + 1) * FIRST_DISTANCE,
            is_whole: true,
        }
    }

    /// Drops every second position where there are as many as there may be.
    fn thin(&mut self)
        ensures reached { (first : PositionState) → AreReached first self.old.places.items → AreReached first self.new.places.items }
        ensures whole { self.new.is_whole ≡ self.old.is_whole }
        ensures later { self.old.due ≤ self.new.due }
        ensures kept { (start : ℕ) → AreKept tick_of start self.old.due self.old.distance self.old.most self.old.places.items
            → AreKept tick_of start self.new.due self.new.distance self.new.most self.new.places.items × (length self.new.places.items < self.new.most) }
    {
        if self.places.len() < self.most {
            return;
        }
        let distance = self.distance.saturating_mul(2);
        self.places.retain(|place| place.is_at_multiple(distance));
        self.due = due_behind(self.due, self.distance, distance);
        self.distance = distance;
    }

    /// Keeps a position, unless there is no memory for it.
    fn keep<F: Fetcher>(&mut self, place: &Position<Q, F>) -> Result<(), AllocError>
        requires { length self.old.places.items < self.old.most }
        ensures kept { IfOk result (λ _. self.new.places.items ≡ self.old.places.items ++ place.now ∷ []) }
        ensures unkept { IfErr result (λ _. self.new.places.items ≡ self.old.places.items) }
        ensures due { self.new.due ≡ self.old.due }
        ensures distance { self.new.distance ≡ self.old.distance }
        ensures most { self.new.most ≡ self.old.most }
        ensures whole { self.new.is_whole ≡ self.old.is_whole }
    {
        let parked = place.park()?;
        self.places.push(parked)?;
        Ok(())
    }

    /// Keeps a position that is due where there is room for one more, unless there is no memory for it.
    fn add<F: Fetcher>(&mut self, place: &Position<Q, F>)
        ensures reached { (first : PositionState) → IsReached first place.now → AreReached first self.old.places.items → AreReached first self.new.places.items }
        ensures later { place.now.machine.tick ≤ self.old.due → place.now.machine.tick < self.new.due }
        ensures kept { (start : ℕ) → (self.old.is_whole ≡ true → AreKept tick_of start self.old.due self.old.distance self.old.most self.old.places.items
            × (length self.old.places.items < self.old.most))
            → self.new.is_whole ≡ true → AreKept tick_of start self.new.due self.new.distance self.new.most self.new.places.items }
    {
        if place.now() != self.due {
            return;
        }
        self.due = self.due.saturating_add(self.distance);
        if self.places.len() < self.most {
            let is_kept = self.keep(place).is_ok();
            self.is_whole &= is_kept;
        }
    }

    /// Keeps a position if it is due, unless there is no memory for it.
    fn visit<F: Fetcher>(&mut self, place: &Position<Q, F>)
        ensures reached { (first : PositionState) → IsReached first place.now → AreReached first self.old.places.items → AreReached first self.new.places.items }
        ensures later { place.now.machine.tick ≤ self.old.due → place.now.machine.tick < self.new.due }
        ensures kept { (start : ℕ) → (self.old.is_whole ≡ true → AreKept tick_of start self.old.due self.old.distance self.old.most self.old.places.items)
            → self.new.is_whole ≡ true → AreKept tick_of start self.new.due self.new.distance self.new.most self.new.places.items }
    {
        if place.now() == self.due {
            self.thin();
            self.add(place);
        }
    }

    /// Runs a position for `n` ticks, fewer only where tick 2^40 comes before.
    pub(crate) fn run<F: Fetcher>(&mut self, place: &mut Position<Q, F>, n: u64)
        requires { place.old.machine.tick < self.old.due }
        ensures clock { place.new.machine.tick ≡ place.old.machine.tick + min n (MAX_TICKS - place.old.machine.tick) }
        ensures reached { (first : PositionState) → IsReached first place.old → IsReached first place.new }
        ensures kept { (first : PositionState) → IsReached first place.old → AreReached first self.old.places.items → AreReached first self.new.places.items }
        ensures later { place.new.machine.tick < self.new.due }
        ensures spread { (start : ℕ) → (self.old.is_whole ≡ true → AreKept tick_of start self.old.due self.old.distance self.old.most self.old.places.items)
            → self.new.is_whole ≡ true → AreKept tick_of start self.new.due self.new.distance self.new.most self.new.places.items }
    {
        let mut left = n.min(MAX_TICKS - place.now());
        while left > 0 {
            let part = left.min(self.due - place.now());
            place.run(part);
            self.visit(place);
            left -= part;
        }
    }

    /// Goes on with a position to the first tick at which something is met, at most `n` ticks.
    pub(crate) fn seek<F: Fetcher, H: Halt, P: Pace>(
        &mut self,
        place: &mut Position<Q, F>,
        halt: H,
        pace: &mut P,
        n: u64,
    ) -> Sought<H::Found>
        requires { place.old.machine.tick < self.old.due }
        ensures seeks { (begin : Stand) (set : TaskSet) → IsAt begin set (stand_of place.old)
            → SeeksOrPauses (P.has_paused pace.new) (met_at (H.behind halt) (H.ahead halt) begin set) place.old.machine.tick n result place.new.machine.tick }
        ensures moves { Moves place.old.machine.tick n result place.new.machine.tick }
        ensures stands { (begin : Stand) (set : TaskSet) → IsAt begin set (stand_of place.old) → IsAt begin set (stand_of place.new) }
        ensures reached { (first : PositionState) → IsReached first place.old → IsReached first place.new }
        ensures kept { (first : PositionState) → IsReached first place.old → AreReached first self.old.places.items → AreReached first self.new.places.items }
        ensures later { place.new.machine.tick < self.new.due }
        ensures spread { (start : ℕ) → (self.old.is_whole ≡ true → AreKept tick_of start self.old.due self.old.distance self.old.most self.old.places.items)
            → self.new.is_whole ≡ true → AreKept tick_of start self.new.due self.new.distance self.new.most self.new.places.items }
        ensures paused { P.has_paused pace.old ≡ false → P.has_paused pace.new ≡ is_paused result }
        ensures goes { P.goes pace.old pace.new }
    {
        let mut left = n.min(MAX_TICKS - place.now());
        while left > 0 {
            let part = left.min(self.due - place.now());
            let sought = place.seek(halt, pace, part);
            self.visit(place);
            if !sought.is_unmet() {
                return sought;
            }
            left -= part;
            if is_to_pause(pace, left) {
                return Sought::Paused;
            }
        }
        Sought::Unmet
    }

    /// Gives up all positions, but one at this tick.
    pub(crate) fn give_up_but(&mut self, tick: u64)
        ensures reached { (first : PositionState) → AreReached first self.old.places.items → AreReached first self.new.places.items }
        ensures due { self.new.due ≡ self.old.due }
        ensures whole { self.new.is_whole ≡ false }
    {
        self.places.retain(|place| place.is_at(tick));
        self.is_whole = false;
    }

    /// The latest position at or before a tick.
    pub(crate) fn before(&self, tick: u64) -> Option<&ParkedPosition<Q>>
        ensures reached { (first : PositionState) → AreReached first self.now.places.items → IfSome result (λ place. IsReached first place.now) }
        ensures early { IfSome result (λ place. place.now.machine.tick ≤ tick) }
    {
        latest_of(&self.places, tick)
    }
}
