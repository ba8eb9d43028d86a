//! Positions that a way back leaves behind, from which the next one begins.

ghost use Rattle.std.specs.Prelude.{◌≡◌, ◌≤◌, [], IfSome};
ghost use Rattle.rt_walk.specs.Position.{PositionState, IsReached};
ghost use Rattle.rt_walk.specs.Working.Reached.{AreReached};

use crate::position::{ParkedPosition, Position};
use rt_exec::Fetcher;
use rt_queue::MinQueue;
use rt_words::MAX_TICKS;
use std::alloc::{AllocError, Global};

/// The most ticks between the last of them and the end of its way, where there was room and memory for them.
const NEAR: u64 = 256;

/// How many times nearer to that end each of them lies than the one before.
const NEARER: u64 = 16;

/// The most positions: enough for 2^40 ticks.
const MOST_LEFT: usize = 8;

/// The positions that are left behind, in the order of their ticks. Each lies sixteen times nearer to the end of its way than the one
/// before. So steps back, one after the other, run few ticks each, wherever they lead.
#[derive(Drop)]
pub(crate) struct Trail<Q: MinQueue> {
    places: Vec<ParkedPosition<Q>>,
    /// How many there may be.
    most: usize,
}

/// The latest of some positions, in the order of their ticks, that is at a tick or before.
pub(crate) fn latest_of<Q: MinQueue>(
    places: &[ParkedPosition<Q>],
    tick: u64,
) -> Option<&ParkedPosition<Q>>
    ensures reached { (first : PositionState) → AreReached first places.now → IfSome result (λ place. IsReached first place.now) }
    ensures early { IfSome result (λ place. place.now.machine.tick ≤ tick) }
{
    for number in (0..places.len()).rev() {
        let place = &places[number];
        if place.now() <= tick {
            return Some(place);
        }
    }
    None
}

impl<Q: MinQueue> Trail<Q> {
    /// None yet, of a session in which so many positions may be kept.
    pub(crate) fn new(alloc: Global, most: usize) -> Trail<Q>
        ensures { result.places.items ≡ [] }
    {
        Trail {
            places: Vec::new(alloc),
            most: most.min(MOST_LEFT),
        }
    }

    /// The latest position at or before a tick.
    pub(crate) fn before(&self, tick: u64) -> Option<&ParkedPosition<Q>>
        ensures reached { (first : PositionState) → AreReached first self.now.places.items → IfSome result (λ place. IsReached first place.now) }
        ensures early { IfSome result (λ place. place.now.machine.tick ≤ tick) }
    {
        latest_of(&self.places, tick)
    }

    /// Gives up all positions, but one at this tick.
    pub(crate) fn give_up_but(&mut self, tick: u64)
        ensures { (first : PositionState) → AreReached first self.old.places.items → AreReached first self.new.places.items }
    {
        self.places.retain(|place| place.is_at(tick));
    }

    /// Gives up the positions behind a tick, and the others too where none is at it: then the way comes from elsewhere.
    fn come_from(&mut self, tick: u64)
        ensures { (first : PositionState) → AreReached first self.old.places.items → AreReached first self.new.places.items }
    {
        let is_ours = self.places.iter().any(|place| place.is_at(tick));
        self.places.retain(|place| is_ours && place.now() <= tick);
    }

    /// Leaves a position behind, unless there is no memory for it.
    fn leave<F: Fetcher>(&mut self, place: &Position<Q, F>) -> Result<(), AllocError>
        ensures { (first : PositionState) → IsReached first place.now → AreReached first self.old.places.items → AreReached first self.new.places.items }
    {
        let parked = place.park()?;
        self.places.push(parked)?;
        Ok(())
    }

    /// Runs a position to a tick, and leaves positions behind on its way, unless there is no memory for them.
    pub(crate) fn lead<F: Fetcher>(&mut self, place: &mut Position<Q, F>, tick: u64)
        requires early { place.old.machine.tick ≤ tick }
        requires limit { tick ≤ MAX_TICKS }
        ensures clock { place.new.machine.tick ≡ tick }
        ensures reached { (first : PositionState) → IsReached first place.old → IsReached first place.new }
        ensures left { (first : PositionState) → IsReached first place.old → AreReached first self.old.places.items → AreReached first self.new.places.items }
    {
        self.come_from(place.now());
        'nearer: while tick - place.now() > NEAR && self.places.len() < self.most {
            let left = tick - place.now();
            place.run(left - left / NEARER);
            let _ = self.leave(place);
        }
        place.run(tick - place.now());
    }
}
