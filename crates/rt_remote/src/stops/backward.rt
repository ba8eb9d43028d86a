//! The way back to the last stop.

ghost use Rattle.std.specs.Prelude.{◌≡◌, true, IfOk, IfErr};
ghost use Rattle.rt_image.specs.SystemFile.{TaskSet};
ghost use Rattle.rt_command.specs.declared.refusal.Refusal.TheVariants.{NoMemory};
ghost use Rattle.rt_history.specs.Legal.{state_at};
ghost use Rattle.rt_walk.specs.Position.{stand_of};
ghost use Rattle.rt_walk.specs.LastMet.{back_at, has_pause, LooksBack};
ghost use Rattle.rt_walk.specs.Walking.{IsWalk, lowest};
ghost use Rattle.rt_remote.specs.stops.Onward.{is_interrupted};
ghost use Rattle.rt_remote.specs.stops.Backward.{here_back, left_back, behind_back, GoesBack};
ghost use Rattle.rt_remote.specs.stops.Working.Left.{low_tick, last_tick, low_stop, left_told};

use crate::stops::looked::general;
use crate::stops::onward::{is_own, is_stop};
use crate::stops::seeing::{AskingBack, Back};
use crate::stops::told::{Actions, Told};
use rt_command::Refusal;
use rt_core::Machine;
use rt_exec::Fetcher;
use rt_packet::answer::Stop;
use rt_points::{Events, Points};
use rt_queue::MinQueue;
use rt_walk::{Last, Pace, Walk, WayBack};

/// A way back, and what it is looked through for.
#[derive(Clone, Copy)]
pub struct Backward<'a> {
    /// The looked-at tasks are those that have an action.
    pub actions: &'a Actions,
    pub points: &'a Points,
    pub events: &'a Events,
    /// The shown task: a stop that is no task's own is reported for it where the named one is not looked at.
    pub shown: u32,
    /// Whether a watchpoint is passed by where the way begins.
    pub passes: bool,
    /// The tick at which the way ends, if it begins behind.
    pub tick_stop: Option<u64>,
}

/// The lowest tick of a way back from a tick, but for that at which the walk begins: its tick stop, if that comes.
fn low_tick(tick_stop: Option<u64>, now: u64) -> u64
    ensures { result ≡ low_tick tick_stop now }
{
    match tick_stop {
        Some(stop) if stop < now => stop,
        _ => 0,
    }
}

/// Why a way back from tick `now` ends at a tick down to which nothing is met, the lowest.
fn low_stop(tick_stop: Option<u64>, now: u64, tick: u64) -> Stop
    ensures { result ≡ low_stop tick_stop now tick }
{
    if tick < now && is_stop(tick_stop, tick) {
        Stop::AtTick
    } else {
        Stop::Begin
    }
}

/// Where a look back ends, of which this is the lowest tick.
fn last_tick(low: u64, last: Last<Told>) -> u64
    ensures { result ≡ last_tick low last }
{
    match last {
        Last::Met(tick, _) | Last::Paused(tick) => tick,
        Last::Unmet => low,
    }
}

/// What is reported where it has led to.
fn left_told<Q: MinQueue, F: Fetcher>(
    way: &Backward<'_>,
    now: u64,
    machine: &Machine<Q, F>,
    last: Last<Told>,
) -> Told
    ensures { result ≡ left_told way.now now machine.now last }
{
    let stop = match last {
        Last::Met(_, found) if is_own(found.stop) => return found,
        Last::Met(_, _) | Last::Unmet => low_stop(way.tick_stop, now, machine.now()),
        Last::Paused(_) => Stop::Interrupted,
    };
    general(way.actions, way.shown, machine, stop)
}

/// Looks for the last tick at which a task's own stop is met, or an event.
fn last_met<Q: MinQueue, F: Fetcher, P: Pace>(
    walk: &mut Walk<Q, F>,
    way: Backward<'_>,
    pace: &mut P,
    back: WayBack,
) -> Result<Last<Told>, Refusal>
    ensures walk { walk.new ≡ walk.old }
    ensures memory { IfErr result (λ refusal. refusal ≡ NoMemory) }
    ensures paused { IfOk result (λ last. has_pause last ≡ true → P.has_paused pace.new ≡ true) }
    ensures looks { IfOk result (λ last. (set : TaskSet) → walk.old.first.machine ≡ state_at set walk.old.first.machine.tick
        → LooksBack (P.has_paused pace.new) (back_at (here_back way.entry) (left_back way.entry) (behind_back way.entry) back.passes (stand_of walk.old.first) set walk.old.first.machine.tick walk.old.shown.machine.tick)
        (lowest back.low walk.old) walk.old.shown.machine.tick last) }
    ensures goes { P.goes pace.old pace.new }
{
    if way.events.is_any() {
        walk.last_met(AskingBack::new(way), pace, back)
    } else {
        walk.last_met(Back::new(way), pace, back)
    }
}

/// Goes back to the last tick at which something is reported, down to the walk's first tick, unless the pace pauses before: it then tells
/// `Interrupted`.
///
/// # Errors
///
/// `NoMemory`: there is none to go over the way once more. The walk is then as it was.
pub fn go_back<Q: MinQueue, F: Fetcher, P: Pace>(
    walk: &mut Walk<Q, F>,
    way: Backward<'_>,
    pace: &mut P,
) -> Result<Told, Refusal>
    ensures walk { IfOk result (λ _. IsWalk walk.old walk.new) }
    ensures back { IfOk result (λ found. (set : TaskSet) → walk.old.first.machine ≡ state_at set walk.old.first.machine.tick
        → GoesBack way.entry (stand_of walk.old.first) set walk.old.first.machine.tick walk.old.shown.machine.tick found walk.new.shown.machine.tick) }
    ensures pauses { IfOk result (λ found. is_interrupted found.stop ≡ true → P.has_paused pace.new ≡ true) }
    ensures memory { IfErr result (λ refusal. (refusal ≡ NoMemory) × (walk.new ≡ walk.old)) }
    ensures goes { P.goes pace.old pace.new }
{
    let now = walk.shown().now();
    let low = low_tick(way.tick_stop, now);
    let back = WayBack {
        low,
        passes: way.passes,
    };
    let last = last_met(walk, way, pace, back)?;
    walk.back_to(last_tick(low, last))?;
    Ok(left_told(&way, now, walk.shown().machine(), last))
}
