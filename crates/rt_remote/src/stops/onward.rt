//! The way on to the first stop.

ghost use Rattle.std.specs.Prelude.{◌≡◌, ◌≤◌, true, false};
ghost use Rattle.rt_image.specs.SystemFile.{TaskSet};
ghost use Rattle.rt_history.specs.Legal.{state_at};
ghost use Rattle.rt_walk.specs.Jobs.{Stand};
ghost use Rattle.rt_walk.specs.Position.{IsAt, stand_of};
ghost use Rattle.rt_walk.specs.Met.{ahead_of, met_at};
ghost use Rattle.rt_walk.specs.FirstMet.{SeeksOrPauses, is_paused};
ghost use Rattle.rt_walk.specs.Walking.{IsWalk};
ghost use Rattle.rt_remote.specs.stops.Ahead.{behind_on};
ghost use Rattle.rt_remote.specs.stops.Onward.{is_stop, break_on, watch_on, met_on, over_told, is_interrupted, GoesOn};
ghost use Rattle.rt_remote.specs.stops.Working.Ended.{start_told, end_tick, is_ahead, is_own, tells, end_stop, end_told};

use crate::stops::ahead::{break_met, watch_met};
use crate::stops::looked::{
    any_step, are_over, general, is_looked, is_stepped, stands, steps_are_over,
};
use crate::stops::looks::{Anywhere, Asking, AtPlace, Nowhere};
use crate::stops::told::{Actions, Told};
use rt_core::{Machine, Next};
use rt_exec::Fetcher;
use rt_packet::answer::Stop;
use rt_points::{Breaking, Events, Points};
use rt_queue::MinQueue;
use rt_walk::{Pace, Sought, Walk};
use rt_words::MAX_TICKS;

/// A way on, and what it is looked through for.
#[derive(Clone, Copy)]
pub struct Onward<'a> {
    /// How each task goes on. One without an action is not looked at.
    pub actions: &'a Actions,
    pub points: &'a Points,
    pub events: &'a Events,
    /// The shown task: a stop that is no task's own is reported for it where the named one is not looked at.
    pub shown: u32,
    /// The task whose breakpoint is passed by where the way begins.
    pub told: u32,
    /// Whether a watchpoint is passed by where the way begins.
    pub passes: bool,
    /// The tick at which the way ends, if it begins before.
    pub tick_stop: Option<u64>,
}

/// Whether the tick stop is this tick.
pub(crate) fn is_stop(tick_stop: Option<u64>, tick: u64) -> bool
    ensures { result ≡ is_stop tick_stop tick }
{
    match tick_stop {
        Some(stop) => stop == tick,
        None => false,
    }
}

/// The breakpoint that a looked-at task meets.
fn break_on(way: &Onward<'_>, is_start: bool, task: u32, pc: u32) -> Option<Told>
    ensures { result ≡ break_on way.now is_start task pc }
{
    if is_start && (is_stepped(way.actions, task) || task == way.told) {
        None
    } else {
        break_met(way.points, task, pc)
    }
}

/// The watchpoint that it meets.
fn watch_on<Q: MinQueue, F: Fetcher>(
    way: &Onward<'_>,
    is_start: bool,
    task: u32,
    pc: u32,
    machine: &Machine<Q, F>,
) -> Option<Told>
    ensures { result ≡ watch_on way.now is_start task pc machine.now }
{
    if is_start && way.passes {
        None
    } else {
        watch_met(way.points, task, pc, machine)
    }
}

/// What the named task meets before its attempt, if it is looked at.
pub(crate) fn met_on<Q: MinQueue, F: Fetcher>(
    way: &Onward<'_>,
    is_start: bool,
    task: u32,
    pc: u32,
    machine: &Machine<Q, F>,
) -> Option<Told>
    ensures { result ≡ met_on way.now is_start task pc machine.now }
{
    if !is_looked(way.actions, task) {
        return None;
    }
    match break_on(way, is_start, task, pc) {
        Some(told) => Some(told),
        None => watch_on(way, is_start, task, pc, machine),
    }
}

/// What is met where a way on begins.
fn met_at_start<Q: MinQueue, F: Fetcher>(way: &Onward<'_>, machine: &Machine<Q, F>) -> Option<Told>
    ensures { result ≡ ahead_of (met_on way.now true) machine.now }
{
    match machine.next() {
        Next::Run { task, pc } => met_on(way, true, task, pc, machine),
        Next::Idle => None,
    }
}

/// What is reported where every stepped task is over, or every looked-at one.
#[tactic(auto, unfolding(crate::specs::stops::Onward::over_told))]
fn over_told<Q: MinQueue, F: Fetcher>(way: &Onward<'_>, machine: &Machine<Q, F>) -> Option<Told>
    ensures { result ≡ over_told way.now machine.now }
{
    if steps_are_over(way.actions, machine) {
        return Some(stands(way.actions, way.shown, machine));
    }
    if are_over(way.actions, machine) {
        return Some(general(way.actions, way.shown, machine, Stop::End));
    }
    None
}

/// What is reported where a way on begins, if it ends there.
fn start_told<Q: MinQueue, F: Fetcher>(way: &Onward<'_>, machine: &Machine<Q, F>) -> Option<Told>
    ensures { result ≡ start_told way.now machine.now }
{
    if let Some(told) = over_told(way, machine) {
        return Some(told);
    }
    match met_at_start(way, machine) {
        Some(told) => Some(told),
        None if machine.now() == MAX_TICKS => {
            Some(general(way.actions, way.shown, machine, Stop::End))
        }
        None => None,
    }
}

/// The last tick of a way on from a tick: its tick stop, if that comes, else tick 2^40.
fn end_tick(tick_stop: Option<u64>, start: u64) -> u64
    requires { start ≤ MAX_TICKS }
    ensures { result ≡ end_tick tick_stop start }
{
    match tick_stop {
        Some(stop) if start < stop => stop.min(MAX_TICKS),
        _ => MAX_TICKS,
    }
}

/// Whether a stop is met before an attempt.
fn is_ahead(stop: Stop) -> bool
    ensures { result ≡ is_ahead stop }
{
    match stop {
        Stop::Break(_) | Stop::Watch(_) => true,
        _ => false,
    }
}

/// Whether a stop is a task's own: met by its attempt, or before it.
pub(crate) fn is_own(stop: Stop) -> bool
    ensures { result ≡ is_own stop }
{
    match stop {
        Stop::Plain | Stop::Ended | Stop::Faulted(_) | Stop::Happened(..) => true,
        _ => is_ahead(stop),
    }
}

/// Whether what is met is reported: the tick stop goes before what is met ahead there.
fn tells(is_at_stop: bool, stop: Stop) -> bool
    ensures { result ≡ tells is_at_stop stop }
{
    is_own(stop) && !(is_at_stop && is_ahead(stop))
}

/// Why a way on ends at its last tick, where nothing is met.
fn end_stop(is_at_stop: bool) -> Stop
    ensures { result ≡ end_stop is_at_stop }
{
    if is_at_stop { Stop::AtTick } else { Stop::End }
}

/// What is reported where a search has come to stand still.
fn end_told<Q: MinQueue, F: Fetcher>(
    way: &Onward<'_>,
    machine: &Machine<Q, F>,
    sought: Sought<Told>,
) -> Told
    ensures { result ≡ end_told way.now machine.now sought }
{
    let is_at_stop = is_stop(way.tick_stop, machine.now());
    let stop = match sought {
        Sought::Met(found) if tells(is_at_stop, found.stop) => return found,
        Sought::Met(_) | Sought::Unmet => end_stop(is_at_stop),
        Sought::Paused => Stop::Interrupted,
    };
    general(way.actions, way.shown, machine, stop)
}

/// Goes on to the first tick at which something is met, at most `n` ticks, unless the pace pauses before.
fn seek<Q: MinQueue, F: Fetcher, P: Pace>(
    walk: &mut Walk<Q, F>,
    way: Onward<'_>,
    pace: &mut P,
    n: u64,
) -> Sought<Told>
    ensures walk { IsWalk walk.old walk.new }
    ensures seeks { (begin : Stand) (set : TaskSet) → IsAt begin set (stand_of walk.old.shown)
        → SeeksOrPauses (P.has_paused pace.new) (met_at (behind_on way.entry.actions.now way.entry.events.now) (met_on way.entry false) begin set) walk.old.shown.machine.tick n result walk.new.shown.machine.tick }
    ensures stands { (begin : Stand) (set : TaskSet) → IsAt begin set (stand_of walk.old.shown) → IsAt begin set (stand_of walk.new.shown) }
    ensures paused { P.has_paused pace.old ≡ false → P.has_paused pace.new ≡ is_paused result }
    ensures goes { P.goes pace.old pace.new }
{
    if way.events.is_any() {
        return walk.seek(Asking::new(way), pace, n);
    }
    if any_step(way.actions) || way.points.has_watches() {
        return walk.seek(Anywhere::new(way), pace, n);
    }
    match way.points.breaking() {
        Breaking::Nowhere => walk.seek(Nowhere::new(way), pace, n),
        Breaking::At(place) => walk.seek(AtPlace::new(way, place), pace, n),
        Breaking::Anywhere => walk.seek(Anywhere::new(way), pace, n),
    }
}

/// Goes on to the first tick at which something is reported, unless the pace pauses before: it then tells `Interrupted`. Where every
/// stepped task is over it stays, and tells how one stands; where every looked-at task is, it tells `End`. Takes no memory that it needs.
pub fn go_on<Q: MinQueue, F: Fetcher, P: Pace>(
    walk: &mut Walk<Q, F>,
    way: Onward<'_>,
    pace: &mut P,
) -> Told
    ensures walk { IsWalk walk.old walk.new }
    ensures goes_on { (set : TaskSet) → walk.old.shown.machine ≡ state_at set walk.old.shown.machine.tick
        → GoesOn way.entry (stand_of walk.old.shown) set walk.old.shown.machine.tick result walk.new.shown.machine.tick }
    ensures pauses { P.has_paused pace.old ≡ false → P.has_paused pace.new ≡ is_interrupted result.stop }
    ensures goes { P.goes pace.old pace.new }
{
    if let Some(told) = start_told(&way, walk.shown().machine()) {
        return told;
    }
    let start = walk.shown().now();
    let most = end_tick(way.tick_stop, start) - start;
    let sought = seek(walk, way, pace, most);
    end_told(&way, walk.shown().machine(), sought)
}
