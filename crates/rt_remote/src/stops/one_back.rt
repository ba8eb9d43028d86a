//! The way back by one instruction of a task.

ghost use Rattle.std.specs.Prelude.{◌≡◌, ◌+◌, ℕ, if◌then◌else◌, Option, Some, None, IfOk, IfErr};
ghost use Rattle.rt_image.specs.SystemFile.{TaskSet};
ghost use Rattle.rt_history.specs.Legal.{state_at};
ghost use Rattle.rt_points.specs.declared.met.Watched.{Watched};
ghost use Rattle.rt_command.specs.declared.refusal.Refusal.TheVariants.{NoMemory};
ghost use Rattle.rt_walk.specs.Met.{ahead_of};
ghost use Rattle.rt_walk.specs.Walking.{IsWalk, Names};
ghost use Rattle.rt_remote.specs.stops.OneBack.{own_tick, tells_tick, StepsBack};

use crate::stops::ahead::watched_at;
use crate::stops::seeing::Own;
use crate::stops::told::Told;
use rt_command::Refusal;
use rt_core::Next;
use rt_exec::Fetcher;
use rt_history::Entry;
use rt_packet::answer::Stop;
use rt_points::{Points, Watched};
use rt_queue::MinQueue;
use rt_walk::{Endless, Last, Position, Walk, WayBack};

/// The task whose instruction is taken back, and the points that may be met behind it.
#[derive(Clone, Copy)]
pub struct OneBack<'a> {
    pub task: u32,
    pub points: &'a Points,
    /// Whether a watchpoint is passed by.
    pub passes: bool,
}

/// The watchpoint that is reported, unless it is passed by.
fn told_watch(passes: bool, watched: Option<Watched>) -> Option<Watched>
    ensures { result ≡ (if passes then None else watched) }
{
    if passes { None } else { watched }
}

/// Whether the last entry is a tick of a task. The walk looks again, so no clause says so.
fn is_last<Q: MinQueue, F: Fetcher>(position: &Position<Q, F>, task: u32) -> bool {
    let ring = position.ring();
    let Some(place) = ring.len().checked_sub(1) else {
        return false;
    };
    match ring.get(place) {
        Some(Entry::Busy { rec, .. }) => rec.task == task,
        _ => false,
    }
}

/// What is told where the task's last tick has been taken back; where its watchpoint is met before it, the walk stands again where it
/// began.
fn taken_back<Q: MinQueue, F: Fetcher>(walk: &mut Walk<Q, F>, way: OneBack<'_>) -> Told
    requires { Names way.task walk.old.shown.machine }
    ensures walk { IsWalk walk.old walk.new }
    ensures tells { (watched : Option Watched) × (ahead_of (own_tick way.entry) walk.old.shown.machine ≡ Some watched)
        × tells_tick way.entry (walk.old.shown.machine.tick + 1) walk.old.shown.machine.tick watched result walk.new.shown.machine.tick }
{
    let position = walk.shown();
    let watched = match position.next() {
        Next::Run { task, pc } => watched_at(way.points, task, pc, position.machine()),
        Next::Idle => None,
    };
    let stop = match told_watch(way.passes, watched) {
        Some(watched) => {
            walk.step(1);
            Stop::Watch(watched)
        }
        None => Stop::Plain,
    };
    Told {
        stop,
        task: way.task,
    }
}

/// The same, by a look over the way.
fn look_back<Q: MinQueue, F: Fetcher>(
    walk: &mut Walk<Q, F>,
    way: OneBack<'_>,
) -> Result<Told, Refusal>
    ensures walk { IfOk result (λ _. IsWalk walk.old walk.new) }
    ensures back { IfOk result (λ found. (set : TaskSet) → walk.old.first.machine ≡ state_at set walk.old.first.machine.tick
        → (last : Option (ℕ × Option Watched)) × StepsBack way.entry set walk.old.first.machine.tick walk.old.shown.machine.tick last found walk.new.shown.machine.tick) }
    ensures memory { IfErr result (λ refusal. (refusal ≡ NoMemory) × (walk.new ≡ walk.old)) }
{
    let back = WayBack {
        low: 0,
        passes: false,
    };
    let stop = match walk.last_met(Own(way), &mut Endless, back)? {
        Last::Met(behind, watched) => match told_watch(way.passes, watched) {
            Some(watched) => Stop::Watch(watched),
            None => {
                walk.back_to(behind.saturating_sub(1))?;
                Stop::Plain
            }
        },
        Last::Unmet | Last::Paused(_) => Stop::Begin,
    };
    Ok(Told {
        stop,
        task: way.task,
    })
}

/// Goes back to the last tick of a task, and tells `Plain`. Where the task's watchpoint is met there and not passed by, it stays and
/// tells it; where the task has no tick since the walk's first, it stays and tells `Begin`.
///
/// # Errors
///
/// `NoMemory`: there is none to go over the way once more. The walk is then as it was.
pub fn step_back<Q: MinQueue, F: Fetcher>(
    walk: &mut Walk<Q, F>,
    way: OneBack<'_>,
) -> Result<Told, Refusal>
    ensures walk { IfOk result (λ _. IsWalk walk.old walk.new) }
    ensures back { IfOk result (λ found. (set : TaskSet) → walk.old.first.machine ≡ state_at set walk.old.first.machine.tick
        → (last : Option (ℕ × Option Watched)) × StepsBack way.entry set walk.old.first.machine.tick walk.old.shown.machine.tick last found walk.new.shown.machine.tick) }
    ensures memory { IfErr result (λ refusal. (refusal ≡ NoMemory) × (walk.new ≡ walk.old)) }
{
    if is_last(walk.shown(), way.task) && walk.back_if_named(way.task)? {
        return Ok(taken_back(walk, way));
    }
    look_back(walk, way)
}
