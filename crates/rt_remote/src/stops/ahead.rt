//! What a task meets before its coming attempt, and what the attempt before did.

ghost use Rattle.std.specs.Prelude.{◌≡◌, ℕ, None, false};
ghost use Rattle.rt_core.specs.View.{lent};
ghost use Rattle.rt_remote.specs.stops.Ahead.{word_at, stop_by, done_by, break_met, watched_at, watch_met};
ghost use Rattle.rt_remote.specs.stops.Working.Shown.{watch_of_word, watch_of_view};

use crate::stops::looked::{is_looked, is_stepped};
use crate::stops::told::{Actions, Told};
use rt_core::{Machine, View};
use rt_exec::Fetcher;
use rt_history::{Attempt, AttemptOutcome};
use rt_packet::answer::Stop;
use rt_points::{Points, Watched, access_of, may_access};
use rt_queue::MinQueue;
use rt_words::RAM_BASE;

/// The word at a pc, low byte first, where its four bytes are all in RAM.
#[inline(always)]
#[tactic(auto, unfolding(rt_exec::specs::mem::Access::number))]
fn word_at(ram: &[u8], pc: u32) -> Option<u32>
    ensures { result ≡ word_at ram.now pc }
{
    if pc < RAM_BASE {
        return None;
    }
    let place = (pc - RAM_BASE) as usize;
    if place + 4 > ram.len() {
        return None;
    }
    Some(u32::from_le_bytes([ram[place], ram[place + 1], ram[place + 2], ram[place + 3]]))
}

/// How an attempt stops its task, which is looked at.
#[inline(always)]
fn stop_by(actions: &Actions, task: u32, outcome: AttemptOutcome) -> Option<Stop>
    ensures { result ≡ stop_by actions.now task outcome }
{
    match outcome {
        AttemptOutcome::End => Some(Stop::Ended),
        AttemptOutcome::Fault(fault) => Some(Stop::Faulted(fault)),
        _ if is_stepped(actions, task) => Some(Stop::Plain),
        _ => None,
    }
}

/// What an attempt did that is reported: its task's end or fault, or that it was a stepped task's.
#[inline(always)]
pub(crate) fn done_by(actions: &Actions, attempt: &Attempt) -> Option<Told>
    ensures { result ≡ done_by actions.now attempt.now }
{
    let task = attempt.task;
    if !is_looked(actions, task) {
        return None;
    }
    let stop = stop_by(actions, task, attempt.outcome)?;
    Some(Told { stop, task })
}

/// The breakpoint that a task meets at pc.
pub(crate) fn break_met(points: &Points, task: u32, pc: u32) -> Option<Told>
    ensures { result ≡ break_met points.now task pc }
{
    if !points.may_break(task, pc) {
        return None;
    }
    let kind = points.break_at(task, pc)?;
    Some(Told {
        stop: Stop::Break(kind),
        task,
    })
}

/// The watchpoint that a task meets which shows this view.
fn watch_of_view(points: &Points, task: u32, pc: u32, view: &View<'_>) -> Option<Watched>
    ensures { result ≡ watch_of_view points.now task pc (lent view.now) }
{
    let word = word_at(view.ram, pc)?;
    let access = access_of(word, view.x)?;
    points.watch_at(task, access)
}

/// Whether a word that is executed with these registers may meet a watchpoint, by what it accesses.
#[inline(never)]
fn may_touch(points: &Points, word: u32, x: &[u32; 32]) -> bool
    ensures { result ≡ false → (task : ℕ) → watch_of_word points.now task word x.now ≡ None }
{
    match access_of(word, x) {
        Some(access) => points.may_watch(access),
        None => false,
    }
}

/// Whether a task that shows this view may meet a watchpoint at pc: by the opcode of the word there, and then by what it accesses.
#[inline(always)]
fn may_watch_in(points: &Points, view: &View<'_>, pc: u32) -> bool
    ensures { result ≡ false → (task : ℕ) → watch_of_view points.now task pc (lent view.now) ≡ None }
{
    let Some(word) = word_at(view.ram, pc) else {
        return false;
    };
    if !may_access(word) {
        return false;
    }
    may_touch(points, word, view.x)
}

/// Whether a task may meet a watchpoint at pc.
#[inline(always)]
pub(crate) fn may_watch<Q: MinQueue, F: Fetcher>(
    points: &Points,
    task: u32,
    pc: u32,
    machine: &Machine<Q, F>,
) -> bool
    ensures { result ≡ false → watched_at points.now task pc machine.now ≡ None }
{
    match machine.view(task) {
        Some(view) => may_watch_in(points, &view, pc),
        None => false,
    }
}

/// The watchpoint that a task meets at pc, before the access.
pub(crate) fn watched_at<Q: MinQueue, F: Fetcher>(
    points: &Points,
    task: u32,
    pc: u32,
    machine: &Machine<Q, F>,
) -> Option<Watched>
    ensures { result ≡ watched_at points.now task pc machine.now }
{
    match machine.view(task) {
        Some(view) => watch_of_view(points, task, pc, &view),
        None => None,
    }
}

/// The same, as it is reported.
pub(crate) fn watch_met<Q: MinQueue, F: Fetcher>(
    points: &Points,
    task: u32,
    pc: u32,
    machine: &Machine<Q, F>,
) -> Option<Told>
    ensures { result ≡ watch_met points.now task pc machine.now }
{
    let watched = watched_at(points, task, pc, machine)?;
    Some(Told {
        stop: Stop::Watch(watched),
        task,
    })
}
