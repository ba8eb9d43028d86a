//! Events: what happens to a task at the end of a tick.

ghost use Rattle.std.specs.Prelude.{◌≡◌, ◌&&◌};
ghost use Rattle.rt_points.specs.declared.events.Event.TheVariants.{Wake, Over};
ghost use Rattle.rt_history.specs.declared.record.Record.TheVariants.{Busy, Idle};
ghost use Rattle.rt_history.specs.MachineState.{MachineState};
ghost use Rattle.rt_core.specs.Next.{next_of};
ghost use Rattle.rt_history.specs.Serving.{mode_after};
ghost use Rattle.rt_walk.specs.Position.{stand_of};
ghost use Rattle.rt_walk.specs.Events.{is_until, stands, least_woken, deadline_of, named_by, noted_of, happens, if_asked, lesser, own_wake, woken, dispatched_by, is_active, postponed_by, finished, is_fault, faulted, done, open_number, passes, has_ended, is_over_at, over_task, over, happens_behind, happens_idle};

use crate::jobs::ends_job;
use crate::position::Position;
use rt_core::{Machine, Next};
use rt_exec::Fetcher;
use rt_history::{Attempt, AttemptOutcome, Mode};
use rt_points::{Event, Events};
use rt_queue::MinQueue;

/// Which events are asked for.
pub trait Asks {
    ghost use Rattle.std.specs.Prelude.{Bool, ℕ};
    ghost use Rattle.rt_points.specs.declared.events.Event.{Event};

    /// Whether an event is asked for of a task.
    ghost asks: { Self → Event → ℕ → Bool };

    /// Whether this event is asked for of this task.
    fn asks(&self, event: Event, task: u32) -> bool
        ensures { result ≡ asks self.now event task };
}

impl Asks for Events {
    ghost use Rattle.rt_points.specs.Events.{asks as asks_of};

    ghost asks = { asks_of };

    #[inline(always)]
    fn asks(&self, event: Event, task: u32) -> bool {
        Events::asks(self, event, task)
    }
}

/// What happened to a task, and to which of its jobs.
#[derive(Clone, Copy, PartialEq, Eq)]
pub struct Happening {
    pub event: Event,
    pub task: u32,
    /// Its number, of a job that is finished or over.
    pub job: Option<u64>,
}

/// A task, and its deadline.
#[derive(Clone, Copy)]
pub struct Deadline {
    task: u32,
    deadline: u64,
}

/// What is kept of the machine before a tick.
#[derive(Clone, Copy)]
pub struct Noted {
    /// The least task that is asked for of those that are asleep until the next tick.
    sleeper: Option<u32>,
    /// The task that the tick is to be of.
    named: Option<Deadline>,
    tick: u64,
}

/// Whether a task of this mode is asleep until the tick after this, or, where none is given, active.
fn is_until(until: Option<u64>, mode: Mode) -> bool
    ensures { result ≡ is_until until mode }
{
    match (until, mode) {
        (Some(tick), Mode::Asleep(wake)) => wake > tick && wake - tick == 1,
        (None, Mode::Active) => true,
        _ => false,
    }
}

/// Whether a task stands so.
fn stands<Q: MinQueue, F: Fetcher>(until: Option<u64>, machine: &Machine<Q, F>, task: u32) -> bool
    ensures { result ≡ stands until machine.now task }
{
    match machine.view(task) {
        Some(view) => is_until(until, view.mode),
        None => false,
    }
}

/// Whether a task stands so whose wakes are asked for.
fn is_woken<A: Asks, Q: MinQueue, F: Fetcher>(
    asked: &A,
    until: Option<u64>,
    machine: &Machine<Q, F>,
    task: u32,
) -> bool
    ensures { result ≡ (A.asks asked.now Wake task && stands until machine.now task) }
{
    asked.asks(Event::Wake, task) && stands(until, machine, task)
}

/// The least task that stands so, of those of which wakes are asked for.
fn least_woken<A: Asks, Q: MinQueue, F: Fetcher>(
    asked: &A,
    until: Option<u64>,
    machine: &Machine<Q, F>,
) -> Option<u32>
    ensures { result ≡ least_woken (A.asks asked.now) until machine.now }
{
    for task in 0..machine.count() {
        if is_woken(asked, until, machine, task) {
            return Some(task);
        }
    }
    None
}

/// The deadline of a task.
fn deadline_of<Q: MinQueue, F: Fetcher>(machine: &Machine<Q, F>, task: u32) -> u64
    ensures { result ≡ deadline_of machine.now task }
{
    match machine.view(task) {
        Some(view) => view.d,
        None => 0,
    }
}

/// The task that the coming tick is to be of.
fn named<Q: MinQueue, F: Fetcher>(machine: &Machine<Q, F>) -> Option<Deadline>
    ensures { result ≡ named_by machine.now (next_of machine.now) }
{
    match machine.next() {
        Next::Run { task, .. } => Some(Deadline {
            task,
            deadline: deadline_of(machine, task),
        }),
        Next::Idle => None,
    }
}

/// What is kept of a machine before a tick.
pub fn note<A: Asks, Q: MinQueue, F: Fetcher>(asked: &A, machine: &Machine<Q, F>) -> Noted
    ensures { result ≡ noted_of (A.asks asked.now) machine.now }
{
    let tick = machine.now();
    Noted {
        sleeper: least_woken(asked, Some(tick), machine),
        named: named(machine),
        tick,
    }
}

/// An event, if it is so.
fn if_asked(is_so: bool, event: Event, task: u32) -> Option<Happening>
    ensures { result ≡ if_asked is_so event task }
{
    if is_so {
        Some(Happening {
            event,
            task,
            job: None,
        })
    } else {
        None
    }
}

/// The lesser task, as far as there are any.
fn lesser(a: Option<u32>, b: Option<u32>) -> Option<u32>
    ensures { result ≡ lesser a b }
{
    match (a, b) {
        (Some(a), Some(b)) => Some(a.min(b)),
        (Some(a), None) => Some(a),
        (None, b) => b,
    }
}

/// The mode that an attempt of tick `tick` leaves.
fn mode_after(tick: u64, outcome: AttemptOutcome) -> Mode
    ensures { result ≡ mode_after tick outcome }
{
    match outcome {
        AttemptOutcome::Sleep(wake) if wake > tick => Mode::Asleep(wake),
        AttemptOutcome::End => Mode::Ended,
        AttemptOutcome::Fault(fault) => Mode::Faulted(fault),
        _ => Mode::Active,
    }
}

/// The task of an attempt, where it fell asleep until the next tick.
fn own_wake<A: Asks>(asked: &A, tick: u64, attempt: &Attempt) -> Option<u32>
    ensures { result ≡ own_wake (A.asks asked.now) tick attempt.now }
{
    let mode = mode_after(tick, attempt.outcome);
    if asked.asks(Event::Wake, attempt.task) && is_until(Some(tick), mode) {
        Some(attempt.task)
    } else {
        None
    }
}

/// The least task that wakes.
fn woken<A: Asks>(asked: &A, noted: Noted, attempt: &Attempt) -> Option<Happening>
    ensures { result ≡ woken (A.asks asked.now) noted attempt.now }
{
    let task = lesser(noted.sleeper, own_wake(asked, noted.tick, attempt))?;
    if_asked(true, Event::Wake, task)
}

/// The task that goes on, if it is another than the last one.
fn dispatched<A: Asks>(asked: &A, last: Option<u32>, next: Next) -> Option<Happening>
    ensures { result ≡ dispatched_by (A.asks asked.now) last next }
{
    match next {
        Next::Run { task, .. } => if_asked(
            asked.asks(Event::Dispatch, task) && last != Some(task),
            Event::Dispatch,
            task,
        ),
        Next::Idle => None,
    }
}

/// Whether a mode is active.
fn is_active(mode: Mode) -> bool
    ensures { result ≡ is_active mode }
{
    match mode {
        Mode::Active => true,
        _ => false,
    }
}

/// The task of the tick, if it goes on with a later deadline.
fn postponed<A: Asks, Q: MinQueue, F: Fetcher>(
    asked: &A,
    noted: Noted,
    attempt: &Attempt,
    machine: &Machine<Q, F>,
) -> Option<Happening>
    ensures { result ≡ postponed_by (A.asks asked.now) noted.tick attempt.now machine.now noted.named }
{
    let named = noted.named?;
    let goes_on = is_active(mode_after(noted.tick, attempt.outcome));
    let is_later = named.deadline < deadline_of(machine, named.task);
    let is_so = asked.asks(Event::Postponed, named.task) && goes_on && is_later;
    if_asked(is_so, Event::Postponed, named.task)
}

/// The number of a task's open job.
fn open_number<Q: MinQueue, F: Fetcher>(place: &Position<Q, F>, task: u32) -> u64
    ensures { result ≡ open_number place.now.jobs task }
{
    match place.job(task) {
        Some(job) => job.number,
        None => 0,
    }
}

/// The task of an attempt, if that finished a job, and which.
fn finished<A: Asks, Q: MinQueue, F: Fetcher>(
    asked: &A,
    attempt: &Attempt,
    place: &Position<Q, F>,
) -> Option<Happening>
    ensures { result ≡ finished (A.asks asked.now) attempt.now place.now.jobs }
{
    if !asked.asks(Event::Finish, attempt.task) || !ends_job(attempt.outcome) {
        return None;
    }
    Some(Happening {
        event: Event::Finish,
        task: attempt.task,
        job: Some(open_number(place, attempt.task).saturating_sub(1)),
    })
}

/// Whether an outcome is a fault.
fn is_fault(outcome: AttemptOutcome) -> bool
    ensures { result ≡ is_fault outcome }
{
    match outcome {
        AttemptOutcome::Fault(_) => true,
        _ => false,
    }
}

/// The task of an attempt, if it faulted.
fn faulted<A: Asks>(asked: &A, attempt: &Attempt) -> Option<Happening>
    ensures { result ≡ faulted (A.asks asked.now) attempt.now }
{
    let is_so = asked.asks(Event::Fault, attempt.task) && is_fault(attempt.outcome);
    if_asked(is_so, Event::Fault, attempt.task)
}

/// What an attempt did to its task.
fn done<A: Asks, Q: MinQueue, F: Fetcher>(
    asked: &A,
    attempt: &Attempt,
    place: &Position<Q, F>,
) -> Option<Happening>
    ensures { result ≡ done (A.asks asked.now) attempt.now place.now.jobs }
{
    match finished(asked, attempt, place) {
        Some(happening) => Some(happening),
        None => faulted(asked, attempt),
    }
}

/// Whether a job is a period old, or older where it is the open one only now.
fn passes(has_ended: bool, tick: u64, release: u64, period: u32) -> bool
    ensures { result ≡ passes has_ended tick release period }
{
    if release > tick {
        return false;
    }
    let age = tick - release;
    let period = u64::from(period);
    age == period || (has_ended && age > period)
}

/// Whether this attempt ended a job of this task.
fn has_ended(attempt: &Attempt, task: u32) -> bool
    ensures { result ≡ has_ended attempt.now task }
{
    attempt.task == task && ends_job(attempt.outcome)
}

/// Whether the job of a task is over.
fn is_over_at<Q: MinQueue, F: Fetcher>(attempt: &Attempt, place: &Position<Q, F>, task: u32) -> bool
    ensures { result ≡ is_over_at attempt.now (stand_of place.now) task }
{
    let Some(view) = place.machine().view(task) else {
        return false;
    };
    let Some(job) = place.job(task) else {
        return false;
    };
    is_active(view.mode) && passes(has_ended(attempt, task), place.now(), job.release, view.p)
}

/// Whether the job of a task is over of which that is asked for.
fn is_asked_over<A: Asks, Q: MinQueue, F: Fetcher>(
    asked: &A,
    attempt: &Attempt,
    place: &Position<Q, F>,
    task: u32,
) -> bool
    ensures { result ≡ (A.asks asked.now Over task && is_over_at attempt.now (stand_of place.now) task) }
{
    asked.asks(Event::Over, task) && is_over_at(attempt, place, task)
}

/// The least task of which that is asked for whose job is over.
fn over_task<A: Asks, Q: MinQueue, F: Fetcher>(
    asked: &A,
    attempt: &Attempt,
    place: &Position<Q, F>,
) -> Option<u32>
    ensures { result ≡ over_task (A.asks asked.now) attempt.now (stand_of place.now) }
{
    for task in 0..place.machine().count() {
        if is_asked_over(asked, attempt, place, task) {
            return Some(task);
        }
    }
    None
}

/// The same, and which job.
fn over<A: Asks, Q: MinQueue, F: Fetcher>(
    asked: &A,
    attempt: &Attempt,
    place: &Position<Q, F>,
) -> Option<Happening>
    ensures { result ≡ over (A.asks asked.now) attempt.now (stand_of place.now) }
{
    let task = over_task(asked, attempt, place)?;
    Some(Happening {
        event: Event::Over,
        task,
        job: Some(open_number(place, task)),
    })
}

/// What happens behind a tick of this attempt, by what was noted before.
pub fn happens_behind<A: Asks, Q: MinQueue, F: Fetcher>(
    asked: &A,
    noted: Noted,
    attempt: &Attempt,
    place: &Position<Q, F>,
) -> Option<Happening>
    ensures { (m : MachineState) → noted ≡ noted_of (A.asks asked.now) m → happens (A.asks asked.now) m (Busy attempt.now) (stand_of place.now) ≡ result }
{
    if let Some(happening) = woken(asked, noted, attempt) {
        return Some(happening);
    }
    if let Some(happening) = dispatched(asked, Some(attempt.task), place.next()) {
        return Some(happening);
    }
    if let Some(happening) = postponed(asked, noted, attempt, place.machine()) {
        return Some(happening);
    }
    match done(asked, attempt, place) {
        Some(happening) => Some(happening),
        None => over(asked, attempt, place),
    }
}

/// What happens behind idle ticks.
pub fn happens_idle<A: Asks, Q: MinQueue, F: Fetcher>(
    asked: &A,
    place: &Position<Q, F>,
) -> Option<Happening>
    ensures { (m : MachineState) → happens (A.asks asked.now) m Idle (stand_of place.now) ≡ result }
{
    match least_woken(asked, None, place.machine()) {
        Some(task) => if_asked(true, Event::Wake, task),
        None => dispatched(asked, None, place.next()),
    }
}
