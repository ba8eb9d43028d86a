//! Which tasks are looked at, and for which of them a stop is reported that is no task's own.

ghost use Rattle.std.specs.Prelude.{◌≡◌, ◌<◌, IfSome};
ghost use Rattle.std.specs.List.{list_any, position};
ghost use Rattle.std.specs.Option.{is_some};
ghost use Rattle.rt_remote.specs.stops.Looked.{is_looked, is_stepped, is_step, is_done, are_done, are_over, steps_are_over, is_at_end, stop_of, task_stop, standing, other_teller, teller, step_teller};
ghost use Rattle.rt_remote.specs.stops.Ahead.{told};
ghost use Rattle.rt_remote.specs.stops.Working.Stepped.{such};

use crate::stops::told::{Actions, MAX_TASKS, Told};
use rt_core::{Machine, Next};
use rt_exec::Fetcher;
use rt_history::Mode;
use rt_packet::answer::Stop;
use rt_packet::request::Action;
use rt_queue::MinQueue;
use rt_words::MAX_TICKS;

/// Whether this task has an action.
#[inline(always)]
pub(crate) fn is_looked(actions: &Actions, task: u32) -> bool
    ensures { result ≡ is_looked actions.now task }
{
    match actions.get(task as usize) {
        Some(Some(_)) => true,
        _ => false,
    }
}

/// Whether this task's action is a step.
#[inline(always)]
pub(crate) fn is_stepped(actions: &Actions, task: u32) -> bool
    ensures { result ≡ is_stepped actions.now task }
{
    match actions.get(task as usize) {
        Some(Some(Action::Step)) => true,
        _ => false,
    }
}

/// Whether an action is a step.
fn is_step(action: Option<Action>) -> bool
    ensures { result ≡ is_step action }
{
    match action {
        Some(Action::Step) => true,
        _ => false,
    }
}

/// Whether a task is stepped at all.
pub(crate) fn any_step(actions: &Actions) -> bool
    ensures { result ≡ list_any is_step actions.now }
{
    actions.iter().any(|action| is_step(*action))
}

/// Whether a task makes no tick any more. One that isn't there makes none.
fn is_done<Q: MinQueue, F: Fetcher>(machine: &Machine<Q, F>, task: u32) -> bool
    ensures { result ≡ is_done machine.now task }
{
    match machine.view(task) {
        Some(view) => match view.mode {
            Mode::Active | Mode::Asleep(_) => false,
            Mode::Ended | Mode::Faulted(_) => true,
        },
        None => true,
    }
}

/// Whether an action is a step, or any.
fn is_such(steps_alone: bool, action: Option<Action>) -> bool
    ensures { result ≡ such steps_alone action }
{
    if steps_alone {
        is_step(action)
    } else {
        action.is_some()
    }
}

/// Whether every stepped task, or every looked-at one, ended or faulted.
fn are_done<Q: MinQueue, F: Fetcher>(
    actions: &Actions,
    machine: &Machine<Q, F>,
    steps_alone: bool,
) -> bool
    ensures { result ≡ are_done (such steps_alone) actions.now machine.now }
{
    for (task, action) in actions.iter().enumerate() {
        if is_such(steps_alone, *action) && !is_done(machine, task as u32) {
            return false;
        }
    }
    true
}

/// Whether every looked-at task ended or faulted.
pub(crate) fn are_over<Q: MinQueue, F: Fetcher>(actions: &Actions, machine: &Machine<Q, F>) -> bool
    ensures { result ≡ are_over actions.now machine.now }
{
    are_done(actions, machine, false)
}

/// Whether a task is stepped, and every stepped one ended or faulted.
pub(crate) fn steps_are_over<Q: MinQueue, F: Fetcher>(
    actions: &Actions,
    machine: &Machine<Q, F>,
) -> bool
    ensures { result ≡ steps_are_over actions.now machine.now }
{
    any_step(actions) && are_done(actions, machine, true)
}

/// Whether nothing more can come: every task ended or faulted, or no tick is left.
fn is_at_end<Q: MinQueue, F: Fetcher>(machine: &Machine<Q, F>) -> bool
    ensures { result ≡ is_at_end machine.now }
{
    are_over(&[Some(Action::Continue); MAX_TASKS], machine) || machine.now() == MAX_TICKS
}

/// How a task of this mode stands that is over.
fn stop_of(mode: Mode) -> Stop
    ensures { result ≡ stop_of mode }
{
    match mode {
        Mode::Active | Mode::Asleep(_) => Stop::Plain,
        Mode::Ended => Stop::EndedBefore,
        Mode::Faulted(fault) => Stop::FaultedBefore(fault),
    }
}

/// The stop of a task that is over.
fn task_stop<Q: MinQueue, F: Fetcher>(machine: &Machine<Q, F>, task: u32) -> Stop
    ensures { result ≡ task_stop machine.now task }
{
    match machine.view(task) {
        Some(view) => stop_of(view.mode),
        None => Stop::Plain,
    }
}

/// How a task stands that is over: by its signal, and where nothing more can come, by that.
fn standing<Q: MinQueue, F: Fetcher>(machine: &Machine<Q, F>, task: u32) -> Stop
    ensures { result ≡ standing machine.now task }
{
    if is_at_end(machine) {
        return Stop::End;
    }
    task_stop(machine, task)
}

/// The least task that is looked at.
fn first_looked(actions: &Actions) -> Option<usize>
    ensures value { result ≡ position is_some actions.now }
    ensures bound { IfSome result (λ task. task < MAX_TASKS) }
{
    actions.iter().position(|action| action.is_some())
}

/// The shown task where it is looked at, else the least that is.
fn other_teller(actions: &Actions, shown: u32) -> u32
    ensures { result ≡ other_teller actions.now shown }
{
    if is_looked(actions, shown) {
        return shown;
    }
    match first_looked(actions) {
        Some(task) => task as u32,
        None => shown,
    }
}

/// A stop that is no task's own, with the task that it is reported for: the named one where it is looked at, else another.
pub(crate) fn general<Q: MinQueue, F: Fetcher>(
    actions: &Actions,
    shown: u32,
    machine: &Machine<Q, F>,
    stop: Stop,
) -> Told
    ensures { result ≡ told (teller actions.now shown machine.now) stop }
{
    let task = match machine.next() {
        Next::Run { task, .. } if is_looked(actions, task) => task,
        _ => other_teller(actions, shown),
    };
    Told { stop, task }
}

/// The least task that is stepped.
fn first_stepped(actions: &Actions) -> Option<usize>
    ensures value { result ≡ position is_step actions.now }
    ensures bound { IfSome result (λ task. task < MAX_TASKS) }
{
    actions.iter().position(|action| is_step(*action))
}

/// The shown task where it is stepped, else the least that is.
fn step_teller(actions: &Actions, shown: u32) -> u32
    ensures { result ≡ step_teller actions.now shown }
{
    if is_stepped(actions, shown) {
        return shown;
    }
    match first_stepped(actions) {
        Some(least) => least as u32,
        None => shown,
    }
}

/// How the stepped task stands that is reported where every stepped one is over.
pub(crate) fn stands<Q: MinQueue, F: Fetcher>(
    actions: &Actions,
    shown: u32,
    machine: &Machine<Q, F>,
) -> Told
    ensures { result ≡ told (step_teller actions.now shown) (standing machine.now (step_teller actions.now shown)) }
{
    let task = step_teller(actions, shown);
    let stop = standing(machine, task);
    Told { stop, task }
}
