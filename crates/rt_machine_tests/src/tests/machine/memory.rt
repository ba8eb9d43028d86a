//! Requests for memory, of which one may be refused: with `rt try --test --fail-alloc N` the Nth.

use super::rows::{OTHERS, Row, SLEEPS};
use super::{
    BUSY, UNTIL_9, end_row, fill_output, follow_row, go_on, looping, object_of, pair,
    sleep_at_eight, sleeping_pair, solo, stands, take_turns, writes_of,
};
use crate::tests::same;
use rt_core::{LoadFault, Machine, Parked};
use rt_exec::Predecoded;
use rt_image::{System, Task, Version};
use rt_queue::Tournament;
use std::alloc::{AllocError, Global};
use std::process::Abort;
use std::test::Fail;

type Tried = Machine<Tournament, Predecoded>;

/// A jump to itself.
static IMAGE: [u8; 4] = [0x6f, 0, 0, 0];

/// Loads a system, and once more where there was no memory.
fn load_again(rt: &impl Abort, alloc: Global, system: &System) -> Result<Tried, LoadFault> {
    match Machine::load(alloc, system) {
        Err(fault) => {
            same(rt, "a load", fault, LoadFault::Memory);
            Machine::load(alloc, system)
        }
        loaded => loaded,
    }
}

/// Copies a machine, and once more where there was no memory.
fn copy_again(machine: &Tried) -> Result<Tried, AllocError> {
    match machine.copy() {
        Err(_) => machine.copy(),
        copied => copied,
    }
}

/// Parks a machine, and once more where there was no memory.
fn park_again(machine: &Tried) -> Result<Parked<Tournament>, AllocError> {
    match machine.park() {
        Err(_) => machine.park(),
        parked => parked,
    }
}

/// Resumes a machine, and once more where there was no memory.
fn resume_again(parked: &Parked<Tournament>) -> Result<Tried, AllocError> {
    match parked.resume() {
        Err(_) => parked.resume(),
        resumed => resumed,
    }
}

/// A machine, its copy, and one that is made of what was parked go their own ways.
fn go_on_thrice(rt: &impl Abort, machine: &mut Tried) -> Result<(), Fail> {
    let mut copy = copy_again(machine)?;
    let parked = park_again(machine)?;
    let mut resumed = resume_again(&parked)?;
    go_on(rt, machine, 0);
    go_on(rt, &mut copy, 0);
    go_on(rt, &mut resumed, 0);
    Ok(())
}

/// What was refused once has changed nothing: two busy tasks take their turns.
#[test]
fn refused_once(rt: HostRuntime) -> Result<(), Fail> {
    let first = Task {
        budget: 1,
        period: 3,
        start: 0,
        split: false,
        ram: 64,
        object: object_of(rt.alloc(), &IMAGE),
    };
    let second = Task {
        budget: 2,
        period: 4,
        start: 0,
        split: false,
        ram: 64,
        object: object_of(rt.alloc(), &IMAGE),
    };
    let Ok(tasks) = vec![in rt.alloc(); first, second] else {
        return Ok(());
    };
    let system = System {
        version: Version::One,
        hyper: 12,
        tasks,
    };
    let mut machine = load_again(&rt, rt.alloc(), &system)?;
    machine.run(5);
    go_on_thrice(&rt, &mut machine)
}

/// The machine of a row, and with `is_run` its ticks and 1,000 more.
fn go_by_row(rt: &impl Abort, alloc: Global, row: &Row, is_run: bool) -> Result<(), Fail> {
    let mut machine: Tried = solo(alloc, row.grant, row.words)?;
    if is_run {
        follow_row(rt, &mut machine, row);
        end_row(rt, &mut machine, row);
        same(rt, row.name, machine.run(1_000), 1_000);
    }
    Ok(())
}

fn go_by_rows(rt: &impl Abort, alloc: Global, is_run: bool) -> Result<(), Fail> {
    for row in SLEEPS.iter().chain(&OTHERS) {
        go_by_row(rt, alloc, row, is_run)?;
    }
    Ok(())
}

/// Every 10 ticks bring the deadlines of the busy tasks 12 ticks on.
fn stay_busy(rt: &impl Abort, busy: &mut Tried) {
    take_turns(rt, busy);
    same(rt, "busy", busy.run(99_988), 99_988);
    stands(rt, busy, 0, &looping(1, 120_003), "the first");
    stands(rt, busy, 1, &looping(2, 120_004), "the second");
}

/// Machines of busy tasks, of one that sleeps and of one that writes more than there is room for, and with `is_run` their ticks.
fn go_far(rt: &impl Abort, alloc: Global, is_run: bool) -> Result<(), Fail> {
    let mut busy: Tried = pair(alloc, 12, [(1, 3), (2, 4)], 0, BUSY)?;
    let mut sleeper: Tried = sleeping_pair(alloc, UNTIL_9)?;
    let mut writer: Tried = solo(alloc, (1, 1, 0), &writes_of(0x1000_0593))?;
    if is_run {
        stay_busy(rt, &mut busy);
        sleep_at_eight(rt, &mut sleeper, 9, 5, 19);
        fill_output(rt, &mut writer, 65_536);
    }
    Ok(())
}

/// Ticks request no memory: so this test makes as many requests as the next one. `refuse` counts them.
#[test]
fn machines_without_ticks(rt: HostRuntime) -> Result<(), Fail> {
    go_by_rows(&rt, rt.alloc(), false)?;
    go_far(&rt, rt.alloc(), false)
}

#[test]
fn machines_with_ticks(rt: HostRuntime) -> Result<(), Fail> {
    go_by_rows(&rt, rt.alloc(), true)?;
    go_far(&rt, rt.alloc(), true)
}
