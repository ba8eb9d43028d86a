//! That each budget fits before its deadline, tick by tick. The last servers were worked out by hand.

use super::{BUSY, UNTIL_8, UNTIL_9, looping, pair, shown, sleeping_pair, stands};
use crate::tests::same;
use rt_core::Machine;
use rt_exec::Predecoded;
use rt_history::Mode;
use rt_queue::Tournament;
use std::process::Abort;
use std::test::Fail;

type Tried = Machine<Tournament, Predecoded>;

/// Whether a task is not active, or its budget fits before its deadline.
fn fits(machine: &Tried, task: u32) -> Option<bool> {
    let t = machine.now();
    let view = machine.view(task)?;
    let end = t + u64::from(view.c);
    Some(view.mode != Mode::Active || end <= view.d)
}

fn both_fit(rt: &impl Abort, machine: &Tried, t: u64) {
    same(rt, t, machine.now(), t);
    same(rt, (t, "the first"), fits(machine, 0), Some(true));
    same(rt, (t, "the second"), fits(machine, 1), Some(true));
}

/// Runs two tasks for 1,000 ticks.
fn fit_at_each_tick(rt: &impl Abort, machine: &mut Tried) {
    for t in 0..1000 {
        both_fit(rt, machine, t);
        machine.tick();
    }
    both_fit(rt, machine, 1000);
}

/// Every 10 ticks bring both deadlines 12 ticks on.
#[test]
fn busy_tasks_fit(rt: HostRuntime) -> Result<(), Fail> {
    let mut machine = pair(rt.alloc(), 12, [(1, 3), (2, 4)], 0, BUSY)?;
    fit_at_each_tick(&rt, &mut machine);
    stands(&rt, &machine, 0, &looping(1, 1203), "the first");
    stands(&rt, &machine, 1, &looping(2, 1204), "the second");
    Ok(())
}

/// From tick 9 on the tasks take turns of 5 ticks, and tick 999 is the first of a turn of the second one.
#[test]
fn a_sleeper_fits(rt: HostRuntime) -> Result<(), Fail> {
    let mut machine = sleeping_pair(rt.alloc(), UNTIL_9)?;
    fit_at_each_tick(&rt, &mut machine);
    stands(&rt, &machine, 0, &looping(5, 1010), "the busy one");
    let want = (Mode::Active, 0x8000_0010, 4, 1009);
    same(&rt, "the sleeper", shown(&machine, 1), Some(want));
    Ok(())
}

/// From tick 0 on the tasks take turns of 5 ticks.
#[test]
fn a_pending_job_fits(rt: HostRuntime) -> Result<(), Fail> {
    let mut machine = sleeping_pair(rt.alloc(), UNTIL_8)?;
    fit_at_each_tick(&rt, &mut machine);
    stands(&rt, &machine, 0, &looping(5, 1010), "the busy one");
    let want = (Mode::Active, 0x8000_0010, 5, 1010);
    same(&rt, "the sleeper", shown(&machine, 1), Some(want));
    Ok(())
}
