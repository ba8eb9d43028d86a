//! Machines that were parked and resumed, against the same runs by hand.

use super::{BUSY, end_of_output, go_on, pair, solo, wake_together, writes_of, written};
use crate::tests::same;
use rt_core::{Machine, Parked};
use rt_exec::{Fetcher, Plain, Predecoded};
use rt_queue::heap::Heap;
use rt_queue::{MinQueue, Scan, Tournament};
use std::alloc::Global;
use std::process::Abort;
use std::test::Fail;

/// A machine goes its own way beside two that are made of what it was, 5 ticks behind its start.
fn resume_twice<Q: MinQueue, F: Fetcher>(
    rt: &impl Abort,
    alloc: Global,
    start: u32,
) -> Result<(), Fail> {
    let mut machine: Machine<Q, F> = pair(alloc, 12, [(1, 3), (2, 4)], start, BUSY)?;
    machine.run(u64::from(start) + 5);
    let parked = machine.park()?;
    go_on(rt, &mut machine, start);
    same(rt, start, parked.now(), u64::from(start) + 5);
    resume::<Q, F>(rt, &parked, start)?;
    resume::<Q, Plain>(rt, &parked, start)
}

fn resume<Q: MinQueue, F: Fetcher>(
    rt: &impl Abort,
    parked: &Parked<Q>,
    start: u32,
) -> Result<(), Fail> {
    let mut resumed: Machine<Q, F> = parked.resume()?;
    go_on(rt, &mut resumed, start);
    Ok(())
}

/// Two tasks sleep while they are parked.
fn resume_asleep<Q: MinQueue, F: Fetcher>(rt: &impl Abort, alloc: Global) -> Result<(), Fail> {
    let machine: Machine<Q, F> = pair(alloc, 10, [(2, 10), (3, 10)], 3, BUSY)?;
    let parked = machine.park()?;
    same(rt, "asleep", parked.now(), 0);
    let mut resumed: Machine<Q, F> = parked.resume()?;
    wake_together(rt, &mut resumed);
    Ok(())
}

/// A task is parked with 65,025 bytes of output. There is room for 256 more, and not for twice as many.
fn resume_writing<Q: MinQueue, F: Fetcher>(rt: &impl Abort, alloc: Global) -> Result<(), Fail> {
    let mut machine: Machine<Q, F> = solo(alloc, (1, 1, 0), &writes_of(0x0010_0593))?;
    same(rt, "ticks", machine.run(1023), 1023);
    let parked = machine.park()?;
    let mut resumed: Machine<Q, F> = parked.resume()?;
    same(rt, "bytes", written(&resumed), Some(65_025));
    end_of_output(rt, &mut resumed, 65_281);
    Ok(())
}

fn try_parking<Q: MinQueue, F: Fetcher>(rt: &impl Abort, alloc: Global) -> Result<(), Fail> {
    resume_twice::<Q, F>(rt, alloc, 0)?;
    resume_twice::<Q, F>(rt, alloc, 4_294_967_295)?;
    resume_asleep::<Q, F>(rt, alloc)?;
    resume_writing::<Q, F>(rt, alloc)
}

#[test]
fn parks_and_resumes(rt: HostRuntime) -> Result<(), Fail> {
    try_parking::<Scan, Plain>(&rt, rt.alloc())?;
    try_parking::<Heap, Plain>(&rt, rt.alloc())?;
    try_parking::<Tournament, Predecoded>(&rt, rt.alloc())
}
