//! Tasks whose accesses are split beside tasks whose aren't, with the values of the ISA's bytes by hand.

use super::{registers, task_of};
use crate::tests::{image_of, same};
use rt_core::Machine;
use rt_exec::{Fault, Fetcher, Plain, Predecoded};
use rt_history::Mode;
use rt_image::{System, Version};
use rt_queue::{MinQueue, Scan, Tournament};
use std::alloc::Global;
use std::process::Abort;
use std::test::Fail;

/// `lui x5,0x80000` and `lw x6,1(x5)`: the bytes from 0x80000001 on are 02 00 80 03.
static READS_AT_1: [u32; 2] = [0x8000_02B7, 0x0012_A303];

/// How a task stands after two ticks that read so.
const READ: (Option<Mode>, u32) = (Some(Mode::Active), 0x0380_0002);

/// How it stands where its accesses aren't split.
const REFUSED: (Option<Mode>, u32) = (Some(Mode::Faulted(Fault::LoadMisaligned)), 0);

/// A machine of a task for each flag, of which each has 2 ticks of 4.
fn readers<Q: MinQueue, F: Fetcher>(
    alloc: Global,
    flags: [bool; 2],
) -> Result<Machine<Q, F>, Fail> {
    let image = image_of(alloc, &READS_AT_1)?;
    let first = task_of(alloc, (2, 4, 0), flags[0], 64, &image);
    let second = task_of(alloc, (2, 4, 0), flags[1], 64, &image);
    let system = System {
        version: Version::Two,
        hyper: 4,
        tasks: vec![in alloc; first, second]?,
    };
    Ok(Machine::load(alloc, &system)?)
}

/// The mode of a task, and its register x6.
fn read<Q: MinQueue, F: Fetcher>(machine: &Machine<Q, F>, task: u32) -> (Option<Mode>, u32) {
    let mode = machine.view(task).map(|view| view.mode);
    let x6 = registers(machine, task).map_or(0, |x| x[6]);
    (mode, x6)
}

/// After the other three ticks each task has read as its own flag says.
fn reads_by_flags<Q: MinQueue, F: Fetcher>(
    rt: &impl Abort,
    machine: &mut Machine<Q, F>,
    flags: [bool; 2],
) {
    machine.run(3);
    for (number, split) in flags.iter().enumerate() {
        let want = if *split { READ } else { REFUSED };
        same(rt, number, read(machine, number as u32), want);
    }
}

/// So also where the machine is copied, or parked and resumed, between the two ticks of a task.
fn try_flags<Q: MinQueue, F: Fetcher>(
    rt: &impl Abort,
    alloc: Global,
    flags: [bool; 2],
) -> Result<(), Fail> {
    let mut machine: Machine<Q, F> = readers(alloc, flags)?;
    machine.run(1);
    let mut copy = machine.copy()?;
    let parked = machine.park()?;
    let mut resumed: Machine<Q, F> = parked.resume()?;
    reads_by_flags(rt, &mut machine, flags);
    reads_by_flags(rt, &mut copy, flags);
    reads_by_flags(rt, &mut resumed, flags);
    Ok(())
}

fn try_all_flags<Q: MinQueue, F: Fetcher>(rt: &impl Abort, alloc: Global) -> Result<(), Fail> {
    try_flags::<Q, F>(rt, alloc, [false, true])?;
    try_flags::<Q, F>(rt, alloc, [true, false])?;
    try_flags::<Q, F>(rt, alloc, [true, true])
}

#[test]
fn flags_are_the_tasks_own(rt: HostRuntime) -> Result<(), Fail> {
    try_all_flags::<Scan, Plain>(&rt, rt.alloc())?;
    try_all_flags::<Tournament, Predecoded>(&rt, rt.alloc())
}
