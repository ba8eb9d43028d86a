//! Walks over two histories, with values from outside: where each task is named was worked out by hand.

use rt_core::Machine;
use rt_exec::Predecoded;
use rt_image::{ReadFault, System, read_system};
use rt_queue::Tournament;
use rt_walk::Walk;
use std::alloc::Global;
use std::fmt::Debug;
use std::process::Abort;

mod back;
mod halts;
mod memory;
mod on;

type Tried = Walk<Tournament, Predecoded>;

/// Two tasks that jump to themselves. Task 0 with budget 1 and period 3 is named at the ticks 0, 3, 6, 7, 10, 13, 16, 17, .., task 1
/// with budget 2 and period 4 at all others.
static BUSY: &[u8] =
    b"RTS1\x0c\0\0\0\x02\0\0\0\x01\0\0\0\x03\0\0\0\0\0\0\0@\0\0\0\x14\0\0\0RTI1\0\0\0\x80\x04\0\0\0\0\0\0\0o\0\0\0\x02\0\0\0\x04\0\0\0\0\0\0\0@\0\0\0\x14\0\0\0RTI1\0\0\0\x80\x04\0\0\0\0\0\0\0o\0\0\0";

/// Fails where both differ, and says both, and in which case.
fn same<N: Copy + Debug, T: Copy + PartialEq>(rt: &impl Abort, case: N, found: T, expected: T) {
    assert!(rt; found == expected, "{case:?}");
}

/// The system of a file, whose tasks have sizes of RAM.
fn system_of(alloc: Global, file: &[u8]) -> Result<System<'_>, ReadFault> {
    Ok(read_system(alloc, file)?)
}

/// The way of a machine of a system, if there is memory for it.
fn walk_of(alloc: Global, system: &System) -> Option<Tried> {
    let machine = Machine::load(alloc, system).ok()?;
    Walk::begin(alloc, machine, &system.tasks).ok()
}
