//! Sessions by calls, with values from outside.

use rt_core::Machine;
use rt_debug::{PlaceStop, Refusal, Reply, Session, Stopped};
use rt_exec::Predecoded;
use rt_image::{ReadFault, System, read_system};
use rt_queue::Tournament;
use std::alloc::Global;
use std::fmt::Debug;
use std::process::Abort;

mod lines;
mod memory;
mod stops;

type Tried<'s, 'd> = Session<'s, 'd, Tournament, Predecoded>;

/// Two tasks that jump to themselves.
static BUSY: &[u8] =
    b"RTS1\x0c\0\0\0\x02\0\0\0\x01\0\0\0\x03\0\0\0\0\0\0\0@\0\0\0\x14\0\0\0RTI1\0\0\0\x80\x04\0\0\0\0\0\0\0o\0\0\0\x02\0\0\0\x04\0\0\0\0\0\0\0@\0\0\0\x14\0\0\0RTI1\0\0\0\x80\x04\0\0\0\0\0\0\0o\0\0\0";

/// Fails where both differ, and tells both, and in which case.
fn same<N: Copy + Debug, T: Copy + PartialEq>(rt: &impl Abort, case: N, found: T, expected: T) {
    assert!(rt; found == expected, "{case:?}");
}

/// The system of a file, whose tasks have sizes of RAM.
fn system_of(alloc: Global, file: &[u8]) -> Result<System<'_>, ReadFault> {
    Ok(read_system(alloc, file)?)
}

/// A session on a system, if there is memory for it.
fn session_of<'s, 'd>(alloc: Global, system: &'s System<'d>) -> Option<Tried<'s, 'd>> {
    let machine = Machine::load(alloc, system).ok()?;
    Session::new(alloc, machine, system).ok()
}

/// The first word of a task.
fn place_of(task: u32) -> PlaceStop {
    PlaceStop {
        task,
        pc: 0x8000_0000,
    }
}

/// The tick of a reply, and how the session came to it.
fn tick_of(reply: Result<Reply, Refusal>) -> Option<(Stopped, u64)> {
    match reply {
        Ok(Reply::Tick { stop, t, .. }) => Some((stop, t)),
        _ => None,
    }
}
