//! Requests for memory, of which one may be refused: with `rt try --test --fail-alloc N` the Nth.

use super::{TASK, tasks_of};
use crate::tests::{LOOP_FILE, same};
use rt_image::ReadFault;
use rt_set::*;
use std::alloc::Global;
use std::process::Abort;
use std::test::Fail;

/// The system file of the loop at 1 tick in 3, H = 12, 64 bytes of RAM, up to its object.
static SYSTEM_FRONT: [u8; 32] = [
    0x52, 0x54, 0x53, 0x31, 0x0c, 0x00, 0x00, 0x00, 0x01, 0x00, 0x00, 0x00, 0x01, 0x00, 0x00, 0x00,
    0x03, 0x00, 0x00, 0x00, 0x00, 0x00, 0x00, 0x00, 0x40, 0x00, 0x00, 0x00, 0x18, 0x00, 0x00, 0x00,
];

static LINES: &[u8] = b"# Two tasks.\nhyper 12\ntask 1 3 0 64 a\n\ntask 6 12 0 64 spin.rti\n";

static TASKS: [TaskLine; 2] = [
    TASK,
    TaskLine {
        budget: 6,
        period: 12,
        path: "spin.rti",
        ..TASK
    },
];

#[test]
fn sets_are_read_again(rt: HostRuntime) -> Result<(), Fail> {
    let set = match read_set(rt.alloc(), LINES) {
        Err(SetFault::Memory) => read_set(rt.alloc(), LINES)?,
        answer => answer?,
    };
    same(&rt, "hyper", set.hyper, 12);
    same(&rt, "tasks", set.tasks.as_slice(), TASKS.as_slice());
    Ok(())
}

/// Packs tasks, and once more where there was no memory.
fn pack_again(alloc: Global, tasks: &[PackTask]) -> Result<Vec<u8>, ReadFault> {
    match pack(alloc, 12, tasks) {
        Err(ReadFault::Memory) => pack(alloc, 12, tasks),
        answer => answer,
    }
}

/// Looks at the system file of two tasks of the loop.
fn look_at_file(rt: &impl Abort, file: &[u8]) {
    same(rt, "length", file.len(), 100);
    same(rt, "a task", file.get(12..32), SYSTEM_FRONT.get(12..));
    same(
        rt,
        "its object",
        file.get(32..56),
        Some(LOOP_FILE.as_slice()),
    );
    same(rt, "a task", file.get(56..76), SYSTEM_FRONT.get(12..));
    same(rt, "its object", file.get(76..), Some(LOOP_FILE.as_slice()));
}

#[test]
fn tasks_are_packed_again(rt: HostRuntime) -> Result<(), Fail> {
    let Ok(tasks) = tasks_of(rt.alloc(), 2, TASK, &LOOP_FILE) else {
        return Ok(());
    };
    let file = pack_again(rt.alloc(), &tasks)?;
    look_at_file(&rt, &file);
    for task in &tasks {
        same(&rt, "a file", task.file.as_slice(), LOOP_FILE.as_slice());
    }
    Ok(())
}
