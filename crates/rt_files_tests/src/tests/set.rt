//! Sets that no set file spells, and how its lines are counted.

use crate::tests::{LOOP_FILE, same};
use rt_image::{ImageFault, ReadFault};
use rt_set::*;
use std::alloc::{AllocError, Global};
use std::test::Fail;

mod memory;

const TASK: TaskLine<'static> = TaskLine {
    budget: 1,
    period: 3,
    start: 0,
    split: false,
    ram: 64,
    path: "a",
};

/// So many tasks of this line and this file.
fn tasks_of<'a>(
    alloc: Global,
    count: usize,
    line: TaskLine<'a>,
    file: &[u8],
) -> Result<Vec<PackTask<'a>>, AllocError> {
    let mut tasks = Vec::new(alloc);
    for _ in 0..count {
        let file = Vec::from_slice(alloc, file)?;
        tasks.push(PackTask { line, file })?;
    }
    Ok(tasks)
}

/// How many bytes the system file has of so many tasks of this line and this file, or why there is none.
fn packed_len(
    alloc: Global,
    count: usize,
    line: TaskLine,
    file: &[u8],
) -> Result<Result<usize, ReadFault>, AllocError> {
    let tasks = tasks_of(alloc, count, line, file)?;
    match pack(alloc, 12, &tasks) {
        Ok(file) => Ok(Ok(file.len())),
        Err(fault) => Ok(Err(fault)),
    }
}

#[test]
fn what_is_not_packed(rt: HostRuntime) -> Result<(), Fail> {
    let bad = Err(ReadFault::Fault(ImageFault::BadField));
    let cut = Err(ReadFault::Fault(ImageFault::Truncated));
    let odd = TaskLine { ram: 3, ..TASK };
    let found = packed_len(rt.alloc(), 1, odd, &LOOP_FILE)?;
    same(&rt, "3 bytes of RAM", found, bad);
    let found = packed_len(rt.alloc(), 1, odd, &LOOP_FILE[..23])?;
    same(&rt, "a cut object", found, cut);
    let found = packed_len(rt.alloc(), 257, TASK, &LOOP_FILE)?;
    same(&rt, "257 tasks", found, bad);
    let found = packed_len(rt.alloc(), 256, TASK, &LOOP_FILE)?;
    same(&rt, "256 tasks", found, Ok(12 + 256 * 44));
    Ok(())
}

#[test]
fn lines_are_counted_that_say_something(rt: HostRuntime) {
    let text = b"# a set\r\nhyper 10\n\ntask 1 2 0 64 a\n#\r\n\r\ntask 1 2 0 64 b";
    let counts = [
        (0, 0),
        (1, 0),
        (2, 0),
        (3, 1),
        (5, 2),
        (7, 2),
        (8, 3),
        (99, 3),
    ];
    for (number, said) in &counts {
        same(&rt, *number, said_before(text, *number), *said);
    }
    let lines = [(0, Some(4)), (1, Some(7)), (2, None)];
    for (task, line) in &lines {
        same(&rt, *task, line_of_task(text, *task), *line);
    }
}
