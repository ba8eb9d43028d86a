//! System files of version One.

use super::{SYSTEM_56, changed, longer, task_of};
use crate::tests::{LOOP_FILE, same};
use rt_image::*;
use std::alloc::{AllocError, Global};
use std::process::Abort;
use std::test::Fail;

pub fn system_refusal(alloc: Global, file: &[u8]) -> Option<ReadFault> {
    read_system(alloc, file).err()
}

/// Looks whether a file is refused as a system.
pub fn refuses_system(rt: &impl Abort, alloc: Global, file: &[u8], fault: ImageFault) {
    let expected = ReadFault::Fault(fault);
    same(rt, file, system_refusal(alloc, file), Some(expected));
}

/// The same of a file with other bytes at a place.
pub fn refuses_changed(
    rt: &impl Abort,
    alloc: Global,
    file: &[u8],
    place: usize,
    bytes: &[u8],
    fault: ImageFault,
) -> Result<(), AllocError> {
    let file = changed(alloc, file, place, bytes)?;
    refuses_system(rt, alloc, &file, fault);
    Ok(())
}

/// Each front of a file ends too soon, and one with a byte more too late.
pub fn ends_are_refused(rt: &impl Abort, alloc: Global, file: &[u8]) -> Result<(), AllocError> {
    for len in 0..file.len() {
        refuses_system(rt, alloc, &file[..len], ImageFault::Truncated);
    }
    let longer = longer(alloc, file)?;
    refuses_system(rt, alloc, &longer, ImageFault::Trailing);
    Ok(())
}

/// Looks at the task that runs the loop.
fn look_at_task(rt: &impl Abort, task: &Task, split: bool) {
    let fields = (task.budget, task.period, task.start, task.ram);
    same(rt, "task", fields, (1, 3, 0, 64));
    same(rt, "split", task.split, split);
    same(rt, "entry", task.object.entry, 0x8000_0000);
    same(rt, "bytes", task.object.bytes, &LOOP_FILE[16..]);
}

/// What a system is written as, after six bytes.
pub fn written_of(alloc: Global, system: &System) -> Result<Vec<u8>, WriteFault> {
    let mut out = Vec::from_slice(alloc, b"before")?;
    write_system(system, &mut out)?;
    Ok(out)
}

/// Looks at that.
pub fn writes_after(
    rt: &impl Abort,
    alloc: Global,
    system: &System,
    expected: &[u8],
) -> Result<(), WriteFault> {
    let out = written_of(alloc, system)?;
    same(rt, "before", out.get(..6), Some(b"before".as_slice()));
    same(rt, "after", out.get(6..), Some(expected));
    Ok(())
}

/// Looks at the system of the task that runs the loop.
fn look_at_system(rt: &impl Abort, system: &System, version: Version) -> Result<(), Fail> {
    same(rt, "version", system.version, version);
    same(rt, "hyper", system.hyper, 12);
    let task = system.tasks.first().ok_or("a task")?;
    look_at_task(rt, task, version == Version::Two);
    Ok(())
}

/// Looks at it as a file is read, and at what is written of it: the same file.
pub fn reads_and_writes(
    rt: &impl Abort,
    alloc: Global,
    file: &[u8],
    version: Version,
) -> Result<(), Fail> {
    let system = read_system(alloc, file)?;
    look_at_system(rt, &system, version)?;
    writes_after(rt, alloc, &system, file)?;
    Ok(())
}

#[test]
fn a_system_of_one_task(rt: HostRuntime) -> Result<(), Fail> {
    reads_and_writes(&rt, rt.alloc(), &SYSTEM_56, Version::One)
}

/// Places with other bytes, and the faults that these are.
static CHANGES: [(usize, u8, ImageFault); 11] = [
    (0, b'Q', ImageFault::BadMagic),
    (2, b'I', ImageFault::BadMagic),
    // 257 tasks
    (9, 1, ImageFault::BadField),
    // sizes of RAM: 3 and 0 bytes, and over a million
    (24, 3, ImageFault::BadField),
    (24, 0, ImageFault::BadField),
    (26, 16, ImageFault::BadField),
    // an object of more bytes than there are, of too many, of fewer, and of another kind
    (28, 25, ImageFault::Truncated),
    (31, 5, ImageFault::BadField),
    (28, 23, ImageFault::Truncated),
    (34, b'S', ImageFault::BadMagic),
    // fewer bytes of the object's image than its file has
    (40, 7, ImageFault::Trailing),
];

#[test]
fn refusals_of_a_system(rt: HostRuntime) -> Result<(), Fail> {
    ends_are_refused(&rt, rt.alloc(), &SYSTEM_56)?;
    for (place, byte, fault) in &CHANGES {
        refuses_changed(&rt, rt.alloc(), &SYSTEM_56, *place, &[*byte], *fault)?;
    }
    Ok(())
}

/// How often a file is read as a system: if so, it is written as that file.
fn times_read(rt: &impl Abort, alloc: Global, file: &[u8]) -> Result<u32, WriteFault> {
    let Ok(system) = read_system(alloc, file) else {
        return Ok(0);
    };
    let mut out = Vec::new(alloc);
    write_system(&system, &mut out)?;
    same(rt, "a spelling", out.as_slice(), file);
    Ok(1)
}

/// How many of a file's copies with any byte at any place are read.
pub fn read_with_any(rt: &impl Abort, alloc: Global, whole: &[u8]) -> Result<u32, WriteFault> {
    let mut read = 0_u32;
    for place in 0..whole.len() {
        for byte in 0..=255 {
            let file = changed(alloc, whole, place, &[byte])?;
            read = read.saturating_add(times_read(rt, alloc, &file)?);
        }
    }
    Ok(read)
}

#[test]
fn broken_systems(rt: HostRuntime) -> Result<(), Fail> {
    let read = read_with_any(&rt, rt.alloc(), &SYSTEM_56)?;
    // At least the 56 times that the byte is the file's own, and all times.
    same(&rt, read, read >= 56 + 16 * 255, true);
    Ok(())
}

/// A system whose second task has this size of RAM.
fn system_of(alloc: Global, ram: u32, bytes: &[u8]) -> Result<System<'_>, AllocError> {
    let first = task_of(alloc, 4, bytes);
    let second = task_of(alloc, ram, bytes);
    Ok(System {
        version: Version::One,
        hyper: 0,
        tasks: vec![in alloc; first, second]?,
    })
}

/// A system that no file can hold leaves the bytes as they were.
pub fn isnt_written(rt: &impl Abort, alloc: Global, system: &System) -> Result<(), AllocError> {
    let mut out = Vec::from_slice(alloc, b"before")?;
    let written = write_system(system, &mut out);
    same(rt, "written", written, Err(WriteFault::BadField));
    same(rt, "bytes", out.as_slice(), b"before".as_slice());
    Ok(())
}

fn pair_isnt_written(
    rt: &impl Abort,
    alloc: Global,
    ram: u32,
    bytes: &[u8],
) -> Result<(), AllocError> {
    let system = system_of(alloc, ram, bytes)?;
    isnt_written(rt, alloc, &system)
}

#[test]
fn systems_without_a_spelling(rt: HostRuntime) -> Result<(), Fail> {
    for ram in &[3, 0, 1_048_580, 6] {
        pair_isnt_written(&rt, rt.alloc(), *ram, b"code")?;
    }
    let long = vec![in rt.alloc(); 0_u8; 1_048_577]?;
    pair_isnt_written(&rt, rt.alloc(), 4, &long)?;
    Ok(())
}

#[test]
fn a_system_with_a_spelling(rt: HostRuntime) -> Result<(), Fail> {
    let system = system_of(rt.alloc(), 4, b"code")?;
    let written = written_of(rt.alloc(), &system)?;
    same(&rt, "length", written.len(), 6 + 12 + 2 * (20 + 20));
    Ok(())
}

/// A system of so many tasks.
fn many_tasks(alloc: Global, count: u32) -> Result<System<'static>, AllocError> {
    let mut tasks = Vec::new(alloc);
    for _ in 0..count {
        tasks.push(task_of(alloc, 1_048_576, &[]))?;
    }
    Ok(System {
        version: Version::One,
        hyper: u32::MAX,
        tasks,
    })
}

/// Looks how many tasks a file has.
fn reads_tasks(rt: &impl Abort, alloc: Global, file: &[u8], count: usize) -> Result<(), ReadFault> {
    let system = read_system(alloc, file)?;
    same(rt, "tasks", system.tasks.len(), count);
    Ok(())
}

#[test]
fn most_tasks(rt: HostRuntime) -> Result<(), Fail> {
    let system = many_tasks(rt.alloc(), 256)?;
    let written = written_of(rt.alloc(), &system)?;
    same(&rt, "length", written.len(), 6 + 9228);
    reads_tasks(&rt, rt.alloc(), written.get(6..).unwrap_or(b""), 256)?;
    Ok(())
}

#[test]
fn a_task_too_many(rt: HostRuntime) -> Result<(), Fail> {
    let system = many_tasks(rt.alloc(), 257)?;
    isnt_written(&rt, rt.alloc(), &system)?;
    Ok(())
}
