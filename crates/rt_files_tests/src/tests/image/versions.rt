//! System files of version Two, and what only these can hold.

use super::systems::{
    ends_are_refused, isnt_written, read_with_any, reads_and_writes, refuses_changed,
    refuses_system, writes_after, written_of,
};
use super::{SYSTEM_56, task_of};
use crate::tests::same;
use rt_image::*;
use std::alloc::{AllocError, Global};
use std::process::Abort;
use std::test::Fail;

/// One task that runs the loop and whose accesses are split.
static SPLIT_60: [u8; 60] = [
    0x52, 0x54, 0x53, 0x32, 0x0c, 0x00, 0x00, 0x00, 0x01, 0x00, 0x00, 0x00, 0x01, 0x00, 0x00, 0x00,
    0x03, 0x00, 0x00, 0x00, 0x00, 0x00, 0x00, 0x00, 0x01, 0x00, 0x00, 0x00, 0x40, 0x00, 0x00, 0x00,
    0x18, 0x00, 0x00, 0x00, 0x52, 0x54, 0x49, 0x31, 0x00, 0x00, 0x00, 0x80, 0x08, 0x00, 0x00, 0x00,
    0x00, 0x00, 0x00, 0x00, 0x93, 0x00, 0xf0, 0xff, 0x6f, 0x00, 0x00, 0x00,
];

#[test]
fn a_task_with_split_accesses(rt: HostRuntime) -> Result<(), Fail> {
    reads_and_writes(&rt, rt.alloc(), &SPLIT_60, Version::Two)
}

/// The same task, whose accesses aren't split.
static UNSPLIT_60: [u8; 60] = [
    0x52, 0x54, 0x53, 0x32, 0x0c, 0x00, 0x00, 0x00, 0x01, 0x00, 0x00, 0x00, 0x01, 0x00, 0x00, 0x00,
    0x03, 0x00, 0x00, 0x00, 0x00, 0x00, 0x00, 0x00, 0x00, 0x00, 0x00, 0x00, 0x40, 0x00, 0x00, 0x00,
    0x18, 0x00, 0x00, 0x00, 0x52, 0x54, 0x49, 0x31, 0x00, 0x00, 0x00, 0x80, 0x08, 0x00, 0x00, 0x00,
    0x00, 0x00, 0x00, 0x00, 0x93, 0x00, 0xf0, 0xff, 0x6f, 0x00, 0x00, 0x00,
];

fn look_at_unsplit(rt: &impl Abort, system: &System) {
    same(rt, "version", system.version, Version::Two);
    for task in &system.tasks {
        same(rt, "split", task.split, false);
    }
}

#[test]
fn version_two_without_split_accesses(rt: HostRuntime) -> Result<(), Fail> {
    let mut system = read_system(rt.alloc(), &UNSPLIT_60)?;
    look_at_unsplit(&rt, &system);
    writes_after(&rt, rt.alloc(), &system, &UNSPLIT_60)?;
    // The same tasks in version One are another file.
    system.version = Version::One;
    writes_after(&rt, rt.alloc(), &system, &SYSTEM_56)?;
    Ok(())
}

/// Places with other bytes, and the faults that these are.
static CHANGES: [(usize, &[u8], ImageFault); 8] = [
    (3, b"0", ImageFault::BadMagic),
    (3, b"3", ImageFault::BadMagic),
    (2, b"I", ImageFault::BadMagic),
    // flags 2, 3, 256 and 257
    (24, b"\x02", ImageFault::BadField),
    (24, b"\x03", ImageFault::BadField),
    (24, b"\0\x01", ImageFault::BadField),
    (24, b"\x01\x01", ImageFault::BadField),
    // a size of RAM
    (28, b"\x03", ImageFault::BadField),
];

#[test]
fn refusals_of_version_two(rt: HostRuntime) -> Result<(), Fail> {
    ends_are_refused(&rt, rt.alloc(), &SPLIT_60)?;
    for (place, bytes, fault) in &CHANGES {
        refuses_changed(&rt, rt.alloc(), &SPLIT_60, *place, bytes, *fault)?;
    }
    // Both magics end too soon without their digit.
    refuses_system(&rt, rt.alloc(), b"RTS", ImageFault::Truncated);
    refuses_system(&rt, rt.alloc(), b"RTS3", ImageFault::BadMagic);
    Ok(())
}

#[test]
fn broken_systems_of_version_two(rt: HostRuntime) -> Result<(), Fail> {
    let read = read_with_any(&rt, rt.alloc(), &SPLIT_60)?;
    // At least the 60 times that the byte is the file's own, and all times.
    same(&rt, read, read >= 60 + 16 * 255, true);
    Ok(())
}

/// Two tasks, of which the second one's accesses are split.
fn second_split(alloc: Global, version: Version) -> Result<System<'static>, AllocError> {
    let first = task_of(alloc, 4, b"code");
    let mut second = task_of(alloc, 4, b"code");
    second.split = true;
    Ok(System {
        version,
        hyper: 0,
        tasks: vec![in alloc; first, second]?,
    })
}

#[test]
fn version_one_has_no_split_accesses(rt: HostRuntime) -> Result<(), Fail> {
    let system = second_split(rt.alloc(), Version::One)?;
    isnt_written(&rt, rt.alloc(), &system)?;
    Ok(())
}

#[test]
fn version_two_has_split_accesses(rt: HostRuntime) -> Result<(), Fail> {
    let system = second_split(rt.alloc(), Version::Two)?;
    let written = written_of(rt.alloc(), &system)?;
    same(&rt, "length", written.len(), 6 + 12 + 2 * (24 + 20));
    Ok(())
}
