//! Requests for memory, of which one may be refused: with `rt try --test --fail-alloc N` the Nth.

use super::{LABELS, OBJECT_43, SYSTEM_56};
use crate::tests::same;
use rt_image::*;
use std::alloc::Global;
use std::process::Abort;
use std::test::Fail;

/// Reads an object, and once more where there was no memory.
fn object_again(alloc: Global, file: &[u8]) -> Result<Object<'_>, ReadFault> {
    match read_object(alloc, file) {
        Err(ReadFault::Memory) => read_object(alloc, file),
        answer => answer,
    }
}

/// Reads a system, and once more where there was no memory.
fn system_again(alloc: Global, file: &[u8]) -> Result<System<'_>, ReadFault> {
    match read_system(alloc, file) {
        Err(ReadFault::Memory) => read_system(alloc, file),
        answer => answer,
    }
}

/// A list for which there was no memory is as it was.
fn is_untouched(rt: &impl Abort, out: &[u8], fault: WriteFault) {
    same(rt, "fault", fault, WriteFault::NoMemory);
    same(rt, "bytes", out, b"before".as_slice());
}

/// Writes an object after six bytes, and once more where there was no memory.
fn write_object_again(
    rt: &impl Abort,
    object: &Object,
    out: &mut Vec<u8>,
) -> Result<(), WriteFault> {
    match write_object(object, out) {
        Err(fault) => {
            is_untouched(rt, out, fault);
            write_object(object, out)
        }
        written => written,
    }
}

/// So with a system.
fn write_system_again(
    rt: &impl Abort,
    system: &System,
    out: &mut Vec<u8>,
) -> Result<(), WriteFault> {
    match write_system(system, out) {
        Err(fault) => {
            is_untouched(rt, out, fault);
            write_system(system, out)
        }
        written => written,
    }
}

/// Looks at an object that is read and written again.
fn look_at_object(rt: &impl Abort, object: &Object, out: &mut Vec<u8>) -> Result<(), WriteFault> {
    same(rt, "entry", object.entry, 0x8000_0000);
    same(rt, "bytes", object.bytes.len(), 8);
    same(rt, "symbols", object.symbols.as_slice(), LABELS.as_slice());
    write_object_again(rt, object, out)?;
    same(rt, "written", out.get(6..), Some(OBJECT_43.as_slice()));
    Ok(())
}

#[test]
fn objects_are_read_and_written_again(rt: HostRuntime) -> Result<(), Fail> {
    let object = object_again(rt.alloc(), &OBJECT_43)?;
    if let Ok(mut out) = Vec::from_slice(rt.alloc(), b"before") {
        look_at_object(&rt, &object, &mut out)?;
    }
    Ok(())
}

fn look_at_task(rt: &impl Abort, task: &Task) {
    let fields = (task.budget, task.period, task.ram);
    same(rt, "task", fields, (1, 3, 64));
}

/// Looks at a system that is read and written again.
fn look_at_system(rt: &impl Abort, system: &System, out: &mut Vec<u8>) -> Result<(), WriteFault> {
    same(rt, "version", system.version, Version::One);
    same(rt, "hyper", system.hyper, 12);
    same(rt, "tasks", system.tasks.len(), 1);
    for task in &system.tasks {
        look_at_task(rt, task);
    }
    write_system_again(rt, system, out)?;
    same(rt, "written", out.get(6..), Some(SYSTEM_56.as_slice()));
    Ok(())
}

#[test]
fn systems_are_read_and_written_again(rt: HostRuntime) -> Result<(), Fail> {
    let system = system_again(rt.alloc(), &SYSTEM_56)?;
    if let Ok(mut out) = Vec::from_slice(rt.alloc(), b"before") {
        look_at_system(&rt, &system, &mut out)?;
    }
    Ok(())
}
