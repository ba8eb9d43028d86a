//! Writing system files.

ghost use Rattle.std.specs.Prelude.{◌≡◌, ◌++◌, ◌↔◌, IsTrue, IsErrOf, OnOk, OnErr};
ghost use Rattle.std.specs.List.{flat_map};
ghost use Rattle.rt_image.specs.SystemFile.{may_split, IsTask, AreTasks, IsSystem, set_task, set_tasks, task_set, magic, times_spelling, flags_spelling, front_spelling, set_front_spelling, task_spelling, system_spelling};

use crate::fault::WriteFault;
use crate::fits::object_fits;
use crate::limits::MAX_TASKS;
use crate::system::{System, Task, Version};
use crate::writing::{push_four, push_object};
use rt_words::is_ram_size;
use std::alloc::AllocError;

/// Whether a task of this version may have the flag.
fn may_split(version: Version, split: bool) -> bool
    ensures { result ≡ may_split version split }
{
    match version {
        Version::One => !split,
        Version::Two => true,
    }
}

/// Whether the task has a spelling.
fn task_fits(version: Version, task: &Task) -> bool
    ensures fits { IsTrue result → IsTask version (set_task task.now) }
    ensures all { IsTask version (set_task task.now) → IsTrue result }
{
    let _budget = task.budget;
    let _period = task.period;
    let _start = task.start;
    let object = &task.object;
    if !may_split(version, task.split) {
        return false;
    }
    if !is_ram_size(task.ram) {
        return false;
    }
    object_fits(object.entry, object.bytes, &object.symbols)
}

fn tasks_fit(version: Version, tasks: &[Task]) -> bool
    ensures fits { IsTrue result → AreTasks version (set_tasks tasks.now) }
    ensures all { AreTasks version (set_tasks tasks.now) → IsTrue result }
{
    for task in tasks {
        if !task_fits(version, task) {
            return false;
        }
    }
    true
}

/// Whether the system has a spelling.
fn system_fits(system: &System) -> bool
    ensures fits { IsTrue result → IsSystem (task_set system.now) }
    ensures all { IsSystem (task_set system.now) → IsTrue result }
{
    let _hyper = system.hyper;
    let tasks = system.tasks.as_slice();
    if tasks.len() > MAX_TASKS as usize {
        return false;
    }
    tasks_fit(system.version, tasks)
}

fn push_times(out: &mut Vec<u8>, task: &Task) -> Result<(), AllocError>
    ensures { OnOk result (out.new.items ≡ out.old.items ++ times_spelling task.now.budget task.now.period task.now.start) }
{
    push_four(out, task.budget as usize)?;
    push_four(out, task.period as usize)?;
    push_four(out, task.start as usize)
}

/// Appends a task's flag, where the version has one.
fn push_flags(out: &mut Vec<u8>, version: Version, split: bool) -> Result<(), AllocError>
    ensures { OnOk result (out.new.items ≡ out.old.items ++ flags_spelling version split) }
{
    match version {
        Version::One => Ok(()),
        Version::Two => push_four(out, usize::from(split)),
    }
}

/// Appends what stands before a task's object.
fn push_front(
    out: &mut Vec<u8>,
    version: Version,
    task: &Task,
    size: usize,
) -> Result<(), AllocError>
    ensures { OnOk result
        (out.new.items ≡ out.old.items
        ++ front_spelling version task.now.budget task.now.period task.now.start task.now.split task.now.ram size) }
{
    push_times(out, task)?;
    push_flags(out, version, task.split)?;
    push_four(out, task.ram as usize)?;
    push_four(out, size)
}

fn push_task(out: &mut Vec<u8>, version: Version, task: &Task) -> Result<(), AllocError>
    ensures { OnOk result (out.new.items ≡ out.old.items ++ task_spelling version (set_task task.now)) }
{
    let mut file = Vec::new(*out.allocator());
    push_object(&mut file, &task.object)?;
    let object = file.as_slice();
    push_front(out, version, task, object.len())?;
    out.extend_from_slice(object)
}

fn push_tasks(out: &mut Vec<u8>, version: Version, tasks: &[Task]) -> Result<(), AllocError>
    ensures { OnOk result (out.new.items ≡ out.old.items ++ flat_map (task_spelling version) (set_tasks tasks.now)) }
{
    for task in tasks {
        push_task(out, version, task)?;
    }
    Ok(())
}

/// Appends the first bytes of a file of the version.
fn push_magic(out: &mut Vec<u8>, version: Version) -> Result<(), AllocError>
    ensures { OnOk result (out.new.items ≡ out.old.items ++ magic version) }
{
    match version {
        Version::One => out.extend_from_slice(b"RTS1"),
        Version::Two => out.extend_from_slice(b"RTS2"),
    }
}

/// Appends what stands before the tasks.
fn push_set_front(
    out: &mut Vec<u8>,
    version: Version,
    hyper: u32,
    count: usize,
) -> Result<(), AllocError>
    ensures { OnOk result (out.new.items ≡ out.old.items ++ set_front_spelling version hyper count) }
{
    push_magic(out, version)?;
    push_four(out, hyper as usize)?;
    push_four(out, count)
}

fn push_system(out: &mut Vec<u8>, system: &System) -> Result<(), AllocError>
    ensures { OnOk result (out.new.items ≡ out.old.items ++ system_spelling (task_set system.now)) }
{
    let tasks = system.tasks.as_slice();
    push_set_front(out, system.version, system.hyper, tasks.len())?;
    push_tasks(out, system.version, tasks)
}

/// Appends the one spelling of the system, a file of the version that it has.
///
/// # Errors
///
/// `BadField` exactly for a system that has none: too many tasks, in version One a task whose
/// `split` is set, a size of RAM that is no multiple of 4 from 4 to 1,048,576, or an object without
/// a spelling; or `NoMemory`. After both the bytes are as they were.
pub fn write_system(system: &System, out: &mut Vec<u8>) -> Result<(), WriteFault>
    ensures ok { OnOk result (out.new.items ≡ out.old.items ++ system_spelling (task_set system.now)) }
    ensures fits { OnOk result (IsSystem (task_set system.now)) }
    ensures bad_field { IsErrOf result WriteFault.BadField ↔ ¬ IsSystem (task_set system.now) }
    ensures no_memory { IsErrOf result WriteFault.NoMemory → IsSystem (task_set system.now) }
    ensures err { OnErr result (out.new.items ≡ out.old.items) }
{
    if !system_fits(system) {
        return Err(WriteFault::BadField);
    }
    let mut file = Vec::new(*out.allocator());
    push_system(&mut file, system)?;
    out.extend_from_slice(&file)?;
    Ok(())
}
