//! A set with the files that it names.

ghost use Rattle.std.specs.Prelude.{◌≡◌, ◌^◌, ◌<◌, ◌≤◌, ℕ, List, ◌++◌, ◌∷◌, [], length, map, MatchResult, IfErr, IfOk, OnOk};
ghost use Rattle.std.specs.Option.{option_map};
ghost use Rattle.rt_set.specs.SetFile.{task_entry, task_entries};
ghost use Rattle.rt_set.specs.Packing.{pack_entry};
ghost use Rattle.rt_perform.specs.Inputs.{IsUnreadAt};
ghost use Rattle.rt_perform.specs.Packed.{IsTaskRead, AreTasksRead, IsTaskUnread, IsObjectTask, AreObjectTasks, IsFaultyTask, HasFaultyTask, GivesSystem, RefusesSet};

use crate::inputs::{apart, read};
use crate::objects::object_of_elf;
use crate::producing::Produced;
use crate::program::ProgramFault;
use rt_desk::Desk;
use rt_desk::reading::FileKind;
use rt_elf::is_elf;
use rt_image::{MAX_TASKS, read_object};
use rt_programs::{PackTask, TaskLine, pack, read_set};
use std::alloc::{AllocError, Global};

/// Adds a task line with the bytes of its file.
fn add<'a>(
    tasks: &mut Vec<PackTask<'a>>,
    line: TaskLine<'a>,
    file: Vec<u8>,
) -> Result<(), AllocError>
    ensures { OnOk result (map pack_entry tasks.new.items ≡ map pack_entry tasks.old.items ++ record { line = task_entry line.entry; file = file.items } ∷ []) }
{
    Ok(tasks.push(PackTask { line, file })?)
}

/// Reads the file that a task line names, which is not the one that is made if one is, and adds the line with its bytes.
fn read_task<'a, D: Desk>(
    alloc: Global,
    desk: &D,
    line: &TaskLine<'a>,
    tasks: &mut Vec<PackTask<'a>>,
    made: Option<&str>,
) -> Result<(), ProgramFault<'a>>
    ensures read { OnOk result ((file : List ℕ) × IsTaskRead (D.files desk.now) (option_map (λ p. p.now) made.entry) line.now.path.now file
        × (map pack_entry tasks.new.items ≡ map pack_entry tasks.old.items ++ record { line = task_entry line.now; file = file } ∷ [])) }
    ensures unread { IfErr result (λ fault. IsUnreadAt (D.files desk.now) (option_map (λ p. p.now) made.entry) line.now.path.now fault) }
{
    let task = Some(tasks.len());
    apart(desk, line.path, made, task)?;
    let file = match read(alloc, desk, line.path, FileKind::Object, task) {
        Ok(file) => file,
        Err(fault) => return Err(fault),
    };
    add(tasks, *line, file)?;
    Ok(())
}

/// The task lines with the bytes of the files that they name, each read in the order of the lines.
fn read_tasks<'a, D: Desk>(
    alloc: Global,
    desk: &D,
    lines: &[TaskLine<'a>],
    made: Option<&str>,
) -> Result<Vec<PackTask<'a>>, ProgramFault<'a>>
    ensures { MatchResult result (λ tasks. AreTasksRead (D.files desk.now) (option_map (λ p. p.now) made.entry) (task_entries lines.now) (map pack_entry tasks.items))
        (λ fault. IsTaskUnread (D.files desk.now) (option_map (λ p. p.now) made.entry) (task_entries lines.now) fault) }
{
    let mut tasks = Vec::new(alloc);
    for line in lines {
        if let Err(fault) = read_task(alloc, desk, line, &mut tasks, made) {
            return Err(fault);
        }
    }
    Ok(tasks)
}

/// Puts in place of the file of a task the object file that it stands for. Answers how many names are left out of that.
fn put_object<'a>(
    alloc: Global,
    task: &mut PackTask<'_>,
    number: usize,
) -> Result<u64, ProgramFault<'a>>
    ensures put { IfOk result (λ left_out. IsObjectTask (pack_entry task.old) (pack_entry task.new) left_out) }
    ensures few { IfOk result (λ left_out. left_out < 2 ^ 32) }
    ensures faulty { IfErr result (λ fault. IsFaultyTask (pack_entry task.old) fault) }
{
    if !is_elf(&task.file) {
        return match read_object(alloc, &task.file) {
            Ok(_) => Ok(0),
            Err(fault) => Err(ProgramFault::Pack(fault, number)),
        };
    }
    match object_of_elf(alloc, &task.file, task.line.path) {
        Ok(made) => {
            task.file = made.bytes;
            Ok(made.left_out)
        }
        Err(fault) => Err(ProgramFault::Elf(fault, Some(number))),
    }
}

/// Puts in place of each file the object file that it stands for. Answers how many names are left out of all of them.
fn put_objects<'a>(alloc: Global, tasks: &mut [PackTask<'_>]) -> Result<u64, ProgramFault<'a>>
    requires { length tasks.old ≤ MAX_TASKS }
    ensures { MatchResult result (λ left_out. AreObjectTasks (map pack_entry tasks.old) (map pack_entry tasks.new) left_out)
        (λ fault. HasFaultyTask (map pack_entry tasks.old) fault) }
{
    let mut left_out = 0;
    for number in 0..tasks.len() {
        left_out += put_object(alloc, &mut tasks[number], number)?;
    }
    Ok(left_out)
}

/// The system file of a set file, whose objects are files of the desk, and none of them the one that is made.
pub(crate) fn system_file<'a, D: Desk>(
    alloc: Global,
    desk: &D,
    text: &'a [u8],
    made: Option<&str>,
) -> Result<Produced, ProgramFault<'a>>
    ensures { MatchResult result (λ p. GivesSystem (D.files desk.now) (option_map (λ p. p.now) made.entry) text.now p.bytes p.left_out)
        (λ fault. RefusesSet (D.files desk.now) (option_map (λ p. p.now) made.entry) text.now fault) }
{
    let set = read_set(alloc, text)?;
    let mut tasks = read_tasks(alloc, desk, &set.tasks, made)?;
    let left_out = put_objects(alloc, &mut tasks)?;
    match pack(alloc, set.hyper, &tasks) {
        Ok(bytes) => Ok(Produced { bytes, left_out }),
        Err(fault) => Err(ProgramFault::Pack(fault, tasks.len())),
    }
}
