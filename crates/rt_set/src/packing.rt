//! The system file of a set.

ghost use Rattle.std.specs.Prelude.{◌≡◌, map};
ghost use Rattle.rt_image.specs.ObjectReading.{Gives};
ghost use Rattle.rt_image.specs.SystemFile.{set_task, set_tasks};
ghost use Rattle.rt_set.specs.Packing.{pack_entry, packed_task, packed_tasks, version_for, Packs};

use crate::set::TaskLine;
use rt_image::{ReadFault, System, Task, Version, read_object, write_system};
use std::alloc::Global;

/// A task line with the bytes of the file that it names.
#[derive(Drop)]
pub struct PackTask<'a> {
    /// The line. Nothing looks at its path.
    pub line: TaskLine<'a>,
    /// All bytes of the file.
    pub file: Vec<u8>,
}

/// The task of a line, with the object that its file spells.
#[tactic(auto, unfolding(crate::specs::Packing::packed_task))]
fn packed_task<'a>(alloc: Global, task: &'a PackTask) -> Result<Task<'a>, ReadFault>
    ensures { Gives set_task result (packed_task (pack_entry task.now)) }
{
    let line = task.line;
    let object = read_object(alloc, &task.file)?;
    Ok(Task {
        budget: line.budget,
        period: line.period,
        start: line.start,
        split: line.split,
        ram: line.ram,
        object,
    })
}

/// The tasks in order, up to the first file that spells no object.
fn packed_tasks<'a>(alloc: Global, tasks: &'a [PackTask]) -> Result<Vec<Task<'a>>, ReadFault>
    ensures { Gives (λ ts. set_tasks ts.items) result (packed_tasks (map pack_entry tasks.now)) }
{
    let mut packed = Vec::new(alloc);
    for task in tasks {
        let task = packed_task(alloc, task)?;
        packed.push(task)?;
    }
    Ok(packed)
}

/// The version of the file of these tasks: Two where the accesses of one of them are split.
fn version_for(tasks: &[Task]) -> Version
    ensures { result ≡ version_for (set_tasks tasks.now) }
{
    for task in tasks {
        if task.split {
            return Version::Two;
        }
    }
    Version::One
}

/// The system file of a set: the one spelling of the system of these tasks, with the objects that
/// their files spell, in order. It has version Two where the accesses of a task are split, else One.
///
/// # Errors
///
/// The refusal of the first file that spells no object, as it is read alone. Where all spell one,
/// `BadField` exactly for more than 256 tasks or a RAM that is no multiple of 4 from 4 to
/// 1,048,576: never for the task lines of one set file that was read. Or there is no memory for the
/// objects or the system file.
pub fn pack(alloc: Global, hyper: u32, tasks: &[PackTask]) -> Result<Vec<u8>, ReadFault>
    ensures { Packs hyper result (packed_tasks (map pack_entry tasks.now)) }
{
    let tasks = packed_tasks(alloc, tasks)?;
    let version = version_for(&tasks);
    let system = System {
        version,
        hyper,
        tasks,
    };
    let mut file = Vec::new(alloc);
    write_system(&system, &mut file)?;
    Ok(file)
}
