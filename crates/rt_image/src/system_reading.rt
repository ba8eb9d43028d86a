//! Reading a system file from front to back.

ghost use Rattle.std.specs.Prelude.{◌≡◌, IfOk, Ok};
ghost use Rattle.rt_image.specs.ObjectReading.{Reads, Gives};
ghost use Rattle.rt_image.specs.SystemFile.{TaskSet, IsSystem, set_task, set_tasks, task_set, system_spelling};
ghost use Rattle.rt_image.specs.SystemReading.{digit_at, version_at, flags_at, front_at, task_at, tasks_at, system_of};

use crate::fault::{ImageFault, ReadFault};
use crate::limits::{MAX_FILE, MAX_TASKS};
use crate::reading::{bytes_at, check, letter_at, read_object, u32_at};
use crate::system::{System, Task, Version};
use rt_words::is_ram_size;
use std::alloc::Global;

/// What stands before a task's object.
#[derive(Drop)]
struct TaskFront {
    budget: u32,
    period: u32,
    start: u32,
    split: bool,
    ram: u32,
    size: u32,
}

/// The version of which the digit at the end of the magic is.
fn digit_at(bytes: &[u8]) -> Result<(Version, &[u8]), ImageFault>
    ensures { Reads (λ x. (x.0, x.1.now)) result (digit_at bytes.now) }
{
    match bytes {
        [] => Err(ImageFault::Truncated),
        [b'1', rest @ ..] => Ok((Version::One, rest)),
        [b'2', rest @ ..] => Ok((Version::Two, rest)),
        _ => Err(ImageFault::BadMagic),
    }
}

/// The version that the magic names, and what stands after it.
#[tactic(auto, unfolding(crate::specs::SystemReading::version_at))]
fn version_at(file: &[u8]) -> Result<(Version, &[u8]), ImageFault>
    ensures { Reads (λ x. (x.0, x.1.now)) result (version_at file.now) }
{
    let rest = letter_at(b'R', file)?;
    let rest = letter_at(b'T', rest)?;
    let rest = letter_at(b'S', rest)?;
    digit_at(rest)
}

/// Whether the task's accesses are split, where the version has a flag for it.
#[tactic(auto, unfolding(crate::specs::SystemReading::flags_at))]
fn flags_at(version: Version, bytes: &[u8]) -> Result<(bool, &[u8]), ImageFault>
    ensures { Reads (λ x. (x.0, x.1.now)) result (flags_at version bytes.now) }
{
    match version {
        Version::One => Ok((false, bytes)),
        Version::Two => {
            let (flags, rest) = u32_at(bytes)?;
            check(flags <= 1, ImageFault::BadField)?;
            Ok((flags == 1, rest))
        }
    }
}

#[tactic(auto, unfolding(crate::specs::SystemReading::front_at))]
fn front_at(version: Version, bytes: &[u8]) -> Result<(TaskFront, &[u8]), ImageFault>
    ensures { Reads
        (λ x. (record { budget = x.0.budget; period = x.0.period; start = x.0.start; split = x.0.split; ram = x.0.ram; size = x.0.size }, x.1.now))
        result (front_at version bytes.now) }
{
    let (budget, rest) = u32_at(bytes)?;
    let (period, rest) = u32_at(rest)?;
    let (start, rest) = u32_at(rest)?;
    let (split, rest) = flags_at(version, rest)?;
    let (ram, rest) = u32_at(rest)?;
    check(is_ram_size(ram), ImageFault::BadField)?;
    let (size, rest) = u32_at(rest)?;
    check(size <= MAX_FILE, ImageFault::BadField)?;
    let front = TaskFront {
        budget,
        period,
        start,
        split,
        ram,
        size,
    };
    Ok((front, rest))
}

#[tactic(auto, unfolding(crate::specs::SystemReading::task_at))]
fn task_at(alloc: Global, version: Version, bytes: &[u8]) -> Result<(Task<'_>, &[u8]), ReadFault>
    ensures { Gives (λ x. (set_task x.0, x.1.now)) result (task_at version bytes.now) }
{
    let (front, rest) = front_at(version, bytes)?;
    let (file, rest) = bytes_at(front.size as usize, rest)?;
    let object = read_object(alloc, file)?;
    let task = Task {
        budget: front.budget,
        period: front.period,
        start: front.start,
        split: front.split,
        ram: front.ram,
        object,
    };
    Ok((task, rest))
}

fn tasks_at<'a>(
    alloc: Global,
    version: Version,
    count: u32,
    bytes: &'a [u8],
) -> Result<(Vec<Task<'a>>, &'a [u8]), ReadFault>
    ensures { Gives (λ x. (set_tasks x.0.items, x.1.now)) result (tasks_at version count bytes.now) }
{
    let mut tasks: Vec<Task<'a>> = Vec::new(alloc);
    let mut rest = bytes;
    for _ in 0..count {
        let (task, after) = task_at(alloc, version, rest)?;
        tasks.push(task)?;
        rest = after;
    }
    Ok((tasks, rest))
}

#[tactic(auto, unfolding(crate::specs::SystemReading::system_of))]
fn whole_system(alloc: Global, file: &[u8]) -> Result<System<'_>, ReadFault>
    ensures { Gives task_set result (system_of file.now) }
{
    let (version, rest) = version_at(file)?;
    let (hyper, rest) = u32_at(rest)?;
    let (count, rest) = u32_at(rest)?;
    check(count <= MAX_TASKS, ImageFault::BadField)?;
    let (tasks, rest) = tasks_at(alloc, version, count, rest)?;
    check(rest.is_empty(), ImageFault::Trailing)?;
    Ok(System {
        version,
        hyper,
        tasks,
    })
}

/// The system that the bytes of a file of version One or Two spell, all of the bytes.
///
/// # Errors
///
/// The first refusal that is met from front to back: at each field `Truncated`, then `BadField`,
/// and `Trailing` after the last. A magic that is neither `RTS1` nor `RTS2` is `BadMagic` at the
/// first byte that differs from both. In version Two a task's flags other than 0 and 1 are
/// `BadField`. Where fewer bytes are left than a task's object is said to have, it is `Truncated`,
/// else the refusal of these bytes read alone. Or there is no memory for the tasks.
pub fn read_system(alloc: Global, file: &[u8]) -> Result<System<'_>, ReadFault>
    // What is read is spelled so.
    ensures found { IfOk result (λ s. IsSystem (task_set s) × (file.now ≡ system_spelling (task_set s))) }
    // What is spelled so is read, unless memory runs out.
    ensures only { (s : TaskSet) → IsSystem s → file.now ≡ system_spelling s → Gives task_set result (Ok s) }
    // Which refusal it is.
    ensures exact { Gives task_set result (system_of file.now) }
{
    whole_system(alloc, file)
}
