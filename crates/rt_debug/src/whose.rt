//! Of which task an event is that a command asks for.

ghost use Rattle.std.specs.Prelude.{◌≡◌, bytes_eq};
ghost use Rattle.rt_image.specs.ObjectFile.{object_value};
ghost use Rattle.rt_image.specs.SystemFile.{set_tasks};
ghost use Rattle.rt_names.specs.TaskName.{task_name};
ghost use Rattle.rt_names.specs.TaskNames.{names_from};
ghost use Rattle.rt_debug.specs.Whose.{named, meant};

use rt_command::{Refusal, Whose};
use rt_core::Machine;
use rt_exec::Fetcher;
use rt_image::{Object, Task};
use rt_names::namer_among;
use rt_queue::MinQueue;
use rt_sink::{LineBuffer, push_decimal, push_text};

/// Whether the task of this number, which runs this object, has this name.
fn has_name(number: u64, object: &Object, name: &[u8]) -> bool
    ensures { result ≡ bytes_eq (task_name number (object_value object.now)) name.now }
{
    if let Some(symbol) = namer_among(&object.symbols, object.entry) {
        return symbol.name == name;
    }
    let mut own = LineBuffer::new();
    push_text(&mut own, b"task");
    push_decimal(&mut own, number);
    own.as_slice() == name
}

/// The one task that has this name.
fn named(tasks: &[Task], name: &[u8]) -> Option<u64>
    ensures { result ≡ named (names_from 0 (set_tasks tasks.now)) name.now }
{
    let mut found = None;
    for (number, task) in tasks.iter().enumerate() {
        if has_name(number as u64, &task.object, name) {
            if found.is_some() {
                return None;
            }
            found = Some(number as u64);
        }
    }
    found
}

/// The task that is meant of a machine of these tasks; none where all are. Takes no memory.
///
/// # Errors
///
/// `UnknownTask`: no task has this number, or not one alone has this name.
pub fn meant<Q: MinQueue, F: Fetcher>(
    tasks: &[Task],
    machine: &Machine<Q, F>,
    whose: &Whose,
) -> Result<Option<u32>, Refusal>
    ensures { result ≡ meant (names_from 0 (set_tasks tasks.now)) machine.now whose.now }
{
    let task = match whose {
        Whose::Every => return Ok(None),
        Whose::Number(task) => Some(u64::from(*task)),
        Whose::Named(name) => named(tasks, name.bytes()),
    };
    match task {
        Some(task) if task < u64::from(machine.count()) => Ok(Some(task as u32)),
        _ => Err(Refusal::UnknownTask),
    }
}
