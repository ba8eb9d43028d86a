//! The numbers behind a refusal of a set or of a load.

use rt_admit::AdmitFault;
use rt_fault_lines::shown::{Explanation, line};
use rt_file_hints::{admit_hint, load_hint};
use rt_image::{ReadFault, read_object, read_system};
use rt_names::TaskNames;
use rt_programs::printing::{FileText, ShownName};
use rt_programs::{LoadFault, Question, SimFault, SoloTask, TaskFault};
use std::alloc::{AllocError, Global};

/// A system of these bytes, which were read before.
fn explain_system(alloc: Global, fault: SimFault, bytes: &[u8]) -> Explanation {
    let system = match read_system(alloc, bytes) {
        Ok(system) => system,
        Err(ReadFault::Memory) => return Err(AllocError),
        Err(ReadFault::Fault(_)) => return Ok(None),
    };
    match fault {
        SimFault::Admit(fault) => admit_hint(alloc, fault, system.hyper, &system.tasks),
        SimFault::Load(LoadFault::ImageTooBig(i) | LoadFault::BadEntry(i)) => {
            match system.tasks.get(i as usize) {
                Some(task) => load_hint(alloc, &task.object, task.ram),
                None => Ok(None),
            }
        }
        _ => Ok(None),
    }
}

/// An object of these bytes, which were read before, that isn't loaded into so many bytes of RAM.
fn explain_object(alloc: Global, bytes: &[u8], ram: u32) -> Explanation {
    match read_object(alloc, bytes) {
        Ok(object) => load_hint(alloc, &object, ram),
        Err(ReadFault::Memory) => Err(AllocError),
        Err(ReadFault::Fault(_)) => Ok(None),
    }
}

/// Why a text isn't printed of a file of these bytes, with the numbers that it is refused for.
pub(crate) fn explain_numbers(
    alloc: Global,
    fault: SimFault,
    bytes: &[u8],
    text: FileText<'_>,
) -> Explanation {
    match (fault, text) {
        (SimFault::Admit(AdmitFault::Overload { .. }), _) => Ok(None),
        (
            SimFault::Load(_),
            FileText::Solo {
                task: SoloTask { ram, .. },
                ..
            }
            | FileText::SoloPart {
                task: SoloTask { ram, .. },
                ..
            }
            | FileText::Certificate(Question { ram, .. }),
        ) => explain_object(alloc, bytes, ram),
        (SimFault::Load(_), FileText::Certificates(Question { ram, .. }))
            if bytes.starts_with(b"RTI1") => { explain_object(alloc, bytes, ram) }
        (SimFault::Admit(_) | SimFault::Load(_), _) => explain_system(alloc, fault, bytes),
        _ => Ok(None),
    }
}

/// What is to be listed of a task: its name, or of those that have a name its number.
fn push_listed(
    list: &mut String,
    names: &TaskNames<'_>,
    task: u32,
    word: Option<&str>,
) -> Result<(), AllocError> {
    let Some(name) = names.get(task) else {
        return Ok(());
    };
    let comma = if list.is_empty() { "" } else { ", " };
    match word {
        None => list.write(format_args!("{comma}{}", ShownName(name))),
        Some(word) if name.is(word) => list.write(format_args!("{comma}{task}")),
        Some(_) => Ok(()),
    }
}

/// The tasks that a word could have meant, of the system of these bytes, which were read before.
pub(crate) fn explain_word(alloc: Global, fault: TaskFault<'_>, bytes: &[u8]) -> Explanation {
    if bytes.starts_with(b"RTI1") {
        return line(alloc, "an object has no tasks");
    }
    let (word, said) = match fault {
        TaskFault::NoTask { count, .. } => {
            let last = count.saturating_sub(1);
            return line(alloc, format_args!("tasks are 0 to {last}"));
        }
        TaskFault::NoName(_) => (None, "they are"),
        TaskFault::Several(word, _) => (Some(word), "their numbers are"),
    };
    let system = match read_system(alloc, bytes) {
        Ok(system) => system,
        Err(ReadFault::Memory) => return Err(AllocError),
        Err(ReadFault::Fault(_)) => return Ok(None),
    };
    let names = TaskNames::of(alloc, &system)?;
    let mut list = String::new(alloc);
    for task in 0..system.tasks.len() {
        push_listed(&mut list, &names, task as u32, word)?;
    }
    line(alloc, format_args!("{said} {list}"))
}
