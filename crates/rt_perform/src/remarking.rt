//! What is said of what was done.

ghost use Rattle.std.specs.Prelude.{◌≡◌, ◌↔◌, true, None, All, IfOk};
ghost use Rattle.rt_set.specs.SetFile.{SetEntries, IsSetFile, task_entry, task_entries};
ghost use Rattle.rt_perform.specs.Performs.{IsBudget, IsQuiet};

use crate::explaining::flat_files;
use crate::inputs::Inputs;
use crate::request::Request;
use rt_fault_lines::FaultLines;
use rt_fault_lines::shown::{Explanation, Place, line};
use rt_file_hints::{admitted_hint, built_for, elf_left_out_hint, left_out_hint, start_hint};
use rt_programs::printing::{FileText, joined};
use rt_programs::{SetFault, TaskLine, read_set};
use rt_set::line_of_task;
use std::alloc::{AllocError, Global};

/// Of an ELF file the names that were left out, if any were, and what it was built for.
fn remark_elf(alloc: Global, inputs: &Inputs, left_out: u64) -> Explanation {
    let names = match left_out {
        0 => None,
        _ => elf_left_out_hint(alloc, &inputs.first)?,
    };
    joined(alloc, names, built_for(alloc, &inputs.first)?)
}

/// Of a flat image the names that were left out, if any were, and where it could begin.
fn remark_image(
    alloc: Global,
    request: Request<'_>,
    inputs: &Inputs,
    left_out: u64,
) -> Explanation {
    let names = match left_out {
        0 => None,
        _ => left_out_hint(alloc, inputs.first.len(), &inputs.names)?,
    };
    match flat_files(request, inputs) {
        Some(files) => joined(alloc, names, start_hint(alloc, &files)?),
        None => Ok(names),
    }
}

/// Whether a set may have the budget of a task line.
fn is_budget(task: &TaskLine<'_>) -> bool
    ensures { result ≡ true ↔ IsBudget (task_entry task.now) }
{
    0 < task.budget && task.budget <= task.period
}

/// The first task line whose budget no set may have.
fn refused_budget(tasks: &[TaskLine<'_>]) -> Option<usize>
    ensures { All IsBudget (task_entries tasks.now) → result ≡ None }
{
    for number in 0..tasks.len() {
        if !is_budget(&tasks[number]) {
            return Some(number);
        }
    }
    None
}

/// Of a set file that was packed the first line that `check` refuses for its budget.
fn remark_pack(alloc: Global, path: &str, text: &[u8]) -> Explanation
    ensures { IfOk result (λ lines. ((set : SetEntries) → IsSetFile text.now set → All IsBudget set.tasks) → lines ≡ None) }
{
    let set = match read_set(alloc, text) {
        Ok(set) => set,
        Err(SetFault::Memory) => return Err(AllocError),
        Err(SetFault::Line(_)) => return Ok(None),
    };
    match refused_budget(&set.tasks) {
        Some(task) => {
            let place = Place::of(path, text, line_of_task(text, task).unwrap_or(0));
            line(alloc, format_args!("{place}: check refuses its budget"))
        }
        None => Ok(None),
    }
}

/// What there is to say of what was done, with so many names left out: of a run the tasks that faulted, of an admission whether a run
/// refuses the set, of a set file whether `check` does for a budget.
pub(crate) fn remark(
    alloc: Global,
    request: Request<'_>,
    inputs: &Inputs,
    left_out: u64,
    faulted: FaultLines,
) -> Option<String>
    requires { IsQuiet request inputs.now.first.items → faulted.lines ≡ None }
    ensures { IsQuiet request.entry inputs.now.first.items → result ≡ None }
{
    match request {
        Request::Elf { .. } => remark_elf(alloc, inputs, left_out).ok().flatten(),
        Request::Image { symbols: None, .. } => None,
        Request::Image { .. } => remark_image(alloc, request, inputs, left_out)
            .ok()
            .flatten(),
        Request::Print {
            text: FileText::Admitted,
            ..
        } => admitted_hint(alloc, &inputs.first).ok().flatten(),
        Request::Print { .. } => faulted.lines,
        Request::Pack { set, .. } => remark_pack(alloc, set, &inputs.first).ok().flatten(),
        _ => None,
    }
}
