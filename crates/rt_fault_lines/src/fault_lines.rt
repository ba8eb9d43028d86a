//! The lines of the tasks that faulted, or whose output had no room for a write.

ghost use Rattle.std.specs.Prelude.{◌≡◌, None, IfOk};
ghost use Rattle.rt_fault_lines.specs.Calm.{IsCalm};

use crate::attempt::Attempt;
use crate::refusal::line_of;
use crate::shown::Printable;
use rt_certify::{Limits, NotCertified, Reason};
use rt_core::{Beat, Machine};
use rt_exec::Fetcher;
use rt_history::{Mode, Moment};
use rt_image::Task;
use rt_names::namer_among;
use rt_queue::MinQueue;
use std::alloc::{AllocError, Global};

/// What is said of the tasks that faulted, and of those whose output had no room for a write: a line for each, with two blanks before it.
/// None where there are none, or where there is no memory for them.
#[derive(Drop)]
pub struct FaultLines {
    /// The lines, the last of them without its end.
    pub lines: Option<String>,
    /// The line of a program that isn't certified.
    pub refusal: Option<String>,
}

/// What is written so far, with the last line ended.
fn continued(alloc: Global, lines: Option<String>) -> Result<String, AllocError> {
    match lines {
        Some(mut lines) => {
            lines.push_str("\n")?;
            Ok(lines)
        }
        None => Ok(String::new(alloc)),
    }
}

/// Appends the line of a task whose output of so many bytes is full since this attempt.
fn push_full(
    line: &mut String,
    number: u32,
    task: &Task,
    since: Moment,
    bytes: usize,
) -> Result<(), AllocError> {
    match namer_among(&task.object.symbols, task.object.entry) {
        Some(symbol) => line.write(format_args!("  {}", Printable(symbol.name)))?,
        None => line.write(format_args!("  task{number}"))?,
    }
    let tick = since.tick;
    line.write(format_args!(": output is full since tick {tick} ({bytes} bytes)"))
}

/// The lines of the tasks before task `number`, with its own if it faulted. The machine's first task is said to have the number `first`.
fn with_fault<Q: MinQueue, F: Fetcher>(
    alloc: Global,
    machine: &Machine<Q, F>,
    first: u32,
    number: u32,
    tasks: &[Task],
    lines: Option<String>,
) -> Result<Option<String>, AllocError>
    ensures { IsCalm machine.now → lines ≡ None → IfOk result (λ all. all ≡ None) }
{
    if let Some(view) = machine.view(number)
        && let Mode::Faulted(fault) = view.mode
        && let Some(task) = tasks.get(number as usize)
    {
        let mut text = continued(alloc, lines)?;
        let ram = task.ram;
        let attempt = Attempt { fault, view, ram };
        attempt.push_line(&mut text, first.saturating_add(number), task)?;
        return Ok(Some(text));
    }
    Ok(lines)
}

/// Those, with its own if its output had no room for a write.
fn with_full<Q: MinQueue, F: Fetcher>(
    alloc: Global,
    machine: &Machine<Q, F>,
    first: u32,
    number: u32,
    tasks: &[Task],
    lines: Option<String>,
) -> Result<Option<String>, AllocError>
    ensures { IsCalm machine.now → lines ≡ None → IfOk result (λ all. all ≡ None) }
{
    if let Some(since) = machine.full_since(number)
        && let Some(output) = machine.output(number)
        && let Some(task) = tasks.get(number as usize)
    {
        let mut text = continued(alloc, lines)?;
        let number = first.saturating_add(number);
        push_full(&mut text, number, task, since, output.len())?;
        return Ok(Some(text));
    }
    Ok(lines)
}

/// The lines of the tasks of a machine that faulted, or whose output had no room for a write, in the order of their numbers.
fn lines_of<Q: MinQueue, F: Fetcher>(
    alloc: Global,
    machine: &Machine<Q, F>,
    first: u32,
    tasks: &[Task],
) -> Result<Option<String>, AllocError>
    ensures { IsCalm machine.now → IfOk result (λ lines. lines ≡ None) }
{
    let mut lines = None;
    for number in 0..machine.count() {
        let faulted = with_fault(alloc, machine, first, number, tasks, lines.take())?;
        lines = with_full(alloc, machine, first, number, tasks, faulted)?;
    }
    Ok(lines)
}

impl FaultLines {
    /// Those of no machine yet.
    pub fn none() -> FaultLines
        ensures { result.lines ≡ None }
    {
        FaultLines {
            lines: None,
            refusal: None,
        }
    }

    /// Notes the tasks of a machine that faulted, or whose output had no room for a write, in place of what was noted before. They were
    /// loaded from `tasks`.
    pub fn note<Q: MinQueue, F: Fetcher>(
        &mut self,
        alloc: Global,
        machine: &Machine<Q, F>,
        tasks: &[Task],
    )
        ensures { IsCalm machine.now → self.new.lines ≡ None }
    {
        self.lines = lines_of(alloc, machine, 0, tasks).ok().flatten();
    }

    /// Notes where the program of a machine's one task, which was loaded from `tasks` and has this number elsewhere, isn't certified, and
    /// what to do. The machine stands as `certify` left it, and may go on from there; then it beats.
    pub fn note_refusal<Q: MinQueue, F: Fetcher, B: Beat>(
        &mut self,
        alloc: Global,
        machine: &mut Machine<Q, F>,
        number: u32,
        tasks: &[Task],
        limits: Limits,
        refusal: NotCertified,
        beat: &B,
    )
        ensures { self.new.lines ≡ self.old.lines }
    {
        self.refusal = match (refusal.reason, tasks.first()) {
            (Reason::Faults(_), _) => lines_of(alloc, machine, number, tasks).ok().flatten(),
            (_, Some(task)) => line_of(alloc, machine, number, task, limits, refusal, beat).ok(),
            _ => None,
        };
    }
}
