//! A part of a run: its end, or what a task has written.

ghost use Rattle.std.specs.Prelude.{◌≡◌, ◌<◌, false};
ghost use Rattle.rt_sink.specs.Sink.{Counts};
ghost use Rattle.rt_programs.specs.Parts.{word_of, output_of, part_text};

use rt_core::Machine;
use rt_exec::Fetcher;
use rt_names::TaskWord;
use rt_queue::MinQueue;
use rt_sink::{DeviceFault, Sink, put_bytes};
use rt_trace::{Telling, write_end};

/// What is written of a run.
#[derive(Clone, Copy, PartialEq, Eq)]
pub enum RunPart<'a> {
    /// How each task stands after it.
    End,
    /// The bytes that the task of this word has written, as they are.
    Output(TaskWord<'a>),
}

impl<'a> RunPart<'a> {
    /// The word for the task whose output it is.
    pub(crate) fn word(self) -> Option<TaskWord<'a>>
        ensures { result ≡ word_of self.entry }
    {
        match self {
            RunPart::End => None,
            RunPart::Output(word) => Some(word),
        }
    }
}

/// Writes the bytes that a task of a machine has written, none where there is no such task, and answers how many they are.
fn write_output<Q: MinQueue, F: Fetcher, S: Sink>(
    machine: &Machine<Q, F>,
    task: Option<u32>,
    out: &mut S,
) -> Result<u64, DeviceFault>
    requires { (S.seen out.old).failed ≡ false }
    ensures { Counts S.seen out.old (output_of machine.now task) result out.new }
{
    let output = match task {
        Some(task) => match machine.output(task) {
            Some(output) => output,
            None => &[],
        },
        None => &[],
    };
    put_bytes(out, output)?;
    Ok(output.len() as u64)
}

/// Writes a part of how a machine stands, which may be of this task, and answers its length in bytes.
pub(crate) fn write_of<Q: MinQueue, F: Fetcher, S: Sink>(
    machine: &Machine<Q, F>,
    telling: Telling,
    part: RunPart<'_>,
    task: Option<u32>,
    out: &mut S,
) -> Result<u64, DeviceFault>
    requires { (S.seen out.old).failed ≡ false }
    ensures { Counts S.seen out.old (part_text telling part.entry task machine.now) result out.new }
{
    match part {
        RunPart::End => write_end(machine, telling, out),
        RunPart::Output(_) => write_output(machine, task, out),
    }
}
