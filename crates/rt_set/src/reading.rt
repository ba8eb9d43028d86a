//! Reading a set file line by line.

ghost use Rattle.std.specs.Prelude.{◌≡◌, IfOk, IfErr, Some, None, Ok, if◌then◌else◌};
ghost use Rattle.rt_set.specs.SetFile.{SetEntries, IsSetFile, set_entries};
ghost use Rattle.rt_set.specs.SetLines.{after_line, is_set, set_of, Reads};
ghost use Rattle.rt_set.specs.FirstFault.{IsRefusal};
ghost use Rattle.rt_set.specs.Working.Drafts.{draft_of};

use crate::fault::SetFault;
use crate::lines::{hyper_of, says_something, task_of};
use crate::set::{SetFile, TaskLine};
use rt_image::MAX_TASKS;
use rt_token::cut_line;
use std::alloc::{AllocError, Global};

/// What the lines so far said.
#[derive(Drop)]
struct Draft<'a> {
    hyper: Option<u32>,
    tasks: Vec<TaskLine<'a>>,
}

/// Takes one more line. Returns false if the line is faulty; discard the draft then.
fn take_line<'a>(draft: &mut Draft<'a>, line: &'a [u8]) -> Result<bool, AllocError>
    ensures { IfOk result (λ taken. after_line (draft_of draft.old) line.now ≡ (if taken then Some (draft_of draft.new) else None)) }
{
    if !says_something(line) {
        return Ok(true);
    }
    if draft.hyper.is_none() {
        draft.hyper = hyper_of(line);
        return Ok(draft.hyper.is_some());
    }
    if draft.tasks.len() >= MAX_TASKS as usize {
        return Ok(false);
    }
    let Some(task) = task_of(line) else {
        return Ok(false);
    };
    draft.tasks.push(task)?;
    Ok(true)
}

/// The lines of a text, up to its end or its first faulty line.
fn read_lines(alloc: Global, text: &[u8]) -> Result<SetFile<'_>, SetFault>
    ensures { Reads result (set_of text.now) }
{
    let mut draft = Draft {
        hyper: None,
        tasks: Vec::new(alloc),
    };
    let mut rest = text;
    let mut number: u64 = 1;
    while !rest.is_empty() {
        let (line, after) = cut_line(rest);
        if !take_line(&mut draft, line)? {
            return Err(SetFault::Line(number));
        }
        rest = after;
        number += 1;
    }
    match draft.hyper {
        Some(hyper) => Ok(SetFile {
            hyper,
            tasks: draft.tasks,
        }),
        None => Err(SetFault::Line(number)),
    }
}

/// Whether a file is to be a set: its first line that is neither empty nor a comment begins with `hyper` and a blank.
pub fn is_set(text: &[u8]) -> bool
    ensures { result ≡ is_set text.now }
{
    let mut rest = text;
    while !rest.is_empty() {
        let (line, after) = cut_line(rest);
        if says_something(line) {
            return line.starts_with(b"hyper ");
        }
        rest = after;
    }
    false
}

/// What a set file says. Empty lines and lines that begin with `#` say nothing; the first other
/// line is `hyper N`, and each further one `task BUDGET PERIOD START RAM PATH`, or the same with
/// `task-split` for a task whose accesses are split: single spaces, and decimal numbers below 2^32
/// without leading zeros.
///
/// # Errors
///
/// The first line, counted from 1 over all lines, that is no such line: also one whose RAM is no
/// multiple of 4 from 4 to 1,048,576, whose path is empty or isn't UTF-8, or the 257th task line;
/// and the number after the last line where there is no `hyper` line. Or there is no memory for the
/// task lines.
pub fn read_set(alloc: Global, text: &[u8]) -> Result<SetFile<'_>, SetFault>
    // What is read is what the lines spell.
    ensures found { IfOk result (λ s. IsSetFile text.now (set_entries s)) }
    // What the lines spell is read, unless memory runs out.
    ensures only { (s : SetEntries) → IsSetFile text.now s → Reads result (Ok s) }
    // A line that is refused is the first that may not follow those before it.
    ensures refused { IfErr result (λ fault. IsRefusal fault text.now) }
    // Which of all these it is.
    ensures exact { Reads result (set_of text.now) }
{
    read_lines(alloc, text)
}
