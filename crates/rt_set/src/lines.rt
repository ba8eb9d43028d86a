//! What a line says.

ghost use Rattle.std.specs.Prelude.{◌≡◌};
ghost use Rattle.rt_words.specs.Found.{Finds};
ghost use Rattle.rt_set.specs.SetFile.{task_entry, says_something};
ghost use Rattle.rt_set.specs.SetLines.{hyper_of, path_of, task_word_of, task_of};

use crate::numbers::{decimal_of, number_at};
use crate::set::TaskLine;
use rt_token::after_keyword;
use rt_words::is_ram_size;
use std::str::from_utf8;

/// Whether the line is neither empty nor a comment.
pub fn says_something(line: &[u8]) -> bool
    ensures { result ≡ says_something line.now }
{
    match line.first() {
        Some(byte) => *byte != b'#',
        None => false,
    }
}

/// The number of a line `hyper N`.
#[tactic(auto, unfolding(crate::specs::SetLines::hyper_of))]
pub fn hyper_of(line: &[u8]) -> Option<u32>
    ensures { result ≡ hyper_of line.now }
{
    let rest = after_keyword(b"hyper", line)?;
    decimal_of(rest)
}

/// The path of a task line.
#[tactic(auto, using(crate::proofs::Texts::is_text, crate::proofs::Texts::is_no_text))]
pub fn path_of(bytes: &[u8]) -> Option<&str>
    ensures { Finds (λ x. x.now) result (path_of bytes.now) }
{
    if bytes.is_empty() {
        return None;
    }
    match from_utf8(bytes) {
        Ok(path) => Some(path),
        Err(_) => None,
    }
}

/// Whether the first word says that the task's accesses are split, and what stands after it.
#[tactic(auto, unfolding(crate::specs::SetLines::task_word_of))]
fn task_word_of(line: &[u8]) -> Option<(bool, &[u8])>
    ensures { Finds (λ x. (x.0, x.1.now)) result (task_word_of line.now) }
{
    if let Some(rest) = after_keyword(b"task", line) {
        return Some((false, rest));
    }
    let rest = after_keyword(b"task-split", line)?;
    Some((true, rest))
}

/// What a line `task BUDGET PERIOD START RAM PATH` says, or the same with `task-split`.
#[tactic(auto, unfolding(crate::specs::SetLines::task_of))]
pub fn task_of(line: &[u8]) -> Option<TaskLine<'_>>
    ensures { Finds task_entry result (task_of line.now) }
{
    let (split, rest) = task_word_of(line)?;
    let (budget, rest) = number_at(rest)?;
    let (period, rest) = number_at(rest)?;
    let (start, rest) = number_at(rest)?;
    let (ram, rest) = number_at(rest)?;
    if !is_ram_size(ram) {
        return None;
    }
    let path = path_of(rest)?;
    Some(TaskLine {
        budget,
        period,
        start,
        split,
        ram,
        path,
    })
}
