//! The lines of a set file that say something, by their numbers.

ghost use Rattle.std.specs.Prelude.{◌≡◌, ◌≤◌, ◌&&◌, nat_lt};
ghost use Rattle.rt_set.specs.SaidLines.{said_of, said_before, line_of_task};
ghost use Rattle.rt_set.specs.SetFile.{says_something, set_lines};

use crate::lines::says_something;
use rt_token::cut_line;

/// 1 where a line says something.
fn said_of(line: &[u8]) -> u64
    ensures value { result ≡ said_of line.now }
    ensures one { result ≤ 1 }
{
    if says_something(line) { 1 } else { 0 }
}

/// Whether a line is that of a task, with so many before it that say something.
fn is_task_line(line: &[u8], said: u64, task: u64) -> bool
    ensures { result ≡ (says_something line.now && nat_lt task said) }
{
    says_something(line) && said > task
}

/// How many lines of a set file say something before the one of this number, counted from 1.
pub fn said_before(text: &[u8], number: u64) -> u64
    ensures { result ≡ said_before number (set_lines text.now) }
{
    let mut rest = text;
    let mut left = number;
    let mut said: u64 = 0;
    while left > 1 && !rest.is_empty() {
        let (line, after) = cut_line(rest);
        said += said_of(line);
        left -= 1;
        rest = after;
    }
    said
}

/// The number of the line of a set file, counted from 1, that is the one of a task, counted from 0:
/// of the lines with words the first gives the hyperperiod, each further one a task. None where there are
/// fewer.
pub fn line_of_task(text: &[u8], task: usize) -> Option<u64>
    ensures { result ≡ line_of_task task (set_lines text.now) }
{
    let task = task as u64;
    let mut rest = text;
    let mut number: u64 = 1;
    let mut said: u64 = 0;
    while !rest.is_empty() {
        let (line, after) = cut_line(rest);
        if is_task_line(line, said, task) {
            return Some(number);
        }
        said += said_of(line);
        number += 1;
        rest = after;
    }
    None
}
