//! The ids of tasks.

ghost use Rattle.std.specs.Prelude.{◌≡◌};
ghost use Rattle.rt_packet.specs.request.Ids.{tasks_of, id_part, numbered, of_both, in_process, names, is_among};

use crate::request::numbers::{cut_at, short_number};

/// Which tasks an id means.
#[derive(Clone, Copy, Debug, PartialEq, Eq)]
pub enum Tasks {
    /// Every task.
    All,
    /// The task of this number, from 0.
    One(u32),
}

impl Tasks {
    /// Whether the task of this number is among them.
    pub fn names(self, task: u32) -> bool
        ensures { result ≡ names self task }
    {
        match self {
            Tasks::All => true,
            Tasks::One(number) => number == task,
        }
    }

    /// Whether an id means them where these tasks are listed: all tasks, or one that is listed.
    pub fn is_among(self, listed: &[bool]) -> bool
        ensures { result ≡ is_among listed.now self }
    {
        match self {
            Tasks::All => true,
            Tasks::One(number) => match listed.get(number as usize) {
                Some(is_listed) => *is_listed,
                None => false,
            },
        }
    }
}

/// The task of process P, which is 1 more than its number; 0 is every process.
fn numbered(process: u32) -> Tasks
    ensures { result ≡ numbered process }
{
    if process == 0 {
        Tasks::All
    } else {
        Tasks::One(process - 1)
    }
}

/// What a part of an id means: `-1`, or 1 to 8 hexadecimal digits.
fn id_part(text: &[u8]) -> Option<Tasks>
    ensures { result ≡ id_part text.now }
{
    if text == b"-1".as_slice() {
        return Some(Tasks::All);
    }
    Some(numbered(short_number(text)?))
}

/// The tasks of a process that a thread means too.
fn of_both(process: Tasks, thread: Tasks) -> Option<Tasks>
    ensures { result ≡ of_both process thread }
{
    match (process, thread) {
        (Tasks::One(first), Tasks::One(second)) => {
            if first == second {
                Some(Tasks::One(first))
            } else {
                None
            }
        }
        _ => Some(process),
    }
}

/// What an id means behind its `p`.
fn in_process(text: &[u8]) -> Option<Tasks>
    ensures { result ≡ in_process text.now }
{
    match cut_at(b'.', text) {
        Some((process, thread)) => of_both(id_part(process)?, id_part(thread)?),
        None => id_part(text),
    }
}

/// Which tasks an id means: `p<P>`, `p<P>.<T>` or `<T>`. Nothing where the text is no id.
pub(crate) fn tasks_of(text: &[u8]) -> Option<Tasks>
    ensures { result ≡ tasks_of text.now }
{
    match text.split_first() {
        Some((b'p', rest)) => in_process(rest),
        _ => id_part(text),
    }
}
