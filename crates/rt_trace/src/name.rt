//! The number of a task as it stands in a line.

ghost use Rattle.std.specs.Prelude.{◌≡◌, ◌+◌, ◌≤◌, ◌<◌, length};
ghost use Rattle.rt_admit.specs.Limits.{task_limit};
ghost use Rattle.rt_trace.specs.Working.Lines.{name_text};
ghost use Rattle.rt_trace.specs.Placed.{Placed};

use crate::placing::{place_front, put_task};
use std::marker::Model;

/// At most 4 bytes: the number of a task, 0 to 63, a space before it and one behind. Contracts see the bytes.
#[derive(Drop)]
pub struct Name {
    bytes: [u8; 4],
    len: usize,
}

impl Model for Name {
    ghost use Rattle.std.specs.Prelude.{ℕ, List, ◌≡◌, ◌≤◌, length, take};

    ghost Value = { List ℕ };

    ghost view = { λ name. take name.len name.bytes };

    ghost invariant = { λ name. (name.len ≤ 4) × (length name.bytes ≡ 4) };
}

impl Name {
    /// That of task 0.
    #[inline(always)]
    pub fn new() -> Name
        ensures { result ≡ name_text 0 }
    {
        Name {
            bytes: [b' ', b'0', b' ', b' '],
            len: 3,
        }
    }

    /// Goes to that of a task, 0 to 63.
    #[inline(always)]
    pub fn set(&mut self, task: u32)
        requires { task < task_limit }
        ensures { self.new ≡ name_text task }
    {
        self.len = put_task(&mut self.bytes, task);
    }

    /// How many bytes it has.
    #[inline(always)]
    pub fn len(&self) -> usize
        ensures exact { result ≡ length self.now }
        ensures short { result ≤ 4 }
    {
        self.len
    }

    /// Puts it at a place that has room for 4 bytes, and answers the place behind it.
    #[inline(always)]
    pub fn place(&self, bytes: &mut [u8], at: usize) -> usize
        requires { at + 4 ≤ length bytes.old }
        ensures { Placed bytes.old bytes.new at self.now result }
    {
        place_front::<4>(bytes, at, &self.bytes, self.len)
    }
}
