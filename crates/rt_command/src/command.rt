//! What a command line asks for.

use rt_points::Event;
use std::marker::Model;

/// The name of a symbol or a task. It borrows its bytes from the command line; contracts see them.
#[derive(Debug, Drop)]
pub struct Name<'a> {
    pub(crate) bytes: &'a [u8],
}

impl<'a> Model for Name<'a> {
    ghost use Rattle.std.specs.Prelude.{ℕ, List};

    ghost Value = { List ℕ };

    ghost view = { λ n. n.bytes.now };
}

impl<'a> Name<'a> {
    ghost use Rattle.std.specs.Prelude.{◌≡◌};

    /// Its bytes.
    pub fn bytes(&self) -> &'a [u8]
        ensures { result.now ≡ self.now }
    {
        self.bytes
    }
}

/// A place in the memory of a task.
#[derive(Debug, Drop)]
pub enum Place<'a> {
    /// At this address.
    Address(u32),
    /// At the symbol of this name in the task's object.
    Symbol(Name<'a>),
}

/// Of which task an event is.
#[derive(Debug, Drop)]
pub enum Whose<'a> {
    /// Of every one.
    Every,
    /// Of the task of this number.
    Number(u32),
    /// Of the one task that has this name.
    Named(Name<'a>),
}

/// A command, with a count that isn't given filled in. Task numbers, stop numbers and addresses are any numbers below 2^32.
#[derive(Debug, Drop)]
pub enum Command<'a> {
    /// `step [n]`: so many ticks on, 1 to 2^40.
    Step(u64),
    /// `back [n]`: so many ticks back, 1 to 2^40.
    Back(u64),
    /// `continue [n]`: on to the next stop, at most so many ticks, 1 to 2^40.
    Continue(u64),
    /// `where`: the shown tick.
    Shown,
    /// `regs i`: pc and registers of a task.
    Regs(u32),
    /// `server i`: mode and server of a task.
    Server(u32),
    /// `mem i place n`: 1 to 256 bytes of a task's RAM.
    Mem {
        task: u32,
        place: Place<'a>,
        count: u32,
    },
    /// `list i place n`: 1 to 64 words of a task's RAM as text.
    List {
        task: u32,
        place: Place<'a>,
        count: u32,
    },
    /// `out i`: the output of a task.
    Out(u32),
    /// `trace n`: the last 1 to 256 entries of the history.
    Trace(u32),
    /// `break i place`: a stop for a task at a place.
    Break {
        task: u32,
        place: Place<'a>,
    },
    /// `delete k`: the stop of this number is no more.
    Delete(u32),
    /// `stop word [task]`: `continue` stops where this happens to a task too, to any if none is given; `unstop word [task]`: no more.
    Events {
        event: Event,
        whose: Whose<'a>,
        is_asked: bool,
    },
    /// `quit`: the end.
    Quit,
}
