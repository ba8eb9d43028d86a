//! The replies of a session, and their texts.

ghost use Rattle.std.specs.Prelude.{◌≡◌, false};
ghost use Rattle.rt_sink.specs.Sink.{Counts};
ghost use Rattle.rt_debug.specs.reply.ReplyText.{tick_text, reply_text, refusal_text, break_text};

use crate::reply::lines::{EventLine, RefusalLine, TickLine};
use crate::reply::text::Text;
use rt_command::Refusal;
use rt_core::Next;
use rt_points::Event;
use rt_sink::{DeviceFault, Sink, put_bytes};
use rt_text_out::{Byte, Decimal, Hex, InOne, word, write};
use rt_walk::Happening;

/// Why a session stands still.
#[derive(Clone, Copy, PartialEq, Eq)]
pub enum Stopped {
    /// No stop was asked for.
    Unasked,
    /// No stop was met.
    NoStop,
    /// The stop of this number is met.
    At(u32),
    /// An event that is asked for happened.
    Happened(Happening),
}

/// What a session answers to a command.
#[derive(Drop)]
pub enum Reply {
    /// Where the session stands: how it came to that, its tick, and what the coming tick is to be.
    Tick {
        stop: Stopped,
        t: u64,
        next: Next,
    },
    /// Where a stop may be added: a task of the session, and a multiple of 4 whose word is in its RAM.
    Break {
        task: u32,
        pc: u32,
    },
    /// The stop of this number was deleted.
    Deleted(u32),
    /// This event is asked for from now on, of this task or of every one, or no more.
    Events {
        event: Event,
        task: Option<u32>,
        is_asked: bool,
    },
    /// The session is to end.
    Quit,
    /// What a command shows, as lines.
    Text(Text),
}

/// Writes the text of a reply to a sink that hasn't failed: nothing for `Break`, since its line names the stop that is yet to be
/// added, and for `Quit`. The answer is the text's length in bytes. Takes no memory.
///
/// # Errors
///
/// The sink failed. `written` is how many of the first bytes it took.
pub fn write_reply<S: Sink>(sink: &mut S, reply: &Reply) -> Result<u64, DeviceFault>
    requires { (S.seen sink.old).failed ≡ false }
    ensures { Counts S.seen sink.old (reply_text reply.now) result sink.new }
{
    match reply {
        Reply::Tick { stop, t, next } => {
            let line = TickLine {
                stop: *stop,
                t: *t,
                next: *next,
            };
            write(&InOne { pieces: line }, sink)
        }
        Reply::Deleted(number) => {
            let number = Decimal(u64::from(*number));
            let line = (word(b"deleted "), number, Byte(b'\n'));
            write(&InOne { pieces: line }, sink)
        }
        Reply::Events {
            event,
            task,
            is_asked,
        } => {
            let line = EventLine {
                event: *event,
                task: *task,
                is_asked: *is_asked,
            };
            write(&InOne { pieces: line }, sink)
        }
        Reply::Text(text) => match put_bytes(sink, text.bytes()) {
            Ok(()) => Ok(text.bytes().len() as u64),
            Err(fault) => Err(fault),
        },
        Reply::Break { .. } | Reply::Quit => write(&word(b""), sink),
    }
}

/// Writes the line of a refusal to a sink that hasn't failed. The answer is its length in bytes. Takes no memory.
///
/// # Errors
///
/// The sink failed. `written` is how many of the first bytes it took.
pub fn write_refusal<S: Sink>(sink: &mut S, refusal: Refusal) -> Result<u64, DeviceFault>
    requires { (S.seen sink.old).failed ≡ false }
    ensures { Counts S.seen sink.old (refusal_text refusal) result sink.new }
{
    let line = RefusalLine(refusal);
    write(&InOne { pieces: line }, sink)
}

/// Writes the line of a stop that was added to a sink that hasn't failed: its number, its task and its address. The answer is
/// the line's length in bytes. Takes no memory.
///
/// # Errors
///
/// The sink failed. `written` is how many of the first bytes it took.
pub fn write_break<S: Sink>(
    sink: &mut S,
    number: u32,
    task: u32,
    pc: u32,
) -> Result<u64, DeviceFault>
    requires { (S.seen sink.old).failed ≡ false }
    ensures { Counts S.seen sink.old (break_text number task pc) result sink.new }
{
    let number = (word(b"break "), Decimal(u64::from(number)), Byte(b' '));
    let place = (number, Decimal(u64::from(task)), Byte(b' '));
    let line = (place, Hex(pc), Byte(b'\n'));
    write(&InOne { pieces: line }, sink)
}
