//! Fixed answers.

ghost use Rattle.std.specs.Prelude.{◌≡◌, ◌≤◌, length};
ghost use Rattle.rt_packet.specs.answer.Replies.{reply_text, supported_text};

use crate::answer::ids::Ids;
use crate::answer::payload::Payload;
use rt_sink::push_text;

/// Why a command is refused.
#[derive(Clone, Copy, PartialEq, Eq)]
pub enum Refused {
    /// Its text is none of a command.
    Malformed,
    /// There was no memory.
    NoMemory,
    /// A byte that it names isn't in RAM.
    NotInRam,
    /// There are as many points as there may be.
    TooManyPoints,
    /// It writes what is only read.
    ReadOnly,
    /// There is no text of this name.
    NoAnnex,
}

/// An answer that is always the same.
#[derive(Clone, Copy, PartialEq, Eq)]
pub enum Reply {
    /// What was asked is done.
    Done,
    /// There are no more tasks to name.
    NoMoreTasks,
    /// The command is unknown.
    Unknown,
    /// The tasks were there before the debugger.
    Attached,
    /// The actions that a task may be resumed with.
    Actions,
    /// The command is refused, and nothing is changed.
    Refused(Refused),
}

/// The text of a reply.
fn reply_text(reply: Reply) -> &'static [u8]
    ensures value { result.now ≡ reply_text reply }
    ensures short { length result.now ≤ 13 }
{
    match reply {
        Reply::Done => b"OK",
        Reply::NoMoreTasks => b"l",
        Reply::Unknown => b"",
        Reply::Attached => b"1",
        Reply::Actions => b"vCont;c;C;s;S",
        Reply::Refused(Refused::Malformed) => b"E01",
        Reply::Refused(Refused::NoMemory) => b"E0c",
        Reply::Refused(Refused::NotInRam) => b"E0e",
        Reply::Refused(Refused::TooManyPoints) => b"E1c",
        Reply::Refused(Refused::ReadOnly) => b"E1e",
        Reply::Refused(Refused::NoAnnex) => b"E00",
    }
}

/// The payload of a reply. Allocates nothing.
pub fn fixed_answer(reply: Reply) -> Payload
    ensures { result.items ≡ reply_text reply }
{
    let mut out = Payload::new();
    push_text(&mut out, reply_text(reply));
    out
}

/// The session's features, and that it takes payloads of up to 0x1000 bytes. Allocates nothing.
pub fn supported_answer(ids: Ids) -> Payload
    ensures { result.items ≡ supported_text ids }
{
    let mut out = Payload::new();
    push_text(&mut out, b"PacketSize=1000;");
    if let Ids::Processes = ids {
        push_text(&mut out, b"multiprocess+;");
    }
    push_text(
        &mut out,
        b"swbreak+;hwbreak+;vContSupported+;ReverseStep+;ReverseContinue+;qXfer:features:read+",
    );
    out
}
