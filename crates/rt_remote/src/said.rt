//! What is said to a request.

ghost use Rattle.std.specs.Prelude.{◌≡◌, ◌≤◌, [], length, IfSome, Some, None};
ghost use Rattle.std.specs.Option.{option_copied, option_map};
ghost use Rattle.rt_packet.specs.declared.answer.replies.Refused.{Refused as Refusal};
ghost use Rattle.rt_remote.specs.Said.{says, says_reply, refuses, says_or, prints};

use rt_debug::reply::Text;
use rt_packet::MAX_PAYLOAD;
use rt_packet::answer::{Payload, Refused, Reply, fixed_answer};
use rt_sink::LineBuffer;
use std::marker::Model;

/// Where a text is kept.
#[derive(Drop)]
enum Kept {
    /// At most one line, in place.
    Line(LineBuffer),
    /// Lines, in memory.
    Lines(Text),
}

/// A text for gdb's console.
#[derive(Drop)]
pub(crate) struct Console {
    text: Kept,
}

impl Model for Console {
    ghost use Rattle.std.specs.Prelude.{ℕ, List};
    ghost use Rattle.rt_remote.specs.Working.Kept.{kept_text};

    ghost Value = { List ℕ };

    ghost view = { λ c. kept_text c.text };
}

/// What is said to a request: a text on gdb's console, which may be empty, and then the answer. Without one the session ends.
#[derive(Drop)]
pub struct Answered {
    console: Console,
    answer: Option<Payload>,
}

impl Model for Answered {
    ghost use Rattle.std.specs.Option.{option_map};
    ghost use Rattle.rt_remote.specs.Said.{Said};

    ghost Value = { Said };

    ghost view = { λ a. record { console = a.console; answer = option_map (λ p. p.items) a.answer } };
}

impl Console {
    /// Its bytes.
    fn bytes(&self) -> &[u8]
        ensures { result.now ≡ self.now }
    {
        match &self.text {
            Kept::Line(line) => line.as_slice(),
            Kept::Lines(text) => text.bytes(),
        }
    }

    /// No text.
    pub(crate) fn silent() -> Console
        ensures { result ≡ [] }
    {
        Console::line(LineBuffer::new())
    }

    /// At most one line.
    pub(crate) fn line(line: LineBuffer) -> Console
        ensures { result ≡ line.items }
    {
        Console {
            text: Kept::Line(line),
        }
    }

    /// Lines that took memory.
    pub(crate) fn lines(text: Text) -> Console
        ensures { result ≡ text }
    {
        Console {
            text: Kept::Lines(text),
        }
    }
}

impl Answered {
    /// The console's text, as bytes.
    pub fn console(&self) -> &[u8]
        ensures { result.now ≡ self.now.console }
    {
        self.console.bytes()
    }

    /// The payload of the answer, of at most 4096 bytes. Without one the session ends.
    pub fn answer(&self) -> Option<&[u8]>
        ensures value { option_copied result ≡ self.now.answer }
        ensures bound { IfSome result (λ payload. length payload.now ≤ MAX_PAYLOAD) }
    {
        match &self.answer {
            Some(payload) => Some(payload.as_slice()),
            None => None,
        }
    }

    /// This answer behind this text.
    pub(crate) fn behind(console: Console, answer: Payload) -> Answered
        ensures { result ≡ record { console = console; answer = Some answer.items } }
    {
        Answered {
            console,
            answer: Some(answer),
        }
    }

    /// This answer alone.
    pub(crate) fn payload(answer: Payload) -> Answered
        ensures { result ≡ says answer.items }
    {
        Answered::behind(Console::silent(), answer)
    }

    /// A fixed answer alone.
    #[inline(never)]
    pub(crate) fn reply(reply: Reply) -> Answered
        ensures { result ≡ says_reply reply }
    {
        Answered::payload(fixed_answer(reply))
    }

    /// A refusal.
    #[inline(never)]
    pub(crate) fn refusal(refused: Refused) -> Answered
        ensures { result ≡ refuses refused }
    {
        Answered::reply(Reply::Refused(refused))
    }

    /// This answer, or a refusal where there is none.
    #[inline(never)]
    pub(crate) fn payload_or(refused: Refused, answer: Option<Payload>) -> Answered
        ensures { result ≡ says_or refused (option_map (λ p. p.items) answer) }
    {
        match answer {
            Some(answer) => Answered::payload(answer),
            None => Answered::refusal(refused),
        }
    }

    /// A text on the console, and then `OK`.
    pub(crate) fn printed(console: Console) -> Answered
        ensures { result ≡ prints console }
    {
        Answered::behind(console, fixed_answer(Reply::Done))
    }

    /// Nothing: the session ends.
    pub(crate) fn none() -> Answered
        ensures { result ≡ record { console = []; answer = None } }
    {
        Answered {
            console: Console::silent(),
            answer: None,
        }
    }
}
