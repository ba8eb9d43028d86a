//! The line of an entry of a history.

ghost use Rattle.std.specs.Prelude.{◌≡◌, ◌+◌, ◌≤◌, ◌++◌, length};
ghost use Rattle.arrayvec.specs.ArrayVec.{array_vec_len};
ghost use Rattle.rt_trace.specs.HistoryText.{line, outcome_text};

use crate::decimals::place_decimal;
use crate::line_rest::place_rest;
use arrayvec::ArrayVec;
use rt_history::{AttemptOutcome, Entry};
use rt_sink::{LINE_LEN, LineBuffer, push_decimal, push_text};
use rt_text_out::{Out, Text};

/// Appends how an attempt came out: at most 28 bytes.
#[inline]
pub fn push_outcome<const N: usize>(out: &mut ArrayVec<u8, N>, outcome: AttemptOutcome)
    requires { array_vec_len out.old + 28 ≤ N }
    ensures text { out.new.items ≡ out.old.items ++ outcome_text outcome }
    ensures room { array_vec_len out.new ≤ array_vec_len out.old + 28 }
{
    match outcome {
        AttemptOutcome::Next => push_text(out, b"next"),
        AttemptOutcome::End => push_text(out, b"end"),
        AttemptOutcome::Write(count) => {
            push_text(out, b"write ");
            push_decimal(out, u64::from(count));
        }
        AttemptOutcome::WriteRefused => push_text(out, b"write refused"),
        AttemptOutcome::Sleep(w) => {
            push_text(out, b"sleep ");
            push_decimal(out, w);
        }
        AttemptOutcome::Yield => push_text(out, b"yield"),
        AttemptOutcome::Now(t) => {
            push_text(out, b"now ");
            push_decimal(out, t);
        }
        AttemptOutcome::Reserve(q) => {
            push_text(out, b"reserve ");
            push_decimal(out, u64::from(q));
        }
        AttemptOutcome::ReserveRefused => push_text(out, b"reserve refused"),
        AttemptOutcome::Fault(fault) => {
            push_text(out, b"fault ");
            push_text(out, fault.name());
        }
    }
}

/// Appends the line of an entry: at most `LINE_LEN` bytes.
pub fn push_line<const N: usize>(out: &mut ArrayVec<u8, N>, entry: &Entry)
    requires { array_vec_len out.old + LINE_LEN ≤ N }
    ensures text { out.new.items ≡ out.old.items ++ line entry.now }
    ensures room { array_vec_len out.new ≤ array_vec_len out.old + LINE_LEN }
{
    let mut bytes = [b' '; LINE_LEN];
    let at = place_decimal(&mut bytes, 0, entry.start());
    let end = place_rest(&mut bytes, at, entry);
    push_text(out, &bytes[..end]);
}

/// The line of an entry, as a text.
#[derive(Clone, Copy)]
pub struct EntryLine<'e>(pub &'e Entry);

impl<'e> Text for EntryLine<'e> {
    ghost text = { λ x. line x.0.now };

    ghost most = { 160 };

    fn offer<O: Out>(&self, out: &mut O) {
        let entry = self.0;
        let mut text = LineBuffer::new();
        push_line(&mut text, entry);
        out.put(&text);
    }
}
