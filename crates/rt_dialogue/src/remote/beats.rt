//! What is said and read in the middle of a run.

ghost use Rattle.std.specs.Prelude.{◌≡◌, List, ℕ, Some, Err, true};
ghost use Rattle.rt_dialogue.specs.remote.Beats.{beat, beaten_by, said_to};
ghost use Rattle.rt_dialogue.specs.Saying.{HasSaid};
ghost use Rattle.rt_dialogue.specs.remote.Working.Runs.{OneBeat, Runs};
ghost use Rattle.rt_dialogue.specs.remote.Working.Waits.{HasFailed};

use crate::remote::saying::say;
use crate::{DebugFault, next_byte};
use rt_packet::INTERRUPT;
use rt_sink::{Buffered, Sink};
use std::io::BufRead;

/// An empty text on gdb's console, which shows nothing and which gdb acknowledges.
const BEAT: [u8; 5] = *b"$O#4f";

/// How a beat is answered.
#[derive(Clone, Copy, PartialEq, Eq)]
pub(crate) enum Beaten {
    /// The run goes on.
    GoesOn,
    /// It is interrupted.
    Interrupted,
    /// It is interrupted by a packet, which has begun.
    Begun,
    /// The input has ended.
    Ended,
}

/// How one byte answers a beat, if it does.
fn beaten_by(byte: u8) -> Option<Beaten>
    ensures { result ≡ beaten_by byte }
{
    match byte {
        b'+' => Some(Beaten::GoesOn),
        INTERRUPT => Some(Beaten::Interrupted),
        b'$' => Some(Beaten::Begun),
        _ => None,
    }
}

/// The bytes of a beat.
fn beat_text() -> &'static [u8]
    ensures { result.now ≡ beat }
{
    &BEAT
}

/// What is said to a byte that doesn't answer a beat: to `-` the beat again, and every other one is dropped.
fn said_to(byte: u8) -> &'static [u8]
    ensures { result.now ≡ said_to byte }
{
    match byte {
        b'-' => beat_text(),
        _ => &[],
    }
}

/// Says a beat, and reads how it is answered.
///
/// # Errors
///
/// The sink failed, or the input couldn't be read.
pub(crate) fn beat<I: BufRead, S: Sink>(
    input: &mut I,
    out: &mut Buffered<S>,
) -> Result<Beaten, DebugFault>
    ensures runs { (bytes text : List ℕ) → I.remaining input.old ≡ Some bytes → HasSaid S.seen text out.old
        → Runs S.seen OneBeat bytes text result (I.remaining input.new) out.new }
    ensures fails { HasFailed S.seen result out.new }
{
    say(out, beat_text())?;
    for _ in 0..u64::MAX {
        let byte = match next_byte(input)? {
            Some(byte) => byte,
            None => return Ok(Beaten::Ended),
        };
        if let Some(beaten) = beaten_by(byte) {
            return Ok(beaten);
        }
        say(out, said_to(byte))?;
    }
    Err(DebugFault::Input)
}
