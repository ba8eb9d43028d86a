//! What is said, and at once has reached the sink.

ghost use Rattle.std.specs.Prelude.{◌≡◌, ◌≤◌, ◌++◌, List, ℕ, length, true, false, IfErr, OnOk};
ghost use Rattle.rt_packet.specs.Packet.{packet_of, payload_limit};
ghost use Rattle.rt_sink.specs.Sink.{Writes};
ghost use Rattle.rt_sink.specs.Buffered.{gathering, told};
ghost use Rattle.rt_dialogue.specs.remote.Packets.{console_packets};
ghost use Rattle.rt_dialogue.specs.Saying.{HasSaid, Speaks};

use rt_packet::answer::console_answer;
use rt_packet::encode;
use rt_sink::{Buffered, DeviceFault, Sink, put_bytes};

/// The most bytes of a text in one packet for gdb's console.
const MAX_TEXT: usize = 1024;

/// Gives the bytes to the sink, unless it has failed.
fn put<S: Sink>(out: &mut Buffered<S>, bytes: &[u8]) -> Result<(), DeviceFault>
    ensures { (S.seen out.old.inner).failed ≡ false → Writes (gathering S.seen) out.old bytes.now result out.new }
{
    if out.has_failed() {
        return Err(DeviceFault { written: 0 });
    }
    put_bytes(out, bytes)
}

/// Says the bytes, so that they have reached the other sink.
///
/// # Errors
///
/// The other sink has failed. `written` is what it took since this one was made.
pub(crate) fn say<S: Sink>(out: &mut Buffered<S>, bytes: &[u8]) -> Result<(), DeviceFault>
    ensures says { (text : List ℕ) → HasSaid S.seen text out.old → Speaks S.seen (text ++ bytes.now) result out.new }
    ensures is_open { OnOk result ((S.seen out.new.inner).failed ≡ false) }
    ensures fails { IfErr result (λ _. (S.seen out.new.inner).failed ≡ true) }
{
    let _ = put(out, bytes);
    out.flush()
}

/// Says a text on gdb's console, in packets of at most 1024 bytes of it.
///
/// # Errors
///
/// As `say`.
pub(crate) fn say_console<S: Sink>(out: &mut Buffered<S>, text: &[u8]) -> Result<(), DeviceFault>
    ensures says { (before : List ℕ) → HasSaid S.seen before out.old → Speaks S.seen (before ++ console_packets text.now) result out.new }
    ensures fails { IfErr result (λ _. (S.seen out.new.inner).failed ≡ true) }
{
    let mut rest = text;
    while !rest.is_empty() {
        let (piece, behind) = rest.split_at(rest.len().min(MAX_TEXT));
        say(out, encode(&console_answer(piece)).bytes())?;
        rest = behind;
    }
    Ok(())
}
