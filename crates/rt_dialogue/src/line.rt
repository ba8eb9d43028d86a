//! How the next line of an input is read.

ghost use Rattle.std.specs.Prelude.{◌≡◌, ◌++◌, ◌-◌, ℕ, List, [], ◌∷◌, length, take, Some, IfOk, IfErr, OnOk};
ghost use Rattle.std.specs.Io.BufRead.{take_through, drop_through};
ghost use Rattle.rt_dialogue.specs.NextByte.{IsOfInput};
ghost use Rattle.rt_dialogue.specs.Working.NextLine.{IsNext};
ghost use Rattle.rt_dialogue.specs.Working.LineEnd.{without_end};

use crate::fault::DebugFault;
use crate::reading::next_byte;
use arrayvec::ArrayVec;
use std::io::BufRead;

/// How many bytes of a line are kept: the longest line and one byte more, and the two of its end.
const ROOM: usize = 515;

/// What is kept of a line.
pub(crate) type Line = ArrayVec<u8, ROOM>;

/// Reads the next line of the input, without its end, which is an LF and one CR before it: a line of at most 512 bytes whole, and of
/// a longer one at least 513 bytes. The rest of a longer line is skipped. Answers whether there was a line: none where the input
/// has ended. Takes no memory beside the reader's own.
///
/// # Errors
///
/// As `next_byte`.
pub(crate) fn read_line<I: BufRead>(input: &mut I, line: &mut Line) -> Result<bool, DebugFault>
    ensures line { (bytes : List ℕ) → I.remaining input.old ≡ Some bytes
        → IfOk result (λ is_there. IsNext bytes line.new.items is_there × (I.remaining input.new ≡ Some (drop_through 10 bytes))) }
    ensures fault { IfErr result IsOfInput }
{
    keep_line(input, line)?;
    let is_there = !line.is_empty();
    drop_end(line);
    Ok(is_there)
}

/// Keeps the first bytes of the next line, with its end, and skips the others.
fn keep_line<I: BufRead>(input: &mut I, line: &mut Line) -> Result<(), DebugFault>
    ensures kept { (bytes : List ℕ) → I.remaining input.old ≡ Some bytes
        → OnOk result ((line.new.items ≡ take ROOM (take_through 10 bytes)) × (I.remaining input.new ≡ Some (drop_through 10 bytes))) }
    ensures fault { IfErr result IsOfInput }
{
    line.clear();
    for _ in 0..u64::MAX {
        let byte = match next_byte(input)? {
            Some(byte) => byte,
            None => return Ok(()),
        };
        keep(line, byte);
        if byte == b'\n' {
            return Ok(());
        }
    }
    Err(DebugFault::Input)
}

/// Keeps a byte behind those that are kept, if there is room.
fn keep(line: &mut Line, byte: u8)
    ensures { line.new.items ≡ line.old.items ++ take (ROOM - length line.old.items) (byte ∷ []) }
{
    if !line.is_full() {
        line.push(byte);
    }
}

/// Drops the end of a line.
fn drop_end(line: &mut Line)
    ensures { line.new.items ≡ without_end line.old.items }
{
    if line.ends_with(b"\n") {
        line.pop();
        if line.ends_with(b"\r") {
            line.pop();
        }
    }
}
