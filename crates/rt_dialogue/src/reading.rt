//! The input, byte by byte.

ghost use Rattle.std.specs.Prelude.{◌≡◌, List, ℕ, Some, IfOk, IfErr};
ghost use Rattle.rt_dialogue.specs.NextByte.{IsOfInput, IsNextByte};

use crate::fault::DebugFault;
use rt_opening::SimFault;
use std::io::{BufRead, Error, ErrorKind};

/// Why the input couldn't be read.
fn fault_of(error: &Error) -> DebugFault
    ensures { IsOfInput result }
{
    match error.kind() {
        ErrorKind::OutOfMemory => DebugFault::Sim(SimFault::Memory),
        _ => DebugFault::Input,
    }
}

/// The next byte of the input. None where it has ended.
///
/// # Errors
///
/// The input couldn't be read, or there was no memory for it. An interrupted read is tried again.
pub fn next_byte<I: BufRead>(input: &mut I) -> Result<Option<u8>, DebugFault>
    ensures byte { (bytes : List ℕ) → I.remaining input.old ≡ Some bytes → IfOk result (λ byte. IsNextByte bytes byte (I.remaining input.new)) }
    ensures fault { IfErr result IsOfInput }
{
    let mut byte = [0];
    for _ in 0..u64::MAX {
        match input.read(&mut byte) {
            Ok(0) => return Ok(None),
            Ok(_) => return Ok(Some(byte[0])),
            Err(error) if error.kind() == ErrorKind::Interrupted => {}
            Err(error) => return Err(fault_of(&error)),
        }
    }
    Err(DebugFault::Input)
}
