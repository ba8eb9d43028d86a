//! Bytes of RAM, of a text, and of a console.

ghost use Rattle.std.specs.Prelude.{◌≡◌, ◌++◌, Option};
ghost use Rattle.std.specs.Option.{option_map};
ghost use Rattle.rt_packet.specs.answer.Bytes.{memory_text, bytes_text, console_text};

use crate::answer::payload::{Payload, first_of, push_pairs};
use rt_sink::push_text;
use rt_words::RAM_BASE;

/// The most bytes of RAM in an answer.
const MAX_READ: u64 = 2000;

/// The most bytes of another text in an answer.
const MAX_BYTES: usize = 2048;

/// The most bytes of a console's text.
const MAX_TEXT: usize = 1024;

/// The bytes of RAM from an address on, two digits for each: at most `count` and 2000 bytes, up to the end of RAM. RAM begins at
/// 0x80000000. None where the byte at the address isn't in RAM. Allocates nothing.
pub fn memory_answer(ram: &[u8], address: u64, count: u64) -> Option<Payload>
    ensures { option_map (λ p. p.items) result ≡ memory_text ram.now address count }
{
    let offset = address.checked_sub(u64::from(RAM_BASE))?;
    if offset >= ram.len() as u64 {
        return None;
    }
    let size = count.min(MAX_READ) as usize;
    let mut out = Payload::new();
    push_pairs(&mut out, first_of(&ram[offset as usize..], size));
    Some(out)
}

/// The first 2048 of these bytes, two digits for each. Allocates nothing.
pub fn bytes_answer(bytes: &[u8]) -> Payload
    ensures { result.items ≡ bytes_text bytes.now }
{
    let mut out = Payload::new();
    push_pairs(&mut out, first_of(bytes, MAX_BYTES));
    out
}

/// What a console prints: `O`, and two digits for each of the first 1024 bytes of this text. Allocates nothing.
pub fn console_answer(text: &[u8]) -> Payload
    ensures { result.items ≡ console_text text.now }
{
    let mut out = Payload::new();
    push_text(&mut out, b"O");
    push_pairs(&mut out, first_of(text, MAX_TEXT));
    out
}
