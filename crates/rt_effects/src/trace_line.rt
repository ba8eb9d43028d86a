//! The line of a tick, but for what it did.

ghost use Rattle.std.specs.Prelude.{◌≡◌, ◌+◌, ◌≤◌, ◌<◌, ◌++◌, ◌-◌, length, drop, IfSome};
ghost use Rattle.std.specs.Option.{option_map};
ghost use Rattle.arrayvec.specs.ArrayVec.{array_vec_len};
ghost use Rattle.rt_words.specs.Limits.{line_limit};
ghost use Rattle.rt_image.specs.ObjectFile.{label};
ghost use Rattle.rt_effects.specs.TraceText.{least_digits, offset_text, part_text, instruction_text, idle_line};

use arrayvec::ArrayVec;
use rt_image::Symbol;
use rt_isa::{WordLine, push_word_text};
use rt_sink::{push_byte, push_decimal, push_text};
use rt_words::hex_word;

/// The most bytes of a line: two names of 512 bytes, and 256 for all else.
pub const TRACE_LINE_LEN: usize = 1280;

/// The line of a tick as it is built up.
pub type TraceLine = ArrayVec<u8, TRACE_LINE_LEN>;

/// How many zeros lead these digits.
fn leading_zeros(digits: &[u8]) -> usize
    ensures digits { drop result digits.now ≡ least_digits digits.now }
    ensures within { result ≤ length digits.now }
{
    for (place, digit) in digits.iter().enumerate() {
        if *digit != b'0' {
            return place;
        }
    }
    digits.len()
}

/// Appends how far an address is from the beginning of its part, where it isn't there: at most 11 bytes.
fn push_offset(line: &mut TraceLine, offset: u32)
    requires { array_vec_len line.old + 11 ≤ TRACE_LINE_LEN }
    ensures text { line.new.items ≡ line.old.items ++ offset_text offset }
    ensures room { array_vec_len line.new ≤ array_vec_len line.old + 11 }
{
    if offset == 0 {
        return;
    }
    push_text(line, b"+0x");
    let digits = hex_word(offset);
    push_text(line, &digits[leading_zeros(&digits)..]);
}

/// Appends the part of an address, which this symbol names: at most 523 bytes.
pub(crate) fn push_part(line: &mut TraceLine, namer: Option<Symbol<'_>>, address: u32)
    requires short { IfSome namer (λ s. length s.name.now ≤ line_limit) }
    requires room { array_vec_len line.old + 523 ≤ TRACE_LINE_LEN }
    ensures text { line.new.items ≡ line.old.items ++ part_text address (option_map label namer.entry) }
    ensures room { array_vec_len line.new ≤ array_vec_len line.old + 523 }
{
    match namer {
        Some(symbol) => {
            push_text(line, symbol.name);
            push_offset(line, address.saturating_sub(symbol.address));
        }
        None => push_byte(line, b'-'),
    }
}

/// Appends the instruction at pc: at most 25 bytes.
pub(crate) fn push_instruction(line: &mut TraceLine, pc: u32, word: Option<u32>)
    requires { array_vec_len line.old + 25 ≤ TRACE_LINE_LEN }
    ensures text { line.new.items ≡ line.old.items ++ instruction_text pc word }
    ensures room { array_vec_len line.new ≤ array_vec_len line.old + 25 }
{
    let Some(word) = word else {
        push_byte(line, b'-');
        return;
    };
    let mut text = WordLine::new();
    push_word_text(&mut text, pc, word);
    push_text(line, &text);
}

/// Appends the line of an idle stretch of `n` ticks from tick `t` on: at most 48 bytes.
pub fn push_idle(line: &mut TraceLine, t: u64, n: u64)
    requires { array_vec_len line.old + 48 ≤ TRACE_LINE_LEN }
    ensures text { line.new.items ≡ line.old.items ++ idle_line t n }
    ensures room { array_vec_len line.new ≤ array_vec_len line.old + 48 }
{
    push_decimal(line, t);
    push_text(line, b"\tidle\t");
    push_decimal(line, n);
    push_byte(line, b'\n');
}
