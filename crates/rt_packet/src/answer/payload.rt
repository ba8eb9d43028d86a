//! Payloads, which are built up piece by piece.

ghost use Rattle.std.specs.Prelude.{◌≡◌, ◌+◌, ◌*◌, ◌<◌, ◌≤◌, ◌++◌, ◌∷◌, [], length, take, false};
ghost use Rattle.std.specs.Fmt.{digit_glyph, digits};
ghost use Rattle.std.specs.List.{flat_map};
ghost use Rattle.arrayvec.specs.ArrayVec.{array_vec_len};
ghost use Rattle.rt_words.specs.Hex.{hex};

use crate::MAX_PAYLOAD;
use arrayvec::ArrayVec;
use rt_sink::{push_byte, push_text};
use rt_words::hex_byte;

/// A payload that goes out: at most 4096 bytes.
pub type Payload = ArrayVec<u8, MAX_PAYLOAD>;

/// The hexadecimal digit of a number below 16.
fn glyph(digit: u8) -> u8
    requires { digit < 16 }
    ensures { result ≡ digit_glyph false digit }
{
    if digit < 10 {
        b'0' + digit
    } else {
        b'a' + (digit - 10)
    }
}

/// Appends a number in hexadecimal, without leading zeros.
#[tactic(auto, using(crate::proofs::answer::DigitLemmas::one_digit, crate::proofs::answer::DigitLemmas::last_digit))]
fn push_digits(out: &mut Payload, number: u64)
    requires { array_vec_len out.old + length (digits 16 false number) ≤ MAX_PAYLOAD }
    ensures { out.new.items ≡ out.old.items ++ digits 16 false number }
{
    if number < 16 {
        push_byte(out, glyph(number as u8));
        return;
    }
    push_digits(out, number / 16);
    push_byte(out, glyph((number % 16) as u8));
}

/// Appends a number in hexadecimal, without leading zeros: 1 to 16 bytes.
#[tactic(auto, using(crate::proofs::answer::DigitLemmas::size_digits))]
pub(crate) fn push_number(out: &mut Payload, number: u64)
    requires { array_vec_len out.old + 16 ≤ MAX_PAYLOAD }
    ensures text { out.new.items ≡ out.old.items ++ digits 16 false number }
    ensures room { array_vec_len out.new ≤ array_vec_len out.old + 16 }
{
    push_digits(out, number);
}

/// Appends two digits for each byte.
#[tactic(auto, using(crate::proofs::answer::PairLemmas::flat_map_take_more))]
pub(crate) fn push_pairs(out: &mut Payload, bytes: &[u8])
    requires { array_vec_len out.old + 2 * length bytes.now ≤ MAX_PAYLOAD }
    ensures text { out.new.items ≡ out.old.items ++ flat_map (hex 2) bytes.now }
    ensures room { array_vec_len out.new ≡ array_vec_len out.old + 2 * length bytes.now }
{
    for byte in bytes {
        push_text(out, &hex_byte(*byte));
    }
}

/// The first elements, at most `count`.
pub(crate) fn first_of<T>(items: &[T], count: usize) -> &[T]
    ensures value { result.now ≡ take count items.now }
    ensures bound { length result.now ≤ count }
{
    &items[..items.len().min(count)]
}
