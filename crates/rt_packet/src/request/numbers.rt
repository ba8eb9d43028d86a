//! The numbers of requests, and what marks separate.

ghost use Rattle.std.specs.Prelude.{◌≡◌, ◌≤◌, ◌^◌, ◌-◌, length, IfSome};
ghost use Rattle.std.specs.Char.{is_digit};
ghost use Rattle.std.specs.List.{position_or_len};
ghost use Rattle.rt_words.specs.Found.{Finds};
ghost use Rattle.rt_packet.specs.request.Numbers.{is_mark, cut_at, hexadecimal, long_number, short_number, two_numbers};

use rt_token::value_up_to;

/// The digits of a number of 64 bits, and those of one of 32.
const LONG: usize = 16;

const SHORT: usize = 8;

/// Whether a byte is a hexadecimal digit, of either case.
pub(crate) fn is_hexadecimal(byte: u8) -> bool
    ensures { result ≡ is_digit byte 16 }
{
    byte.is_ascii_hexdigit()
}

/// Where a mark stands first, or the length of the text where it doesn't.
fn mark_place(mark: u8, text: &[u8]) -> usize
    ensures place { result ≡ position_or_len (is_mark mark) text.now }
    ensures within { result ≤ length text.now }
{
    for (index, byte) in text.iter().enumerate() {
        if *byte == mark {
            return index;
        }
    }
    text.len()
}

/// What stands before the first of a mark, and what stands behind it. Nothing where there is none.
pub(crate) fn cut_at(mark: u8, text: &[u8]) -> Option<(&[u8], &[u8])>
    ensures { Finds (λ x. (x.0.now, x.1.now)) result (cut_at mark text.now) }
{
    let place = mark_place(mark, text);
    if place == text.len() {
        return None;
    }
    Some((&text[..place], &text[place + 1..]))
}

/// A number of at least one and at most so many hexadecimal digits, which is at most `limit`.
fn hexadecimal(most: usize, limit: u64, digits: &[u8]) -> Option<u64>
    ensures value { result ≡ hexadecimal most limit digits.now }
    ensures within { IfSome result (λ number. number ≤ limit) }
{
    if digits.len() > most {
        return None;
    }
    value_up_to(limit, 16, digits)
}

/// A number of 1 to 16 hexadecimal digits.
pub(crate) fn long_number(digits: &[u8]) -> Option<u64>
    ensures { result ≡ long_number digits.now }
{
    hexadecimal(LONG, u64::MAX, digits)
}

/// A number of 1 to 8 hexadecimal digits.
pub(crate) fn short_number(digits: &[u8]) -> Option<u32>
    ensures { result ≡ short_number digits.now }
{
    let number = hexadecimal(SHORT, 0xFFFF_FFFF, digits)?;
    Some(number as u32)
}

/// Two numbers of 1 to 16 hexadecimal digits, with a comma between them.
pub(crate) fn two_numbers(text: &[u8]) -> Option<(u64, u64)>
    ensures { result ≡ two_numbers text.now }
{
    let (first, second) = cut_at(b',', text)?;
    Some((long_number(first)?, long_number(second)?))
}
