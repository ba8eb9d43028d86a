//! The numbers of assembly text.

ghost use Rattle.std.specs.Prelude.{◌≡◌, ◌<◌, ◌≤◌, IfSome};
ghost use Rattle.std.specs.Char.{digit_value};
ghost use Rattle.rt_token.specs.Number.{number, magnitude, after_zero, value_up_to};

use rt_words::MAX_WORD;

/// The magnitude of the least number, -2^31.
const LEAST: u64 = 0x8000_0000;

/// Reads one number, -2^31 to 2^32 - 1: decimal without leading 0, `0x` or `0X` and hexadecimal
/// digits, or `0b` or `0B` and binary digits, with an optional `-` directly before it.
///
/// Nothing where the bytes are no such number.
pub fn number(bytes: &[u8]) -> Option<i64>
    ensures { result ≡ number bytes.now }
{
    let (first, rest) = bytes.split_first()?;
    if *first == b'-' {
        let found = magnitude(LEAST, rest)?;
        Some(-(found as i64))
    } else {
        let found = magnitude(MAX_WORD, bytes)?;
        Some(found as i64)
    }
}

/// A number without sign, of at most `limit`.
fn magnitude(limit: u64, bytes: &[u8]) -> Option<u64>
    ensures value { result ≡ magnitude limit bytes.now }
    ensures within { IfSome result (λ value. value ≤ limit) }
{
    let (first, rest) = bytes.split_first()?;
    if *first == b'0' {
        after_zero(limit, rest)
    } else {
        value_up_to(limit, 10, bytes)
    }
}

fn after_zero(limit: u64, bytes: &[u8]) -> Option<u64>
    ensures value { result ≡ after_zero limit bytes.now }
    ensures within { IfSome result (λ value. value ≤ limit) }
{
    match bytes.split_first() {
        None => Some(0),
        Some((b'x' | b'X', digits)) => value_up_to(limit, 16, digits),
        Some((b'b' | b'B', digits)) => value_up_to(limit, 2, digits),
        Some(_) => None,
    }
}

/// The value of one or more digits of a base (from 11 on letters are digits too), nothing where
/// it is above `limit` or a byte is no such digit.
pub fn value_up_to(limit: u64, radix: u8, digits: &[u8]) -> Option<u64>
    requires { 0 < radix }
    ensures value { result ≡ value_up_to limit radix digits.now }
    ensures within { IfSome result (λ value. value ≤ limit) }
{
    if digits.is_empty() {
        return None;
    }
    let mut value: u64 = 0;
    for digit in digits {
        let digit = digit_value(*digit);
        if digit >= radix {
            return None;
        }
        let next = u128::from(value) * u128::from(radix) + u128::from(digit);
        if next > u128::from(limit) {
            return None;
        }
        value = next as u64;
    }
    Some(value)
}

/// The value of a digit or a letter, 0 to 35; 36 for any other byte.
fn digit_value(byte: u8) -> u8
    ensures { result ≡ digit_value byte }
{
    match byte {
        b'0'..=b'9' => byte - b'0',
        b'a'..=b'z' => byte - b'a' + 10,
        b'A'..=b'Z' => byte - b'A' + 10,
        _ => 36,
    }
}
