//! A line that is written in hexadecimal digits.

ghost use Rattle.std.specs.Prelude.{◌≡◌, take};
ghost use Rattle.std.specs.Char.{is_digit};
ghost use Rattle.std.specs.List.{list_all};
ghost use Rattle.rt_packet.specs.request.HexLines.{are_pairs, digit_of, byte_of, hex_line};

use crate::request::numbers::is_hexadecimal;
use arrayvec::ArrayVec;
use std::marker::Model;

/// How many bytes of a line are kept.
pub const ROOM: usize = 515;

/// A line in hexadecimal digits, two for each byte. It borrows them from the payload; contracts see the line's bytes.
#[derive(Debug, Drop)]
pub struct HexLine<'a> {
    digits: &'a [u8],
}

impl<'a> Model for HexLine<'a> {
    ghost use Rattle.std.specs.Prelude.{ℕ, List};
    ghost use Rattle.rt_packet.specs.request.HexLines.{hex_bytes};

    ghost Value = { List ℕ };

    ghost view = { λ l. hex_bytes l.digits.now };
}

impl<'a> HexLine<'a> {
    /// Replaces the content of `line` by the first 515 bytes of this one.
    pub fn keep(&self, line: &mut ArrayVec<u8, ROOM>)
        ensures { line.new.items ≡ take ROOM self.now }
    {
        line.clear();
        let count = (self.digits.len() / 2).min(ROOM);
        for index in 0..count {
            let byte = byte_of(self.digits[2 * index], self.digits[2 * index + 1]);
            line.push(byte);
        }
    }
}

/// The value of a hexadecimal digit, and 0 of another byte.
fn digit_of(byte: u8) -> u8
    ensures { result ≡ digit_of byte }
{
    match byte {
        b'0'..=b'9' => byte - b'0',
        b'a'..=b'f' => byte - b'a' + 10,
        b'A'..=b'F' => byte - b'A' + 10,
        _ => 0,
    }
}

/// The byte of two hexadecimal digits.
fn byte_of(high: u8, low: u8) -> u8
    ensures { result ≡ byte_of high low }
{
    digit_of(high) * 16 + digit_of(low)
}

/// Whether all bytes are hexadecimal digits.
fn are_hexadecimal(text: &[u8]) -> bool
    ensures { result ≡ list_all (λ b. is_digit b 16) text.now }
{
    text.iter().all(|byte| is_hexadecimal(*byte))
}

/// Whether a text is hexadecimal digits, an even number of them.
fn are_pairs(text: &[u8]) -> bool
    ensures { result ≡ are_pairs text.now }
{
    text.len() % 2 == 0 && are_hexadecimal(text)
}

/// The line of a text in hexadecimal digits. Nothing where the text is none.
pub(crate) fn hex_line(text: &[u8]) -> Option<HexLine<'_>>
    ensures { result ≡ hex_line text.now }
{
    if are_pairs(text) {
        Some(HexLine { digits: text })
    } else {
        None
    }
}
