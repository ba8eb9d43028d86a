//! Hexadecimal digits, in lower case, the highest first.

ghost use Rattle.std.specs.Prelude.{◌≡◌, ◌<◌, ◌++◌, false};
ghost use Rattle.std.specs.Fmt.{digit_glyph};
ghost use Rattle.rt_words.specs.Hex.{hex};

use std::simd::prelude::*;

/// The hexadecimal digit of a number below 16.
#[inline(always)]
fn glyph(digit: u32) -> u8
    requires { digit < 16 }
    ensures { result ≡ digit_glyph false digit }
{
    if digit < 10 {
        b'0' + digit as u8
    } else {
        b'a' + (digit - 10) as u8
    }
}

/// The eight digits of a word.
#[inline(always)]
pub fn hex_word(word: u32) -> [u8; 8]
    ensures { result ≡ hex 8 word }
{
    let bytes = u8x8::from_array([
        ((word >> 24) % 256) as u8,
        ((word >> 16) % 256) as u8,
        ((word >> 8) % 256) as u8,
        (word % 256) as u8,
        0,
        0,
        0,
        0,
    ]);
    let high = bytes >> u8x8::splat(4);
    let low = bytes % u8x8::splat(16);
    let digits = high.shuffle(low, [0, 8, 1, 9, 2, 10, 3, 11]);
    let letters = digits.simd_gt(u8x8::splat(9));
    (digits + letters.select(u8x8::splat(39), u8x8::splat(0)) + u8x8::splat(48)).to_array()
}

/// The eight digits of each of two words.
#[inline(always)]
pub fn hex_words(first: u32, second: u32) -> [u8; 16]
    ensures { result ≡ hex 8 first ++ hex 8 second }
{
    let bytes = u32x2::from_array([second, first]).to_le_bytes().reverse();
    let high = bytes >> u8x8::splat(4);
    let low = bytes % u8x8::splat(16);
    let (a, b) = high.interleave(low);
    let digits: u8x16 = a.shuffle(b, [0, 1, 2, 3, 4, 5, 6, 7, 8, 9, 10, 11, 12, 13, 14, 15]);
    let letters = digits.simd_gt(u8x16::splat(9));
    (digits + letters.select(u8x16::splat(39), u8x16::splat(0)) + u8x16::splat(48)).to_array()
}

/// The two digits of a byte.
#[tactic(auto, unfolding(crate::specs::Hex::hex))]
pub fn hex_byte(byte: u8) -> [u8; 2]
    ensures { result ≡ hex 2 byte }
{
    let byte = byte as u32;
    [glyph(byte / 16), glyph(byte % 16)]
}
