//! Text at a place of a row of bytes that has room for it.

ghost use Rattle.std.specs.Prelude.{◌≡◌, ◌+◌, ◌/◌, ◌%◌, ◌<◌, ◌≤◌, ◌++◌, ◌∷◌, [], length, take, codes};
ghost use Rattle.rt_words.specs.Hex.{hex};
ghost use Rattle.rt_admit.specs.Limits.{task_limit};
ghost use Rattle.rt_trace.specs.Working.Lines.{name_text};
ghost use Rattle.rt_trace.specs.Placed.{Placed};

use rt_words::hex_words;
use std::simd::Simd;

/// Puts one byte at a place, and answers the place behind it.
#[inline(always)]
pub fn place_byte(bytes: &mut [u8], at: usize, byte: u8) -> usize
    requires { at < length bytes.old }
    ensures { Placed bytes.old bytes.new at (byte ∷ []) result }
{
    bytes[at] = byte;
    at + 1
}

/// Puts the first `count` bytes of a text at a place, and answers the place behind them. It stores the first N bytes at once.
#[inline(always)]
pub fn place_front<const N: usize>(bytes: &mut [u8], at: usize, text: &[u8], count: usize) -> usize
    requires long { N ≤ length text.now }
    requires count { count ≤ N }
    requires room { at + N ≤ length bytes.old }
    ensures { Placed bytes.old bytes.new at (take count text.now) result }
{
    Simd::<u8, N>::from_slice(text).copy_to_slice(&mut bytes[at..]);
    at + count
}

/// Puts a text at a place, and answers the place behind it.
#[inline(never)]
pub fn place_text(bytes: &mut [u8], at: usize, text: &[u8]) -> usize
    requires { at + length text.now ≤ length bytes.old }
    ensures { Placed bytes.old bytes.new at text.now result }
{
    let end = at + text.len();
    bytes[at..end].copy_from_slice(text);
    end
}

/// The digits of the numbers below 100, two of each.
static PAIRS: [u8; 200] =
    *b"00010203040506070809101112131415161718192021222324252627282930313233343536373839404142434445464748495051525354555657585960616263646566676869707172737475767778798081828384858687888990919293949596979899";

/// The two digits of a number below 100.
#[inline(always)]
pub fn pair_of(number: usize) -> [u8; 2]
    requires { number < 100 }
    ensures { result ≡ (48 + number / 10) ∷ (48 + number % 10) ∷ [] }
{
    [PAIRS[number * 2], PAIRS[number * 2 + 1]]
}

/// Puts the number of a task, 0 to 63, in front of 4 bytes as it stands in a line, a space before it and one behind, and answers how
/// many of the bytes that takes. They are stored in one piece.
#[inline(always)]
pub fn put_task(name: &mut [u8; 4], task: u32) -> usize
    requires { task < task_limit }
    ensures text { take result name.new ≡ name_text task }
    ensures short { result ≤ 4 }
{
    if task < 10 {
        return place_front::<4>(name, 0, &[b' ', b'0' + task as u8, b' ', b' '], 3);
    }
    let [tens, ones] = pair_of(task as usize);
    place_front::<4>(name, 0, &[b' ', tens, ones, b' '], 4)
}

/// Puts the digits of a pc and of a word at a place, a space between them.
#[inline(always)]
pub fn place_words(bytes: &mut [u8], at: usize, pc: u32, word: u32) -> usize
    requires room { at + 17 ≤ length bytes.old }
    ensures text { Placed bytes.old bytes.new at (hex 8 pc ++ codes " " ++ hex 8 word) result }
    ensures end { result ≡ at + 17 }
{
    let digits = hex_words(pc, word);
    let at = place_front::<8>(bytes, at, &digits, 8);
    let at = place_byte(bytes, at, b' ');
    place_front::<8>(bytes, at, &digits[8..], 8)
}
