//! A page of lines.

ghost use Rattle.std.specs.Prelude.{◌≡◌, ◌+◌, ◌^◌, ◌≤◌, ◌<◌, ◌++◌, ◌∷◌, [], length, take, codes, decimal, true, false};
ghost use Rattle.std.specs.Fmt.{digits};
ghost use Rattle.rt_admit.specs.Limits.{task_limit};
ghost use Rattle.rt_trace.specs.Placed.{Placed};
ghost use Rattle.rt_waves.specs.declared.signals.Value.TheVariants.{Wire, Number};
ghost use Rattle.rt_waves.specs.WavesText.{wave, line, time_line};

use crate::binary::place_binary;
use rt_trace::{Hundred, place_front, place_text, place_tick};
use rt_words::MAX_TICKS;
use std::marker::Model;

/// How many bytes a page has where it is full: as many as the sink of the output gathers, so that a full page passes it by.
const FULL_LEN: usize = 32_768;

/// How many bytes the block of a time has at most, with what is stored behind it.
pub(crate) const BLOCK_ROOM: usize = 71_680;

/// How many bytes the blocks of an entry have at most: of one or two times.
pub const TIMES_ROOM: usize = 143_360;

/// How many bytes of lines are gathered at most: two blocks behind a page that is nearly full.
pub const PAGE_LEN: usize = 176_128;

/// Lines that are gathered, at most `PAGE_LEN` bytes, with the digits of the last hundred of ticks. The bytes are borrowed, so that the
/// length can be kept in a register. Contracts see the bytes.
#[derive(Drop)]
pub struct Page<'a> {
    bytes: &'a mut [u8; PAGE_LEN],
    len: usize,
    hundred: Hundred,
}

impl<'a> Model for Page<'a> {
    ghost use Rattle.std.specs.Prelude.{ℕ, List, ◌≡◌, ◌≤◌, length, take};

    ghost Value = { List ℕ };

    ghost view = { λ page. take page.len page.bytes.now };

    ghost invariant = { λ page. (page.len ≤ 176128) × (length page.bytes.now ≡ 176128) };
}

/// Puts the line of a time at a place, and answers the place behind it.
#[inline(always)]
fn place_time(bytes: &mut [u8], at: usize, hundred: &mut Hundred, tick: u64) -> usize
    requires limit { tick ≤ MAX_TICKS }
    requires room { at + 22 ≤ length bytes.old }
    ensures text { Placed bytes.old bytes.new at (time_line tick) result }
    ensures short { result ≤ at + 22 }
{
    let digits = place_front::<1>(bytes, at, b"#", 1);
    let end = place_tick(bytes, digits, hundred, tick);
    place_front::<1>(bytes, end, b"\n", 1)
}

/// Puts a byte and the code of task `number` with this letter, the end of a line, at a place that has room for 8 bytes, and answers the
/// place behind it. It stores all at once.
#[inline(always)]
fn place_end(bytes: &mut [u8], at: usize, first: u8, letter: u8, number: u32) -> usize
    requires task { number < task_limit }
    requires room { at + 8 ≤ length bytes.old }
    ensures text { Placed bytes.old bytes.new at (first ∷ letter ∷ [] ++ decimal number ++ codes "\n") result }
    ensures short { result ≤ at + 5 }
{
    if number < 10 {
        return place_front::<4>(bytes, at, &[first, letter, b'0' + number as u8, b'\n'], 4);
    }
    let (tens, ones) = (b'0' + (number / 10) as u8, b'0' + (number % 10) as u8);
    let line = [first, letter, tens, ones, b'\n', b'\n', b'\n', b'\n'];
    place_front::<8>(bytes, at, &line, 5)
}

/// Puts the line of a number of task `number` at a place that has room for 80 bytes, and answers the place behind it.
#[inline(always)]
pub(crate) fn place_number(
    bytes: &mut [u8],
    at: usize,
    letter: u8,
    number: u32,
    value: u64,
) -> usize
    requires task { number < task_limit }
    requires room { at + 80 ≤ length bytes.old }
    ensures text { Placed bytes.old bytes.new at (line (wave (letter ∷ [] ++ decimal number) (Number value))) result }
    ensures small { value < 2 ^ 32 → result ≤ at + 38 }
    ensures short { result ≤ at + 70 }
{
    let at = place_front::<1>(bytes, at, b"b", 1);
    let at = place_binary(bytes, at, value);
    place_end(bytes, at, b' ', letter, number)
}

/// Puts the first `count` bytes of a text, which are few, at a place that has room for 48, and answers the place behind them.
#[inline(always)]
fn place_few(bytes: &mut [u8], at: usize, text: &[u8; 80], count: usize) -> usize
    requires few { count ≤ 48 }
    requires room { at + 48 ≤ length bytes.old }
    ensures { Placed bytes.old bytes.new at (take count text.now) result }
{
    let next = place_front::<32>(bytes, at, text, 32);
    place_front::<16>(bytes, next, &text[32..], 16);
    at + count
}

impl<'a> Page<'a> {
    /// A page with no line, whose lines go to these bytes.
    #[inline(always)]
    pub fn new(bytes: &'a mut [u8; PAGE_LEN]) -> Page<'a>
        ensures { result ≡ [] }
    {
        Page {
            bytes,
            len: 0,
            hundred: Hundred::new(),
        }
    }

    /// Whether there is room for two more blocks.
    #[inline(always)]
    pub fn has_room(&self) -> bool
        ensures some { result ≡ true → length self.now + TIMES_ROOM ≤ PAGE_LEN }
        ensures none { result ≡ false → 0 < length self.now }
    {
        self.len <= FULL_LEN
    }

    /// The lines.
    #[inline(always)]
    pub fn text(&self) -> &[u8]
        ensures { result.now ≡ self.now }
    {
        &self.bytes[..self.len]
    }

    /// How many bytes the lines have.
    #[inline(always)]
    pub(crate) fn len(&self) -> usize
        ensures length { result ≡ length self.now }
        ensures limit { result ≤ PAGE_LEN }
    {
        self.len
    }

    /// Takes all away but so many of the first bytes.
    #[inline(always)]
    pub(crate) fn cut(&mut self, len: usize)
        requires { len ≤ length self.old }
        ensures { self.new ≡ take len self.old }
    {
        self.len = len;
    }

    /// Takes all lines away.
    #[inline(always)]
    pub fn clear(&mut self)
        ensures { self.new ≡ [] }
    {
        self.len = 0;
    }

    /// Appends a text.
    #[inline(always)]
    pub(crate) fn put_text(&mut self, text: &[u8])
        requires { length self.old + length text.now ≤ PAGE_LEN }
        ensures text { self.new ≡ self.old ++ text.now }
        ensures short { length self.new ≡ length self.old + length text.now }
    {
        let at = self.len;
        self.len = place_text(&mut self.bytes[..], at, text);
    }

    /// Appends the first `count` bytes of a text, which are few. It stores 48 at once.
    #[inline(always)]
    pub(crate) fn put_front(&mut self, text: &[u8; 80], count: usize)
        requires count { count ≤ 48 }
        requires room { length self.old + 48 ≤ PAGE_LEN }
        ensures text { self.new ≡ self.old ++ take count text.now }
        ensures short { length self.new ≡ length self.old + count }
    {
        let at = self.len;
        self.len = place_few(&mut self.bytes[..], at, text, count);
    }

    /// Appends the line of a time: at most 22 bytes.
    #[inline(always)]
    pub(crate) fn put_time(&mut self, tick: u64)
        requires limit { tick ≤ MAX_TICKS }
        requires room { length self.old + 22 ≤ PAGE_LEN }
        ensures text { self.new ≡ self.old ++ time_line tick }
        ensures short { length self.new ≤ length self.old + 22 }
    {
        let Page {
            bytes,
            len,
            hundred,
        } = self;
        *len = place_time(&mut bytes[..], *len, hundred, tick);
    }

    /// Appends the line of a wire of task `number`: at most 5 bytes.
    #[inline(always)]
    pub(crate) fn put_wire(&mut self, letter: u8, number: u32, on: bool)
        requires task { number < task_limit }
        requires room { length self.old + 8 ≤ PAGE_LEN }
        ensures text { self.new ≡ self.old ++ line (wave (letter ∷ [] ++ decimal number) (Wire on)) }
        ensures short { length self.new ≤ length self.old + 5 }
    {
        let at = self.len;
        let digit = if on { b'1' } else { b'0' };
        self.len = place_end(&mut self.bytes[..], at, digit, letter, number);
    }

    /// Appends the line of a number of task `number`: at most 70 bytes.
    #[inline(always)]
    pub(crate) fn put_number(&mut self, letter: u8, number: u32, value: u64)
        requires task { number < task_limit }
        requires room { length self.old + 80 ≤ PAGE_LEN }
        ensures text { self.new ≡ self.old ++ line (wave (letter ∷ [] ++ decimal number) (Number value)) }
        ensures short { length self.new ≤ length self.old + 70 }
    {
        let at = self.len;
        self.len = place_number(&mut self.bytes[..], at, letter, number, value);
    }
}
