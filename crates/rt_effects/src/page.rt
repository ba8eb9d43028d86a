//! A page of lines.

ghost use Rattle.std.specs.Prelude.{◌≡◌, ◌+◌, ◌≤◌, ◌<◌, ◌++◌, [], length, take, decimal, true, false};
ghost use Rattle.rt_words.specs.Hex.{hex};
ghost use Rattle.rt_trace.specs.Placed.{Placed};

use rt_trace::{Hundred, place_front, place_text, place_tick};
use rt_words::{MAX_TICKS, hex_words};
use std::marker::Model;

/// How many bytes a page has where it is full: as many as the sink of the output gathers, so that a full page passes it by.
const FULL_LEN: usize = 32_768;

/// How many bytes of lines are gathered at most: those of one more line behind a page that is nearly full, and what is stored behind
/// a text before the next one.
pub(crate) const PAGE_LEN: usize = 34_112;

/// How many bytes a line has at most, with what is stored behind it.
pub(crate) const LINE_ROOM: usize = 1_344;

/// Lines that are gathered, at most `PAGE_LEN` bytes. The bytes are borrowed, so that the length can be kept in a register. Contracts
/// see the bytes.
#[derive(Drop)]
pub(crate) struct Page<'a> {
    bytes: &'a mut [u8; PAGE_LEN],
    len: usize,
}

impl<'a> Model for Page<'a> {
    ghost use Rattle.std.specs.Prelude.{ℕ, List, ◌≡◌, ◌≤◌, length, take};

    ghost Value = { List ℕ };

    ghost view = { λ page. take page.len page.bytes.now };

    ghost invariant = { λ page. (page.len ≤ 34112) × (length page.bytes.now ≡ 34112) };
}

impl<'a> Page<'a> {
    /// A page with no line, whose lines go to these bytes.
    #[inline(always)]
    pub(crate) fn new(bytes: &'a mut [u8; PAGE_LEN]) -> Page<'a>
        ensures { result ≡ [] }
    {
        Page { bytes, len: 0 }
    }

    /// Whether there is room for one more line.
    #[inline(always)]
    pub(crate) fn has_room(&self) -> bool
        ensures some { result ≡ true → length self.now + LINE_ROOM ≤ PAGE_LEN }
        ensures none { result ≡ false → 0 < length self.now }
    {
        self.len <= FULL_LEN
    }

    /// The lines.
    #[inline(always)]
    pub(crate) fn text(&self) -> &[u8]
        ensures { result.now ≡ self.now }
    {
        &self.bytes[..self.len]
    }

    /// Takes all lines away.
    #[inline(always)]
    pub(crate) fn clear(&mut self)
        ensures { self.new ≡ [] }
    {
        self.len = 0;
    }

    /// Appends the first `count` bytes of a text. It stores the first N bytes at once.
    #[inline(always)]
    pub(crate) fn put_front<const N: usize>(&mut self, text: &[u8], count: usize)
        requires long { N ≤ length text.now }
        requires count { count ≤ N }
        requires room { length self.old + N ≤ PAGE_LEN }
        ensures text { self.new ≡ self.old ++ take count text.now }
        ensures short { length self.new ≡ length self.old + count }
    {
        let at = self.len;
        self.len = place_front::<N>(&mut self.bytes[..], at, text, count);
    }

    /// Appends the eight digits of a word.
    #[inline(always)]
    pub(crate) fn put_hex(&mut self, word: u32)
        requires { length self.old + 8 ≤ PAGE_LEN }
        ensures text { self.new ≡ self.old ++ hex 8 word }
        ensures short { length self.new ≡ length self.old + 8 }
    {
        self.put_front::<8>(&hex_words(word, 0), 8);
    }

    /// Appends a text.
    #[inline(always)]
    pub(crate) fn put_text(&mut self, text: &[u8])
        requires { length self.old + length text.now ≤ PAGE_LEN }
        ensures text { self.new ≡ self.old ++ text.now }
        ensures short { length self.new ≡ length self.old + length text.now }
    {
        let at = self.len;
        self.len = place_text(&mut self.bytes[..], at, text);
    }

    /// Appends the digits of a tick, at most 20, with the hundred of an earlier one.
    #[inline(always)]
    pub(crate) fn put_tick(&mut self, hundred: &mut Hundred, tick: u64)
        requires limit { tick ≤ MAX_TICKS }
        requires room { length self.old + 20 ≤ PAGE_LEN }
        ensures text { self.new ≡ self.old ++ decimal tick }
        ensures short { length self.new ≤ length self.old + 20 }
    {
        let at = self.len;
        self.len = place_tick(&mut self.bytes[..], at, hundred, tick);
    }
}
