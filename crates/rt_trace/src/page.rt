//! A page of lines.

ghost use Rattle.std.specs.Prelude.{◌≡◌, ℕ, ◌+◌, ◌*◌, ◌≤◌, ◌<◌, ◌++◌, [], length, take, true, false};
ghost use Rattle.rt_admit.specs.Limits.{task_limit};
ghost use Rattle.rt_trace.specs.HistoryText.{line};
ghost use Rattle.rt_history.specs.declared.record.Entry.TheVariants.{Busy};
ghost use Rattle.rt_core.specs.Plain.{plain_attempt};
ghost use Rattle.rt_trace.specs.Working.Lines.{PageState, name_text};
ghost use Rattle.rt_trace.specs.Placed.{Placed};

use crate::line_rest::place_rest;
use crate::name::Name;
use crate::placing::{place_front, place_words};
use crate::tick_text::{Hundred, place_start};
use rt_core::Watcher;
use rt_history::Entry;
use rt_sink::LINE_LEN;
use std::marker::Model;

/// How many bytes a page has where it is full: as many as the sink of the output gathers, so that a full page passes it by.
const FULL_LEN: usize = 32_768;

/// How many plain ticks are shown to a page in one go, at most.
const BATCH: u64 = 100;

/// How many bytes of lines are gathered at most: those of a batch and of one more line behind a page that is nearly full.
pub const PAGE_LEN: usize = 48_928;

/// Lines that are gathered, at most `PAGE_LEN` bytes, with the digits of the last hundred of ticks and the number of a task as they
/// stand in lines. The bytes are borrowed, so that all else can be kept in registers. Contracts see the bytes, the hundred and the
/// name of the task.
#[derive(Drop)]
pub struct Page<'a> {
    bytes: &'a mut [u8; PAGE_LEN],
    len: usize,
    hundred: Hundred,
    name: Name,
}

impl<'a> Model for Page<'a> {
    ghost use Rattle.std.specs.Prelude.{ℕ, List, ◌≡◌, ◌≤◌, length, take};
    ghost use Rattle.rt_trace.specs.Working.Lines.{PageState};

    ghost Value = { PageState };

    ghost view = { λ page. record { text = take page.len page.bytes.now; hundred = page.hundred; name = page.name } };

    ghost invariant = { λ page. (page.len ≤ 48928) × (length page.bytes.now ≡ 48928) };
}

/// Puts the line of an entry at a place, and answers the place behind it. What follows the tick stands apart, so that the hundred stays in
/// registers.
#[inline(always)]
fn put_line(bytes: &mut [u8], at: usize, hundred: &Hundred, entry: &Entry) -> usize
    requires { at + LINE_LEN ≤ length bytes.old }
    ensures text { Placed bytes.old bytes.new at (line entry.now) result }
    ensures short { result ≤ at + LINE_LEN }
{
    let at = place_start(bytes, at, hundred, entry.start());
    place_rest(bytes, at, entry)
}

/// Puts the line of a plain tick of the task of this name at a place, and answers the place behind it.
#[inline(always)]
fn put_plain_line(
    bytes: &mut [u8],
    at: usize,
    hundred: &Hundred,
    name: &Name,
    t: u64,
    pc: u32,
    word: u32,
) -> usize
    requires large { 100 ≤ hundred.now }
    requires begun { hundred.now ≤ t }
    requires within { t < hundred.now + 100 }
    requires room { at + LINE_LEN ≤ length bytes.old }
    ensures text { (task : ℕ) → name.now ≡ name_text task → Placed bytes.old bytes.new at (line (Busy t (plain_attempt task pc word))) result }
    ensures short { result ≤ at + LINE_LEN }
{
    let name_at = hundred.tick_len();
    let words_at = name_at + name.len();
    hundred.place(bytes, at, t);
    name.place(bytes, at + name_at);
    let end = place_words(bytes, at + words_at, pc, word);
    place_front::<8>(bytes, end, b" next\n  ", 6)
}

impl<'a> Page<'a> {
    /// A page with no line, whose lines go to these bytes.
    #[inline(always)]
    pub fn new(bytes: &'a mut [u8; PAGE_LEN]) -> Page<'a>
        ensures { result.text ≡ [] }
    {
        Page {
            bytes,
            len: 0,
            hundred: Hundred::new(),
            name: Name::new(),
        }
    }

    /// Whether there is room for the lines of a batch of plain ticks and for one more.
    #[inline(always)]
    pub fn has_room(&self) -> bool
        ensures some { result ≡ true → length self.now.text + LINE_LEN * (BATCH + 1) ≤ PAGE_LEN }
        ensures none { result ≡ false → 0 < length self.now.text }
    {
        self.len <= FULL_LEN
    }

    /// Whether there is room for one more line.
    #[inline(always)]
    pub fn has_room_for_line(&self) -> bool
        ensures some { result ≡ true → length self.now.text + LINE_LEN ≤ PAGE_LEN }
        ensures none { result ≡ false → PAGE_LEN < length self.now.text + LINE_LEN }
    {
        self.len <= PAGE_LEN - LINE_LEN
    }

    /// The lines.
    #[inline(always)]
    pub fn text(&self) -> &[u8]
        ensures { result.now ≡ self.now.text }
    {
        &self.bytes[..self.len]
    }

    /// Takes all lines away.
    #[inline(always)]
    pub fn clear(&mut self)
        ensures { self.new.text ≡ [] }
    {
        self.len = 0;
    }

    /// Appends the line of an entry.
    #[inline(always)]
    pub fn put(&mut self, entry: &Entry)
        requires { length self.old.text + LINE_LEN ≤ PAGE_LEN }
        ensures text { self.new.text ≡ self.old.text ++ line entry.now }
        ensures short { length self.new.text ≤ length self.old.text + LINE_LEN }
    {
        let Page {
            bytes,
            len,
            hundred,
            ..
        } = self;
        *len = put_line(&mut bytes[..], *len, hundred, entry);
    }
}

impl<'a> Watcher for Page<'a> {
    ghost use Rattle.std.specs.Prelude.{ℕ, List, ◌+◌, ◌≡◌, ◌≤◌, ◌<◌};
    ghost use Rattle.rt_history.specs.declared.record.Attempt.{Attempt};
    ghost use Rattle.rt_history.specs.declared.record.Entry.TheVariants.{Busy};
    ghost use Rattle.rt_trace.specs.HistoryText.{line};
    ghost use Rattle.rt_trace.specs.Working.Lines.{name_text};

    ghost said = { λ page. page.text };

    ghost says = { λ t a. line (Busy t a) };

    ghost takes = { λ page t. (100 ≤ page.hundred) × (page.hundred ≤ t) × (t < page.hundred + 100) };

    ghost looks_at = { λ page i. page.name ≡ name_text i };

    ghost width = { 160 };

    ghost limit = { 48928 };

    /// It keeps digits from tick 100 on.
    #[inline(always)]
    fn begin(&mut self, t: u64) -> u64 {
        if t < 100 || self.len > FULL_LEN {
            return 0;
        }
        self.hundred.stand_at(t)
    }

    #[inline(always)]
    fn turn(&mut self, task: u32) {
        self.name.set(task);
    }

    #[inline(always)]
    fn see(&mut self, t: u64, _task: u32, pc: u32, word: u32) {
        let Page {
            bytes,
            len,
            hundred,
            name,
        } = self;
        *len = put_plain_line(&mut bytes[..], *len, hundred, name, t, pc, word);
    }
}
