//! The digits of ticks, made a hundred ticks at a time.

ghost use Rattle.std.specs.Prelude.{◌≡◌, ℕ, ◌+◌, ◌≤◌, ◌<◌, length, take, decimal, true};
ghost use Rattle.rt_trace.specs.Placed.{Placed};

use crate::decimals::place_decimal;
use crate::placing::{pair_of, place_front};
use rt_words::MAX_TICKS;
use std::marker::Model;

/// A hundred of ticks: from a multiple of 100 on, at most 2^40, with the decimal digits of how many hundreds that is. The other two
/// digits of a tick stand in a table.
///
/// Contracts see the first of the ticks.
#[derive(Drop)]
pub struct Hundred {
    first: u64,
    digits: [u8; 20],
    count: usize,
}

impl Model for Hundred {
    ghost use Rattle.std.specs.Prelude.{ℕ};
    ghost use Rattle.rt_trace.specs.Working.Digits.{AreDigits};

    ghost Value = { ℕ };

    ghost view = { λ hundred. hundred.first };

    ghost invariant = { λ hundred. AreDigits hundred.first hundred.digits hundred.count };
}

/// The digits of a number, in front of 20 bytes, and how many they are.
#[cold]
#[inline(never)]
fn digits_of(number: u64) -> ([u8; 20], usize)
    requires { number ≤ MAX_TICKS }
    ensures text { take result.1 result.0 ≡ decimal number }
    ensures few { result.1 ≤ 16 }
{
    let mut text = [b'0'; 20];
    let count = place_decimal(&mut text, 0, number);
    (text, count)
}

impl Hundred {
    /// The ticks below 100, of which no digits are kept.
    #[inline(always)]
    pub fn new() -> Hundred
        ensures { result ≡ 0 }
    {
        Hundred {
            first: 0,
            digits: [b'0'; 20],
            count: 0,
        }
    }

    /// Whether a tick is one of its hundred.
    #[inline(always)]
    pub fn has(&self, tick: u64) -> bool
        ensures begun { result ≡ true → self.now ≤ tick }
        ensures within { result ≡ true → tick < self.now + 100 }
        ensures large { result ≡ true → 100 ≤ tick → 100 ≤ self.now }
    {
        self.first <= tick && tick - self.first < 100
    }

    /// Goes to the hundred of a tick, 100 to 2^40, which costs nothing where it is there already. Answers how many of its ticks
    /// come from this one on, 1 to 100.
    #[inline(always)]
    pub fn stand_at(&mut self, tick: u64) -> u64
        requires large { 100 ≤ tick }
        requires limit { tick ≤ MAX_TICKS }
        ensures large { 100 ≤ self.new }
        ensures begun { self.new ≤ tick }
        ensures left { tick + result ≡ self.new + 100 }
        ensures some { 1 ≤ result }
    {
        if tick < self.first || tick - self.first >= 100 {
            let (digits, count) = digits_of(tick / 100);
            *self = Hundred {
                first: tick / 100 * 100,
                digits,
                count,
            };
        }
        self.first + 100 - tick
    }

    /// How many digits each of its ticks has.
    #[inline(always)]
    pub fn tick_len(&self) -> usize
        requires large { 100 ≤ self.now }
        ensures exact { (t : ℕ) → self.now ≤ t → t < self.now + 100 → result ≡ length (decimal t) }
        ensures short { result ≤ 18 }
    {
        self.count + 2
    }

    /// Puts the digits of one of its ticks at a place, at most 18 of them, and answers the place behind them.
    #[inline(always)]
    pub fn place(&self, bytes: &mut [u8], at: usize, tick: u64) -> usize
        requires large { 100 ≤ self.now }
        requires begun { self.now ≤ tick }
        requires within { tick < self.now + 100 }
        requires room { at + 18 ≤ length bytes.old }
        ensures { Placed bytes.old bytes.new at (decimal tick) result }
    {
        let at = place_front::<16>(bytes, at, &self.digits, self.count);
        place_front::<2>(bytes, at, &pair_of((tick - self.first) as usize), 2)
    }
}

/// Puts the digits of a tick at a place, at most 20, from its hundred where that is kept, and answers the place behind them.
#[inline(always)]
pub(crate) fn place_start(bytes: &mut [u8], at: usize, hundred: &Hundred, tick: u64) -> usize
    requires room { at + 20 ≤ length bytes.old }
    ensures text { Placed bytes.old bytes.new at (decimal tick) result }
    ensures short { result ≤ at + 20 }
{
    if tick >= 100 && hundred.has(tick) {
        hundred.place(bytes, at, tick)
    } else {
        place_decimal(bytes, at, tick)
    }
}

/// Goes to the hundred of a tick, 100 to 2^40, from another one.
#[cold]
#[inline(never)]
fn move_to(hundred: &mut Hundred, tick: u64)
    requires large { 100 ≤ tick }
    requires limit { tick ≤ MAX_TICKS }
    ensures large { 100 ≤ hundred.new }
    ensures begun { hundred.new ≤ tick }
    ensures within { tick < hundred.new + 100 }
{
    hundred.stand_at(tick);
}

/// Goes to the hundred of a tick, 100 to 2^40.
#[inline(always)]
fn stand_at(hundred: &mut Hundred, tick: u64)
    requires large { 100 ≤ tick }
    requires limit { tick ≤ MAX_TICKS }
    ensures large { 100 ≤ hundred.new }
    ensures begun { hundred.new ≤ tick }
    ensures within { tick < hundred.new + 100 }
{
    if !hundred.has(tick) {
        move_to(hundred, tick);
    }
}

/// Puts the digits of a tick at a place, at most 20, with the hundred of an earlier one, and answers the place behind them.
#[inline(always)]
pub fn place_tick(bytes: &mut [u8], at: usize, hundred: &mut Hundred, tick: u64) -> usize
    requires limit { tick ≤ MAX_TICKS }
    requires room { at + 20 ≤ length bytes.old }
    ensures text { Placed bytes.old bytes.new at (decimal tick) result }
    ensures short { result ≤ at + 20 }
{
    if tick < 100 {
        return place_decimal(bytes, at, tick);
    }
    stand_at(hundred, tick);
    hundred.place(bytes, at, tick)
}
