//! Decimal numbers, put at a place of a row of bytes.

ghost use Rattle.std.specs.Prelude.{◌≡◌, ◌+◌, ◌<◌, ◌≤◌, length, decimal};
ghost use Rattle.rt_trace.specs.Placed.{Placed};
ghost use Rattle.rt_trace.specs.Working.Decimals.{pair, four};

use crate::placing::{pair_of, place_byte, place_front};

/// Puts the two digits of a number below 100 at a place, and answers the place behind them.
#[inline(always)]
fn place_pair(bytes: &mut [u8], at: usize, number: u64) -> usize
    requires small { number < 100 }
    requires room { at + 2 ≤ length bytes.old }
    ensures { Placed bytes.old bytes.new at (pair number) result }
{
    place_front::<2>(bytes, at, &pair_of(number as usize), 2)
}

/// Puts the four digits of a number below 10,000 at a place, and answers the place behind them.
#[inline(always)]
fn place_four(bytes: &mut [u8], at: usize, number: u64) -> usize
    requires small { number < 10000 }
    requires room { at + 4 ≤ length bytes.old }
    ensures { Placed bytes.old bytes.new at (four number) result }
{
    let at = place_pair(bytes, at, number / 100);
    place_pair(bytes, at, number % 100)
}

/// Puts the digits of a number below 100 at a place, and answers the place behind them.
#[inline(always)]
fn place_short(bytes: &mut [u8], at: usize, number: u64) -> usize
    requires small { number < 100 }
    requires room { at + 2 ≤ length bytes.old }
    ensures { Placed bytes.old bytes.new at (decimal number) result }
{
    if number < 10 {
        place_byte(bytes, at, b'0' + number as u8)
    } else {
        place_pair(bytes, at, number)
    }
}

/// Puts the digits of a number below 10,000 at a place, and answers the place behind them.
#[inline(always)]
fn place_few(bytes: &mut [u8], at: usize, number: u64) -> usize
    requires small { number < 10000 }
    requires room { at + 4 ≤ length bytes.old }
    ensures { Placed bytes.old bytes.new at (decimal number) result }
{
    if number < 100 {
        return place_short(bytes, at, number);
    }
    let at = place_short(bytes, at, number / 100);
    place_pair(bytes, at, number % 100)
}

/// Puts the digits of a number below 10^8 at a place, and answers the place behind them.
#[inline(always)]
fn place_some(bytes: &mut [u8], at: usize, number: u64) -> usize
    requires small { number < 100000000 }
    requires room { at + 8 ≤ length bytes.old }
    ensures { Placed bytes.old bytes.new at (decimal number) result }
{
    if number < 10_000 {
        return place_few(bytes, at, number);
    }
    let at = place_few(bytes, at, number / 10_000);
    place_four(bytes, at, number % 10_000)
}

/// Puts the digits of a number at a place, and answers the place behind them.
#[inline(never)]
pub(crate) fn place_decimal(bytes: &mut [u8], at: usize, number: u64) -> usize
    requires { at + 20 ≤ length bytes.old }
    ensures text { Placed bytes.old bytes.new at (decimal number) result }
    ensures short { result ≤ at + 20 }
{
    if number < 100_000_000 {
        return place_some(bytes, at, number);
    }
    let at = place_decimal(bytes, at, number / 100_000_000);
    let last = number % 100_000_000;
    let at = place_four(bytes, at, last / 10_000);
    place_four(bytes, at, last % 10_000)
}
