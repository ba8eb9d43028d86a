//! A queue that is a tournament.
ghost use Rattle.std.specs.Prelude.{◌≡◌, ℕ, ◌+◌, ◌*◌, ◌/◌, ◌%◌, ◌^◌, ◌<◌, ◌≤◌, ◌⊎◌, length, slice_set, Some};
ghost use Rattle.rt_queue.specs.Order.{NotAfter};
ghost use Rattle.rt_queue.specs.Working.Games.{key_in, played_at, seat_at, AreWon, IsEntrant};

use crate::min_queue::MinQueue;
use std::alloc::{AllocError, Global};
use std::marker::Model;

/// A key with its number.
type Entry = (u64, u32);

/// What sits where there is no entry: it comes after each entry of a queue.
const NOBODY: Entry = (u64::MAX, u32::MAX);

/// Entries rank as they come one before another, by key and then by number.
#[inline(always)]
fn rank(key: u64, number: u64) -> u128
    ensures { result ≡ key * 2 ^ 64 + number }
{
    u128::from(key) * (1 << 64) + u128::from(number)
}

/// Which of two entries comes first. The number of the one that has won so far stands in 64 bits: a number that is chosen in 32
/// bits and then widened is chosen by a conditional move, where a branch would often be foretold wrongly.
#[inline(always)]
fn first_of(winner: (u64, u64), rival: Entry) -> (u64, u64)
    requires { winner.1 < 2 ^ 32 }
    ensures few { result.1 < 2 ^ 32 }
    ensures first { ((result ≡ winner) × NotAfter winner rival) ⊎ ((result ≡ rival) × NotAfter rival winner) }
{
    let beats = rank(rival.0, u64::from(rival.1)) < rank(winner.0, winner.1);
    let key = if beats { rival.0 } else { winner.0 };
    let number = if beats { rival.1 } else { winner.1 as u32 };
    (key, u64::from(number))
}

/// A queue as a tournament (Knuth 1998, section 5.4.1): each number has a seat at the bottom, and of two seats that are side by
/// side the entry that comes first sits right above them too, so that the least one sits at the top. Where a key changes, only
/// the games on the way from its seat to the top are played again.
///
/// The top is seat 1, and below seat s are the seats 2 s and 2 s + 1.
#[derive(Drop)]
pub struct Tournament {
    /// Who sits at each seat but the top.
    seats: Vec<Entry>,
    /// Who sits at the top.
    first: Entry,
    /// How many seats there are at the bottom: one for each number, and one where there is no number.
    leaves: usize,
    /// How many numbers there are.
    capacity: u32,
}

impl Model for Tournament {
    ghost use Rattle.std.specs.Prelude.{ℕ, List, Option, length};
    ghost use Rattle.rt_queue.specs.Working.Games.{seat_at, keys_from, IsTournament};

    ghost Value = { List (Option ℕ) };

    ghost view = { λ t. keys_from (seat_at t.first t.seats.items) t.leaves t.capacity };

    ghost invariant = { λ t. IsTournament (seat_at t.first t.seats.items) (length t.seats.items) t.leaves t.capacity };
}

/// Seats an entry, field by field, so that no unused byte of a pair is moved.
#[inline(always)]
fn put(seats: &mut [Entry], seat: usize, key: u64, number: u32)
    requires { seat < length seats.old }
    ensures { seats.new ≡ slice_set seats.old seat (key, number) }
{
    seats[seat].0 = key;
    seats[seat].1 = number;
}

/// Seats an entry at the bottom, and plays the games from there to the top. Answers who sits there then.
#[inline(always)]
fn play(seats: &mut [Entry], from: usize, entry: Entry) -> Entry
    requires some { 0 < from }
    requires within { from < length seats.old }
    requires even { length seats.old % 2 ≡ 0 }
    requires bottom { length seats.old ≤ 2 * from }
    ensures length { length seats.new ≡ length seats.old }
    ensures seated { (first : ℕ × ℕ) (seat : ℕ) → length seats.old ≤ 2 * seat → seat < length seats.old →
        seat_at result seats.new seat ≡ played_at from entry (seat_at first seats.old) seat }
    ensures won { (first : ℕ × ℕ) → AreWon (seat_at first seats.old) (length seats.old / 2) → AreWon (seat_at result seats.new) (length seats.old / 2) }
{
    let mut winner = (entry.0, u64::from(entry.1));
    let mut seat = from;
    while seat > 1 {
        put(seats, seat, winner.0, winner.1 as u32);
        winner = first_of(winner, seats[seat ^ 1]);
        seat /= 2;
    }
    (winner.0, winner.1 as u32)
}

/// Who sits at a seat, where `first` sits at the top.
#[inline]
fn who_sits(first: Entry, seats: &[Entry], seat: usize) -> Entry
    requires { seat < length seats.now }
    ensures { result ≡ seat_at first seats.now seat }
{
    if seat == 1 { first } else { seats[seat] }
}

impl Tournament {
    /// Seats an entry where a number sits, and plays anew the games above.
    #[inline(always)]
    fn seat(&mut self, number: u32, entry: Entry)
        requires below { number < length self.old }
        requires entrant { IsEntrant number entry }
        ensures few { number < 4294967295 }
        ensures set { self.new ≡ slice_set self.old number (key_in entry) }
    {
        self.first = play(&mut self.seats, self.leaves + number as usize, entry);
    }
}

impl MinQueue for Tournament {
    ghost keys = { λ t. t };

    fn make(alloc: Global, capacity: u32) -> Result<Self, AllocError> {
        let leaves = (capacity as usize).max(1);
        let seats = vec![in alloc; NOBODY; 2 * leaves]?;
        Ok(Tournament {
            seats,
            first: NOBODY,
            leaves,
            capacity,
        })
    }

    #[inline(always)]
    fn insert(&mut self, number: u32, key: u64) {
        self.seat(number, (key, number));
    }

    #[inline(always)]
    fn remove(&mut self, number: u32) {
        self.seat(number, NOBODY);
    }

    #[inline(always)]
    fn rekey_least(&mut self, least: (u64, u32), key: u64) {
        self.seat(least.1, (key, least.1));
    }

    #[inline(always)]
    fn least(&self) -> Option<(u64, u32)> {
        if self.first.1 == NOBODY.1 {
            return None;
        }
        Some(self.first)
    }

    #[inline]
    fn key_of(&self, number: u32) -> Option<u64> {
        if number >= self.capacity {
            return None;
        }
        let seat = self.leaves + number as usize;
        let (key, sitting) = who_sits(self.first, &self.seats, seat);
        if sitting == NOBODY.1 {
            return None;
        }
        Some(key)
    }

    fn copy(&self, alloc: Global) -> Result<Self, AllocError> {
        let seats = Vec::from_slice(alloc, &self.seats)?;
        Ok(Tournament {
            seats,
            first: self.first,
            leaves: self.leaves,
            capacity: self.capacity,
        })
    }
}
