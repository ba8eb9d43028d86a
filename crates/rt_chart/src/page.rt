//! A page of elements.

ghost use Rattle.std.specs.Prelude.{◌≡◌, ◌+◌, ◌-◌, ◌/◌, ◌≤◌, ◌<◌, ◌++◌, [], ℕ, length, take, decimal, true, false};

use crate::digits::Digits;
use crate::element::ELEMENT_LEN;
use crate::kept::{KEPT_LEN, Kept};
use rt_trace::pair_of;
use std::marker::Model;
use std::simd::Simd;

/// How many bytes of elements are gathered at most: so many that the sink of the output passes a full page on as it is.
pub(crate) const PAGE_LEN: usize = 33_920;

/// How many bytes of a kept text are stored at once.
const SHORT_LEN: usize = 64;

/// Elements that are gathered, at most `PAGE_LEN` bytes. The bytes are borrowed, so that the length can be kept in a register. Contracts
/// see the bytes.
#[derive(Drop)]
pub(crate) struct Page<'a> {
    bytes: &'a mut [u8; PAGE_LEN],
    len: usize,
}

impl<'a> Model for Page<'a> {
    ghost use Rattle.std.specs.Prelude.{ℕ, List, ◌≡◌, ◌≤◌, length, take};

    ghost Value = { List ℕ };

    ghost view = { λ page. take page.len page.bytes.now };

    ghost invariant = { λ page. (page.len ≤ 33920) × (length page.bytes.now ≡ 33920) };
}

/// Stores the first N bytes of a text at a place, however many of them count.
#[inline(always)]
fn store_front<const N: usize>(bytes: &mut [u8], at: usize, text: &[u8])
    requires long { N ≤ length text.now }
    requires room { at + N ≤ length bytes.old }
    ensures text { (count : ℕ) → count ≤ N → take (at + count) bytes.new ≡ take at bytes.old ++ take count text.now }
    ensures same { length bytes.new ≡ length bytes.old }
{
    Simd::<u8, N>::from_slice(text).copy_to_slice(&mut bytes[at..]);
}

/// Stores a text of N bytes or more at a place, N bytes at once. The last of them may be stored twice.
#[inline(always)]
fn store_pieces<const N: usize>(bytes: &mut [u8], at: usize, text: &[u8])
    requires some { 1 ≤ N }
    requires long { N ≤ length text.now }
    requires room { at + length text.now ≤ length bytes.old }
    ensures text { take (at + length text.now) bytes.new ≡ take at bytes.old ++ text.now }
    ensures same { length bytes.new ≡ length bytes.old }
{
    let last = text.len() - N;
    let mut done = 0;
    'pieces: while done < last {
        store_front::<N>(bytes, at + done, &text[done..]);
        done += N;
    }
    store_front::<N>(bytes, at + last, &text[last..]);
}

/// Stores a text at a place. Of one whose length the compiler knows a few stores are left.
#[inline(always)]
fn store(bytes: &mut [u8], at: usize, text: &[u8])
    requires room { at + length text.now ≤ length bytes.old }
    ensures text { take (at + length text.now) bytes.new ≡ take at bytes.old ++ text.now }
    ensures same { length bytes.new ≡ length bytes.old }
{
    if text.len() >= 16 {
        store_pieces::<16>(bytes, at, text);
    } else if text.len() >= 8 {
        store_pieces::<8>(bytes, at, text);
    } else if text.len() >= 4 {
        store_pieces::<4>(bytes, at, text);
    } else if text.len() >= 2 {
        store_pieces::<2>(bytes, at, text);
    } else {
        bytes[at..at + text.len()].copy_from_slice(text);
    }
}

/// Puts the digits of a number below 100 at a place, and answers the place behind them.
#[inline(always)]
fn place_short(bytes: &mut [u8], at: usize, number: u64) -> usize
    requires short { number < 100 }
    requires room { at + 2 ≤ length bytes.old }
    ensures text { take result bytes.new ≡ take at bytes.old ++ decimal number }
    ensures short { result ≤ at + 2 }
    ensures same { length bytes.new ≡ length bytes.old }
{
    if number < 10 {
        bytes[at] = b'0' + number as u8;
        return at + 1;
    }
    store_front::<2>(bytes, at, &pair_of(number as usize));
    at + 2
}

/// Puts the digits of a number of the same hundred as a kept one at a place that has room for 32 bytes, and answers the place behind
/// them.
#[inline(always)]
fn place_near(bytes: &mut [u8], at: usize, kept: &Digits, number: u64) -> usize
    requires near { number / 100 ≡ kept.now / 100 }
    requires room { at + 32 ≤ length bytes.old }
    ensures text { take result bytes.new ≡ take at bytes.old ++ decimal number }
    ensures short { result ≤ at + 20 }
    ensures same { length bytes.new ≡ length bytes.old }
{
    if number < 100 {
        return place_short(bytes, at, number);
    }
    store_front::<32>(bytes, at, kept.hundreds());
    let end = at + kept.hundreds_len();
    store_front::<2>(bytes, end, &kept.last_two(number));
    end + 2
}

/// Puts the digits of a number at a place that has room for 32 bytes, and answers the place behind them.
#[inline(always)]
fn place_digits(bytes: &mut [u8], at: usize, number: &Digits) -> usize
    requires { at + 32 ≤ length bytes.old }
    ensures text { take result bytes.new ≡ take at bytes.old ++ decimal number.now }
    ensures short { result ≤ at + 20 }
    ensures same { length bytes.new ≡ length bytes.old }
{
    place_near(bytes, at, number, number.number())
}

/// Puts the digits of a number that isn't kept at a place that has room for 32 bytes, and answers the place behind them.
#[cold]
#[inline(never)]
fn place_new(bytes: &mut [u8], at: usize, number: u64) -> usize
    requires { at + 32 ≤ length bytes.old }
    ensures text { take result bytes.new ≡ take at bytes.old ++ decimal number }
    ensures short { result ≤ at + 20 }
    ensures same { length bytes.new ≡ length bytes.old }
{
    place_digits(bytes, at, &Digits::new(number))
}

/// Puts the digits of the number before one at a place that has room for 32 bytes, and answers the place behind them. It is of the
/// same hundred, but for the first of one.
#[inline(always)]
fn place_before(bytes: &mut [u8], at: usize, number: &Digits) -> usize
    requires { at + 32 ≤ length bytes.old }
    ensures text { take result bytes.new ≡ take at bytes.old ++ decimal (number.now - 1) }
    ensures short { result ≤ at + 20 }
    ensures same { length bytes.new ≡ length bytes.old }
{
    if number.is_round() {
        return place_new(bytes, at, number.number().saturating_sub(1));
    }
    place_near(bytes, at, number, number.number() - 1)
}

/// Stores a kept text at a place that has room for the longest: a short one by one store of 64 bytes.
#[inline(always)]
fn store_kept(bytes: &mut [u8], at: usize, kept: &Kept)
    requires { at + KEPT_LEN ≤ length bytes.old }
    ensures text { take (at + length kept.now) bytes.new ≡ take at bytes.old ++ kept.now }
    ensures same { length bytes.new ≡ length bytes.old }
{
    let count = kept.count();
    if count <= SHORT_LEN {
        store_front::<SHORT_LEN>(bytes, at, kept.bytes());
    } else {
        bytes[at..at + count].copy_from_slice(&kept.bytes()[..count]);
    }
}

impl<'a> Page<'a> {
    /// A page with no element, whose elements go to these bytes.
    #[inline(always)]
    pub(crate) fn new(bytes: &'a mut [u8; PAGE_LEN]) -> Page<'a>
        ensures { result ≡ [] }
    {
        Page { bytes, len: 0 }
    }

    /// Whether there is room for one more element.
    #[inline(always)]
    pub(crate) fn has_room(&self) -> bool
        ensures some { result ≡ true → length self.now + ELEMENT_LEN ≤ PAGE_LEN }
        ensures none { result ≡ false → PAGE_LEN < length self.now + ELEMENT_LEN }
    {
        self.len <= PAGE_LEN - ELEMENT_LEN
    }

    /// The elements.
    #[inline(always)]
    pub(crate) fn text(&self) -> &[u8]
        ensures { result.now ≡ self.now }
    {
        &self.bytes[..self.len]
    }

    /// Takes all elements away.
    #[inline(always)]
    pub(crate) fn clear(&mut self)
        ensures { self.new ≡ [] }
    {
        self.len = 0;
    }

    /// Appends a text.
    #[inline(always)]
    pub(crate) fn put(&mut self, text: &[u8])
        requires { length self.old + length text.now ≤ PAGE_LEN }
        ensures text { self.new ≡ self.old ++ text.now }
        ensures long { length self.new ≡ length self.old + length text.now }
    {
        let at = self.len;
        store(&mut self.bytes[..], at, text);
        self.len = at + text.len();
    }

    /// Appends a number: at most 20 bytes.
    #[inline(always)]
    pub(crate) fn put_number(&mut self, number: &Digits)
        requires { length self.old + 32 ≤ PAGE_LEN }
        ensures text { self.new ≡ self.old ++ decimal number.now }
        ensures short { length self.new ≤ length self.old + 20 }
    {
        let at = self.len;
        self.len = place_digits(&mut self.bytes[..], at, number);
    }

    /// Appends the number before one: at most 20 bytes.
    #[inline(always)]
    pub(crate) fn put_before(&mut self, number: &Digits)
        requires { length self.old + 32 ≤ PAGE_LEN }
        ensures text { self.new ≡ self.old ++ decimal (number.now - 1) }
        ensures short { length self.new ≤ length self.old + 20 }
    {
        let at = self.len;
        self.len = place_before(&mut self.bytes[..], at, number);
    }

    /// Appends a kept text.
    #[inline(always)]
    pub(crate) fn put_kept(&mut self, kept: &Kept)
        requires { length self.old + KEPT_LEN ≤ PAGE_LEN }
        ensures text { self.new ≡ self.old ++ kept.now }
        ensures short { length self.new ≤ length self.old + KEPT_LEN }
    {
        let at = self.len;
        store_kept(&mut self.bytes[..], at, kept);
        self.len = at + kept.count();
    }
}
