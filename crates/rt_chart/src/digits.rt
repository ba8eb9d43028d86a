//! The digits of a number, kept from one place where it is written to the next.

ghost use Rattle.std.specs.Prelude.{◌≡◌, ◌+◌, ◌/◌, ◌%◌, ◌^◌, ◌<◌, ◌≤◌, ◌∷◌, [], length, take, decimal, true, false};

use itoa::write_digits;
use rt_trace::pair_of;
use std::marker::Model;

/// Where the digits of the hundreds end.
const END: usize = 20;

/// A number, and the decimal digits of how many hundreds it has, with room behind them. Most numbers are of the same hundred as the one
/// before, so that these digits stay: the last two stand in a table.
///
/// Contracts see the number.
#[derive(Drop)]
pub(crate) struct Digits {
    number: u64,
    first: u64,
    bytes: [u8; 52],
    start: usize,
}

impl Model for Digits {
    ghost use Rattle.std.specs.Prelude.{ℕ};
    ghost use Rattle.rt_chart.specs.Working.Hundreds.{AreHundreds};

    ghost Value = { ℕ };

    ghost view = { λ digits. digits.number };

    ghost invariant = { λ digits. AreHundreds digits.number digits.first digits.bytes digits.start };
}

impl Digits {
    /// A number.
    pub(crate) fn new(number: u64) -> Digits
        ensures { result ≡ number }
    {
        let mut bytes = [b'0'; 52];
        let start = write_digits(number / 100, &mut bytes, END);
        Digits {
            number,
            first: number / 100 * 100,
            bytes,
            start,
        }
    }

    /// Goes to a number of another hundred. Apart from `go_to`, so that its callers stay small enough to be inlined.
    #[inline(never)]
    fn change_to(&mut self, number: u64)
        ensures { self.new ≡ number }
    {
        self.start = write_digits(number / 100, &mut self.bytes, END);
        self.first = number / 100 * 100;
        self.number = number;
    }

    /// Goes to a number, which costs little where it is of the same hundred.
    #[inline(always)]
    pub(crate) fn go_to(&mut self, number: u64)
        ensures { self.new ≡ number }
    {
        if self.first <= number && number - self.first < 100 {
            self.number = number;
        } else {
            self.change_to(number);
        }
    }

    /// The digits of its hundreds, and at least 32 bytes with what lies behind them.
    #[inline(always)]
    pub(crate) fn hundreds(&self) -> &[u8]
        ensures text { take (length (decimal (self.now / 100))) result.now ≡ decimal (self.now / 100) }
        ensures long { 32 ≤ length result.now }
    {
        &self.bytes[self.start..]
    }

    /// How many digits its hundreds have.
    #[inline(always)]
    pub(crate) fn hundreds_len(&self) -> usize
        ensures value { result ≡ length (decimal (self.now / 100)) }
        ensures few { result ≤ 18 }
    {
        END - self.start
    }

    /// The last two digits of a number of the same hundred.
    #[inline(always)]
    pub(crate) fn last_two(&self, number: u64) -> [u8; 2]
        requires { number / 100 ≡ self.now / 100 }
        ensures { result ≡ (48 + number / 10 % 10) ∷ (48 + number % 10) ∷ [] }
    {
        pair_of((number - self.first) as usize)
    }

    /// Whether it is the first of its hundred.
    #[inline(always)]
    pub(crate) fn is_round(&self) -> bool
        ensures round { result ≡ true → self.now % 100 ≡ 0 }
        ensures other { result ≡ false → 1 ≤ self.now % 100 }
    {
        self.number == self.first
    }

    /// The number.
    #[inline(always)]
    pub(crate) fn number(&self) -> u64
        ensures { result ≡ self.now }
    {
        self.number
    }
}
