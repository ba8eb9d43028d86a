//! Numbers as options take them: decimal digits, between two of which `_` may stand, and behind them K, M or G.

use crate::table::{MOST, Takes, named};
use clap::ArgMatches;
use std::fmt;

/// What K, M and G stand for: of numbers, and of bytes.
const THOUSANDS: [u64; 3] = [1_000, 1_000_000, 1_000_000_000];

const KIBI: [u64; 3] = [1_024, 1_048_576, 1_073_741_824];

/// The number that digits spell, or the greatest of 64 bits where it is greater.
fn digits(word: &[u8]) -> Option<u64> {
    let mut number: u64 = 0;
    let mut ends = false;
    for byte in word {
        match byte {
            b'0'..=b'9' => {
                number = number
                    .saturating_mul(10)
                    .saturating_add(u64::from(byte - b'0'));
                ends = true;
            }
            b'_' if ends => ends = false,
            _ => return None,
        }
    }
    ends.then_some(number)
}

/// The number that a word spells, with what K, M and G stand for.
fn spelled(word: &str, scale: [u64; 3]) -> Option<u64> {
    let (word, factor) = match word.as_bytes() {
        [word @ .., b'K'] => (word, scale[0]),
        [word @ .., b'M'] => (word, scale[1]),
        [word @ .., b'G'] => (word, scale[2]),
        word => (word, 1),
    };
    Some(digits(word)?.saturating_mul(factor))
}

/// The number that a word spells, if it spells one.
pub fn number_of(word: &str) -> Option<u64> {
    spelled(word, THOUSANDS)
}

/// The number that is given for an option, or that stands in its place.
pub fn number(matches: &ArgMatches<'_>, option: &str) -> Option<u64> {
    number_of(matches.get_str(option)?)
}

/// The same of bytes.
pub fn bytes(matches: &ArgMatches<'_>, option: &str) -> Option<u64> {
    spelled(matches.get_str(option)?, KIBI)
}

/// A word that is no number, or none that its option takes.
#[derive(Clone, Copy)]
pub struct Misfit<'a> {
    option: &'static str,
    value: &'static str,
    word: &'a str,
    /// The least and the greatest number, where it is another one.
    range: Option<(u64, u64)>,
}

impl<'a> Misfit<'a> {
    /// The first such word that is given for an option, in the order of the help.
    pub fn of(matches: &ArgMatches<'a>) -> Option<Misfit<'a>> {
        let (name, matches) = matches.subcommand()?;
        for choice in named(name)?.options {
            let (value, number, range) = match choice.1 {
                Takes::Number(value, least, most) => (
                    value,
                    number(matches, choice.0),
                    (least, most),
                ),
                Takes::Bytes(value, most) => (value, bytes(matches, choice.0), (0, most)),
                Takes::Task(value) if number(matches, choice.0).is_some() => {
                    (value, number(matches, choice.0), (0, MOST))
                }
                _ => continue,
            };
            if let Some(word) = matches.get_str(choice.0)
                && !number.is_some_and(|number| range.0 <= number && number <= range.1)
            {
                return Some(Misfit {
                    option: choice.0,
                    value,
                    word,
                    range: number.map(|_| range),
                });
            }
        }
        None
    }
}

impl fmt::Display for Misfit<'_> {
    fn fmt<W: fmt::Write>(&self, f: &mut fmt::Formatter<W>) -> fmt::Result {
        let Misfit {
            option,
            value,
            word,
            ..
        } = *self;
        write!(
            f,
            "error: invalid value '{word}' for '--{option} <{value}>': "
        )?;
        match self.range {
            Some((least, most)) => write!(f, "{word} is not in {least}..={most}"),
            None => f.write_str("decimal digits, as 1000000, 1_000_000 or 1M"),
        }?;
        f.write_str("\n\nFor more information, try '--help'.\n")
    }
}
