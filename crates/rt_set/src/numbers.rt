//! The numbers of a line, all below 2^32.

ghost use Rattle.std.specs.Prelude.{◌≡◌};
ghost use Rattle.rt_words.specs.Found.{Finds};
ghost use Rattle.rt_token.specs.SpacedWords.{decimal_up_to, number_at};
ghost use Rattle.rt_set.specs.SetLines.{number_limit};

use rt_token::{decimal_up_to, number_at as spaced_number};
use rt_words::MAX_WORD;

/// A decimal number without leading zeros.
pub fn decimal_of(digits: &[u8]) -> Option<u32>
    ensures { result ≡ decimal_up_to number_limit digits.now }
{
    let number = decimal_up_to(MAX_WORD, digits)?;
    Some(number as u32)
}

/// A number that a space ends, and what stands after that space.
pub fn number_at(line: &[u8]) -> Option<(u32, &[u8])>
    ensures { Finds (λ x. (x.0, x.1.now)) result (number_at number_limit line.now) }
{
    let (number, rest) = spaced_number(MAX_WORD, line)?;
    Some((number as u32, rest))
}
