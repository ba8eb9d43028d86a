//! The words and numbers of a line whose words single spaces separate.

ghost use Rattle.std.specs.Prelude.{◌≡◌, ◌≤◌, length, IfSome};
ghost use Rattle.std.specs.List.{position_or_len};
ghost use Rattle.rt_words.specs.Found.{Finds};
ghost use Rattle.rt_token.specs.SpacedWords.{is_space, word_at, after_keyword, decimal_up_to, number_at};

use crate::numbers::value_up_to;

/// Where the first space stands, or the length of the line where there is none.
fn space_place(line: &[u8]) -> usize
    ensures place { result ≡ position_or_len is_space line.now }
    ensures within { result ≤ length line.now }
{
    for (index, byte) in line.iter().enumerate() {
        if *byte == b' ' {
            return index;
        }
    }
    line.len()
}

/// What stands before the first space, and what stands after it. Nothing where there is no space.
pub fn word_at(line: &[u8]) -> Option<(&[u8], &[u8])>
    ensures { Finds (λ x. (x.0.now, x.1.now)) result (word_at line.now) }
{
    let place = space_place(line);
    if place == line.len() {
        return None;
    }
    Some((&line[..place], &line[place + 1..]))
}

/// What stands after a first word and the space that ends it. Nothing where the line has another
/// first word.
pub fn after_keyword<'a>(keyword: &[u8], line: &'a [u8]) -> Option<&'a [u8]>
    ensures { Finds (λ x. x.now) result (after_keyword keyword.now line.now) }
{
    let (word, rest) = word_at(line)?;
    if word == keyword { Some(rest) } else { None }
}

/// A decimal number of at most `limit`, without leading zeros.
pub fn decimal_up_to(limit: u64, digits: &[u8]) -> Option<u64>
    ensures value { result ≡ decimal_up_to limit digits.now }
    ensures within { IfSome result (λ number. number ≤ limit) }
{
    match digits {
        [b'0', _, ..] => None,
        _ => value_up_to(limit, 10, digits),
    }
}

/// A number of at most `limit` that a space ends, and what stands after that space.
pub fn number_at(limit: u64, line: &[u8]) -> Option<(u64, &[u8])>
    ensures value { Finds (λ x. (x.0, x.1.now)) result (number_at limit line.now) }
    ensures within { IfSome result (λ x. x.0 ≤ limit) }
{
    let (word, rest) = word_at(line)?;
    let number = decimal_up_to(limit, word)?;
    Some((number, rest))
}
