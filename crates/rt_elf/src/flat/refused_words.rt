//! Which word of a line is refused.

ghost use Rattle.std.specs.Prelude.{◌≡◌};
ghost use Rattle.rt_words.specs.Found.{Finds};
ghost use Rattle.rt_elf.specs.flat.RefusedWord.{after_address, refused_from, word_or_all, refused_word};
ghost use Rattle.rt_token.specs.SpacedWords.{word_at};

use crate::flat::symbols::address_of;
use rt_token::word_at;

/// What is left from the refused word on of what stands behind an address.
fn after_address(rest: &[u8]) -> Option<&[u8]>
    ensures { Finds (λ left. left.now) result (after_address rest.now (word_at rest.now)) }
{
    match word_at(rest) {
        Some((letter, [])) if letter.len() == 1 => Some(b""),
        Some((letter, _)) if letter.len() == 1 => None,
        None if rest.len() <= 1 => Some(b""),
        _ => Some(rest),
    }
}

/// What is left of a line from the refused word on.
fn refused_from(line: &[u8]) -> Option<&[u8]>
    ensures { Finds (λ left. left.now) result (refused_from line.now) }
{
    match word_at(line) {
        Some((digits, rest)) if address_of(digits).is_some() => after_address(rest),
        None if address_of(line).is_some() => Some(b""),
        _ => Some(line),
    }
}

/// The bytes before the first blank, or all.
fn first_word(rest: &[u8]) -> &[u8]
    ensures { result.now ≡ word_or_all rest.now (word_at rest.now) }
{
    match word_at(rest) {
        Some((word, _)) => word,
        None => rest,
    }
}

/// The word for which a line is no `ADDRESS LETTER NAME`: its first byte, counted from 0, and its bytes.
/// Where the line ends too early, the line's length and no bytes. None where the line says a symbol.
pub fn refused_word(line: &[u8]) -> Option<(usize, &[u8])>
    ensures { Finds (λ x. (x.0, x.1.now)) result (refused_word line.now) }
{
    let rest = refused_from(line)?;
    Some((line.len().saturating_sub(rest.len()), first_word(rest)))
}
