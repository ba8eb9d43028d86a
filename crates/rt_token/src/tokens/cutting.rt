//! Cuts a line into tokens.

ghost use Rattle.std.specs.Prelude.{◌≡◌, ◌+◌, ◌<◌, ◌≤◌, ◌^◌, length, IfOk, IfSome, MatchBool, Some, None, false};
ghost use Rattle.std.specs.List.{prefix_len};
ghost use Rattle.rt_token.specs.Word.{is_word_part};
ghost use Rattle.rt_token.specs.Tokens.{is_blank, is_escape, is_printable, mark_kind, string_rest, begins_with_digit, token_at, tokens};

use super::{Kind, Token};
use crate::pieces::Piece;
use crate::words::{is_word_part, is_word_start};
use std::alloc::AllocError;

/// Puts the tokens of a line whose first byte lies at `place`, up to a comment, in the place of those
/// in `found`. False where some byte begins no token.
pub fn cut_tokens<'a>(
    found: &mut Vec<Token<'a>>,
    place: usize,
    line: &'a [u8],
) -> Result<bool, AllocError>
    requires { place + length line.now < 2 ^ 64 }
    ensures { IfOk result (λ cut. MatchBool cut (tokens place 0 line.now ≡ Some found.new.items) (tokens place 0 line.now ≡ None)) }
{
    found.clear();
    let mut start = place;
    let mut rest = line;
    while let Some((first, after)) = rest.split_first() {
        if is_blank(*first) {
            start += 1;
            rest = after;
            continue;
        }
        if *first == b'#' {
            break;
        }
        let Some((kind, len)) = token_at(*first, after) else {
            return Ok(false);
        };
        let (text, after) = rest.split_at(len);
        let slice = Piece { start, text };
        found.push(Token { kind, slice })?;
        start += len;
        rest = after;
    }
    Ok(true)
}

/// The kind of the token that begins with the byte `first`, and its length in bytes.
fn token_at(first: u8, rest: &[u8]) -> Option<(Kind, usize)>
    ensures value { result ≡ token_at first rest.now }
    ensures within { IfSome result (λ found. (0 < found.1) × (found.1 ≤ length rest.now + 1)) }
{
    if is_word_start(first) {
        return Some((Kind::Word, 1 + part_len(rest)));
    }
    if first.is_ascii_digit() {
        return Some((Kind::Number, 1 + part_len(rest)));
    }
    match first {
        b'-' if begins_with_digit(rest) => Some((Kind::Number, 1 + part_len(rest))),
        b'-' => None,
        b'"' => {
            let len = string_rest(rest)?;
            Some((Kind::Text, 1 + len))
        }
        _ => {
            let kind = mark_kind(first)?;
            Some((kind, 1))
        }
    }
}

/// How many bytes at the front may stand in a word or a number.
fn part_len(bytes: &[u8]) -> usize
    ensures value { result ≡ prefix_len is_word_part bytes.now }
    ensures within { result ≤ length bytes.now }
{
    for (index, byte) in bytes.iter().enumerate() {
        if !is_word_part(*byte) {
            return index;
        }
    }
    bytes.len()
}

/// How many bytes of a string are left after its first quote, its last quote included.
fn string_rest(bytes: &[u8]) -> Option<usize>
    ensures value { result ≡ string_rest false bytes.now }
    ensures within { IfSome result (λ len. len ≤ length bytes.now) }
{
    let mut escaped = false;
    for (index, byte) in bytes.iter().enumerate() {
        if escaped {
            if !is_escape(*byte) {
                return None;
            }
            escaped = false;
        } else if *byte == b'"' {
            return Some(index + 1);
        } else if *byte == b'\\' {
            escaped = true;
        } else if !is_printable(*byte) {
            return None;
        }
    }
    None
}

fn mark_kind(byte: u8) -> Option<Kind>
    ensures { result ≡ mark_kind byte }
{
    match byte {
        b',' => Some(Kind::Comma),
        b'(' => Some(Kind::Open),
        b')' => Some(Kind::Close),
        b':' => Some(Kind::Colon),
        _ => None,
    }
}

fn begins_with_digit(bytes: &[u8]) -> bool
    ensures { result ≡ begins_with_digit bytes.now }
{
    match bytes.split_first() {
        Some((first, _)) => first.is_ascii_digit(),
        None => false,
    }
}

fn is_blank(byte: u8) -> bool
    ensures { result ≡ is_blank byte }
{
    byte == b' ' || byte == b'\t'
}

fn is_escape(byte: u8) -> bool
    ensures { result ≡ is_escape byte }
{
    matches!(byte, b'n' | b't' | b'\\' | b'"')
}

fn is_printable(byte: u8) -> bool
    ensures { result ≡ is_printable byte }
{
    (b' '..=b'~').contains(&byte)
}
