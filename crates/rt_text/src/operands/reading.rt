//! Reads the operands of a statement.

ghost use Rattle.std.specs.Prelude.{◌≡◌, ◌+◌, ◌<◌, ◌≤◌, [], ◌∷◌, length, take, IfOk, IfSome, MatchOption};
ghost use Rattle.std.specs.List.{position_or_len, slice_split};
ghost use Rattle.std.specs.Option.{option_map};
ghost use Rattle.rt_text.specs.Misfits.{behind_commas};
ghost use Rattle.rt_text.specs.Operands.{is_comma, one_token, base_in, offset_in, memory, operand, operands};

use super::{Memory, Operand};
use crate::names::register_of;
use rt_isa::Reg;
use rt_token::{Kind, Piece, Span, Token, number};
use std::alloc::AllocError;

/// The operands that these tokens are, separated by commas; none where some are no operand.
pub(crate) fn operands<'a>(
    mut found: Vec<Operand<'a>>,
    tokens: &[Token<'a>],
) -> Result<Option<Vec<Operand<'a>>>, AllocError>
    ensures { IfOk result (λ found. option_map (λ v. v.items) found ≡ operands tokens.now) }
{
    found.clear();
    let mut next = if tokens.is_empty() {
        None
    } else {
        Some(tokens)
    };
    while let Some(rest) = next {
        let (part, after) = cut_at_comma(rest);
        let Some(operand) = operand(part) else {
            return Ok(None);
        };
        found.push(operand)?;
        next = after;
    }
    Ok(Some(found))
}

/// The tokens up to the first comma, and those after it where there is one.
pub(crate) fn cut_at_comma<'t, 'a>(
    tokens: &'t [Token<'a>],
) -> (&'t [Token<'a>], Option<&'t [Token<'a>]>)
    ensures parts { MatchOption result.1
        (slice_split is_comma tokens.now ≡ result.0.now ∷ [])
        (λ after. slice_split is_comma tokens.now ≡ result.0.now ∷ slice_split is_comma after.now) }
    ensures front { result.0.now ≡ take (position_or_len is_comma tokens.now) tokens.now }
    ensures behind { MatchOption result.1 (behind_commas tokens.now ≡ []) (λ after. behind_commas tokens.now ≡ after.now ∷ behind_commas after.now) }
    ensures shorter { IfSome result.1 (λ after. length after.now < length tokens.now) }
{
    let (part, after) = tokens.split_at(comma_place(tokens));
    match after.split_first() {
        Some((_comma, after)) => (part, Some(after)),
        None => (part, None),
    }
}

/// The index of the first comma, or the number of tokens where there is none.
pub(crate) fn comma_place(tokens: &[Token<'_>]) -> usize
    ensures value { result ≡ position_or_len is_comma tokens.now }
    ensures within { result ≤ length tokens.now }
{
    for (index, token) in tokens.iter().enumerate() {
        if token.kind == Kind::Comma {
            return index;
        }
    }
    tokens.len()
}

/// The operand that these tokens are, between two commas.
pub(crate) fn operand<'a>(tokens: &[Token<'a>]) -> Option<Operand<'a>>
    ensures { result ≡ operand tokens.now }
{
    match tokens {
        [only] => one_token(only),
        [left, base, right] => memory(&left.slice, 0, left, base, right),
        [offset, left, base, right] => {
            let value = offset_in(offset)?;
            memory(&offset.slice, value, left, base, right)
        }
        _ => None,
    }
}

fn one_token<'a>(token: &Token<'a>) -> Option<Operand<'a>>
    ensures { result ≡ one_token token.now.kind token.now.slice }
{
    match token.kind {
        Kind::Word => Some(Operand::Word(token.slice.same())),
        Kind::Number => {
            let value = number(token.slice.text())?;
            Some(Operand::Number(token.slice.same(), value))
        }
        Kind::Text => Some(Operand::Text(token.slice.same())),
        _ => None,
    }
}

/// The number before the `(` of a memory operand.
fn offset_in(token: &Token<'_>) -> Option<i64>
    ensures { result ≡ offset_in token.now.kind token.now.slice.text }
{
    match token.kind {
        Kind::Number => number(token.slice.text()),
        _ => None,
    }
}

/// The register in `(` register `)`.
fn base_in(left: &Token<'_>, base: &Token<'_>, right: &Token<'_>) -> Option<Reg>
    ensures { result ≡ base_in left.now.kind base.now.kind right.now.kind base.now.slice.text }
{
    match (left.kind, base.kind, right.kind) {
        (Kind::Open, Kind::Word, Kind::Close) => register_of(base.slice.text()),
        _ => None,
    }
}

/// A memory operand from its first token to its `)`.
fn memory<'a>(
    first: &Piece<'a>,
    offset: i64,
    left: &Token<'a>,
    base: &Token<'a>,
    right: &Token<'a>,
) -> Option<Operand<'a>>
    ensures { result ≡ memory first.now offset left.now base.now right.now }
{
    let span = Span {
        start: first.start(),
        end: right.slice.end(),
    };
    let base = base_in(left, base, right)?;
    Some(Operand::Memory(span, Memory { offset, base }))
}
