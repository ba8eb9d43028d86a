//! Reads a line: its labels, and its statement.

ghost use Rattle.std.specs.Prelude.{[], ◌∷◌, ◌≡◌, ◌+◌, ◌<◌, ◌≤◌, ◌^◌, drop, length, IfOk, IfSome, MatchOption};
ghost use Rattle.std.specs.Char.{is_ascii};
ghost use Rattle.std.specs.List.{list_all};
ghost use Rattle.rt_text.specs.Statement.{labels_of, statement_of, formed, fits_or_fails, fitted, is_label, is_good, line_of, line_at};

use super::{Content, Line, Statement, lists_of};
use crate::fault::TextKind;
use crate::forms::{Form, form_of};
use crate::meaning::meaning_of;
use crate::operands::{Operand, operands};
use rt_token::{Kind, Piece, Token, cut_tokens, number};
use rt_words::MAX_LINE;
use std::alloc::{AllocError, Global};

/// The line whose first byte lies at `place`, without its end, or its first fault.
pub(crate) fn line_at<'a>(
    alloc: Global,
    tokens: &mut Vec<Token<'a>>,
    spare: &mut Option<Box<Content<'a>>>,
    place: usize,
    bytes: &'a [u8],
) -> Result<Result<Line<'a>, TextKind>, AllocError>
    requires { place + length bytes.now < 2 ^ 64 }
    ensures { IfOk result (λ found. found ≡ line_at place bytes.now) }
{
    if bytes.len() > MAX_LINE as usize {
        return Ok(Err(TextKind::LineTooLong));
    }
    if !is_ascii(bytes) {
        return Ok(Err(TextKind::NotAscii));
    }
    if !cut_tokens(tokens, place, bytes)? {
        return Ok(Err(TextKind::BadToken));
    }
    if !are_good(tokens.as_slice()) {
        return Ok(Err(TextKind::BadNumber));
    }
    if tokens.is_empty() {
        return Ok(Ok(Line::saying_nothing()));
    }
    let (content, labels, operands) = lists_of(alloc, spare.take());
    let (labels, rest) = labels_of(labels, tokens.as_slice())?;
    match statement_of(alloc, operands, rest)? {
        Ok(statement) => Ok(Ok(Line::saying(alloc, content, Content { labels, statement })?)),
        Err(kind) => Ok(Err(kind)),
    }
}

/// The labels at the front, and the tokens after them.
pub(crate) fn labels_of<'t, 'a>(
    mut labels: Vec<Piece<'a>>,
    tokens: &'t [Token<'a>],
) -> Result<(Vec<Piece<'a>>, &'t [Token<'a>]), AllocError>
    ensures { IfOk result (λ found. labels_of tokens.now ≡ (found.0.items, found.1.now)) }
{
    labels.clear();
    // All of them are left at first.
    let (_, mut rest) = tokens.split_at(0);
    while let Some(label) = label_at(rest) {
        labels.push(label)?;
        let (_label, after) = rest.split_at(2);
        rest = after;
    }
    Ok((labels, rest))
}

fn is_ascii(bytes: &[u8]) -> bool
    ensures { result ≡ list_all is_ascii bytes.now }
{
    bytes.is_ascii()
}

/// Whether each token that is written as a number is one.
fn are_good(tokens: &[Token<'_>]) -> bool
    ensures { result ≡ list_all (λ t. is_good t.kind t.slice.text) tokens.now }
{
    tokens.iter().all(|token| is_good(token))
}

pub(crate) fn is_good(token: &Token<'_>) -> bool
    ensures { result ≡ is_good token.now.kind token.now.slice.text }
{
    match token.kind {
        Kind::Number => number(token.slice.text()).is_some(),
        _ => true,
    }
}

/// The label that the two tokens at the front are.
fn label_at<'a>(tokens: &[Token<'a>]) -> Option<Piece<'a>>
    ensures cases { MatchOption result
        (labels_of tokens.now ≡ ([], tokens.now))
        (λ label. labels_of tokens.now ≡ (label ∷ (labels_of (drop 2 tokens.now)).0, (labels_of (drop 2 tokens.now)).1)) }
    ensures two { IfSome result (λ label. 2 ≤ length tokens.now) }
{
    let (name, after) = tokens.split_first()?;
    let (colon, _) = after.split_first()?;
    if is_label(name.kind, colon.kind) {
        Some(name.slice.same())
    } else {
        None
    }
}

/// A word and a colon make a label.
fn is_label(name: Kind, colon: Kind) -> bool
    ensures { result ≡ is_label name colon }
{
    name == Kind::Word && colon == Kind::Colon
}

/// The statement that these tokens are, if there are any, or its first fault.
fn statement_of<'a>(
    alloc: Global,
    operands: Vec<Operand<'a>>,
    tokens: &[Token<'a>],
) -> Result<Result<Option<Statement<'a>>, TextKind>, AllocError>
    ensures { IfOk result (λ found. found ≡ statement_of tokens.now) }
{
    let Some((name, rest)) = tokens.split_first() else {
        return Ok(Ok(None));
    };
    if name.kind != Kind::Word {
        return Ok(Err(TextKind::BadOperands));
    }
    let Some(form) = form_of(name.slice.text()) else {
        return Ok(Err(TextKind::UnknownName));
    };
    match fitted(alloc, operands, &name.slice, form, rest)? {
        Some(statement) => Ok(Ok(Some(statement))),
        None => Ok(Err(TextKind::BadOperands)),
    }
}

/// The statement of this name and form with the operands that the tokens are, where they fit.
fn fitted<'a>(
    alloc: Global,
    room: Vec<Operand<'a>>,
    name: &Piece<'a>,
    form: Form,
    tokens: &[Token<'a>],
) -> Result<Option<Statement<'a>>, AllocError>
    ensures { IfOk result (λ found. found ≡ fitted name.now form tokens.now) }
{
    let Some(operands) = operands(room, tokens)? else {
        return Ok(None);
    };
    let Some(meaning) = meaning_of(alloc, form, operands.as_slice())? else {
        return Ok(None);
    };
    let name = name.same();
    Ok(Some(Statement {
        name,
        operands,
        meaning,
    }))
}
