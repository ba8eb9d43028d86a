//! The operand that fits no form of its statement's name.

ghost use Rattle.std.specs.Prelude.{◌≡◌, map};
ghost use Rattle.std.specs.List.{slice_get};
ghost use Rattle.std.specs.Option.{option_map};
ghost use Rattle.rt_words.specs.Found.{Finds};
ghost use Rattle.rt_text.specs.Operands.{operand};
ghost use Rattle.rt_text.specs.Misfits.{begins_with, fits, form_by, from_each, last_misfit, later, marked, misfit, misfit_by, misfit_from, misfit_span, span_over};

use super::{Flaw, RefusedWord};
use crate::forms::{Form, form_of};
use crate::operand_kinds::{OperandKind, Shape, is_kind, is_more, shapes_of};
use crate::operands::{comma_place, cut_at_comma, operand};
use rt_token::{Kind, Piece, Span, Token};

/// What stands where the name of a statement is to stand, or an operand.
pub(super) fn misfit(tokens: &[Token<'_>]) -> Option<RefusedWord>
    ensures { result ≡ misfit tokens.now }
{
    let (name, operands) = tokens.split_first()?;
    Some(misfit_by(&name.slice, form_by(name), operands))
}

/// The form that a name asks for; none where it is no name.
fn form_by(name: &Token<'_>) -> Option<Form>
    ensures { result ≡ form_by name.now.kind name.now.slice.text }
{
    match name.kind {
        Kind::Word => form_of(name.slice.text()),
        _ => None,
    }
}

fn misfit_by(name: &Piece<'_>, form: Option<Form>, operands: &[Token<'_>]) -> RefusedWord
    ensures { result ≡ misfit_by name.now form operands.now }
{
    let Some(form) = form else {
        return RefusedWord::of(Flaw::NoName, name);
    };
    let rest = last_misfit(shapes_of(form), operands);
    RefusedWord {
        flaw: Flaw::Operand(name.span()),
        span: misfit_span(name.span(), operands, rest),
    }
}

/// The tokens from the first operand on that fits no shape, of the shape that fits longest; none where all operands fit.
fn last_misfit<'t, 'a>(shapes: &[Shape], tokens: &'t [Token<'a>]) -> Option<&'t [Token<'a>]>
    ensures { Finds (λ rest. rest.now) result (last_misfit (slice_get (from_each tokens.now) 0) (map (λ shape. shape.now) shapes.now) (from_each tokens.now)) }
{
    let mut found = if tokens.is_empty() {
        None
    } else {
        Some(tokens)
    };
    for shape in shapes {
        found = later(found, misfit_from(shape, tokens));
    }
    found
}

/// Of two ends of a statement, the one that begins later.
fn later<'t, 'a>(
    first: Option<&'t [Token<'a>]>,
    second: Option<&'t [Token<'a>]>,
) -> Option<&'t [Token<'a>]>
    ensures { Finds (λ rest. rest.now) result (later (option_map (λ rest. rest.now) first.entry) (option_map (λ rest. rest.now) second.entry)) }
{
    match (first, second) {
        (Some(rest), Some(other)) if other.len() < rest.len() => Some(other),
        (Some(rest), Some(_)) => Some(rest),
        _ => None,
    }
}

/// The tokens from the first operand on that isn't of its kind; none where each is.
fn misfit_from<'t, 'a>(shape: &[OperandKind], tokens: &'t [Token<'a>]) -> Option<&'t [Token<'a>]>
    ensures { Finds (λ rest. rest.now) result (misfit_from shape.now (from_each tokens.now)) }
{
    let mut kinds = shape;
    let mut left = if tokens.is_empty() {
        None
    } else {
        Some(tokens)
    };
    while let Some(rest) = left {
        let Some((kind, others)) = kinds.split_first() else {
            return Some(rest);
        };
        let (part, behind) = cut_at_comma(rest);
        if !fits(*kind, part) {
            return Some(rest);
        }
        if !is_more(*kind) {
            kinds = others;
        }
        left = behind;
    }
    None
}

/// Whether these tokens are an operand of a kind.
fn fits(kind: OperandKind, tokens: &[Token<'_>]) -> bool
    ensures { result ≡ fits kind (operand tokens.now) }
{
    match operand(tokens) {
        Some(operand) => is_kind(kind, &operand),
        None => false,
    }
}

/// Where the operand lies that fits no form; the name where all fit, so that one is missing.
fn misfit_span(name: Span, tokens: &[Token<'_>], misfit: Option<&[Token<'_>]>) -> Span
    ensures { result ≡ misfit_span name tokens.now (option_map (λ rest. rest.now) misfit.entry) }
{
    match misfit {
        Some(rest) => span_over(marked(tokens, rest)).unwrap_or(name),
        None => name,
    }
}

/// The tokens of the operand at the front of some; where it is empty its comma, or the statement's last token.
fn marked<'t, 'a>(tokens: &'t [Token<'a>], rest: &'t [Token<'a>]) -> &'t [Token<'a>]
    ensures { result.now ≡ marked tokens.now rest.now }
{
    if rest.is_empty() {
        tokens.split_at(tokens.len().saturating_sub(1)).1
    } else {
        rest.split_at(comma_place(rest).max(1)).0
    }
}

/// From the first of some tokens to the last.
fn span_over(tokens: &[Token<'_>]) -> Option<Span>
    ensures { result ≡ span_over tokens.now }
{
    let (first, last) = (tokens.first()?, tokens.last()?);
    Some(Span {
        start: first.slice.start(),
        end: last.slice.end(),
    })
}
