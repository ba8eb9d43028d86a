//! What the operands of a directive mean.

ghost use Rattle.std.specs.Prelude.{◌≡◌, IfOk};
ghost use Rattle.std.specs.Option.{option_map};
ghost use Rattle.rt_text.specs.Shapes.{number_in, one, target_in, word_in};
ghost use Rattle.rt_text.specs.declared.meaning.Directive.TheVariants as directive;
ghost use Rattle.rt_text.specs.Strings.{string_bytes, escape_value};
ghost use Rattle.rt_text.specs.Meaning.{directive_of, none, some_of};

use super::Directive;
use super::lists::{Numbers, StringBytes, Targets};
use super::shapes::{number_alone, number_in, target_in, text_alone, word_alone};
use crate::forms::DirectiveForm;
use crate::operands::Operand;
use std::alloc::{AllocError, Global};

/// What the operands of a directive mean; none where they don't fit its form.
pub(super) fn directive_of<'a>(
    alloc: Global,
    form: DirectiveForm,
    operands: &[Operand<'a>],
) -> Result<Option<Directive<'a>>, AllocError>
    ensures { IfOk result (λ found. found ≡ directive_of form operands.now) }
{
    match form {
        DirectiveForm::Section => Ok(nothing(operands)),
        DirectiveForm::Symbol => Ok(symbol(operands)),
        DirectiveForm::Bytes => match numbers(alloc, operands)? {
            Some(numbers) => Ok(Some(Directive::Bytes(numbers))),
            None => Ok(None),
        },
        DirectiveForm::Halves => match numbers(alloc, operands)? {
            Some(numbers) => Ok(Some(Directive::Halves(numbers))),
            None => Ok(None),
        },
        DirectiveForm::Words => match targets(alloc, operands)? {
            Some(items) => Ok(Some(Directive::Words(items))),
            None => Ok(None),
        },
        DirectiveForm::Zero => match number_alone(operands) {
            Some(count) => Ok(Some(Directive::Zero(count))),
            None => Ok(None),
        },
        DirectiveForm::Align => match number_alone(operands) {
            Some(power) => Ok(Some(Directive::Align(power))),
            None => Ok(None),
        },
        DirectiveForm::Text(op) => match text_alone(operands) {
            Some(text) => Ok(Some(Directive::Text(op, string_bytes(alloc, text.text())?))),
            None => Ok(None),
        },
    }
}

/// A symbol's name, which says nothing more.
fn symbol<'a>(operands: &[Operand<'a>]) -> Option<Directive<'a>>
    ensures { result ≡ option_map (λ _. directive.Nothing) (one word_in operands.now) }
{
    let _name = word_alone(operands)?;
    Some(Directive::Nothing)
}

fn nothing<'a>(operands: &[Operand<'a>]) -> Option<Directive<'a>>
    ensures { result ≡ none directive.Nothing operands.now }
{
    if operands.is_empty() {
        Some(Directive::Nothing)
    } else {
        None
    }
}

/// One number or more; none where an operand is something else, or there is none.
fn numbers(alloc: Global, operands: &[Operand<'_>]) -> Result<Option<Numbers>, AllocError>
    ensures { IfOk result (λ found. found ≡ some_of number_in operands.now) }
{
    if operands.is_empty() {
        return Ok(None);
    }
    let mut numbers = Vec::new(alloc);
    for operand in operands {
        let Some(number) = number_in(operand) else {
            return Ok(None);
        };
        numbers.push(number)?;
    }
    Ok(Some(Numbers { numbers }))
}

/// One target or more; none where an operand is something else, or there is none.
fn targets<'a>(alloc: Global, operands: &[Operand<'a>]) -> Result<Option<Targets<'a>>, AllocError>
    ensures { IfOk result (λ found. found ≡ some_of target_in operands.now) }
{
    if operands.is_empty() {
        return Ok(None);
    }
    let mut targets = Vec::new(alloc);
    for operand in operands {
        let Some(item) = target_in(operand) else {
            return Ok(None);
        };
        targets.push(item)?;
    }
    Ok(Some(Targets { targets }))
}

/// The bytes that a string with its quotes means.
fn string_bytes(alloc: Global, text: &[u8]) -> Result<StringBytes, AllocError>
    ensures { IfOk result (λ found. found ≡ string_bytes text.now) }
{
    let mut bytes = Vec::new(alloc);
    let Some((_quote, rest)) = text.split_first() else {
        return Ok(StringBytes { bytes });
    };
    let mut escaped = false;
    for byte in rest {
        if escaped {
            bytes.push(escape_value(*byte))?;
            escaped = false;
        } else if *byte == b'"' {
            break;
        } else if *byte == b'\\' {
            escaped = true;
        } else {
            bytes.push(*byte)?;
        }
    }
    Ok(StringBytes { bytes })
}

/// The byte that stands behind a backslash, as it is meant.
fn escape_value(byte: u8) -> u8
    ensures { result ≡ escape_value byte }
{
    match byte {
        b'n' => b'\n',
        b't' => b'\t',
        other => other,
    }
}
