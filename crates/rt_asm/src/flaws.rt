//! Why a line of a source is at fault.

ghost use Rattle.std.specs.Prelude.{◌≡◌, ◌+◌, ◌≤◌, ◌^◌, ℤ, length};
ghost use Rattle.std.specs.List.{list_any};
ghost use Rattle.std.specs.Option.{option_copied, option_and_then};
ghost use Rattle.std.specs.Str.{bytes_eq};
ghost use Rattle.rt_words.specs.Base.{base};
ghost use Rattle.rt_asm.specs.DefiningLine.{defining_line};
ghost use Rattle.rt_asm.specs.Flaws.{too_large};
ghost use Rattle.rt_asm.specs.OperandRanges.{operation_range, transfer_range, directive_range, number_range, jump_range, span_range};
ghost use Rattle.rt_asm.specs.Reasons.{number_in, out_of, number_reason, undefined, unnamed, first_reason, target_of, distance_of, far, odd, operand_reason, line_reason};
ghost use Rattle.rt_asm.specs.declared.flaws.Reason.TheVariants as reason;

use crate::fault::{AsmFault, AsmKind};
use crate::labels::Labels;
use crate::numbers::signed;
use crate::ranges::{
    BRANCHES, BYTES, COUNTS, HALVES, IMMEDIATES, JUMPS, POWERS, Range, SHIFTS, UPPERS,
};
use rt_text::{Directive, JumpOp, Line, Meaning, Operand, Operation, Statement, Target, Transfer};
use rt_token::{Piece, Span};
use rt_words::{MAX_IMAGE, RAM_BASE};

/// Why a line is at fault, with where the word lies in the source.
#[derive(Clone, Copy)]
pub enum Reason {
    /// This label is defined before.
    Duplicate(Span),
    /// No line defines this label.
    Undefined(Span),
    /// This number isn't in its range. Of a memory operand, the number at its front.
    Number(Span, i64, Range),
    /// This target is so many bytes away, which aren't in the range.
    Far(Span, i64, Range),
    /// This target is so many bytes away, an odd number.
    Odd(Span, i64),
    /// The image has so many bytes.
    Image(u64),
    /// The source has so many labels.
    Labels(u64),
}

/// The fault of a line, and why the line has it.
#[derive(Clone, Copy)]
pub struct Flaw {
    /// The line and its fault.
    pub fault: AsmFault,
    /// Why it has the fault.
    pub reason: Option<Reason>,
}

fn operation_range(operation: &Operation) -> Option<Range>
    ensures { result ≡ operation_range operation.now }
{
    match operation {
        Operation::Upper(..) => Some(UPPERS),
        Operation::Shift(..) => Some(SHIFTS),
        Operation::Immediate(..) | Operation::Load(..) | Operation::Store(..) => Some(IMMEDIATES),
        _ => None,
    }
}

fn transfer_range(transfer: &Transfer) -> Option<Range>
    ensures { result ≡ transfer_range transfer.now }
{
    match transfer {
        Transfer::JumpAndLinkRegister(..) => Some(IMMEDIATES),
        _ => None,
    }
}

fn directive_range(directive: &Directive) -> Option<Range>
    ensures { result ≡ directive_range directive.now }
{
    match directive {
        Directive::Bytes(_) => Some(BYTES),
        Directive::Halves(_) => Some(HALVES),
        Directive::Zero(_) => Some(COUNTS),
        Directive::Align(_) => Some(POWERS),
        _ => None,
    }
}

/// The numbers that the operands of a statement may be, where they are limited.
fn number_range(meaning: &Meaning) -> Option<Range>
    ensures { result ≡ number_range meaning.now }
{
    match meaning {
        Meaning::Operation(operation) => operation_range(operation),
        Meaning::Transfer(transfer) => transfer_range(transfer),
        Meaning::Directive(directive) => directive_range(directive),
        _ => None,
    }
}

/// The distances that a jump or a branch may span.
fn span_range(transfer: &Transfer) -> Option<Range>
    ensures { result ≡ span_range transfer.now }
{
    match transfer {
        Transfer::JumpAndLink(..) => Some(JUMPS),
        Transfer::Branch(..) | Transfer::ZeroBranch(..) => Some(BRANCHES),
        Transfer::JumpTo(op, _) => jump_range(*op),
        _ => None,
    }
}

fn jump_range(op: JumpOp) -> Option<Range>
    ensures { result ≡ jump_range op }
{
    match op {
        JumpOp::J | JumpOp::Jal => Some(JUMPS),
        _ => None,
    }
}

fn number_in(operand: &Operand) -> Option<i64>
    ensures { result ≡ number_in operand.now }
{
    match operand {
        Operand::Number(_, number) => Some(*number),
        Operand::Memory(_, memory) => Some(memory.offset),
        _ => None,
    }
}

/// What is wrong with a number that isn't in its range.
fn out_of(range: Range, operand: &Operand) -> Option<Reason>
    ensures { result ≡ out_of range operand.now }
{
    let number = number_in(operand)?;
    if range.contains(number) {
        None
    } else {
        Some(Reason::Number(operand.span(), number, range))
    }
}

/// The first number of a statement that isn't in its range.
fn number_reason(statement: &Statement) -> Option<Reason>
    ensures { result ≡ number_reason statement.now }
{
    first_out_of(number_range(statement.meaning())?, statement.operands())
}

/// The same of the statement of a line, where it has one.
pub fn size_reason(statement: Option<&Statement>) -> Option<Reason>
    ensures { result ≡ option_and_then number_reason (option_copied statement.entry) }
{
    number_reason(statement?)
}

fn first_out_of(range: Range, operands: &[Operand]) -> Option<Reason>
    ensures { result ≡ first_reason (out_of range) operands.now }
{
    for operand in operands {
        if let Some(reason) = out_of(range, operand) {
            return Some(reason);
        }
    }
    None
}

/// What is wrong with a label that no line defines.
fn undefined(labels: &Labels, operand: &Operand) -> Option<Reason>
    ensures { result ≡ undefined labels.now operand.now }
{
    match operand {
        Operand::Word(name) if labels.address(name.text()).is_none() => {
            Some(Reason::Undefined(name.span()))
        }
        _ => None,
    }
}

fn first_undefined(labels: &Labels, operands: &[Operand]) -> Option<Reason>
    ensures { result ≡ first_reason (undefined labels.now) operands.now }
{
    for operand in operands {
        if let Some(reason) = undefined(labels, operand) {
            return Some(reason);
        }
    }
    None
}

/// How many of so many operands name no label: all but the last one of a transfer, none of a directive.
fn unnamed(meaning: &Meaning, operands: usize) -> usize
    ensures value { result ≡ unnamed meaning.now operands }
    ensures within { result ≤ operands }
{
    match meaning {
        Meaning::Transfer(_) => operands.saturating_sub(1),
        Meaning::Directive(_) => 0,
        _ => operands,
    }
}

/// Where a jump, a branch or an address leads.
fn target_of<'t, 'a>(transfer: &'t Transfer<'a>) -> Option<&'t Target<'a>>
    ensures { option_copied result ≡ target_of transfer.now }
{
    match transfer {
        Transfer::JumpAndLink(_, target) => Some(target),
        Transfer::Branch(_, _, _, target) => Some(target),
        Transfer::ZeroBranch(_, _, target) => Some(target),
        Transfer::JumpTo(_, target) => Some(target),
        Transfer::LoadAddress(_, target) => Some(target),
        _ => None,
    }
}

/// How far the target of a transfer is from a place, with sign.
fn distance_of(labels: &Labels, place: u32, transfer: &Transfer) -> Option<i64>
    ensures { result ≡ distance_of labels.now place transfer.now }
{
    let target = target_of(transfer)?;
    let distance = labels.distance_to(place, target).ok()?;
    Some(signed(distance))
}

/// What is wrong with a target that is too far from a place.
fn far(labels: &Labels, place: u32, meaning: &Meaning, operands: &[Operand]) -> Option<Reason>
    ensures { result ≡ far labels.now place meaning.now operands.now }
{
    let Meaning::Transfer(transfer) = meaning else {
        return None;
    };
    let range = span_range(transfer)?;
    let target = operands.last()?;
    let distance = distance_of(labels, place, transfer)?;
    Some(Reason::Far(target.span(), distance, range))
}

/// What is wrong with a target that is an odd number of bytes from a place.
fn odd(labels: &Labels, place: u32, meaning: &Meaning, operands: &[Operand]) -> Option<Reason>
    ensures { result ≡ odd labels.now place meaning.now operands.now }
{
    let Meaning::Transfer(transfer) = meaning else {
        return None;
    };
    let target = operands.last()?;
    let distance = distance_of(labels, place, transfer)?;
    Some(Reason::Odd(target.span(), distance))
}

/// Why the operands of a statement that stands at a place are at fault, by the kind of the fault.
fn operand_reason(
    labels: &Labels,
    place: u32,
    statement: &Statement,
    kind: AsmKind,
) -> Option<Reason>
    ensures { result ≡ operand_reason labels.now place statement.now kind }
{
    let (meaning, operands) = (statement.meaning(), statement.operands());
    match kind {
        AsmKind::UndefinedLabel => {
            let (_, named) = operands.split_at(unnamed(meaning, operands.len()));
            first_undefined(labels, named)
        }
        AsmKind::OutOfRange => match number_reason(statement) {
            Some(reason) => Some(reason),
            None => far(labels, place, meaning, operands),
        },
        AsmKind::OddTarget => odd(labels, place, meaning, operands),
        _ => None,
    }
}

/// The same of the statement of a line, where it has one.
pub fn line_reason(
    labels: &Labels,
    place: u32,
    statement: Option<&Statement>,
    kind: AsmKind,
) -> Option<Reason>
    ensures { result ≡ line_reason labels.now place (option_copied statement.entry) kind }
{
    operand_reason(labels, place, statement?, kind)
}

/// Which limit an image that ends there, with so many labels, exceeds.
pub fn too_large(end: u64, labels: usize) -> Reason
    ensures { result ≡ too_large end labels }
{
    let last = u64::from(RAM_BASE) + u64::from(MAX_IMAGE);
    if end > last {
        Reason::Image(end - u64::from(RAM_BASE))
    } else {
        Reason::Labels(labels as u64)
    }
}

/// The first of some lines that defines a label, counted from 1.
pub fn defining_line(lines: &[Line], name: &[u8]) -> Option<u64>
    ensures { result ≡ defining_line 1 lines.now name.now }
{
    let mut number: u64 = 1;
    for line in lines {
        if defines(line.labels(), name) {
            return Some(number);
        }
        number += 1;
    }
    None
}

/// Whether a label has this name.
fn defines(labels: &[Piece], name: &[u8]) -> bool
    ensures { result ≡ list_any (λ label. bytes_eq label.text name.now) labels.now }
{
    labels.iter().any(|label| label.text() == name)
}
