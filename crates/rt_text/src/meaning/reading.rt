//! What a name with its operands means.

ghost use Rattle.std.specs.Prelude.{◌≡◌, IfOk};
ghost use Rattle.rt_text.specs.Meaning.{operation_of, jump_and_link, jump_and_link_register, transfer_of, fence, none, meaning_of};
ghost use Rattle.rt_text.specs.declared.meaning.Meaning.TheVariants as meaning;

use super::directives::directive_of;
use super::shapes::{
    register_alone, register_memory, register_number, register_target, target_alone,
    three_registers, two_fence_sets, two_registers, two_registers_number, two_registers_target,
};
use super::{Meaning, Operation, Transfer};
use crate::forms::{Form, OperationForm, TransferForm};
use crate::operands::{Memory, Operand};
use crate::operations::{JumpOp, JumpRegisterOp, PlainOp};
use std::alloc::{AllocError, Global};

/// What the operands mean in this form; none where they don't fit it.
pub(crate) fn meaning_of<'a>(
    alloc: Global,
    form: Form,
    operands: &[Operand<'a>],
) -> Result<Option<Meaning<'a>>, AllocError>
    ensures { IfOk result (λ found. found ≡ meaning_of form operands.now) }
{
    match form {
        Form::Operation(form) => match operation_of(form, operands) {
            Some(operation) => Ok(Some(Meaning::Operation(operation))),
            None => Ok(None),
        },
        Form::Transfer(form) => match transfer_of(form, operands) {
            Some(transfer) => Ok(Some(Meaning::Transfer(transfer))),
            None => Ok(None),
        },
        Form::Fence => Ok(fence(operands)),
        Form::Plain(op) => Ok(plain(op, operands)),
        Form::Directive(form) => match directive_of(alloc, form, operands)? {
            Some(directive) => Ok(Some(Meaning::Directive(directive))),
            None => Ok(None),
        },
    }
}

fn fence<'a>(operands: &[Operand<'a>]) -> Option<Meaning<'a>>
    ensures { result ≡ fence operands.now }
{
    if operands.is_empty() {
        return Some(Meaning::Plain(PlainOp::Fence));
    }
    let (before, after) = two_fence_sets(operands)?;
    Some(Meaning::Fence(before, after))
}

fn plain<'a>(op: PlainOp, operands: &[Operand<'a>]) -> Option<Meaning<'a>>
    ensures { result ≡ none (meaning.Plain op) operands.now }
{
    if operands.is_empty() {
        Some(Meaning::Plain(op))
    } else {
        None
    }
}

fn operation_of(form: OperationForm, operands: &[Operand<'_>]) -> Option<Operation>
    ensures { result ≡ operation_of form operands.now }
{
    match form {
        OperationForm::Upper(op) => {
            let (written, number) = register_number(operands)?;
            Some(Operation::Upper(op, written, number))
        }
        OperationForm::LoadNumber => {
            let (written, number) = register_number(operands)?;
            Some(Operation::LoadNumber(written, number))
        }
        OperationForm::Immediate(op) => {
            let (written, left, number) = two_registers_number(operands)?;
            Some(Operation::Immediate(op, written, left, number))
        }
        OperationForm::Shift(op) => {
            let (written, left, number) = two_registers_number(operands)?;
            Some(Operation::Shift(op, written, left, number))
        }
        OperationForm::Register(op) => {
            let (written, left, right) = three_registers(operands)?;
            Some(Operation::Register(op, written, left, right))
        }
        OperationForm::Unary(op) => {
            let (written, source) = two_registers(operands)?;
            Some(Operation::Unary(op, written, source))
        }
        OperationForm::Load(op) => {
            let (written, memory) = register_memory(operands)?;
            Some(Operation::Load(op, written, memory))
        }
        OperationForm::Store(op) => {
            let (stored, memory) = register_memory(operands)?;
            Some(Operation::Store(op, stored, memory))
        }
    }
}

fn transfer_of<'a>(form: TransferForm, operands: &[Operand<'a>]) -> Option<Transfer<'a>>
    ensures { result ≡ transfer_of form operands.now }
{
    match form {
        TransferForm::JumpAndLink => jump_and_link(operands),
        TransferForm::JumpAndLinkRegister => jump_and_link_register(operands),
        TransferForm::Branch(op) => {
            let (left, right, target) = two_registers_target(operands)?;
            Some(Transfer::Branch(op, left, right, target))
        }
        TransferForm::ZeroBranch(op) => {
            let (tested, target) = register_target(operands)?;
            Some(Transfer::ZeroBranch(op, tested, target))
        }
        TransferForm::JumpTo(op) => {
            let target = target_alone(operands)?;
            Some(Transfer::JumpTo(op, target))
        }
        TransferForm::JumpRegister => {
            let address = register_alone(operands)?;
            Some(Transfer::JumpRegister(JumpRegisterOp::Jr, address))
        }
        TransferForm::LoadAddress => {
            let (written, target) = register_target(operands)?;
            Some(Transfer::LoadAddress(written, target))
        }
    }
}

fn jump_and_link<'a>(operands: &[Operand<'a>]) -> Option<Transfer<'a>>
    ensures { result ≡ jump_and_link operands.now }
{
    if let Some((link, target)) = register_target(operands) {
        return Some(Transfer::JumpAndLink(link, target));
    }
    let target = target_alone(operands)?;
    Some(Transfer::JumpTo(JumpOp::Jal, target))
}

fn jump_and_link_register<'a>(operands: &[Operand<'a>]) -> Option<Transfer<'a>>
    ensures { result ≡ jump_and_link_register operands.now }
{
    if let Some((link, memory)) = register_memory(operands) {
        return Some(Transfer::JumpAndLinkRegister(link, memory));
    }
    if let Some((link, base, offset)) = two_registers_number(operands) {
        return Some(Transfer::JumpAndLinkRegister(link, Memory { offset, base }));
    }
    if let Some((link, base)) = two_registers(operands) {
        let memory = Memory { offset: 0, base };
        return Some(Transfer::JumpAndLinkRegister(link, memory));
    }
    let address = register_alone(operands)?;
    Some(Transfer::JumpRegister(JumpRegisterOp::Jalr, address))
}
