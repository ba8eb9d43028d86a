//! Which operands a statement has, by the form of its name.

ghost use Rattle.std.specs.Prelude.{◌≡◌, map};
ghost use Rattle.rt_text.specs.Forms.{form_of};
ghost use Rattle.rt_text.specs.OperandKinds.{is_kind, is_more, operation_shapes, transfer_shapes, directive_shapes, shapes_of, shapes_by};

use crate::forms::{DirectiveForm, Form, OperationForm, TransferForm, form_of};
use crate::meaning::{fence_set, memory_in, number_in, register, target_in, text_in, word_in};
use crate::operands::Operand;

/// What an operand is, as the RISC-V manual calls it.
#[derive(Clone, Copy)]
pub enum OperandKind {
    /// The register that is written.
    Written,
    /// The first register that is read.
    First,
    /// The second register that is read.
    Second,
    /// A number.
    Number,
    /// The number of places of a shift.
    Amount,
    /// A label or an address.
    Target,
    /// A number, and a register in brackets.
    Memory,
    /// The accesses before a fence.
    Before,
    /// The accesses behind it.
    After,
    /// A name.
    Symbol,
    /// A number or a label.
    Item,
    /// A string.
    Text,
    /// Any more numbers, or none.
    MoreNumbers,
    /// Any more items, or none.
    MoreItems,
}

/// The kinds of a statement's operands, in order.
pub type Shape = &'static [OperandKind];

/// Whether an operand may stand where this kind is wanted.
pub(crate) fn is_kind(kind: OperandKind, operand: &Operand<'_>) -> bool
    ensures { result ≡ is_kind kind operand.now }
{
    match kind {
        OperandKind::Written | OperandKind::First | OperandKind::Second => {
            register(operand).is_some()
        }
        OperandKind::Number | OperandKind::Amount | OperandKind::MoreNumbers => {
            number_in(operand).is_some()
        }
        OperandKind::Target | OperandKind::Item | OperandKind::MoreItems => {
            target_in(operand).is_some()
        }
        OperandKind::Memory => memory_in(operand).is_some(),
        OperandKind::Before | OperandKind::After => fence_set(operand).is_some(),
        OperandKind::Symbol => word_in(operand).is_some(),
        OperandKind::Text => text_in(operand).is_some(),
    }
}

/// Whether any number of such operands may stand there, and none.
pub(crate) fn is_more(kind: OperandKind) -> bool
    ensures { result ≡ is_more kind }
{
    matches!(kind, OperandKind::MoreNumbers | OperandKind::MoreItems)
}

fn operation_shapes(form: OperationForm) -> &'static [Shape]
    ensures { map (λ shape. shape.now) result.now ≡ operation_shapes form }
{
    match form {
        OperationForm::Upper(_) | OperationForm::LoadNumber => {
            &[&[OperandKind::Written, OperandKind::Number]]
        }
        OperationForm::Immediate(_) => {
            &[&[
                OperandKind::Written,
                OperandKind::First,
                OperandKind::Number,
            ]]
        }
        OperationForm::Shift(_) => {
            &[&[
                OperandKind::Written,
                OperandKind::First,
                OperandKind::Amount,
            ]]
        }
        OperationForm::Register(_) => {
            &[&[
                OperandKind::Written,
                OperandKind::First,
                OperandKind::Second,
            ]]
        }
        OperationForm::Unary(_) => &[&[OperandKind::Written, OperandKind::First]],
        OperationForm::Load(_) => &[&[OperandKind::Written, OperandKind::Memory]],
        OperationForm::Store(_) => &[&[OperandKind::Second, OperandKind::Memory]],
    }
}

fn transfer_shapes(form: TransferForm) -> &'static [Shape]
    ensures { map (λ shape. shape.now) result.now ≡ transfer_shapes form }
{
    match form {
        TransferForm::JumpAndLink => &[
            &[OperandKind::Written, OperandKind::Target],
            &[OperandKind::Target],
        ],
        TransferForm::JumpAndLinkRegister => &[
            &[OperandKind::Written, OperandKind::Memory],
            &[
                OperandKind::Written,
                OperandKind::First,
                OperandKind::Number,
            ],
            &[OperandKind::Written, OperandKind::First],
            &[OperandKind::First],
        ],
        TransferForm::Branch(_) => {
            &[&[OperandKind::First, OperandKind::Second, OperandKind::Target]]
        }
        TransferForm::ZeroBranch(_) => &[&[OperandKind::First, OperandKind::Target]],
        TransferForm::JumpTo(_) => &[&[OperandKind::Target]],
        TransferForm::JumpRegister => &[&[OperandKind::First]],
        TransferForm::LoadAddress => &[&[OperandKind::Written, OperandKind::Target]],
    }
}

fn directive_shapes(form: DirectiveForm) -> &'static [Shape]
    ensures { map (λ shape. shape.now) result.now ≡ directive_shapes form }
{
    match form {
        DirectiveForm::Section => &[&[]],
        DirectiveForm::Symbol => &[&[OperandKind::Symbol]],
        DirectiveForm::Bytes | DirectiveForm::Halves => {
            &[&[OperandKind::Number, OperandKind::MoreNumbers]]
        }
        DirectiveForm::Words => &[&[OperandKind::Item, OperandKind::MoreItems]],
        DirectiveForm::Zero | DirectiveForm::Align => &[&[OperandKind::Number]],
        DirectiveForm::Text(_) => &[&[OperandKind::Text]],
    }
}

/// The shapes that the operands of a form have, one for each way to write them.
pub(crate) fn shapes_of(form: Form) -> &'static [Shape]
    ensures { map (λ shape. shape.now) result.now ≡ shapes_of form }
{
    match form {
        Form::Operation(form) => operation_shapes(form),
        Form::Transfer(form) => transfer_shapes(form),
        Form::Fence => &[&[], &[OperandKind::Before, OperandKind::After]],
        Form::Plain(_) => &[&[]],
        Form::Directive(form) => directive_shapes(form),
    }
}

/// The shapes that the operands of a statement of this name have; none where no statement has this name.
pub fn shapes_by(name: &[u8]) -> &'static [Shape]
    ensures { map (λ shape. shape.now) result.now ≡ shapes_by (form_of name.now) }
{
    match form_of(name) {
        Some(form) => shapes_of(form),
        None => &[],
    }
}
