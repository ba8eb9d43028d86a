//! The names that a statement may begin with, each with the form of its operands.

mod look_up;

use crate::operations::{
    BranchOp, ImmediateOp, JumpOp, LoadOp, PlainOp, RegisterOp, ShiftOp, StoreOp, TextOp, UnaryOp,
    UpperOp, ZeroBranchOp,
};
pub(crate) use look_up::form_of;
pub use look_up::statement_names;

/// What a name asks of its operands: `r` a register, `n` a number, `t` a target, `m` a memory operand.
#[derive(Clone, Copy)]
pub(crate) enum Form {
    Operation(OperationForm),
    Transfer(TransferForm),
    /// two fence sets, or nothing
    Fence,
    /// nothing
    Plain(PlainOp),
    Directive(DirectiveForm),
}

/// The operands of an operation on registers, numbers and memory.
#[derive(Clone, Copy)]
pub(crate) enum OperationForm {
    /// `r,n`
    Upper(UpperOp),
    /// `r,n`
    LoadNumber,
    /// `r,r,n`
    Immediate(ImmediateOp),
    /// `r,r,n`
    Shift(ShiftOp),
    /// `r,r,r`
    Register(RegisterOp),
    /// `r,r`
    Unary(UnaryOp),
    /// `r,m`
    Load(LoadOp),
    /// `r,m`
    Store(StoreOp),
}

/// The operands of what leads to a target: a jump, a branch, an address.
#[derive(Clone, Copy)]
pub(crate) enum TransferForm {
    /// `r,t` or `t`
    JumpAndLink,
    /// `r,m` or `r,r,n` or `r,r` or `r`
    JumpAndLinkRegister,
    /// `r,r,t`
    Branch(BranchOp),
    /// `r,t`
    ZeroBranch(ZeroBranchOp),
    /// `t`
    JumpTo(JumpOp),
    /// `r`
    JumpRegister,
    /// `r,t`
    LoadAddress,
}

/// The operands of a directive.
#[derive(Clone, Copy)]
pub(crate) enum DirectiveForm {
    /// nothing
    Section,
    /// a word
    Symbol,
    /// one number or more
    Bytes,
    /// one number or more
    Halves,
    /// one or more, each a number or a label
    Words,
    /// a number
    Zero,
    /// a number
    Align,
    /// a string
    Text(TextOp),
}
