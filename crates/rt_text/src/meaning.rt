//! What a statement means, as an assembler takes it.

mod directives;
mod lists;
mod reading;
mod shapes;

use crate::fence_set::FenceSet;
use crate::operands::Memory;
use crate::operations::{
    BranchOp, ImmediateOp, JumpOp, JumpRegisterOp, LoadOp, PlainOp, RegisterOp, ShiftOp, StoreOp,
    TextOp, UnaryOp, UpperOp, ZeroBranchOp,
};
pub use lists::{Numbers, StringBytes, Targets};
pub(crate) use reading::meaning_of;
use rt_isa::Reg;
use rt_token::Piece;
pub(crate) use shapes::{fence_set, memory_in, number_in, register, target_in, text_in, word_in};

/// Where a jump, a branch or an address leads, or an item of `.word`.
#[derive(Drop)]
pub enum Target<'a> {
    /// A label.
    Label(Piece<'a>),
    /// A number: an absolute address, or the item itself.
    Number(i64),
}

/// What a statement means. Its numbers are those of the source, in range or not.
#[derive(Drop)]
pub enum Meaning<'a> {
    /// An operation on registers, numbers and memory.
    Operation(Operation),
    /// A jump, a branch or an address.
    Transfer(Transfer<'a>),
    /// `fence set,set`: the accesses before it, and those after it.
    Fence(FenceSet, FenceSet),
    /// An instruction without operands.
    Plain(PlainOp),
    /// A directive.
    Directive(Directive<'a>),
}

/// An operation, with its operands in the order of the source.
#[derive(Drop)]
pub enum Operation {
    /// `lui`, `auipc`: the register written, and the upper 20 bits.
    Upper(UpperOp, Reg, i64),
    /// `li`: the register written, and the number.
    LoadNumber(Reg, i64),
    /// An operation with a number, into the first register.
    Immediate(ImmediateOp, Reg, Reg, i64),
    /// A shift by a number, into the first register.
    Shift(ShiftOp, Reg, Reg, i64),
    /// An operation on the last two registers, into the first.
    Register(RegisterOp, Reg, Reg, Reg),
    /// An operation on the second register, into the first.
    Unary(UnaryOp, Reg, Reg),
    /// A load into a register.
    Load(LoadOp, Reg, Memory),
    /// A store of a register.
    Store(StoreOp, Reg, Memory),
}

/// A jump, a branch or an address, with its operands in the order of the source.
#[derive(Drop)]
pub enum Transfer<'a> {
    /// `jal r,t`: the register of the return address, and the target.
    JumpAndLink(Reg, Target<'a>),
    /// `jalr`: the register of the return address, and where to.
    JumpAndLinkRegister(Reg, Memory),
    /// A branch on two registers.
    Branch(BranchOp, Reg, Reg, Target<'a>),
    /// A branch on one register.
    ZeroBranch(ZeroBranchOp, Reg, Target<'a>),
    /// `j`, `call`, `tail`, `jal t`.
    JumpTo(JumpOp, Target<'a>),
    /// `jr r`, `jalr r`.
    JumpRegister(JumpRegisterOp, Reg),
    /// `la`: the register written, and the address.
    LoadAddress(Reg, Target<'a>),
}

/// A directive.
#[derive(Drop)]
pub enum Directive<'a> {
    /// `.text`, `.globl`, `.global`: nothing.
    Nothing,
    /// `.byte`: a byte for each number.
    Bytes(Numbers),
    /// `.half`, `.2byte`: two bytes for each number.
    Halves(Numbers),
    /// `.word`, `.4byte`: four bytes for each number or label.
    Words(Targets<'a>),
    /// `.zero`, `.space`: so many zero bytes.
    Zero(i64),
    /// `.align`, `.p2align`: up to a multiple of this power of 2.
    Align(i64),
    /// `.ascii`, `.asciz`, `.string`: the bytes that the string means.
    Text(TextOp, StringBytes),
}
