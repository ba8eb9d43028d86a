//! The table of names with their forms.

ghost use Rattle.std.specs.Prelude.{◌≡◌, IfOk, map};
ghost use Rattle.rt_text.specs.Forms.{form_of, forms};

use super::{DirectiveForm, Form, OperationForm, TransferForm};
use crate::names::{names_in, value_at};
use crate::operations::{
    BranchOp, ImmediateOp, JumpOp, LoadOp, PlainOp, RegisterOp, ShiftOp, StoreOp, TextOp, UnaryOp,
    UpperOp, ZeroBranchOp,
};
use std::alloc::{AllocError, Global};

/// The 40 instructions of RV32I, the pseudo-instructions and the directives.
static FORMS: [(&[u8], Form); 80] = [
    (b"lui", Form::Operation(OperationForm::Upper(UpperOp::Lui))),
    (
        b"auipc",
        Form::Operation(OperationForm::Upper(UpperOp::Auipc)),
    ),
    (b"jal", Form::Transfer(TransferForm::JumpAndLink)),
    (b"jalr", Form::Transfer(TransferForm::JumpAndLinkRegister)),
    (b"beq", Form::Transfer(TransferForm::Branch(BranchOp::Beq))),
    (b"bne", Form::Transfer(TransferForm::Branch(BranchOp::Bne))),
    (b"blt", Form::Transfer(TransferForm::Branch(BranchOp::Blt))),
    (b"bge", Form::Transfer(TransferForm::Branch(BranchOp::Bge))),
    (
        b"bltu",
        Form::Transfer(TransferForm::Branch(BranchOp::Bltu)),
    ),
    (
        b"bgeu",
        Form::Transfer(TransferForm::Branch(BranchOp::Bgeu)),
    ),
    (b"lb", Form::Operation(OperationForm::Load(LoadOp::Lb))),
    (b"lh", Form::Operation(OperationForm::Load(LoadOp::Lh))),
    (b"lw", Form::Operation(OperationForm::Load(LoadOp::Lw))),
    (b"lbu", Form::Operation(OperationForm::Load(LoadOp::Lbu))),
    (b"lhu", Form::Operation(OperationForm::Load(LoadOp::Lhu))),
    (b"sb", Form::Operation(OperationForm::Store(StoreOp::Sb))),
    (b"sh", Form::Operation(OperationForm::Store(StoreOp::Sh))),
    (b"sw", Form::Operation(OperationForm::Store(StoreOp::Sw))),
    (
        b"addi",
        Form::Operation(OperationForm::Immediate(ImmediateOp::Addi)),
    ),
    (
        b"slti",
        Form::Operation(OperationForm::Immediate(ImmediateOp::Slti)),
    ),
    (
        b"sltiu",
        Form::Operation(OperationForm::Immediate(ImmediateOp::Sltiu)),
    ),
    (
        b"xori",
        Form::Operation(OperationForm::Immediate(ImmediateOp::Xori)),
    ),
    (
        b"ori",
        Form::Operation(OperationForm::Immediate(ImmediateOp::Ori)),
    ),
    (
        b"andi",
        Form::Operation(OperationForm::Immediate(ImmediateOp::Andi)),
    ),
    (
        b"slli",
        Form::Operation(OperationForm::Shift(ShiftOp::Slli)),
    ),
    (
        b"srli",
        Form::Operation(OperationForm::Shift(ShiftOp::Srli)),
    ),
    (
        b"srai",
        Form::Operation(OperationForm::Shift(ShiftOp::Srai)),
    ),
    (
        b"add",
        Form::Operation(OperationForm::Register(RegisterOp::Add)),
    ),
    (
        b"sub",
        Form::Operation(OperationForm::Register(RegisterOp::Sub)),
    ),
    (
        b"sll",
        Form::Operation(OperationForm::Register(RegisterOp::Sll)),
    ),
    (
        b"slt",
        Form::Operation(OperationForm::Register(RegisterOp::Slt)),
    ),
    (
        b"sltu",
        Form::Operation(OperationForm::Register(RegisterOp::Sltu)),
    ),
    (
        b"xor",
        Form::Operation(OperationForm::Register(RegisterOp::Xor)),
    ),
    (
        b"srl",
        Form::Operation(OperationForm::Register(RegisterOp::Srl)),
    ),
    (
        b"sra",
        Form::Operation(OperationForm::Register(RegisterOp::Sra)),
    ),
    (
        b"or",
        Form::Operation(OperationForm::Register(RegisterOp::Or)),
    ),
    (
        b"and",
        Form::Operation(OperationForm::Register(RegisterOp::And)),
    ),
    (b"fence", Form::Fence),
    (b"ecall", Form::Plain(PlainOp::Ecall)),
    (b"ebreak", Form::Plain(PlainOp::Ebreak)),
    (b"nop", Form::Plain(PlainOp::Nop)),
    (b"mv", Form::Operation(OperationForm::Unary(UnaryOp::Mv))),
    (b"not", Form::Operation(OperationForm::Unary(UnaryOp::Not))),
    (b"neg", Form::Operation(OperationForm::Unary(UnaryOp::Neg))),
    (
        b"seqz",
        Form::Operation(OperationForm::Unary(UnaryOp::Seqz)),
    ),
    (
        b"snez",
        Form::Operation(OperationForm::Unary(UnaryOp::Snez)),
    ),
    (
        b"sltz",
        Form::Operation(OperationForm::Unary(UnaryOp::Sltz)),
    ),
    (
        b"sgtz",
        Form::Operation(OperationForm::Unary(UnaryOp::Sgtz)),
    ),
    (
        b"beqz",
        Form::Transfer(TransferForm::ZeroBranch(ZeroBranchOp::Beqz)),
    ),
    (
        b"bnez",
        Form::Transfer(TransferForm::ZeroBranch(ZeroBranchOp::Bnez)),
    ),
    (
        b"blez",
        Form::Transfer(TransferForm::ZeroBranch(ZeroBranchOp::Blez)),
    ),
    (
        b"bgez",
        Form::Transfer(TransferForm::ZeroBranch(ZeroBranchOp::Bgez)),
    ),
    (
        b"bltz",
        Form::Transfer(TransferForm::ZeroBranch(ZeroBranchOp::Bltz)),
    ),
    (
        b"bgtz",
        Form::Transfer(TransferForm::ZeroBranch(ZeroBranchOp::Bgtz)),
    ),
    (b"bgt", Form::Transfer(TransferForm::Branch(BranchOp::Bgt))),
    (b"ble", Form::Transfer(TransferForm::Branch(BranchOp::Ble))),
    (
        b"bgtu",
        Form::Transfer(TransferForm::Branch(BranchOp::Bgtu)),
    ),
    (
        b"bleu",
        Form::Transfer(TransferForm::Branch(BranchOp::Bleu)),
    ),
    (b"j", Form::Transfer(TransferForm::JumpTo(JumpOp::J))),
    (b"call", Form::Transfer(TransferForm::JumpTo(JumpOp::Call))),
    (b"tail", Form::Transfer(TransferForm::JumpTo(JumpOp::Tail))),
    (b"jr", Form::Transfer(TransferForm::JumpRegister)),
    (b"ret", Form::Plain(PlainOp::Ret)),
    (b"la", Form::Transfer(TransferForm::LoadAddress)),
    (b"li", Form::Operation(OperationForm::LoadNumber)),
    (b".text", Form::Directive(DirectiveForm::Section)),
    (b".globl", Form::Directive(DirectiveForm::Symbol)),
    (b".global", Form::Directive(DirectiveForm::Symbol)),
    (b".byte", Form::Directive(DirectiveForm::Bytes)),
    (b".half", Form::Directive(DirectiveForm::Halves)),
    (b".2byte", Form::Directive(DirectiveForm::Halves)),
    (b".word", Form::Directive(DirectiveForm::Words)),
    (b".4byte", Form::Directive(DirectiveForm::Words)),
    (b".zero", Form::Directive(DirectiveForm::Zero)),
    (b".space", Form::Directive(DirectiveForm::Zero)),
    (b".align", Form::Directive(DirectiveForm::Align)),
    (b".p2align", Form::Directive(DirectiveForm::Align)),
    (
        b".ascii",
        Form::Directive(DirectiveForm::Text(TextOp::Ascii)),
    ),
    (
        b".asciz",
        Form::Directive(DirectiveForm::Text(TextOp::Asciz)),
    ),
    (
        b".string",
        Form::Directive(DirectiveForm::Text(TextOp::Asciz)),
    ),
];

/// Where each of these names stands in the table, by its mark.
static FORM_PLACES: [u8; 256] = [
    0, 0, 0, 0, 2, 0, 0, 0, 0, 68, 79, 0, 78, 0, 0, 0, 34, 25, 0, 16, 67, 0, 0, 40, 0, 48, 0, 0, 0,
    0, 0, 0, 75, 0, 0, 0, 0, 9, 61, 0, 0, 0, 73, 0, 0, 66, 0, 0, 37, 0, 0, 0, 0, 0, 0, 70, 0, 0, 0,
    0, 0, 0, 18, 38, 69, 31, 0, 42, 0, 0, 22, 45, 0, 0, 0, 0, 0, 47, 0, 57, 1, 0, 77, 0, 12, 0, 72,
    0, 0, 0, 0, 7, 51, 0, 0, 0, 39, 0, 0, 63, 0, 0, 56, 0, 0, 0, 0, 6, 0, 0, 10, 0, 0, 0, 0, 65, 0,
    0, 0, 46, 76, 0, 0, 0, 0, 0, 0, 0, 0, 32, 0, 0, 0, 0, 50, 0, 58, 33, 0, 0, 0, 0, 62, 28, 8, 35,
    23, 0, 0, 0, 49, 0, 0, 0, 0, 71, 0, 53, 0, 0, 0, 0, 29, 0, 0, 0, 3, 0, 0, 0, 0, 36, 0, 0, 0, 0,
    11, 0, 0, 0, 0, 0, 0, 17, 0, 0, 0, 64, 0, 19, 5, 26, 0, 59, 0, 0, 0, 41, 55, 52, 0, 44, 0, 0,
    0, 0, 0, 0, 0, 15, 0, 0, 27, 74, 0, 0, 0, 0, 14, 0, 0, 0, 43, 24, 0, 20, 0, 0, 0, 21, 0, 4, 0,
    0, 0, 0, 0, 0, 0, 0, 0, 0, 0, 13, 0, 0, 0, 0, 0, 30, 0, 0, 0, 0, 60, 54,
];

/// What the name of an instruction or a directive asks of its operands; none for another word.
pub(crate) fn form_of(name: &[u8]) -> Option<Form>
    ensures { result ≡ form_of name.now }
{
    value_at(&FORMS, &FORM_PLACES, name)
}

/// The names that a statement may begin with: instructions, pseudo-instructions, directives.
///
/// # Errors
/// Want of memory.
#[tactic(auto, unfolding(crate::specs::Forms::forms))]
pub fn statement_names(alloc: Global) -> Result<Vec<&'static [u8]>, AllocError>
    ensures { IfOk result (λ names. map (λ name. name.now) names.items ≡ map (λ row. row.0) forms) }
{
    names_in(alloc, &FORMS)
}
