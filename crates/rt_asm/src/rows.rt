//! The instructions that mnemonics name, and the pseudo-instructions of one row.

ghost use Rattle.std.specs.Prelude.{◌≡◌, ◌<◌, ◌+◌, ◌*◌};
ghost use Rattle.rt_isa.specs.Numbers.{IsRegister, IsImmediate};
ghost use Rattle.rt_isa.specs.declared.instruction.Ins.TheVariants as row;
ghost use Rattle.rt_asm.specs.Rows as rows;

use rt_isa::{Imm12, Ins, Off13, Order12, Reg, Shamt, Upper20};
use rt_text::{
    BranchOp, ImmediateOp, JumpRegisterOp, LoadOp, PlainOp, RegisterOp, ShiftOp, StoreOp, UnaryOp,
    UpperOp, ZeroBranchOp,
};

/// The register of this number, 0 to 31.
pub fn register_of(number: u8) -> Reg
    requires { IsRegister number }
    ensures { result ≡ number }
{
    Reg::new(number).unwrap()
}

/// A small immediate.
fn small(value: i16) -> Imm12
    requires { IsImmediate value }
    ensures { result ≡ value }
{
    Imm12::new(value).unwrap()
}

pub fn upper(op: UpperOp, target: Reg, value: Upper20) -> Ins
    ensures { result ≡ rows.upper op target value }
{
    match op {
        UpperOp::Lui => Ins::Lui(target, value),
        UpperOp::Auipc => Ins::Auipc(target, value),
    }
}

pub fn branch(op: BranchOp, left: Reg, right: Reg, distance: Off13) -> Ins
    ensures { result ≡ rows.branch op left right distance }
{
    match op {
        BranchOp::Beq => Ins::Beq(left, right, distance),
        BranchOp::Bne => Ins::Bne(left, right, distance),
        BranchOp::Blt => Ins::Blt(left, right, distance),
        BranchOp::Bge => Ins::Bge(left, right, distance),
        BranchOp::Bltu => Ins::Bltu(left, right, distance),
        BranchOp::Bgeu => Ins::Bgeu(left, right, distance),
        BranchOp::Bgt => Ins::Blt(right, left, distance),
        BranchOp::Ble => Ins::Bge(right, left, distance),
        BranchOp::Bgtu => Ins::Bltu(right, left, distance),
        BranchOp::Bleu => Ins::Bgeu(right, left, distance),
    }
}

pub fn zero_branch(op: ZeroBranchOp, source: Reg, distance: Off13) -> Ins
    ensures { result ≡ rows.zero_branch op source distance }
{
    let zero = register_of(0);
    match op {
        ZeroBranchOp::Beqz => Ins::Beq(source, zero, distance),
        ZeroBranchOp::Bnez => Ins::Bne(source, zero, distance),
        ZeroBranchOp::Blez => Ins::Bge(zero, source, distance),
        ZeroBranchOp::Bgez => Ins::Bge(source, zero, distance),
        ZeroBranchOp::Bltz => Ins::Blt(source, zero, distance),
        ZeroBranchOp::Bgtz => Ins::Blt(zero, source, distance),
    }
}

pub fn load(op: LoadOp, target: Reg, base: Reg, offset: Imm12) -> Ins
    ensures { result ≡ rows.load op target base offset }
{
    match op {
        LoadOp::Lb => Ins::Lb(target, base, offset),
        LoadOp::Lh => Ins::Lh(target, base, offset),
        LoadOp::Lw => Ins::Lw(target, base, offset),
        LoadOp::Lbu => Ins::Lbu(target, base, offset),
        LoadOp::Lhu => Ins::Lhu(target, base, offset),
    }
}

pub fn store(op: StoreOp, base: Reg, source: Reg, offset: Imm12) -> Ins
    ensures { result ≡ rows.store op base source offset }
{
    match op {
        StoreOp::Sb => Ins::Sb(base, source, offset),
        StoreOp::Sh => Ins::Sh(base, source, offset),
        StoreOp::Sw => Ins::Sw(base, source, offset),
    }
}

pub fn immediate(op: ImmediateOp, target: Reg, source: Reg, value: Imm12) -> Ins
    ensures { result ≡ rows.immediate op target source value }
{
    match op {
        ImmediateOp::Addi => Ins::Addi(target, source, value),
        ImmediateOp::Slti => Ins::Slti(target, source, value),
        ImmediateOp::Sltiu => Ins::Sltiu(target, source, value),
        ImmediateOp::Xori => Ins::Xori(target, source, value),
        ImmediateOp::Ori => Ins::Ori(target, source, value),
        ImmediateOp::Andi => Ins::Andi(target, source, value),
    }
}

pub fn shift(op: ShiftOp, target: Reg, source: Reg, amount: Shamt) -> Ins
    ensures { result ≡ rows.shift op target source amount }
{
    match op {
        ShiftOp::Slli => Ins::Slli(target, source, amount),
        ShiftOp::Srli => Ins::Srli(target, source, amount),
        ShiftOp::Srai => Ins::Srai(target, source, amount),
    }
}

pub fn register(op: RegisterOp, target: Reg, left: Reg, right: Reg) -> Ins
    ensures { result ≡ rows.register op target left right }
{
    match op {
        RegisterOp::Add => Ins::Add(target, left, right),
        RegisterOp::Sub => Ins::Sub(target, left, right),
        RegisterOp::Sll => Ins::Sll(target, left, right),
        RegisterOp::Slt => Ins::Slt(target, left, right),
        RegisterOp::Sltu => Ins::Sltu(target, left, right),
        RegisterOp::Xor => Ins::Xor(target, left, right),
        RegisterOp::Srl => Ins::Srl(target, left, right),
        RegisterOp::Sra => Ins::Sra(target, left, right),
        RegisterOp::Or => Ins::Or(target, left, right),
        RegisterOp::And => Ins::And(target, left, right),
    }
}

pub fn unary(op: UnaryOp, target: Reg, source: Reg) -> Ins
    ensures { result ≡ rows.unary op target source }
{
    let zero = register_of(0);
    match op {
        UnaryOp::Mv => Ins::Addi(target, source, small(0)),
        UnaryOp::Not => Ins::Xori(target, source, small(-1)),
        UnaryOp::Neg => Ins::Sub(target, zero, source),
        UnaryOp::Seqz => Ins::Sltiu(target, source, small(1)),
        UnaryOp::Snez => Ins::Sltu(target, zero, source),
        UnaryOp::Sltz => Ins::Slt(target, source, zero),
        UnaryOp::Sgtz => Ins::Slt(target, zero, source),
    }
}

/// `fence` alone orders all accesses.
pub fn plain(op: PlainOp) -> Ins
    ensures { result ≡ rows.plain op }
{
    let zero = register_of(0);
    match op {
        PlainOp::Nop => Ins::Addi(zero, zero, small(0)),
        PlainOp::Ret => Ins::Jalr(zero, register_of(1), small(0)),
        PlainOp::Ecall => Ins::Ecall,
        PlainOp::Ebreak => Ins::Ebreak,
        PlainOp::Fence => fence(15, 15),
    }
}

/// A fence of two sets of accesses, each of four bits.
pub fn fence(before: u8, after: u8) -> Ins
    requires before { before < 16 }
    requires after { after < 16 }
    ensures { result ≡ row.Fence 0 0 (before * 16 + after) }
{
    let zero = register_of(0);
    let order = u16::from(before) * 16 + u16::from(after);
    Ins::Fence(zero, zero, Order12::new(order).unwrap())
}

pub fn jump_register(op: JumpRegisterOp, base: Reg) -> Ins
    ensures { result ≡ rows.jump_register op base }
{
    match op {
        JumpRegisterOp::Jr => Ins::Jalr(register_of(0), base, small(0)),
        JumpRegisterOp::Jalr => Ins::Jalr(register_of(1), base, small(0)),
    }
}
