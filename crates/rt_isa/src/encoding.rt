//! An instruction's word.

ghost use Rattle.std.specs.Prelude.{◌≡◌, ◌<◌, ◌+◌, ◌*◌, ◌^◌, ◌%◌, ℕ, ℤ, Some, bit_and};
ghost use Rattle.rt_isa.specs.Bits.{signed};
ghost use Rattle.rt_isa.specs.Table.{Writing, ins, m7, m10, m17, R, I, Shift, S, B, U, J, Ordering};
ghost use Rattle.rt_isa.specs.Numbers.{IsRegister};
ghost use Rattle.rt_isa.specs.Working.Words.{HasRow};
ghost use Rattle.rt_isa.specs.declared.instruction.Ins.{Ins};

use crate::instruction::Ins;
use crate::number::{Imm12, Off13, Off21, Order12, Reg, Shamt, Upper20};

/// The word of an instruction: the only one whose row and fields make it (ISA 2.2 and 2.3). So
/// the word of what a word is decoded to is this word again.
#[tactic(auto, using(crate::proofs::Words::one_word))]
pub fn encode(instruction: Ins) -> u32
    ensures row { ins result ≡ Some instruction }
    ensures back { (w : ℕ) → w < 2 ^ 32 → ins w ≡ Some instruction → result ≡ w }
{
    word_of(instruction)
}

/// The word of the instruction's row with its fields.
fn word_of(instruction: Ins) -> u32
    ensures { ins result ≡ Some instruction }
{
    match instruction {
        Ins::Lui(target, value) => u_type(0x37, target, value),
        Ins::Auipc(target, value) => u_type(0x17, target, value),
        Ins::Jal(target, offset) => j_type(0x6f, target, offset),
        Ins::Jalr(target, base, offset) => i_type(0x67, target, base, offset),
        Ins::Beq(left, right, offset) => b_type(0x63, left, right, offset),
        Ins::Bne(left, right, offset) => b_type(0x1063, left, right, offset),
        Ins::Blt(left, right, offset) => b_type(0x4063, left, right, offset),
        Ins::Bge(left, right, offset) => b_type(0x5063, left, right, offset),
        Ins::Bltu(left, right, offset) => b_type(0x6063, left, right, offset),
        Ins::Bgeu(left, right, offset) => b_type(0x7063, left, right, offset),
        Ins::Lb(target, base, offset) => i_type(0x03, target, base, offset),
        Ins::Lh(target, base, offset) => i_type(0x1003, target, base, offset),
        Ins::Lw(target, base, offset) => i_type(0x2003, target, base, offset),
        Ins::Lbu(target, base, offset) => i_type(0x4003, target, base, offset),
        Ins::Lhu(target, base, offset) => i_type(0x5003, target, base, offset),
        Ins::Sb(base, source, offset) => s_type(0x23, base, source, offset),
        Ins::Sh(base, source, offset) => s_type(0x1023, base, source, offset),
        Ins::Sw(base, source, offset) => s_type(0x2023, base, source, offset),
        Ins::Addi(target, source, value) => i_type(0x13, target, source, value),
        Ins::Slti(target, source, value) => i_type(0x2013, target, source, value),
        Ins::Sltiu(target, source, value) => i_type(0x3013, target, source, value),
        Ins::Xori(target, source, value) => i_type(0x4013, target, source, value),
        Ins::Ori(target, source, value) => i_type(0x6013, target, source, value),
        Ins::Andi(target, source, value) => i_type(0x7013, target, source, value),
        Ins::Slli(target, source, amount) => shift_type(0x1013, target, source, amount),
        Ins::Srli(target, source, amount) => shift_type(0x5013, target, source, amount),
        Ins::Srai(target, source, amount) => shift_type(0x4000_5013, target, source, amount),
        Ins::Add(target, left, right) => r_type(0x33, target, left, right),
        Ins::Sub(target, left, right) => r_type(0x4000_0033, target, left, right),
        Ins::Sll(target, left, right) => r_type(0x1033, target, left, right),
        Ins::Slt(target, left, right) => r_type(0x2033, target, left, right),
        Ins::Sltu(target, left, right) => r_type(0x3033, target, left, right),
        Ins::Xor(target, left, right) => r_type(0x4033, target, left, right),
        Ins::Srl(target, left, right) => r_type(0x5033, target, left, right),
        Ins::Sra(target, left, right) => r_type(0x4000_5033, target, left, right),
        Ins::Or(target, left, right) => r_type(0x6033, target, left, right),
        Ins::And(target, left, right) => r_type(0x7033, target, left, right),
        Ins::Fence(target, source, order) => ordering(0x0f, target, source, order),
        Ins::Ecall => 0x0000_0073,
        Ins::Ebreak => 0x0010_0073,
    }
}

/// The word of a row, given by its match, with rd, rs1 and rs2.
fn r_type(row: u32, target: Reg, left: Reg, right: Reg) -> u32
    requires { bit_and row m17 ≡ row }
    ensures { (make : ℕ → ℕ → ℕ → Ins) → HasRow m17 row (R make) → ins result ≡ Some (make target left right) }
{
    let registers = (u32::from(left.number()) << 15) + (u32::from(right.number()) << 20);
    row + (u32::from(target.number()) << 7) + registers
}

fn shift_type(row: u32, target: Reg, source: Reg, amount: Shamt) -> u32
    requires { bit_and row m17 ≡ row }
    ensures { (make : ℕ → ℕ → ℕ → Ins) → HasRow m17 row (Shift make) → ins result ≡ Some (make target source amount) }
{
    let source = (u32::from(source.number()) << 15) + (u32::from(amount.bits()) << 20);
    row + (u32::from(target.number()) << 7) + source
}

/// A row with rd, rs1 and 12 upper bits.
fn with_upper_bits(row: u32, target: Reg, source: Reg, bits: u32) -> u32
    requires row { bit_and row m10 ≡ row }
    requires bits { bits < 2 ^ 12 }
    ensures target { IsRegister target }
    ensures source { IsRegister source }
    ensures sum { result ≡ row + target * 2 ^ 7 + source * 2 ^ 15 + bits * 2 ^ 20 }
{
    let registers = (u32::from(target.number()) << 7) + (u32::from(source.number()) << 15);
    row + registers + (bits << 20)
}

fn i_type(row: u32, target: Reg, source: Reg, value: Imm12) -> u32
    requires { bit_and row m10 ≡ row }
    ensures { (writing : Writing) (make : ℕ → ℕ → ℤ → Ins) → HasRow m10 row (I writing make) → ins result ≡ Some (make target source value) }
{
    with_upper_bits(row, target, source, immediate_bits(value))
}

fn ordering(row: u32, target: Reg, source: Reg, order: Order12) -> u32
    requires { bit_and row m10 ≡ row }
    ensures { (make : ℕ → ℕ → ℕ → Ins) → HasRow m10 row (Ordering make) → ins result ≡ Some (make target source order) }
{
    with_upper_bits(row, target, source, u32::from(order.value()))
}

fn s_type(row: u32, base: Reg, source: Reg, offset: Imm12) -> u32
    requires { bit_and row m10 ≡ row }
    ensures { (make : ℕ → ℕ → ℤ → Ins) → HasRow m10 row (S make) → ins result ≡ Some (make base source offset) }
{
    let bits = immediate_bits(offset);
    let registers = (u32::from(base.number()) << 15) + (u32::from(source.number()) << 20);
    row + ((bits & 31) << 7) + registers + ((bits >> 5) << 25)
}

fn b_type(row: u32, left: Reg, right: Reg, offset: Off13) -> u32
    requires { bit_and row m10 ≡ row }
    ensures { (make : ℕ → ℕ → ℤ → Ins) → HasRow m10 row (B make) → ins result ≡ Some (make left right offset) }
{
    let bits = branch_bits(offset);
    let low = (((bits >> 11) & 1) << 7) + (((bits >> 1) & 15) << 8);
    let registers = (u32::from(left.number()) << 15) + (u32::from(right.number()) << 20);
    let high = (((bits >> 5) & 63) << 25) + ((bits >> 12) << 31);
    row + low + registers + high
}

fn u_type(row: u32, target: Reg, value: Upper20) -> u32
    requires { bit_and row m7 ≡ row }
    ensures { (make : ℕ → ℕ → Ins) → HasRow m7 row (U make) → ins result ≡ Some (make target value) }
{
    row + (u32::from(target.number()) << 7) + (value.value() << 12)
}

fn j_type(row: u32, target: Reg, offset: Off21) -> u32
    requires { bit_and row m7 ≡ row }
    ensures { (make : ℕ → ℤ → Ins) → HasRow m7 row (J make) → ins result ≡ Some (make target offset) }
{
    let bits = jump_bits(offset);
    let low = (((bits >> 12) & 255) << 12) + (((bits >> 11) & 1) << 20);
    let high = (((bits >> 1) & 1023) << 21) + ((bits >> 20) << 31);
    row + (u32::from(target.number()) << 7) + low + high
}

/// The 12 bits of an immediate in two's complement.
#[tactic(auto, unfolding(crate::specs::Bits::signed))]
fn immediate_bits(immediate: Imm12) -> u32
    ensures bound { result < 2 ^ 12 }
    ensures value { signed 12 result ≡ immediate }
{
    let value = i32::from(immediate.value());
    if value < 0 {
        (value + 4096) as u32
    } else {
        value as u32
    }
}

/// The 13 bits of a branch's distance in two's complement.
#[tactic(auto, unfolding(crate::specs::Bits::signed))]
fn branch_bits(offset: Off13) -> u32
    ensures bound { result < 2 ^ 13 }
    ensures even { result % 2 ≡ 0 }
    ensures value { signed 13 result ≡ offset }
{
    let value = i32::from(offset.value());
    if value < 0 {
        (value + 8192) as u32
    } else {
        value as u32
    }
}

/// The 21 bits of a jump's distance in two's complement.
#[tactic(auto, unfolding(crate::specs::Bits::signed))]
fn jump_bits(offset: Off21) -> u32
    ensures bound { result < 2 ^ 21 }
    ensures even { result % 2 ≡ 0 }
    ensures value { signed 21 result ≡ offset }
{
    let value = offset.value();
    if value < 0 {
        (value + 2_097_152) as u32
    } else {
        value as u32
    }
}
