//! A word's instruction.

ghost use Rattle.std.specs.Prelude.{◌≡◌, ◌/◌, ◌^◌, bit_and};
ghost use Rattle.rt_isa.specs.Table.{ins};

use crate::fields::{
    b_immediate, i_immediate, j_immediate, order, rd, rs1, rs2, s_immediate, shamt, upper,
};
use crate::instruction::Ins;

/// The instruction of a word; none where no row of RV32I matches it.
pub fn decode(word: u32) -> Option<Ins>
    ensures { result ≡ ins word }
{
    match word & 0x7f {
        0x37 => Some(Ins::Lui(rd(word), upper(word))),
        0x17 => Some(Ins::Auipc(rd(word), upper(word))),
        0x6f => Some(Ins::Jal(rd(word), j_immediate(word))),
        0x67 => jump_by_register(word),
        0x63 => branch(word),
        0x03 => load(word),
        0x23 => store(word),
        0x13 => with_immediate(word),
        0x33 => with_registers(word),
        0x0f => fence(word),
        0x73 => system(word),
        _ => None,
    }
}

fn jump_by_register(word: u32) -> Option<Ins>
    requires { bit_and word 0x7f ≡ 0x67 }
    ensures { result ≡ ins word }
{
    match (word >> 12) & 7 {
        0 => Some(Ins::Jalr(rd(word), rs1(word), i_immediate(word))),
        _ => None,
    }
}

fn branch(word: u32) -> Option<Ins>
    requires { bit_and word 0x7f ≡ 0x63 }
    ensures { result ≡ ins word }
{
    let (left, right, offset) = (rs1(word), rs2(word), b_immediate(word));
    match (word >> 12) & 7 {
        0 => Some(Ins::Beq(left, right, offset)),
        1 => Some(Ins::Bne(left, right, offset)),
        4 => Some(Ins::Blt(left, right, offset)),
        5 => Some(Ins::Bge(left, right, offset)),
        6 => Some(Ins::Bltu(left, right, offset)),
        7 => Some(Ins::Bgeu(left, right, offset)),
        _ => None,
    }
}

fn load(word: u32) -> Option<Ins>
    requires { bit_and word 0x7f ≡ 0x03 }
    ensures { result ≡ ins word }
{
    let (target, base, offset) = (rd(word), rs1(word), i_immediate(word));
    match (word >> 12) & 7 {
        0 => Some(Ins::Lb(target, base, offset)),
        1 => Some(Ins::Lh(target, base, offset)),
        2 => Some(Ins::Lw(target, base, offset)),
        4 => Some(Ins::Lbu(target, base, offset)),
        5 => Some(Ins::Lhu(target, base, offset)),
        _ => None,
    }
}

fn store(word: u32) -> Option<Ins>
    requires { bit_and word 0x7f ≡ 0x23 }
    ensures { result ≡ ins word }
{
    let (base, source, offset) = (rs1(word), rs2(word), s_immediate(word));
    match (word >> 12) & 7 {
        0 => Some(Ins::Sb(base, source, offset)),
        1 => Some(Ins::Sh(base, source, offset)),
        2 => Some(Ins::Sw(base, source, offset)),
        _ => None,
    }
}

fn with_immediate(word: u32) -> Option<Ins>
    requires { bit_and word 0x7f ≡ 0x13 }
    ensures { result ≡ ins word }
{
    let (target, source, value) = (rd(word), rs1(word), i_immediate(word));
    match (word >> 12) & 7 {
        0 => Some(Ins::Addi(target, source, value)),
        1 => shift_left(word),
        2 => Some(Ins::Slti(target, source, value)),
        3 => Some(Ins::Sltiu(target, source, value)),
        4 => Some(Ins::Xori(target, source, value)),
        5 => shift_right(word),
        6 => Some(Ins::Ori(target, source, value)),
        _ => Some(Ins::Andi(target, source, value)),
    }
}

fn shift_left(word: u32) -> Option<Ins>
    requires opcode { bit_and word 0x7f ≡ 0x13 }
    requires funct3 { bit_and (word / 2 ^ 12) 7 ≡ 1 }
    ensures { result ≡ ins word }
{
    match word >> 25 {
        0 => Some(Ins::Slli(rd(word), rs1(word), shamt(word))),
        _ => None,
    }
}

fn shift_right(word: u32) -> Option<Ins>
    requires opcode { bit_and word 0x7f ≡ 0x13 }
    requires funct3 { bit_and (word / 2 ^ 12) 7 ≡ 5 }
    ensures { result ≡ ins word }
{
    match word >> 25 {
        0 => Some(Ins::Srli(rd(word), rs1(word), shamt(word))),
        0x20 => Some(Ins::Srai(rd(word), rs1(word), shamt(word))),
        _ => None,
    }
}

fn with_registers(word: u32) -> Option<Ins>
    requires { bit_and word 0x7f ≡ 0x33 }
    ensures { result ≡ ins word }
{
    match word >> 25 {
        0 => plain_register_row(word),
        0x20 => other_register_row(word),
        _ => None,
    }
}

/// The rows whose upper seven bits are 0.
fn plain_register_row(word: u32) -> Option<Ins>
    requires opcode { bit_and word 0x7f ≡ 0x33 }
    requires funct7 { word / 2 ^ 25 ≡ 0 }
    ensures { result ≡ ins word }
{
    let (target, left, right) = (rd(word), rs1(word), rs2(word));
    match (word >> 12) & 7 {
        0 => Some(Ins::Add(target, left, right)),
        1 => Some(Ins::Sll(target, left, right)),
        2 => Some(Ins::Slt(target, left, right)),
        3 => Some(Ins::Sltu(target, left, right)),
        4 => Some(Ins::Xor(target, left, right)),
        5 => Some(Ins::Srl(target, left, right)),
        6 => Some(Ins::Or(target, left, right)),
        _ => Some(Ins::And(target, left, right)),
    }
}

/// The rows whose upper seven bits are 0x20.
fn other_register_row(word: u32) -> Option<Ins>
    requires opcode { bit_and word 0x7f ≡ 0x33 }
    requires funct7 { word / 2 ^ 25 ≡ 0x20 }
    ensures { result ≡ ins word }
{
    match (word >> 12) & 7 {
        0 => Some(Ins::Sub(rd(word), rs1(word), rs2(word))),
        5 => Some(Ins::Sra(rd(word), rs1(word), rs2(word))),
        _ => None,
    }
}

fn fence(word: u32) -> Option<Ins>
    requires { bit_and word 0x7f ≡ 0x0f }
    ensures { result ≡ ins word }
{
    match (word >> 12) & 7 {
        0 => Some(Ins::Fence(rd(word), rs1(word), order(word))),
        _ => None,
    }
}

fn system(word: u32) -> Option<Ins>
    requires { bit_and word 0x7f ≡ 0x73 }
    ensures { result ≡ ins word }
{
    match word {
        0x0000_0073 => Some(Ins::Ecall),
        0x0010_0073 => Some(Ins::Ebreak),
        _ => None,
    }
}
