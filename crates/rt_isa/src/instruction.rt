//! The instructions.

use crate::number::{Imm12, Off13, Off21, Order12, Reg, Shamt, Upper20};

/// An instruction of RV32I with its fields, in the order of the table of rows.
///
/// Fields come in the order rd, rs1, rs2, immediate, as far as a form has them: a load is
/// `(rd, base, offset)`, a store `(base, stored register, offset)`, a branch `(rs1, rs2, distance)`.
#[derive(Clone, Copy)]
pub enum Ins {
    Lui(Reg, Upper20),
    Auipc(Reg, Upper20),
    Jal(Reg, Off21),
    Jalr(Reg, Reg, Imm12),
    Beq(Reg, Reg, Off13),
    Bne(Reg, Reg, Off13),
    Blt(Reg, Reg, Off13),
    Bge(Reg, Reg, Off13),
    Bltu(Reg, Reg, Off13),
    Bgeu(Reg, Reg, Off13),
    Lb(Reg, Reg, Imm12),
    Lh(Reg, Reg, Imm12),
    Lw(Reg, Reg, Imm12),
    Lbu(Reg, Reg, Imm12),
    Lhu(Reg, Reg, Imm12),
    Sb(Reg, Reg, Imm12),
    Sh(Reg, Reg, Imm12),
    Sw(Reg, Reg, Imm12),
    Addi(Reg, Reg, Imm12),
    Slti(Reg, Reg, Imm12),
    Sltiu(Reg, Reg, Imm12),
    Xori(Reg, Reg, Imm12),
    Ori(Reg, Reg, Imm12),
    Andi(Reg, Reg, Imm12),
    Slli(Reg, Reg, Shamt),
    Srli(Reg, Reg, Shamt),
    Srai(Reg, Reg, Shamt),
    Add(Reg, Reg, Reg),
    Sub(Reg, Reg, Reg),
    Sll(Reg, Reg, Reg),
    Slt(Reg, Reg, Reg),
    Sltu(Reg, Reg, Reg),
    Xor(Reg, Reg, Reg),
    Srl(Reg, Reg, Reg),
    Sra(Reg, Reg, Reg),
    Or(Reg, Reg, Reg),
    And(Reg, Reg, Reg),
    /// All 22 free bits are kept: rd, rs1 and the upper 12.
    Fence(Reg, Reg, Order12),
    Ecall,
    Ebreak,
}
