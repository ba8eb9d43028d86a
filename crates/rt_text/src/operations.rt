//! The operations that statements name, by the shape of their operands.

/// An instruction with a register and the upper 20 bits of a number.
#[derive(Clone, Copy, PartialEq, Eq)]
pub enum UpperOp {
    /// `lui`
    Lui,
    /// `auipc`
    Auipc,
}

/// A branch that compares two registers.
#[derive(Clone, Copy, PartialEq, Eq)]
pub enum BranchOp {
    /// `beq`
    Beq,
    /// `bne`
    Bne,
    /// `blt`
    Blt,
    /// `bge`
    Bge,
    /// `bltu`
    Bltu,
    /// `bgeu`
    Bgeu,
    /// `bgt`
    Bgt,
    /// `ble`
    Ble,
    /// `bgtu`
    Bgtu,
    /// `bleu`
    Bleu,
}

/// A branch that compares a register with 0.
#[derive(Clone, Copy, PartialEq, Eq)]
pub enum ZeroBranchOp {
    /// `beqz`
    Beqz,
    /// `bnez`
    Bnez,
    /// `blez`
    Blez,
    /// `bgez`
    Bgez,
    /// `bltz`
    Bltz,
    /// `bgtz`
    Bgtz,
}

/// A load from memory.
#[derive(Clone, Copy, PartialEq, Eq)]
pub enum LoadOp {
    /// `lb`
    Lb,
    /// `lh`
    Lh,
    /// `lw`
    Lw,
    /// `lbu`
    Lbu,
    /// `lhu`
    Lhu,
}

/// A store to memory.
#[derive(Clone, Copy, PartialEq, Eq)]
pub enum StoreOp {
    /// `sb`
    Sb,
    /// `sh`
    Sh,
    /// `sw`
    Sw,
}

/// An operation on a register and a number.
#[derive(Clone, Copy, PartialEq, Eq)]
pub enum ImmediateOp {
    /// `addi`
    Addi,
    /// `slti`
    Slti,
    /// `sltiu`
    Sltiu,
    /// `xori`
    Xori,
    /// `ori`
    Ori,
    /// `andi`
    Andi,
}

/// A shift of a register by a number.
#[derive(Clone, Copy, PartialEq, Eq)]
pub enum ShiftOp {
    /// `slli`
    Slli,
    /// `srli`
    Srli,
    /// `srai`
    Srai,
}

/// An operation on two registers.
#[derive(Clone, Copy, PartialEq, Eq)]
pub enum RegisterOp {
    /// `add`
    Add,
    /// `sub`
    Sub,
    /// `sll`
    Sll,
    /// `slt`
    Slt,
    /// `sltu`
    Sltu,
    /// `xor`
    Xor,
    /// `srl`
    Srl,
    /// `sra`
    Sra,
    /// `or`
    Or,
    /// `and`
    And,
}

/// A pseudo-instruction on one register.
#[derive(Clone, Copy, PartialEq, Eq)]
pub enum UnaryOp {
    /// `mv`
    Mv,
    /// `not`
    Not,
    /// `neg`
    Neg,
    /// `seqz`
    Seqz,
    /// `snez`
    Snez,
    /// `sltz`
    Sltz,
    /// `sgtz`
    Sgtz,
}

/// An instruction without operands.
#[derive(Clone, Copy, PartialEq, Eq)]
pub enum PlainOp {
    /// `nop`
    Nop,
    /// `ret`
    Ret,
    /// `ecall`
    Ecall,
    /// `ebreak`
    Ebreak,
    /// `fence`
    Fence,
}

/// A jump to a target.
#[derive(Clone, Copy, PartialEq, Eq)]
pub enum JumpOp {
    /// `j`
    J,
    /// `jal`
    Jal,
    /// `call`
    Call,
    /// `tail`
    Tail,
}

/// A jump to the address in a register.
#[derive(Clone, Copy, PartialEq, Eq)]
pub enum JumpRegisterOp {
    /// `jr`
    Jr,
    /// `jalr`
    Jalr,
}

/// A directive whose data are a string: as it is, or with a zero byte after it.
#[derive(Clone, Copy, PartialEq, Eq)]
pub enum TextOp {
    /// `.ascii`
    Ascii,
    /// `.asciz`
    Asciz,
}
