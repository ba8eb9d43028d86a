//! The names of instructions.

ghost use Rattle.std.specs.Prelude.{◌≡◌, ◌≤◌, length};
ghost use Rattle.rt_isa.specs.Working.Names.{name_of};

use crate::instruction::Ins;

/// The name of an instruction, of at most 6 bytes.
#[inline(always)]
#[tactic(auto, unfolding(crate::specs::Working::Names::name_of))]
pub(crate) fn name_of(instruction: &Ins) -> &'static [u8]
    ensures name { result.now ≡ name_of instruction.now }
    ensures short { length result.now ≤ 6 }
{
    match *instruction {
        Ins::Lui(..) => b"lui",
        Ins::Auipc(..) => b"auipc",
        Ins::Jal(..) => b"jal",
        Ins::Jalr(..) => b"jalr",
        Ins::Beq(..) => b"beq",
        Ins::Bne(..) => b"bne",
        Ins::Blt(..) => b"blt",
        Ins::Bge(..) => b"bge",
        Ins::Bltu(..) => b"bltu",
        Ins::Bgeu(..) => b"bgeu",
        Ins::Lb(..) => b"lb",
        Ins::Lh(..) => b"lh",
        Ins::Lw(..) => b"lw",
        Ins::Lbu(..) => b"lbu",
        Ins::Lhu(..) => b"lhu",
        Ins::Sb(..) => b"sb",
        Ins::Sh(..) => b"sh",
        Ins::Sw(..) => b"sw",
        Ins::Addi(..) => b"addi",
        Ins::Slti(..) => b"slti",
        Ins::Sltiu(..) => b"sltiu",
        Ins::Xori(..) => b"xori",
        Ins::Ori(..) => b"ori",
        Ins::Andi(..) => b"andi",
        Ins::Slli(..) => b"slli",
        Ins::Srli(..) => b"srli",
        Ins::Srai(..) => b"srai",
        Ins::Add(..) => b"add",
        Ins::Sub(..) => b"sub",
        Ins::Sll(..) => b"sll",
        Ins::Slt(..) => b"slt",
        Ins::Sltu(..) => b"sltu",
        Ins::Xor(..) => b"xor",
        Ins::Srl(..) => b"srl",
        Ins::Sra(..) => b"sra",
        Ins::Or(..) => b"or",
        Ins::And(..) => b"and",
        Ins::Fence(..) => b"fence",
        Ins::Ecall => b"ecall",
        Ins::Ebreak => b"ebreak",
    }
}
