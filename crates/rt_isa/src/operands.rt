//! The operands of an instruction, as they are written.

ghost use Rattle.std.specs.Prelude.{◌≡◌, ◌+◌, ◌<◌, ◌≤◌, ◌++◌, Some, None, true, false, codes, decimal, length};
ghost use Rattle.std.specs.Fmt.{signed_decimal};
ghost use Rattle.std.specs.Option.{option_map};
ghost use Rattle.arrayvec.specs.ArrayVec.{array_vec_len};
ghost use Rattle.rt_words.specs.Hex.{hex};
ghost use Rattle.rt_isa.specs.Bits.{slice};
ghost use Rattle.rt_isa.specs.Print.{fence_operands, letters, register, target, written};
ghost use Rattle.rt_isa.specs.Working.InstructionOperands.{operands_of};

use crate::instruction::Ins;
use crate::number::{Imm12, Off13, Off21, Order12, Reg, Shamt, Upper20};
use arrayvec::ArrayVec;
use itoa::Buffer;
use rt_sink::{push_byte, push_text};
use rt_words::hex_word;

/// The bytes that the line of a word can hold.
pub const WORD_LINE_LEN: usize = 64;

/// The line of a word as it is built up.
pub type WordLine = ArrayVec<u8, WORD_LINE_LEN>;

/// Appends the operands of an instruction at an address: at most 19 bytes. False, and nothing, for a
/// FENCE that has no text of its own.
#[inline(always)]
#[tactic(auto, unfolding(crate::specs::Working::InstructionOperands::operands_of))]
pub(crate) fn push_operands(line: &mut WordLine, pc: u32, instruction: Ins) -> bool
    requires { array_vec_len line.old + 19 ≤ WORD_LINE_LEN }
    ensures text { result ≡ true → option_map (λ o. line.old.items ++ written o) (operands_of pc instruction) ≡ Some line.new.items }
    ensures none { result ≡ false → operands_of pc instruction ≡ None }
    ensures kept { result ≡ false → line.new.items ≡ line.old.items }
    ensures room { array_vec_len line.new ≤ array_vec_len line.old + 19 }
{
    match instruction {
        Ins::Lui(rd, value) | Ins::Auipc(rd, value) => push_upper(line, rd, value),
        Ins::Jal(rd, offset) => push_jump(line, pc, rd, offset),
        Ins::Beq(rs1, rs2, offset)
        | Ins::Bne(rs1, rs2, offset)
        | Ins::Blt(rs1, rs2, offset)
        | Ins::Bge(rs1, rs2, offset)
        | Ins::Bltu(rs1, rs2, offset)
        | Ins::Bgeu(rs1, rs2, offset) => push_branch(line, pc, rs1, rs2, offset),
        Ins::Jalr(register, base, offset)
        | Ins::Lb(register, base, offset)
        | Ins::Lh(register, base, offset)
        | Ins::Lw(register, base, offset)
        | Ins::Lbu(register, base, offset)
        | Ins::Lhu(register, base, offset)
        | Ins::Sb(base, register, offset)
        | Ins::Sh(base, register, offset)
        | Ins::Sw(base, register, offset) => push_memory(line, register, offset, base),
        Ins::Addi(rd, rs1, value)
        | Ins::Slti(rd, rs1, value)
        | Ins::Sltiu(rd, rs1, value)
        | Ins::Xori(rd, rs1, value)
        | Ins::Ori(rd, rs1, value)
        | Ins::Andi(rd, rs1, value) => push_immediate(line, rd, rs1, value),
        Ins::Slli(rd, rs1, amount) | Ins::Srli(rd, rs1, amount) | Ins::Srai(rd, rs1, amount) => {
            push_shift(line, rd, rs1, amount)
        }
        Ins::Add(rd, rs1, rs2)
        | Ins::Sub(rd, rs1, rs2)
        | Ins::Sll(rd, rs1, rs2)
        | Ins::Slt(rd, rs1, rs2)
        | Ins::Sltu(rd, rs1, rs2)
        | Ins::Xor(rd, rs1, rs2)
        | Ins::Srl(rd, rs1, rs2)
        | Ins::Sra(rd, rs1, rs2)
        | Ins::Or(rd, rs1, rs2)
        | Ins::And(rd, rs1, rs2) => push_registers(line, rd, rs1, rs2),
        Ins::Fence(rd, rs1, order) => return push_fence(line, rd, rs1, order),
        Ins::Ecall | Ins::Ebreak => {}
    }
    true
}

/// The address at this distance, modulo 2^32.
fn address(pc: u32, offset: i32) -> u32
    ensures { result ≡ target pc offset }
{
    pc.wrapping_add_signed(offset)
}

/// Appends a number below 100.
#[inline(always)]
fn push_small(line: &mut WordLine, number: u8)
    requires small { number < 100 }
    requires room { array_vec_len line.old + 2 ≤ WORD_LINE_LEN }
    ensures text { line.new.items ≡ line.old.items ++ decimal number }
    ensures room { array_vec_len line.new ≤ array_vec_len line.old + 2 }
{
    if number < 10 {
        push_byte(line, b'0' + number);
        return;
    }
    push_byte(line, b'0' + number / 10);
    push_byte(line, b'0' + number % 10);
}

/// Appends an immediate, with its sign where it is negative.
#[inline(always)]
fn push_signed(line: &mut WordLine, number: i16)
    requires { array_vec_len line.old + 6 ≤ WORD_LINE_LEN }
    ensures text { line.new.items ≡ line.old.items ++ signed_decimal number }
    ensures room { array_vec_len line.new ≤ array_vec_len line.old + 6 }
{
    let mut digits = Buffer::new();
    push_text(line, digits.format(number).as_bytes());
}

/// Appends a register by its number.
#[inline(always)]
fn push_register(line: &mut WordLine, named: Reg)
    requires { array_vec_len line.old + 3 ≤ WORD_LINE_LEN }
    ensures text { line.new.items ≡ line.old.items ++ register named }
    ensures room { array_vec_len line.new ≤ array_vec_len line.old + 3 }
{
    push_byte(line, b'x');
    push_small(line, named.number());
}

/// Appends a space and the first operand.
#[inline(always)]
fn push_first(line: &mut WordLine, first: Reg)
    requires { array_vec_len line.old + 4 ≤ WORD_LINE_LEN }
    ensures text { line.new.items ≡ line.old.items ++ codes " " ++ register first }
    ensures room { array_vec_len line.new ≤ array_vec_len line.old + 4 }
{
    push_byte(line, b' ');
    push_register(line, first);
}

/// Appends a space and the first two operands.
#[inline(always)]
fn push_pair(line: &mut WordLine, first: Reg, second: Reg)
    requires { array_vec_len line.old + 8 ≤ WORD_LINE_LEN }
    ensures text { line.new.items ≡ line.old.items ++ codes " " ++ register first ++ codes "," ++ register second }
    ensures room { array_vec_len line.new ≤ array_vec_len line.old + 8 }
{
    push_first(line, first);
    push_byte(line, b',');
    push_register(line, second);
}

/// Appends an address as the last operand.
#[inline(always)]
fn push_address(line: &mut WordLine, address: u32)
    requires { array_vec_len line.old + 11 ≤ WORD_LINE_LEN }
    ensures text { line.new.items ≡ line.old.items ++ codes "," ++ codes "0x" ++ hex 8 address }
    ensures room { array_vec_len line.new ≤ array_vec_len line.old + 11 }
{
    push_text(line, b",0x");
    push_text(line, &hex_word(address));
}

#[inline(always)]
fn push_upper(line: &mut WordLine, rd: Reg, value: Upper20)
    requires { array_vec_len line.old + 12 ≤ WORD_LINE_LEN }
    ensures text { line.new.items ≡ line.old.items ++ codes " " ++ register rd ++ codes "," ++ (codes "0x" ++ hex 5 value) }
    ensures room { array_vec_len line.new ≤ array_vec_len line.old + 12 }
{
    push_first(line, rd);
    push_text(line, b",0x");
    push_text(line, &hex_word(value.value())[3..]);
}

#[inline(always)]
fn push_jump(line: &mut WordLine, pc: u32, rd: Reg, offset: Off21)
    requires { array_vec_len line.old + 15 ≤ WORD_LINE_LEN }
    ensures text { line.new.items ≡ line.old.items ++ codes " " ++ register rd ++ codes "," ++ (codes "0x" ++ hex 8 (target pc offset)) }
    ensures room { array_vec_len line.new ≤ array_vec_len line.old + 15 }
{
    push_first(line, rd);
    push_address(line, address(pc, offset.value()));
}

#[inline(always)]
fn push_branch(line: &mut WordLine, pc: u32, rs1: Reg, rs2: Reg, offset: Off13)
    requires { array_vec_len line.old + 19 ≤ WORD_LINE_LEN }
    ensures text { line.new.items ≡ line.old.items ++ codes " " ++ register rs1 ++ codes "," ++ register rs2 ++ codes "," ++ (codes "0x" ++ hex 8 (target pc offset)) }
    ensures room { array_vec_len line.new ≤ array_vec_len line.old + 19 }
{
    push_pair(line, rs1, rs2);
    push_address(line, address(pc, i32::from(offset.value())));
}

#[inline(always)]
fn push_memory(line: &mut WordLine, stored: Reg, offset: Imm12, base: Reg)
    requires { array_vec_len line.old + 16 ≤ WORD_LINE_LEN }
    ensures text { line.new.items ≡ line.old.items ++ codes " " ++ register stored ++ codes "," ++ signed_decimal offset ++ codes "(" ++ register base ++ codes ")" }
    ensures room { array_vec_len line.new ≤ array_vec_len line.old + 16 }
{
    push_first(line, stored);
    push_byte(line, b',');
    push_signed(line, offset.value());
    push_byte(line, b'(');
    push_register(line, base);
    push_byte(line, b')');
}

#[inline(always)]
fn push_immediate(line: &mut WordLine, rd: Reg, rs1: Reg, value: Imm12)
    requires { array_vec_len line.old + 15 ≤ WORD_LINE_LEN }
    ensures text { line.new.items ≡ line.old.items ++ codes " " ++ register rd ++ codes "," ++ register rs1 ++ codes "," ++ signed_decimal value }
    ensures room { array_vec_len line.new ≤ array_vec_len line.old + 15 }
{
    push_pair(line, rd, rs1);
    push_byte(line, b',');
    push_signed(line, value.value());
}

#[inline(always)]
fn push_shift(line: &mut WordLine, rd: Reg, rs1: Reg, amount: Shamt)
    requires { array_vec_len line.old + 11 ≤ WORD_LINE_LEN }
    ensures text { line.new.items ≡ line.old.items ++ codes " " ++ register rd ++ codes "," ++ register rs1 ++ codes "," ++ decimal amount }
    ensures room { array_vec_len line.new ≤ array_vec_len line.old + 11 }
{
    push_pair(line, rd, rs1);
    push_byte(line, b',');
    push_small(line, amount.bits());
}

#[inline(always)]
fn push_registers(line: &mut WordLine, rd: Reg, rs1: Reg, rs2: Reg)
    requires { array_vec_len line.old + 12 ≤ WORD_LINE_LEN }
    ensures text { line.new.items ≡ line.old.items ++ codes " " ++ register rd ++ codes "," ++ register rs1 ++ codes "," ++ register rs2 }
    ensures room { array_vec_len line.new ≤ array_vec_len line.old + 12 }
{
    push_pair(line, rd, rs1);
    push_byte(line, b',');
    push_register(line, rs2);
}

/// Appends the operands of a FENCE: none written for its whole sets, two sets where it has nothing
/// else, at most 10 bytes. False, and nothing, for any other.
#[cold]
fn push_fence(line: &mut WordLine, rd: Reg, rs1: Reg, order: Order12) -> bool
    requires { array_vec_len line.old + 10 ≤ WORD_LINE_LEN }
    ensures text { result ≡ true → option_map (λ o. line.old.items ++ written o) (fence_operands rd rs1 order) ≡ Some line.new.items }
    ensures none { result ≡ false → fence_operands rd rs1 order ≡ None }
    ensures kept { result ≡ false → line.new.items ≡ line.old.items }
    ensures room { array_vec_len line.new ≤ array_vec_len line.old + 10 }
{
    if rd.number() != 0 || rs1.number() != 0 {
        return false;
    }
    let order = order.value();
    if order == 0x0ff {
        return true;
    }
    let (before, after) = (predecessor(order), successor(order));
    if order >> 8 != 0 || before == 0 || after == 0 {
        return false;
    }
    push_sets(line, before, after);
    true
}

/// The predecessor set of a FENCE, four bits.
fn predecessor(order: u16) -> u8
    ensures { result ≡ slice 7 4 order }
{
    ((order >> 4) & 15) as u8
}

/// The successor set of a FENCE, four bits.
fn successor(order: u16) -> u8
    ensures { result ≡ slice 3 0 order }
{
    (order & 15) as u8
}

fn push_sets(line: &mut WordLine, before: u8, after: u8)
    requires { array_vec_len line.old + 10 ≤ WORD_LINE_LEN }
    ensures text { line.new.items ≡ line.old.items ++ codes " " ++ letters before ++ codes "," ++ letters after }
    ensures room { array_vec_len line.new ≤ array_vec_len line.old + 10 }
{
    push_byte(line, b' ');
    push_text(line, set_letters(before));
    push_byte(line, b',');
    push_text(line, set_letters(after));
}

/// The letters of a set of a FENCE, of which there are four.
fn set_letters(set: u8) -> &'static [u8]
    ensures text { result.now ≡ letters set }
    ensures short { length result.now ≤ 4 }
{
    match set & 15 {
        0 => b"",
        1 => b"w",
        2 => b"r",
        3 => b"rw",
        4 => b"o",
        5 => b"ow",
        6 => b"or",
        7 => b"orw",
        8 => b"i",
        9 => b"iw",
        10 => b"ir",
        11 => b"irw",
        12 => b"io",
        13 => b"iow",
        14 => b"ior",
        _ => b"iorw",
    }
}
