//! What an instruction did that was carried out.

ghost use Rattle.std.specs.Prelude.{◌≡◌, ◌+◌, ◌*◌, ◌<◌, ◌≤◌, ◌++◌, ◌||◌, slice_index, is_some, false, IfSome};
ghost use Rattle.std.specs.List.{filter_map};
ghost use Rattle.std.specs.Option.{option_map};
ghost use Rattle.arrayvec.specs.ArrayVec.{array_vec_len};
ghost use Rattle.rt_words.specs.Hex.{hex};
ghost use Rattle.rt_effects.specs.Did.{target, source, register_text, written, access_text, jumped, carried_out, joined};
ghost use Rattle.rt_effects.specs.Working.Pieces.{comma, piece_text};
ghost use Rattle.rt_effects.specs.Working.Kept.{name_text};

use arrayvec::ArrayVec;
use rt_isa::{Ins, Reg};
use rt_points::{Access, accessed};
use rt_sink::{push_byte, push_decimal, push_hex, push_text};
use rt_words::hex_word;

/// The register that an instruction writes.
pub(crate) fn target(instruction: &Ins) -> Option<Reg>
    ensures { result ≡ target instruction.now }
{
    match *instruction {
        Ins::Lui(rd, _) | Ins::Auipc(rd, _) => Some(rd),
        Ins::Jal(rd, _) => Some(rd),
        Ins::Jalr(rd, _, _)
        | Ins::Lb(rd, _, _)
        | Ins::Lh(rd, _, _)
        | Ins::Lw(rd, _, _)
        | Ins::Lbu(rd, _, _)
        | Ins::Lhu(rd, _, _)
        | Ins::Addi(rd, _, _)
        | Ins::Slti(rd, _, _)
        | Ins::Sltiu(rd, _, _)
        | Ins::Xori(rd, _, _)
        | Ins::Ori(rd, _, _)
        | Ins::Andi(rd, _, _) => Some(rd),
        Ins::Slli(rd, _, _) | Ins::Srli(rd, _, _) | Ins::Srai(rd, _, _) => Some(rd),
        Ins::Add(rd, _, _)
        | Ins::Sub(rd, _, _)
        | Ins::Sll(rd, _, _)
        | Ins::Slt(rd, _, _)
        | Ins::Sltu(rd, _, _)
        | Ins::Xor(rd, _, _)
        | Ins::Srl(rd, _, _)
        | Ins::Sra(rd, _, _)
        | Ins::Or(rd, _, _)
        | Ins::And(rd, _, _) => Some(rd),
        _ => None,
    }
}

/// The number of the register whose low bytes a store stores; 0 for any other instruction.
#[inline]
pub(crate) fn source(instruction: &Ins) -> usize
    ensures value { result ≡ source instruction.now }
    ensures within { result < 32 }
{
    match *instruction {
        Ins::Sb(_, rs2, _) | Ins::Sh(_, rs2, _) | Ins::Sw(_, rs2, _) => rs2.number() as usize,
        _ => 0,
    }
}

/// Appends what parts a piece from those before it: at most 2 bytes.
#[inline]
fn push_comma<const N: usize>(line: &mut ArrayVec<u8, N>, begun: bool)
    requires { array_vec_len line.old + 2 ≤ N }
    ensures text { line.new.items ≡ line.old.items ++ comma begun }
    ensures room { array_vec_len line.new ≤ array_vec_len line.old + 2 }
{
    if begun {
        push_text(line, b", ");
    }
}

/// Appends the name of a register that is written, 0 for none, as it stands before its value: at most 22 bytes.
pub(crate) fn push_name<const N: usize>(line: &mut ArrayVec<u8, N>, written: u8)
    requires { array_vec_len line.old + 22 ≤ N }
    ensures text { line.new.items ≡ line.old.items ++ name_text written }
    ensures room { array_vec_len line.new ≤ array_vec_len line.old + 22 }
{
    if written != 0 {
        push_byte(line, b'x');
        push_decimal(line, u64::from(written));
        push_byte(line, b'=');
    }
}

/// Appends a register, 0 to 31, with its value: at most 30 bytes.
pub(crate) fn push_register<const N: usize>(line: &mut ArrayVec<u8, N>, number: u8, x: &[u32; 32])
    requires within { number < 32 }
    requires room { array_vec_len line.old + 30 ≤ N }
    ensures text { line.new.items ≡ line.old.items ++ register_text number x.now }
    ensures room { array_vec_len line.new ≤ array_vec_len line.old + 30 }
{
    push_byte(line, b'x');
    push_decimal(line, u64::from(number));
    push_byte(line, b'=');
    push_hex(line, x[number as usize]);
}

/// Appends the register that was written, with its value after, and answers whether one was: at most 30 bytes.
fn push_written<const N: usize>(line: &mut ArrayVec<u8, N>, rd: Option<Reg>, x: &[u32; 32]) -> bool
    requires { array_vec_len line.old + 30 ≤ N }
    ensures text { line.new.items ≡ line.old.items ++ piece_text false (written rd x.now) }
    ensures begun { result ≡ is_some (written rd x.now) }
    ensures room { array_vec_len line.new ≤ array_vec_len line.old + 30 }
{
    let Some(rd) = rd else {
        return false;
    };
    let number = rd.number();
    if number == 0 {
        return false;
    }
    push_register(line, number, x);
    true
}

/// Appends two digits for each of so many of the low bytes of a value, 0 to 4.
fn push_low_bytes<const N: usize>(line: &mut ArrayVec<u8, N>, bytes: u32, value: u32)
    requires few { bytes ≤ 4 }
    requires room { array_vec_len line.old + 8 ≤ N }
    ensures text { line.new.items ≡ line.old.items ++ hex (2 * bytes) value }
    ensures room { array_vec_len line.new ≤ array_vec_len line.old + 8 }
{
    let digits = hex_word(value);
    push_text(line, &digits[8 - 2 * bytes as usize..]);
}

/// Appends a load or a store: at most 19 bytes.
fn push_touched<const N: usize>(line: &mut ArrayVec<u8, N>, access: Access, value: u32)
    requires few { access.bytes ≤ 4 }
    requires room { array_vec_len line.old + 19 ≤ N }
    ensures text { line.new.items ≡ line.old.items ++ access_text access value }
    ensures room { array_vec_len line.new ≤ array_vec_len line.old + 19 }
{
    if access.is_store {
        push_byte(line, b'[');
        push_hex(line, access.address);
        push_text(line, b"]=");
        push_low_bytes(line, access.bytes, value);
    } else {
        push_text(line, b"from ");
        push_hex(line, access.address);
    }
}

/// Appends a load or a store, if there is one, behind other pieces or as the first, and answers whether there are pieces: at most 21
/// bytes.
fn push_access<const N: usize>(
    line: &mut ArrayVec<u8, N>,
    begun: bool,
    access: Option<Access>,
    value: u32,
) -> bool
    requires few { IfSome access (λ a. a.bytes ≤ 4) }
    requires room { array_vec_len line.old + 21 ≤ N }
    ensures text { line.new.items ≡ line.old.items ++ piece_text begun (option_map (λ a. access_text a value) access) }
    ensures begun { result ≡ (begun || is_some access) }
    ensures room { array_vec_len line.new ≤ array_vec_len line.old + 21 }
{
    match access {
        Some(access) => {
            push_comma(line, begun);
            push_touched(line, access, value);
            true
        }
        None => begun,
    }
}

/// Appends where control went, if not to the word behind, and answers whether there are pieces: at most 13 bytes.
fn push_jumped<const N: usize>(line: &mut ArrayVec<u8, N>, begun: bool, pc: u32, next: u32) -> bool
    requires { array_vec_len line.old + 13 ≤ N }
    ensures text { line.new.items ≡ line.old.items ++ piece_text begun (jumped pc next) }
    ensures begun { result ≡ (begun || is_some (jumped pc next)) }
    ensures room { array_vec_len line.new ≤ array_vec_len line.old + 13 }
{
    if next == pc.wrapping_add(4) {
        return begun;
    }
    push_comma(line, begun);
    push_text(line, b"pc=");
    push_hex(line, next);
    true
}

/// Appends what an instruction at pc did that was carried out, with the registers before, and pc and the registers after: at most 64
/// bytes.
pub(crate) fn push_carried_out<const N: usize>(
    line: &mut ArrayVec<u8, N>,
    before: &[u32; 32],
    next: u32,
    x: &[u32; 32],
    pc: u32,
    instruction: Ins,
)
    requires { array_vec_len line.old + 64 ≤ N }
    ensures text { line.new.items ≡ line.old.items ++ joined (filter_map (λ p. p) (carried_out before.now (record { pc = next; x = x.now }) pc instruction)) }
    ensures room { array_vec_len line.new ≤ array_vec_len line.old + 64 }
{
    let stored = before[source(&instruction)];
    let rd = target(&instruction);
    let access = accessed(before, instruction);
    let begun = push_written(line, rd, x);
    let begun = push_access(line, begun, access, stored);
    let begun = push_jumped(line, begun, pc, next);
    if !begun {
        push_byte(line, b'-');
    }
}
