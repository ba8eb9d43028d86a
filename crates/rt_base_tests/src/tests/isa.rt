//! Words, their instructions and their texts, by the ISA document and another assembler.

use crate::tests::same;
use rt_isa::{
    Imm12, Ins, Off13, Off21, Order12, Reg, Shamt, Upper20, decode, disasm, encode, one_row,
    one_word,
};
use std::alloc::{AllocError, Global};
use std::fmt::Debug;
use std::process::Abort;
use std::test::Fail;

mod memory;

fn reg(number: u8) -> Reg {
    Reg::new(number).unwrap()
}

fn shift(bits: u8) -> Shamt {
    Shamt::new(bits).unwrap()
}

fn upper(value: u32) -> Upper20 {
    Upper20::new(value).unwrap()
}

fn order(value: u16) -> Order12 {
    Order12::new(value).unwrap()
}

fn imm(value: i16) -> Imm12 {
    Imm12::new(value).unwrap()
}

fn branch(value: i16) -> Off13 {
    Off13::new(value).unwrap()
}

fn jump(value: i32) -> Off21 {
    Off21::new(value).unwrap()
}

/// The text of a word at an address, alone.
fn text_at(alloc: Global, pc: u32, word: u32) -> Result<String, AllocError> {
    let mut out = String::new(alloc);
    disasm(pc, word, &mut out)?;
    Ok(out)
}

/// A word, and its text at 0x80000000.
type Row = (u32, &'static str);

/// The word of a word's instruction, and the word's text.
fn check(rt: &impl Abort, alloc: Global, row: &Row) -> Result<(), Fail> {
    let (word, text) = *row;
    let decoded = decode(word).ok_or("no instruction")?;
    same(rt, text, encode(decoded), word);
    let shown = text_at(alloc, 0x8000_0000, word)?;
    same(rt, word, shown.as_str(), text);
    Ok(())
}

fn check_all(rt: &impl Abort, alloc: Global, rows: &[Row]) -> Result<(), Fail> {
    for row in rows {
        check(rt, alloc, row)?;
    }
    Ok(())
}

static UPPER_BITS_AND_JUMPS: [Row; 4] = [
    (0x1234_50b7, "lui x1,0x12345"),
    (0xffff_ff97, "auipc x31,0xfffff"),
    (0xffdf_f0ef, "jal x1,0x7ffffffc"),
    (0xffd2_80e7, "jalr x1,-3(x5)"),
];

#[test]
fn upper_bits_and_jumps(rt: HostRuntime) -> Result<(), Fail> {
    check_all(&rt, rt.alloc(), &UPPER_BITS_AND_JUMPS)
}

static BRANCHES: [Row; 6] = [
    (0xfe20_8ee3, "beq x1,x2,0x7ffffffc"),
    (0x0002_9163, "bne x5,x0,0x80000002"),
    (0x0020_c463, "blt x1,x2,0x80000008"),
    (0x802f_d063, "bge x31,x2,0x7ffff000"),
    (0x7e20_efe3, "bltu x1,x2,0x80000ffe"),
    (0x0020_f0e3, "bgeu x1,x2,0x80000800"),
];

#[test]
fn branches(rt: HostRuntime) -> Result<(), Fail> {
    check_all(&rt, rt.alloc(), &BRANCHES)
}

static LOADS_AND_STORES: [Row; 8] = [
    (0xfff1_0083, "lb x1,-1(x2)"),
    (0x0021_1083, "lh x1,2(x2)"),
    (0xffc1_2083, "lw x1,-4(x2)"),
    (0x7ff1_4083, "lbu x1,2047(x2)"),
    (0x8001_5083, "lhu x1,-2048(x2)"),
    (0xfe11_0fa3, "sb x1,-1(x2)"),
    (0x0011_1123, "sh x1,2(x2)"),
    (0x0020_a423, "sw x2,8(x1)"),
];

#[test]
fn loads_and_stores(rt: HostRuntime) -> Result<(), Fail> {
    check_all(&rt, rt.alloc(), &LOADS_AND_STORES)
}

static IMMEDIATES_AND_SHIFTS: [Row; 9] = [
    (0xfff0_0093, "addi x1,x0,-1"),
    (0x8001_2093, "slti x1,x2,-2048"),
    (0x7ff1_3093, "sltiu x1,x2,2047"),
    (0xfff1_4093, "xori x1,x2,-1"),
    (0x0011_6093, "ori x1,x2,1"),
    (0x0013_f393, "andi x7,x7,1"),
    (0x01f1_1093, "slli x1,x2,31"),
    (0x0011_5093, "srli x1,x2,1"),
    (0x41f0_d093, "srai x1,x1,31"),
];

#[test]
fn immediates_and_shifts(rt: HostRuntime) -> Result<(), Fail> {
    check_all(&rt, rt.alloc(), &IMMEDIATES_AND_SHIFTS)
}

static REGISTER_ROWS: [Row; 10] = [
    (0x0031_00b3, "add x1,x2,x3"),
    (0x4031_00b3, "sub x1,x2,x3"),
    (0x0031_10b3, "sll x1,x2,x3"),
    (0x0031_20b3, "slt x1,x2,x3"),
    (0x0031_30b3, "sltu x1,x2,x3"),
    (0x0031_40b3, "xor x1,x2,x3"),
    (0x0031_50b3, "srl x1,x2,x3"),
    (0x4031_50b3, "sra x1,x2,x3"),
    (0x0031_60b3, "or x1,x2,x3"),
    (0x0095_7f33, "and x30,x10,x9"),
];

#[test]
fn register_rows(rt: HostRuntime) -> Result<(), Fail> {
    check_all(&rt, rt.alloc(), &REGISTER_ROWS)
}

static FENCES_AND_SYSTEM: [Row; 9] = [
    (0x0ff0_000f, "fence"),
    (0x0210_000f, "fence r,w"),
    (0x0c30_000f, "fence io,rw"),
    (0x0000_000f, ".word 0x0000000f"),
    (0x0ff0_808f, ".word 0x0ff0808f"),
    (0x8330_000f, ".word 0x8330000f"),
    (0x0200_000f, ".word 0x0200000f"),
    (0x0000_0073, "ecall"),
    (0x0010_0073, "ebreak"),
];

#[test]
fn fences_and_system(rt: HostRuntime) -> Result<(), Fail> {
    check_all(&rt, rt.alloc(), &FENCES_AND_SYSTEM)
}

/// Fails unless a word at an address has this text.
fn reads(rt: &impl Abort, alloc: Global, pc: u32, word: u32, text: &str) -> Result<(), Fail> {
    let shown = text_at(alloc, pc, word)?;
    same(rt, (pc, word), shown.as_str(), text);
    Ok(())
}

static NO_ROWS: [(u32, &str); 6] = [
    (0x0000_0000, ".word 0x00000000"),
    (0xffff_ffff, ".word 0xffffffff"),
    (0x0000_100f, ".word 0x0000100f"),
    (0x43f0_d093, ".word 0x43f0d093"),
    (0x0020_0073, ".word 0x00200073"),
    (0x0000_1067, ".word 0x00001067"),
];

#[test]
fn words_of_no_row(rt: HostRuntime) -> Result<(), Fail> {
    for (word, text) in &NO_ROWS {
        same(&rt, *text, decode(*word).is_none(), true);
        reads(&rt, rt.alloc(), 0, *word, text)?;
    }
    Ok(())
}

#[test]
fn targets_wrap(rt: HostRuntime) -> Result<(), Fail> {
    let branch = 0xfe20_8ee3;
    reads(&rt, rt.alloc(), 0x8000_0004, branch, "beq x1,x2,0x80000000")?;
    reads(&rt, rt.alloc(), 0, branch, "beq x1,x2,0xfffffffc")?;
    reads(
        &rt,
        rt.alloc(),
        0xffff_fffc,
        0x0080_00ef,
        "jal x1,0x00000004",
    )
}

#[test]
fn appends(rt: HostRuntime) -> Result<(), Fail> {
    let mut out = String::from_str(rt.alloc(), "    ")?;
    disasm(0x8000_0004, 0x0000_006f, &mut out)?;
    same(&rt, "a jump", out.as_str(), "    jal x0,0x80000004");
    Ok(())
}

static IMMEDIATES: [(i16, bool); 4] = [(-2049, false), (-2048, true), (2047, true), (2048, false)];

static BRANCH_OFFSETS: [(i16, bool); 5] = [
    (-4098, false),
    (-4096, true),
    (1, false),
    (4094, true),
    (4096, false),
];

static JUMP_OFFSETS: [(i32, bool); 5] = [
    (-1_048_578, false),
    (-1_048_576, true),
    (-1, false),
    (1_048_574, true),
    (1_048_576, false),
];

fn signed_ranges(rt: &impl Abort) {
    for (value, is_valid) in &IMMEDIATES {
        same(rt, *value, Imm12::new(*value).is_some(), *is_valid);
    }
    for (value, is_valid) in &BRANCH_OFFSETS {
        same(rt, *value, Off13::new(*value).is_some(), *is_valid);
    }
    for (value, is_valid) in &JUMP_OFFSETS {
        same(rt, *value, Off21::new(*value).is_some(), *is_valid);
    }
}

#[test]
fn ranges(rt: HostRuntime) {
    same(&rt, "a register", Reg::new(31).is_some(), true);
    same(&rt, "a register", Reg::new(32).is_some(), false);
    same(&rt, "a shift", Shamt::new(31).is_some(), true);
    same(&rt, "a shift", Shamt::new(32).is_some(), false);
    same(&rt, "bits", Upper20::new(1_048_575).is_some(), true);
    same(&rt, "bits", Upper20::new(1_048_576).is_some(), false);
    same(&rt, "an order", Order12::new(4095).is_some(), true);
    same(&rt, "an order", Order12::new(4096).is_some(), false);
    signed_ranges(&rt);
}

#[test]
fn values_come_back(rt: HostRuntime) {
    same(&rt, "a register", reg(31).number(), 31);
    same(&rt, "a shift", shift(31).bits(), 31);
    same(&rt, "bits", upper(0xfffff).value(), 0xfffff);
    same(&rt, "an order", order(0xfff).value(), 0xfff);
    same(&rt, "a number", imm(-2048).value(), -2048);
    same(&rt, "a branch", branch(-4096).value(), -4096);
    same(&rt, "a jump", jump(-1_048_576).value(), -1_048_576);
}

/// The word of a word's instruction.
fn encoded_again(word: u32) -> Option<u32> {
    match decode(word) {
        Some(instruction) => Some(encode(instruction)),
        None => None,
    }
}

/// The instruction of an instruction's word.
fn decoded_again(instruction: Ins) -> Option<Ins> {
    decode(encode(instruction))
}

#[test]
fn round_trips(rt: HostRuntime) {
    one_word();
    one_row();
    same(
        &rt,
        "a branch",
        encoded_again(0xfe20_8ee3),
        Some(0xfe20_8ee3),
    );
    same(&rt, "no row", encoded_again(0x0000_100f), None);
    let again = decoded_again(Ins::Ebreak);
    same(&rt, "ebreak", matches!(again, Some(Ins::Ebreak)), true);
}
