//! The cases of each row.

use rt_exec::{Fault, Outcome};

/// A word, x5 and x6 before it, and what it leaves: the outcome, pc, and a register with its value.
#[derive(Clone, Copy)]
pub struct Case {
    pub name: &'static str,
    pub word: u32,
    /// x5 and x6.
    pub before: (u32, u32),
    pub outcome: Outcome,
    pub pc: u32,
    /// A register and its value.
    pub after: (u8, u32),
}

/// A store of x6 = 0xa1b2c3d4 at x5, and what it leaves of the last eight bytes of RAM.
#[derive(Clone, Copy)]
pub struct StoreCase {
    pub name: &'static str,
    pub word: u32,
    pub x5: u32,
    pub outcome: Outcome,
    pub bytes: [u8; 8],
}

#[rattlefmt::skip]
pub static JUMPS: [Case; 9] = [
    Case { name: "jal x7,.+8", word: 0x0080_03ef, before: (0, 0), outcome: Outcome::Next, pc: 0x8000_0008, after: (7, 0x8000_0004) },
    Case { name: "jal x7,.-1048576", word: 0x8000_03ef, before: (0, 0), outcome: Outcome::Next, pc: 0x7ff0_0000, after: (7, 0x8000_0004) },
    Case { name: "jal x0,.-4", word: 0xffdf_f06f, before: (0, 0), outcome: Outcome::Next, pc: 0x7fff_fffc, after: (0, 0) },
    Case { name: "jal x7,.+1048574", word: 0x7fff_f3ef, before: (0, 0), outcome: Outcome::Fault(Fault::JumpMisaligned), pc: 0x8000_0000, after: (7, 0x7777_7777) },
    Case { name: "jalr x5,3(x5)", word: 0x0032_82e7, before: (0x8000_0005, 0), outcome: Outcome::Next, pc: 0x8000_0008, after: (5, 0x8000_0004) },
    Case { name: "jalr x7,-2048(x5)", word: 0x8002_83e7, before: (0x8000_0800, 0), outcome: Outcome::Next, pc: 0x8000_0000, after: (7, 0x8000_0004) },
    Case { name: "jalr x7,4(x5)", word: 0x0042_83e7, before: (0xffff_fffc, 0), outcome: Outcome::Next, pc: 0, after: (7, 0x8000_0004) },
    Case { name: "jalr x7,2(x5)", word: 0x0022_83e7, before: (0x8000_0000, 0), outcome: Outcome::Fault(Fault::JumpMisaligned), pc: 0x8000_0000, after: (7, 0x7777_7777) },
    Case { name: "jalr x5,3(x5)", word: 0x0032_82e7, before: (0x8000_0000, 0), outcome: Outcome::Fault(Fault::JumpMisaligned), pc: 0x8000_0000, after: (5, 0x8000_0000) },
];

#[rattlefmt::skip]
pub static BRANCHES: [Case; 17] = [
    Case { name: "beq x5,x6,.+8", word: 0x0062_8463, before: (9, 9), outcome: Outcome::Next, pc: 0x8000_0008, after: (7, 0x7777_7777) },
    Case { name: "beq x5,x6,.+8", word: 0x0062_8463, before: (9, 8), outcome: Outcome::Next, pc: 0x8000_0004, after: (7, 0x7777_7777) },
    Case { name: "beq x5,x6,.-4096", word: 0x8062_8063, before: (0, 0), outcome: Outcome::Next, pc: 0x7fff_f000, after: (7, 0x7777_7777) },
    Case { name: "beq x5,x6,.+4094", word: 0x7e62_8fe3, before: (0, 0), outcome: Outcome::Fault(Fault::JumpMisaligned), pc: 0x8000_0000, after: (7, 0x7777_7777) },
    Case { name: "beq x5,x6,.+4094", word: 0x7e62_8fe3, before: (0, 1), outcome: Outcome::Next, pc: 0x8000_0004, after: (7, 0x7777_7777) },
    Case { name: "bne x5,x6,.+8", word: 0x0062_9463, before: (9, 8), outcome: Outcome::Next, pc: 0x8000_0008, after: (7, 0x7777_7777) },
    Case { name: "bne x5,x6,.+8", word: 0x0062_9463, before: (9, 9), outcome: Outcome::Next, pc: 0x8000_0004, after: (7, 0x7777_7777) },
    Case { name: "blt x5,x6,.+8", word: 0x0062_c463, before: (0x8000_0000, 0x7fff_ffff), outcome: Outcome::Next, pc: 0x8000_0008, after: (7, 0x7777_7777) },
    Case { name: "blt x5,x6,.+8", word: 0x0062_c463, before: (0x7fff_ffff, 0x8000_0000), outcome: Outcome::Next, pc: 0x8000_0004, after: (7, 0x7777_7777) },
    Case { name: "blt x5,x6,.+8", word: 0x0062_c463, before: (5, 5), outcome: Outcome::Next, pc: 0x8000_0004, after: (7, 0x7777_7777) },
    Case { name: "bge x5,x6,.+8", word: 0x0062_d463, before: (5, 5), outcome: Outcome::Next, pc: 0x8000_0008, after: (7, 0x7777_7777) },
    Case { name: "bge x5,x6,.+8", word: 0x0062_d463, before: (0xffff_ffff, 0), outcome: Outcome::Next, pc: 0x8000_0004, after: (7, 0x7777_7777) },
    Case { name: "bltu x5,x6,.+8", word: 0x0062_e463, before: (0, 0xffff_ffff), outcome: Outcome::Next, pc: 0x8000_0008, after: (7, 0x7777_7777) },
    Case { name: "bltu x5,x6,.+8", word: 0x0062_e463, before: (0xffff_ffff, 0), outcome: Outcome::Next, pc: 0x8000_0004, after: (7, 0x7777_7777) },
    Case { name: "bgeu x5,x6,.+8", word: 0x0062_f463, before: (0xffff_ffff, 0), outcome: Outcome::Next, pc: 0x8000_0008, after: (7, 0x7777_7777) },
    Case { name: "bgeu x5,x6,.+8", word: 0x0062_f463, before: (0, 0), outcome: Outcome::Next, pc: 0x8000_0008, after: (7, 0x7777_7777) },
    Case { name: "bgeu x5,x6,.+8", word: 0x0062_f463, before: (0, 1), outcome: Outcome::Next, pc: 0x8000_0004, after: (7, 0x7777_7777) },
];

#[rattlefmt::skip]
pub static LOADS: [Case; 21] = [
    Case { name: "lb x7,0(x5)", word: 0x0002_8383, before: (0x8000_0008, 0), outcome: Outcome::Next, pc: 0x8000_0004, after: (7, 0xffff_ff80) },
    Case { name: "lb x7,2(x5)", word: 0x0022_8383, before: (0x8000_0008, 0), outcome: Outcome::Next, pc: 0x8000_0004, after: (7, 0x0000_007f) },
    Case { name: "lb x7,-8(x5)", word: 0xff82_8383, before: (0x8000_0008, 0), outcome: Outcome::Next, pc: 0x8000_0004, after: (7, 0xffff_ff83) },
    Case { name: "lb x7,7(x5)", word: 0x0072_8383, before: (0x8000_0008, 0), outcome: Outcome::Next, pc: 0x8000_0004, after: (7, 0xffff_ff84) },
    Case { name: "lb x7,8(x5)", word: 0x0082_8383, before: (0x8000_0008, 0), outcome: Outcome::Fault(Fault::LoadAccess), pc: 0x8000_0000, after: (7, 0x7777_7777) },
    Case { name: "lb x7,-9(x5)", word: 0xff72_8383, before: (0x8000_0008, 0), outcome: Outcome::Fault(Fault::LoadAccess), pc: 0x8000_0000, after: (7, 0x7777_7777) },
    Case { name: "lb x7,1(x5)", word: 0x0012_8383, before: (0xffff_ffff, 0), outcome: Outcome::Fault(Fault::LoadAccess), pc: 0x8000_0000, after: (7, 0x7777_7777) },
    Case { name: "lbu x7,0(x5)", word: 0x0002_c383, before: (0x8000_0008, 0), outcome: Outcome::Next, pc: 0x8000_0004, after: (7, 0x0000_0080) },
    Case { name: "lbu x7,8(x5)", word: 0x0082_c383, before: (0x8000_0008, 0), outcome: Outcome::Fault(Fault::LoadAccess), pc: 0x8000_0000, after: (7, 0x7777_7777) },
    Case { name: "lh x7,0(x5)", word: 0x0002_9383, before: (0x8000_0008, 0), outcome: Outcome::Next, pc: 0x8000_0004, after: (7, 0xffff_ff80) },
    Case { name: "lh x7,2(x5)", word: 0x0022_9383, before: (0x8000_0008, 0), outcome: Outcome::Next, pc: 0x8000_0004, after: (7, 0x0000_017f) },
    Case { name: "lh x7,6(x5)", word: 0x0062_9383, before: (0x8000_0008, 0), outcome: Outcome::Next, pc: 0x8000_0004, after: (7, 0xffff_8403) },
    Case { name: "lh x7,7(x5)", word: 0x0072_9383, before: (0x8000_0008, 0), outcome: Outcome::Fault(Fault::LoadMisaligned), pc: 0x8000_0000, after: (7, 0x7777_7777) },
    Case { name: "lh x7,8(x5)", word: 0x0082_9383, before: (0x8000_0008, 0), outcome: Outcome::Fault(Fault::LoadAccess), pc: 0x8000_0000, after: (7, 0x7777_7777) },
    Case { name: "lhu x7,0(x5)", word: 0x0002_d383, before: (0x8000_0008, 0), outcome: Outcome::Next, pc: 0x8000_0004, after: (7, 0x0000_ff80) },
    Case { name: "lhu x7,9(x5)", word: 0x0092_d383, before: (0x8000_0008, 0), outcome: Outcome::Fault(Fault::LoadMisaligned), pc: 0x8000_0000, after: (7, 0x7777_7777) },
    Case { name: "lw x7,0(x5)", word: 0x0002_a383, before: (0x8000_0008, 0), outcome: Outcome::Next, pc: 0x8000_0004, after: (7, 0x017f_ff80) },
    Case { name: "lw x7,4(x5)", word: 0x0042_a383, before: (0x8000_0008, 0), outcome: Outcome::Next, pc: 0x8000_0004, after: (7, 0x8403_8201) },
    Case { name: "lw x7,2(x5)", word: 0x0022_a383, before: (0x8000_0008, 0), outcome: Outcome::Fault(Fault::LoadMisaligned), pc: 0x8000_0000, after: (7, 0x7777_7777) },
    Case { name: "lw x7,8(x5)", word: 0x0082_a383, before: (0x8000_0008, 0), outcome: Outcome::Fault(Fault::LoadAccess), pc: 0x8000_0000, after: (7, 0x7777_7777) },
    Case { name: "lw x0,4(x5)", word: 0x0042_a003, before: (0x8000_0008, 0), outcome: Outcome::Next, pc: 0x8000_0004, after: (0, 0) },
];

#[rattlefmt::skip]
pub static ARITHMETIC: [Case; 35] = [
    Case { name: "addi x7,x5,-1", word: 0xfff2_8393, before: (0, 0), outcome: Outcome::Next, pc: 0x8000_0004, after: (7, 0xffff_ffff) },
    Case { name: "addi x7,x5,2047", word: 0x7ff2_8393, before: (0x7fff_ffff, 0), outcome: Outcome::Next, pc: 0x8000_0004, after: (7, 0x8000_07fe) },
    Case { name: "addi x7,x5,-2048", word: 0x8002_8393, before: (0x8000_0000, 0), outcome: Outcome::Next, pc: 0x8000_0004, after: (7, 0x7fff_f800) },
    Case { name: "addi x0,x5,1", word: 0x0012_8013, before: (1, 0), outcome: Outcome::Next, pc: 0x8000_0004, after: (0, 0) },
    Case { name: "slti x7,x5,-1", word: 0xfff2_a393, before: (0x8000_0000, 0), outcome: Outcome::Next, pc: 0x8000_0004, after: (7, 1) },
    Case { name: "slti x7,x5,-1", word: 0xfff2_a393, before: (0, 0), outcome: Outcome::Next, pc: 0x8000_0004, after: (7, 0) },
    Case { name: "sltiu x7,x5,-1", word: 0xfff2_b393, before: (0xffff_fffe, 0), outcome: Outcome::Next, pc: 0x8000_0004, after: (7, 1) },
    Case { name: "sltiu x7,x5,-1", word: 0xfff2_b393, before: (0xffff_ffff, 0), outcome: Outcome::Next, pc: 0x8000_0004, after: (7, 0) },
    Case { name: "sltiu x7,x5,1", word: 0x0012_b393, before: (0, 0), outcome: Outcome::Next, pc: 0x8000_0004, after: (7, 1) },
    Case { name: "xori x7,x5,-1", word: 0xfff2_c393, before: (0x0f0f_0f0f, 0), outcome: Outcome::Next, pc: 0x8000_0004, after: (7, 0xf0f0_f0f0) },
    Case { name: "ori x7,x5,-2048", word: 0x8002_e393, before: (5, 0), outcome: Outcome::Next, pc: 0x8000_0004, after: (7, 0xffff_f805) },
    Case { name: "andi x7,x5,-2048", word: 0x8002_f393, before: (0xffff_ffff, 0), outcome: Outcome::Next, pc: 0x8000_0004, after: (7, 0xffff_f800) },
    Case { name: "slli x7,x5,0", word: 0x0002_9393, before: (0x8000_0001, 0), outcome: Outcome::Next, pc: 0x8000_0004, after: (7, 0x8000_0001) },
    Case { name: "slli x7,x5,31", word: 0x01f2_9393, before: (3, 0), outcome: Outcome::Next, pc: 0x8000_0004, after: (7, 0x8000_0000) },
    Case { name: "srli x7,x5,0", word: 0x0002_d393, before: (0x8000_0001, 0), outcome: Outcome::Next, pc: 0x8000_0004, after: (7, 0x8000_0001) },
    Case { name: "srli x7,x5,31", word: 0x01f2_d393, before: (0x8000_0000, 0), outcome: Outcome::Next, pc: 0x8000_0004, after: (7, 1) },
    Case { name: "srai x7,x5,0", word: 0x4002_d393, before: (0x8000_0001, 0), outcome: Outcome::Next, pc: 0x8000_0004, after: (7, 0x8000_0001) },
    Case { name: "srai x7,x5,4", word: 0x4042_d393, before: (0x8000_0000, 0), outcome: Outcome::Next, pc: 0x8000_0004, after: (7, 0xf800_0000) },
    Case { name: "srai x7,x5,31", word: 0x41f2_d393, before: (0x8000_0000, 0), outcome: Outcome::Next, pc: 0x8000_0004, after: (7, 0xffff_ffff) },
    Case { name: "srai x7,x5,31", word: 0x41f2_d393, before: (0x7fff_ffff, 0), outcome: Outcome::Next, pc: 0x8000_0004, after: (7, 0) },
    Case { name: "add x7,x5,x6", word: 0x0062_83b3, before: (0xffff_ffff, 2), outcome: Outcome::Next, pc: 0x8000_0004, after: (7, 1) },
    Case { name: "sub x7,x5,x6", word: 0x4062_83b3, before: (0, 1), outcome: Outcome::Next, pc: 0x8000_0004, after: (7, 0xffff_ffff) },
    Case { name: "sub x7,x5,x6", word: 0x4062_83b3, before: (0x8000_0000, 1), outcome: Outcome::Next, pc: 0x8000_0004, after: (7, 0x7fff_ffff) },
    Case { name: "sll x7,x5,x6", word: 0x0062_93b3, before: (1, 0x0000_0021), outcome: Outcome::Next, pc: 0x8000_0004, after: (7, 2) },
    Case { name: "sll x7,x5,x6", word: 0x0062_93b3, before: (3, 0xffff_ffff), outcome: Outcome::Next, pc: 0x8000_0004, after: (7, 0x8000_0000) },
    Case { name: "slt x7,x5,x6", word: 0x0062_a3b3, before: (0x8000_0000, 0x7fff_ffff), outcome: Outcome::Next, pc: 0x8000_0004, after: (7, 1) },
    Case { name: "slt x7,x5,x6", word: 0x0062_a3b3, before: (0x7fff_ffff, 0x8000_0000), outcome: Outcome::Next, pc: 0x8000_0004, after: (7, 0) },
    Case { name: "sltu x7,x5,x6", word: 0x0062_b3b3, before: (0x7fff_ffff, 0x8000_0000), outcome: Outcome::Next, pc: 0x8000_0004, after: (7, 1) },
    Case { name: "sltu x7,x5,x6", word: 0x0062_b3b3, before: (0x8000_0000, 0x7fff_ffff), outcome: Outcome::Next, pc: 0x8000_0004, after: (7, 0) },
    Case { name: "xor x7,x5,x6", word: 0x0062_c3b3, before: (0xff00_ff00, 0x0ff0_0ff0), outcome: Outcome::Next, pc: 0x8000_0004, after: (7, 0xf0f0_f0f0) },
    Case { name: "srl x7,x5,x6", word: 0x0062_d3b3, before: (0x8000_0000, 0x0000_003f), outcome: Outcome::Next, pc: 0x8000_0004, after: (7, 1) },
    Case { name: "sra x7,x5,x6", word: 0x4062_d3b3, before: (0x8000_0000, 0x0000_003f), outcome: Outcome::Next, pc: 0x8000_0004, after: (7, 0xffff_ffff) },
    Case { name: "sra x7,x5,x6", word: 0x4062_d3b3, before: (0x8000_0000, 0x0000_0020), outcome: Outcome::Next, pc: 0x8000_0004, after: (7, 0x8000_0000) },
    Case { name: "or x7,x5,x6", word: 0x0062_e3b3, before: (0x0000_00f0, 0x0000_000f), outcome: Outcome::Next, pc: 0x8000_0004, after: (7, 0x0000_00ff) },
    Case { name: "and x7,x5,x6", word: 0x0062_f3b3, before: (0x0000_00ff, 0x0000_003c), outcome: Outcome::Next, pc: 0x8000_0004, after: (7, 0x0000_003c) },
];

#[rattlefmt::skip]
pub static OTHERS: [Case; 11] = [
    Case { name: "lui x7,0xfffff", word: 0xffff_f3b7, before: (0, 0), outcome: Outcome::Next, pc: 0x8000_0004, after: (7, 0xffff_f000) },
    Case { name: "lui x0,1", word: 0x0000_1037, before: (0, 0), outcome: Outcome::Next, pc: 0x8000_0004, after: (0, 0) },
    Case { name: "auipc x7,1", word: 0x0000_1397, before: (0, 0), outcome: Outcome::Next, pc: 0x8000_0004, after: (7, 0x8000_1000) },
    Case { name: "auipc x7,0xfffff", word: 0xffff_f397, before: (0, 0), outcome: Outcome::Next, pc: 0x8000_0004, after: (7, 0x7fff_f000) },
    Case { name: ".word 0x0000000f", word: 0x0000_000f, before: (1, 2), outcome: Outcome::Next, pc: 0x8000_0004, after: (7, 0x7777_7777) },
    Case { name: ".word 0x0ff0808f", word: 0x0ff0_808f, before: (1, 2), outcome: Outcome::Next, pc: 0x8000_0004, after: (1, 0) },
    Case { name: ".word 0x0000100f", word: 0x0000_100f, before: (1, 2), outcome: Outcome::Fault(Fault::Illegal), pc: 0x8000_0000, after: (7, 0x7777_7777) },
    Case { name: "ebreak", word: 0x0010_0073, before: (0, 0), outcome: Outcome::Fault(Fault::Break), pc: 0x8000_0000, after: (7, 0x7777_7777) },
    Case { name: ".word 0x43f0d093", word: 0x43f0_d093, before: (0, 0), outcome: Outcome::Fault(Fault::Illegal), pc: 0x8000_0000, after: (1, 0) },
    Case { name: ".word 0", word: 0, before: (0, 0), outcome: Outcome::Fault(Fault::Illegal), pc: 0x8000_0000, after: (7, 0x7777_7777) },
    Case { name: ".word 0xffffffff", word: 0xffff_ffff, before: (0, 0), outcome: Outcome::Fault(Fault::Illegal), pc: 0x8000_0000, after: (7, 0x7777_7777) },
];

#[rattlefmt::skip]
pub static STORES: [StoreCase; 13] = [
    StoreCase { name: "sb x6,0(x5)", word: 0x0062_8023, x5: 0x8000_0008, outcome: Outcome::Next, bytes: [0xd4, 0xff, 0x7f, 0x01, 0x01, 0x82, 0x03, 0x84] },
    StoreCase { name: "sb x6,7(x5)", word: 0x0062_83a3, x5: 0x8000_0008, outcome: Outcome::Next, bytes: [0x80, 0xff, 0x7f, 0x01, 0x01, 0x82, 0x03, 0xd4] },
    StoreCase { name: "sb x6,8(x5)", word: 0x0062_8423, x5: 0x8000_0008, outcome: Outcome::Fault(Fault::StoreAccess), bytes: [0x80, 0xff, 0x7f, 0x01, 0x01, 0x82, 0x03, 0x84] },
    StoreCase { name: "sb x6,-9(x5)", word: 0xfe62_8ba3, x5: 0x8000_0008, outcome: Outcome::Fault(Fault::StoreAccess), bytes: [0x80, 0xff, 0x7f, 0x01, 0x01, 0x82, 0x03, 0x84] },
    StoreCase { name: "sh x6,0(x5)", word: 0x0062_9023, x5: 0x8000_0008, outcome: Outcome::Next, bytes: [0xd4, 0xc3, 0x7f, 0x01, 0x01, 0x82, 0x03, 0x84] },
    StoreCase { name: "sh x6,6(x5)", word: 0x0062_9323, x5: 0x8000_0008, outcome: Outcome::Next, bytes: [0x80, 0xff, 0x7f, 0x01, 0x01, 0x82, 0xd4, 0xc3] },
    StoreCase { name: "sh x6,7(x5)", word: 0x0062_93a3, x5: 0x8000_0008, outcome: Outcome::Fault(Fault::StoreMisaligned), bytes: [0x80, 0xff, 0x7f, 0x01, 0x01, 0x82, 0x03, 0x84] },
    StoreCase { name: "sh x6,8(x5)", word: 0x0062_9423, x5: 0x8000_0008, outcome: Outcome::Fault(Fault::StoreAccess), bytes: [0x80, 0xff, 0x7f, 0x01, 0x01, 0x82, 0x03, 0x84] },
    StoreCase { name: "sw x6,0(x5)", word: 0x0062_a023, x5: 0x8000_0008, outcome: Outcome::Next, bytes: [0xd4, 0xc3, 0xb2, 0xa1, 0x01, 0x82, 0x03, 0x84] },
    StoreCase { name: "sw x6,4(x5)", word: 0x0062_a223, x5: 0x8000_0008, outcome: Outcome::Next, bytes: [0x80, 0xff, 0x7f, 0x01, 0xd4, 0xc3, 0xb2, 0xa1] },
    StoreCase { name: "sw x6,5(x5)", word: 0x0062_a2a3, x5: 0x8000_0008, outcome: Outcome::Fault(Fault::StoreMisaligned), bytes: [0x80, 0xff, 0x7f, 0x01, 0x01, 0x82, 0x03, 0x84] },
    StoreCase { name: "sw x6,8(x5)", word: 0x0062_a423, x5: 0x8000_0008, outcome: Outcome::Fault(Fault::StoreAccess), bytes: [0x80, 0xff, 0x7f, 0x01, 0x01, 0x82, 0x03, 0x84] },
    StoreCase { name: "sw x6,1(x5)", word: 0x0062_a0a3, x5: 0xffff_ffff, outcome: Outcome::Fault(Fault::StoreAccess), bytes: [0x80, 0xff, 0x7f, 0x01, 0x01, 0x82, 0x03, 0x84] },
];
