//! What words access: encodings by the ISA document's table of RV32I.

use crate::tests::same;
use rt_points::*;

/// x8 = 80000100, x10 = 80000034, x31 = fffffffc.
static REGISTERS: [u32; 32] = [
    0,
    0,
    0,
    0,
    0,
    0,
    0,
    0,
    0x8000_0100,
    0,
    0x8000_0034,
    0,
    0,
    0,
    0,
    0,
    0,
    0,
    0,
    0,
    0,
    0,
    0,
    0,
    0,
    0,
    0,
    0,
    0,
    0,
    0,
    0xffff_fffc,
];

/// Loads and stores: the word, whether it stores, the first byte's address, and how many bytes.
static ACCESSES: [(u32, bool, u32, u32); 11] = [
    // lb x1, 0(x10)
    (0x0005_0083, false, 0x8000_0034, 1),
    // lh x9, -2(x0)
    (0xffe0_1483, false, 0xffff_fffe, 2),
    // lw x14, 0(x10)
    (0x0005_2703, false, 0x8000_0034, 4),
    // lw x14, -2(x0)
    (0xffe0_2703, false, 0xffff_fffe, 4),
    // lbu x5, 3(x10)
    (0x0035_4283, false, 0x8000_0037, 1),
    // lhu x6, 2(x10)
    (0x0025_5303, false, 0x8000_0036, 2),
    // sb x7, 1(x8)
    (0x0074_00a3, true, 0x8000_0101, 1),
    // sh x6, 2(x8)
    (0x0064_1123, true, 0x8000_0102, 2),
    // sw x14, -4(x10)
    (0xfee5_2e23, true, 0x8000_0030, 4),
    // sw x14, 4(x31)
    (0x00ef_a223, true, 0x0000_0000, 4),
    // sw x14, 0(x31)
    (0x00ef_a023, true, 0xffff_fffc, 4),
];

/// jalr x0, 0(x1); ecall; ebreak; fence; addi x1, x0, -1; jal x0, 0; lui x10, 0; ld of RV64; funct3 7 of the loads; sd of RV64;
/// no instructions.
static OTHERS: [u32; 12] = [
    0x0000_8067,
    0x0000_0073,
    0x0010_0073,
    0x0ff0_000f,
    0xfff0_0093,
    0x0000_006f,
    0x0000_0537,
    0x0000_3503,
    0x0000_7003,
    0x0000_3023,
    0x0000_0000,
    0xffff_ffff,
];

#[test]
fn loads_and_stores(rt: HostRuntime) {
    for (word, is_store, address, bytes) in &ACCESSES {
        let access = Access {
            is_store: *is_store,
            address: *address,
            bytes: *bytes,
        };
        same(&rt, *word, access_of(*word, &REGISTERS), Some(access));
    }
}

#[test]
fn nothing_else_accesses(rt: HostRuntime) {
    for word in &OTHERS {
        same(&rt, *word, access_of(*word, &REGISTERS), None);
    }
}
