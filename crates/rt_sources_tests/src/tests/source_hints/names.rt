//! Statements with a name or operands that are none.

use super::are_shown;
use std::test::Fail;

/// Names that no statement has.
static NAMES: [(&[u8], &str); 28] = [
    (
        b"k a0\n",
        "  f.s:1:1: UnknownName: k: no instruction or directive has this name\n    k a0\n    ^",
    ),
    (
        b"REMU a0, a0, a1\n",
        "  f.s:1:1: UnknownName: REMU: an instruction of M, which this machine lacks\n    REMU a0, a0, a1\n    ^~~~",
    ),
    (
        b"amoadd.w.aq a0, a1, (a2)\n",
        "  f.s:1:1: UnknownName: amoadd.w.aq: an instruction of A, which this machine lacks\n    amoadd.w.aq a0, a1, (a2)\n    ^~~~~~~~~~~",
    ),
    (
        b"flw fa0, 0(a0)\n",
        "  f.s:1:1: UnknownName: flw: an instruction of F, which this machine lacks\n    flw fa0, 0(a0)\n    ^~~",
    ),
    (
        b"fmv.x.w a0, fa0\n",
        "  f.s:1:1: UnknownName: fmv.x.w: an instruction of F, which this machine lacks\n    fmv.x.w a0, fa0\n    ^~~~~~~",
    ),
    (
        b"fcvt.d.s fa0, fa1\n",
        "  f.s:1:1: UnknownName: fcvt.d.s: an instruction of D, which this machine lacks\n    fcvt.d.s fa0, fa1\n    ^~~~~~~~",
    ),
    (
        b"fsqrt.q fa0, fa1\n",
        "  f.s:1:1: UnknownName: fsqrt.q: an instruction of Q, which this machine lacks\n    fsqrt.q fa0, fa1\n    ^~~~~~~",
    ),
    (
        b"rdcycle a0\n",
        "  f.s:1:1: UnknownName: rdcycle: an instruction of Zicntr, which this machine lacks\n    rdcycle a0\n    ^~~~~~~",
    ),
    (
        b"c.addi a0, 1\n",
        "  f.s:1:1: UnknownName: c.addi: an instruction of C, which this machine lacks\n    c.addi a0, 1\n    ^~~~~~",
    ),
    (
        b"sext.w a0, a0\n",
        "  f.s:1:1: UnknownName: sext.w: an instruction of RV64I, which this machine lacks\n    sext.w a0, a0\n    ^~~~~~",
    ),
    (
        b"sh1add a0, a0, a1\n",
        "  f.s:1:1: UnknownName: sh1add: an instruction of Zba, which this machine lacks\n    sh1add a0, a0, a1\n    ^~~~~~",
    ),
    (
        b"fence.tso\n",
        "  f.s:1:1: UnknownName: fence.tso: no instruction or directive has this name\n    fence.tso\n    ^~~~~~~~~",
    ),
    (
        b".Word 1\n",
        "  f.s:1:1: UnknownName: .Word: names are in lower case: .word\n    .Word 1\n    ^~~~~",
    ),
    (
        b"jla ra, x\n",
        "  f.s:1:1: UnknownName: jla: is jal meant?\n    jla ra, x\n    ^~~",
    ),
    (
        b"ad a0, a0, a1\n",
        "  f.s:1:1: UnknownName: ad: is add meant?\n    ad a0, a0, a1\n    ^~",
    ),
    (
        b"xur a0, a0, a1\n",
        "  f.s:1:1: UnknownName: xur: is xor meant?\n    xur a0, a0, a1\n    ^~~",
    ),
    (
        b".wrod 1\n",
        "  f.s:1:1: UnknownName: .wrod: is .word meant?\n    .wrod 1\n    ^~~~~",
    ),
    (
        b".asci \"a\"\n",
        "  f.s:1:1: UnknownName: .asci: is .ascii meant?\n    .asci \"a\"\n    ^~~~~",
    ),
    (
        b"lla a0, x\n",
        "  f.s:1:1: UnknownName: lla: write la\n    lla a0, x\n    ^~~",
    ),
    (
        b"sgt a0, a1, a2\n",
        "  f.s:1:1: UnknownName: sgt: write slt with the registers exchanged\n    sgt a0, a1, a2\n    ^~~",
    ),
    (
        b"laa a0, x\n",
        "  f.s:1:1: UnknownName: laa: is la meant?\n    laa a0, x\n    ^~~",
    ),
    (
        b".section .data\n",
        "  f.s:1:1: UnknownName: .section: no directive here\n    .section .data\n    ^~~~~~~~",
    ),
    (
        b".macro push r\n",
        "  f.s:1:1: UnknownName: .macro: no directive here\n    .macro push r\n    ^~~~~~",
    ),
    (
        b".cfi_startproc\n",
        "  f.s:1:1: UnknownName: .cfi_startproc: no directive here\n    .cfi_startproc\n    ^~~~~~~~~~~~~~",
    ),
    (
        b".short 5\n",
        "  f.s:1:1: UnknownName: .short: no directive here, write .half\n    .short 5\n    ^~~~~~",
    ),
    (
        b".balign 4\n",
        "  f.s:1:1: UnknownName: .balign: no directive here, write .align with the power of 2\n    .balign 4\n    ^~~~~~~",
    ),
    (
        b"x: y: mul a0, a0, a1 # x\n",
        "  f.s:1:7: UnknownName: mul: an instruction of M, which this machine lacks\n    x: y: mul a0, a0, a1 # x\n          ^~~",
    ),
    (
        b"_start: nop\n\n \t frob\ta0 \t\n",
        "  f.s:3:4: UnknownName: frob: no instruction or directive has this name\n    frob a0\n    ^~~~",
    ),
];

#[test]
fn names_are_explained(rt: HostRuntime) -> Result<(), Fail> {
    are_shown(&rt, rt.alloc(), &NAMES)
}

/// Operands that fit no form of their name.
static OPERANDS: [(&[u8], &str); 38] = [
    (
        b"addi a32, a0, 1\n",
        "  f.s:1:6: BadOperands: wanted: addi rd, rs1, imm\n    addi a32, a0, 1\n         ^~~",
    ),
    (
        b"addi x32, a0, 1\n",
        "  f.s:1:6: BadOperands: wanted: addi rd, rs1, imm\n    addi x32, a0, 1\n         ^~~",
    ),
    (
        b"addi a0,,5\n",
        "  f.s:1:9: BadOperands: wanted: addi rd, rs1, imm\n    addi a0,,5\n            ^",
    ),
    (
        b"addi a0, a0,\n",
        "  f.s:1:12: BadOperands: wanted: addi rd, rs1, imm\n    addi a0, a0,\n               ^",
    ),
    (
        b"add a0 a1 a2\n",
        "  f.s:1:5: BadOperands: wanted: add rd, rs1, rs2\n    add a0 a1 a2\n        ^~~~~~~~",
    ),
    (
        b"slli a0, a0, a1\n",
        "  f.s:1:14: BadOperands: wanted: slli rd, rs1, shamt\n    slli a0, a0, a1\n                 ^~",
    ),
    (
        b"lui a0, x\n",
        "  f.s:1:9: BadOperands: wanted: lui rd, imm\n    lui a0, x\n            ^",
    ),
    (
        b"jal\n",
        "  f.s:1:1: BadOperands: wanted: jal rd, target or jal target\n    jal\n    ^~~",
    ),
    (
        b"jal ra, x, 5\n",
        "  f.s:1:12: BadOperands: wanted: jal rd, target or jal target\n    jal ra, x, 5\n               ^",
    ),
    (
        b"jalr 5\n",
        "  f.s:1:6: BadOperands: wanted: jalr rd, imm(rs1) or jalr rd, rs1, imm or jalr rd, rs1 or jalr rs1\n    jalr 5\n         ^",
    ),
    (
        b"beq a0, 1, x\n",
        "  f.s:1:9: BadOperands: wanted: beq rs1, rs2, target\n    beq a0, 1, x\n            ^",
    ),
    (
        b"bnez a0\n",
        "  f.s:1:1: BadOperands: wanted: bnez rs1, target\n    bnez a0\n    ^~~~",
    ),
    (
        b"lw a0, x\n",
        "  f.s:1:8: BadOperands: wanted: lw rd, imm(rs1)\n    lw a0, x\n           ^",
    ),
    (
        b"sw a0, 4(y)\n",
        "  f.s:1:8: BadOperands: wanted: sw rs2, imm(rs1)\n    sw a0, 4(y)\n           ^~~~",
    ),
    (
        b"sw a0, (a1), a2\n",
        "  f.s:1:14: BadOperands: wanted: sw rs2, imm(rs1)\n    sw a0, (a1), a2\n                 ^~",
    ),
    (
        b"ret a0\n",
        "  f.s:1:5: BadOperands: wanted: ret\n    ret a0\n        ^~",
    ),
    (
        b"mv a0, 5\n",
        "  f.s:1:8: BadOperands: wanted: mv rd, rs1\n    mv a0, 5\n           ^",
    ),
    (
        b"j \"x\"\n",
        "  f.s:1:3: BadOperands: wanted: j target\n    j \"x\"\n      ^~~",
    ),
    (
        b"jr 5\n",
        "  f.s:1:4: BadOperands: wanted: jr rs1\n    jr 5\n       ^",
    ),
    (
        b"la a0, (a1)\n",
        "  f.s:1:8: BadOperands: wanted: la rd, target\n    la a0, (a1)\n           ^~~~",
    ),
    (
        b"li a0, a1\n",
        "  f.s:1:8: BadOperands: wanted: li rd, imm\n    li a0, a1\n           ^~",
    ),
    (
        b"fence iorw\n",
        "  f.s:1:1: BadOperands: wanted: fence or fence pred, succ\n    fence iorw\n    ^~~~~",
    ),
    (
        b"fence wr, w\n",
        "  f.s:1:7: BadOperands: wanted: fence or fence pred, succ\n    fence wr, w\n          ^~",
    ),
    (
        b"nop nop\n",
        "  f.s:1:5: BadOperands: wanted: nop\n    nop nop\n        ^~~",
    ),
    (
        b".text 1\n",
        "  f.s:1:7: BadOperands: wanted: .text\n    .text 1\n          ^",
    ),
    (
        b".globl 5\n",
        "  f.s:1:8: BadOperands: wanted: .globl symbol\n    .globl 5\n           ^",
    ),
    (
        b".byte\n",
        "  f.s:1:1: BadOperands: wanted: .byte imm, ..\n    .byte\n    ^~~~~",
    ),
    (
        b".byte 1, x\n",
        "  f.s:1:10: BadOperands: wanted: .byte imm, ..\n    .byte 1, x\n             ^",
    ),
    (
        b".word 1, \"a\"\n",
        "  f.s:1:10: BadOperands: wanted: .word item, ..\n    .word 1, \"a\"\n             ^~~",
    ),
    (
        b".align 4, 0\n",
        "  f.s:1:11: BadOperands: wanted: .align imm\n    .align 4, 0\n              ^",
    ),
    (
        b".zero x\n",
        "  f.s:1:7: BadOperands: wanted: .zero imm\n    .zero x\n          ^",
    ),
    (
        b".ascii a\n",
        "  f.s:1:8: BadOperands: wanted: .ascii \"text\"\n    .ascii a\n           ^",
    ),
    (
        b".string \"a\", \"b\"\n",
        "  f.s:1:14: BadOperands: wanted: .string \"text\"\n    .string \"a\", \"b\"\n                 ^~~",
    ),
    (
        b"1: nop\n",
        "  f.s:1:1: BadOperands: wanted: NAME OPERANDS\n    1: nop\n    ^",
    ),
    (
        b": nop\n",
        "  f.s:1:1: BadOperands: wanted: NAME OPERANDS\n    : nop\n    ^",
    ),
    (
        b"\"a\"\n",
        "  f.s:1:1: BadOperands: wanted: NAME OPERANDS\n    \"a\"\n    ^~~",
    ),
    (
        b"x: 5\n",
        "  f.s:1:4: BadOperands: wanted: NAME OPERANDS\n    x: 5\n       ^",
    ),
    (
        b"(a0)\n",
        "  f.s:1:1: BadOperands: wanted: NAME OPERANDS\n    (a0)\n    ^",
    ),
];

#[test]
fn forms_are_shown(rt: HostRuntime) -> Result<(), Fail> {
    are_shown(&rt, rt.alloc(), &OPERANDS)
}
