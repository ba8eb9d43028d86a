//! Lines whose layout or operands are at fault.

use super::are_shown;
use std::test::Fail;

/// Labels, the entry, and the size of the image.
static LABELS: [(&[u8], &str); 9] = [
    (
        b"_start: nop\nloop: nop\nloop: nop\n",
        "  f.s:3:1: DuplicateLabel: loop: defined in line 2\n    loop: nop\n    ^~~~",
    ),
    (
        b"_start: x: x: nop\n",
        "  f.s:1:12: DuplicateLabel: x: defined in line 1\n    _start: x: x: nop\n               ^",
    ),
    (
        b"_start:\na: b:\nc: \tb: nop\n",
        "  f.s:3:5: DuplicateLabel: b: defined in line 2\n    c:  b: nop\n        ^",
    ),
    (
        b"_start: j .\n",
        "  f.s:1:11: UndefinedLabel: .: no line defines it\n    _start: j .\n              ^",
    ),
    (
        b"_start: .word 1, _start, end\n",
        "  f.s:1:26: UndefinedLabel: end: no line defines it\n    _start: .word 1, _start, end\n                             ^~~",
    ),
    (
        b"_start:\n\tbeq a0, a1, strat\nstart: nop\n",
        "  f.s:2:14: UndefinedLabel: strat: is start meant?\n    beq a0, a1, strat\n                ^~~~~",
    ),
    (b"nop\n", "  f.s: NoEntry: no line defines _start"),
    (b"", "  f.s: NoEntry: no line defines _start"),
    (
        b"_start: .zero 1048576\n\tnop # one more\n",
        "  f.s:2: TooLarge: 1048580 bytes, at most 1048576\n    nop # one more",
    ),
];

#[test]
fn labels_are_named(rt: HostRuntime) -> Result<(), Fail> {
    are_shown(&rt, rt.alloc(), &LABELS)
}

/// Numbers beyond what their place holds; the first line is right.
static RANGES: [(&[u8], &str); 15] = [
    (
        b"_start: nop\nx: addi a0, a0, 5000\n",
        "  f.s:2:17: OutOfRange: 5000, wanted -2048 to 2047\n    x: addi a0, a0, 5000\n                    ^~~~",
    ),
    (
        b"_start: nop\naddi a0, a0, 0xfff # -1\n",
        "  f.s:2:14: OutOfRange: 0xfff (4095), wanted -2048 to 2047\n    addi a0, a0, 0xfff # -1\n                 ^~~~~",
    ),
    (
        b"_start: nop\nsw a0, -0x801 (sp)\n",
        "  f.s:2:8: OutOfRange: -0x801 (-2049), wanted -2048 to 2047\n    sw a0, -0x801 (sp)\n           ^~~~~~",
    ),
    (
        b"_start: nop\njalr ra, a0, 5000\n",
        "  f.s:2:14: OutOfRange: 5000, wanted -2048 to 2047\n    jalr ra, a0, 5000\n                 ^~~~",
    ),
    (
        b"_start: nop\njalr ra, 5000(a0)\n",
        "  f.s:2:10: OutOfRange: 5000, wanted -2048 to 2047\n    jalr ra, 5000(a0)\n             ^~~~",
    ),
    (
        b"_start: nop\nsrai a0, a0, -1\n",
        "  f.s:2:14: OutOfRange: -1, wanted 0 to 31\n    srai a0, a0, -1\n                 ^~",
    ),
    (
        b"_start: nop\nauipc a0, -1\n",
        "  f.s:2:11: OutOfRange: -1, wanted 0 to 1048575\n    auipc a0, -1\n              ^~",
    ),
    (
        b"_start: nop\n.byte 1, 255, 256, 257\n",
        "  f.s:2:15: OutOfRange: 256, wanted -128 to 255\n    .byte 1, 255, 256, 257\n                  ^~~",
    ),
    (
        b"_start: nop\n.2byte 0, -32769\n",
        "  f.s:2:11: OutOfRange: -32769, wanted -32768 to 65535\n    .2byte 0, -32769\n              ^~~~~~",
    ),
    (
        b"_start: nop\n.zero 1048577\n",
        "  f.s:2:7: OutOfRange: 1048577, wanted 0 to 1048576\n    .zero 1048577\n          ^~~~~~~",
    ),
    (
        b"_start: nop\n.space -1\n",
        "  f.s:2:8: OutOfRange: -1, wanted 0 to 1048576\n    .space -1\n           ^~",
    ),
    (
        b"_start: nop\n.align 13\n",
        "  f.s:2:8: OutOfRange: 13, wanted 0 to 12\n    .align 13\n           ^~",
    ),
    (
        b"_start: nop\n.p2align -1\n",
        "  f.s:2:10: OutOfRange: -1, wanted 0 to 12\n    .p2align -1\n             ^~",
    ),
    (
        b"_start: nop\nj 0\n",
        "  f.s:2:3: OutOfRange: 0: 2147483644 bytes away, wanted -1048576 to 1048574\n    j 0\n      ^",
    ),
    (
        b"_start: nop\njal ra, 0x80100004\n",
        "  f.s:2:9: OutOfRange: 0x80100004: 1048576 bytes away, wanted -1048576 to 1048574\n    jal ra, 0x80100004\n            ^~~~~~~~~~",
    ),
];

#[test]
fn ranges_are_told(rt: HostRuntime) -> Result<(), Fail> {
    are_shown(&rt, rt.alloc(), &RANGES)
}

/// Targets that are too far or odd.
static DISTANCES: [(&[u8], &str); 4] = [
    (
        b"top: .zero 6000\n_start: bnez a0, top\n",
        "  f.s:2:18: OutOfRange: top: -6000 bytes away, wanted -4096 to 4094\n    _start: bnez a0, top\n                     ^~~",
    ),
    (
        b"_start: beqz a0, far\nli a0, 0x12345\nli a1, 0x12000\nli a2, -2048\nla a1, far\ncall far\ntail far\n.align 4\n.half 1, 2\n.byte 1\n.ascii \"abc\"\n.asciz \"ab\\n\"\n.word far\n.zero 5000\nfar: nop\n",
        "  f.s:1:18: OutOfRange: far: 5064 bytes away, wanted -4096 to 4094\n    _start: beqz a0, far\n                     ^~~",
    ),
    (
        b"_start: beq a0, a1, 0x80000fff\n",
        "  f.s:1:21: OddTarget: 0x80000fff: 4095 bytes away, wanted a multiple of 2\n    _start: beq a0, a1, 0x80000fff\n                        ^~~~~~~~~~",
    ),
    (
        b"odd: .byte 1\n_start: ble a0, a1, odd\n",
        "  f.s:2:21: OddTarget: odd: -1 bytes away, wanted a multiple of 2\n    _start: ble a0, a1, odd\n                        ^~~",
    ),
];

#[test]
fn distances_are_told(rt: HostRuntime) -> Result<(), Fail> {
    are_shown(&rt, rt.alloc(), &DISTANCES)
}
