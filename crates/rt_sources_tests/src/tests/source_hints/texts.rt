//! Lines that are no assembly text.

use super::are_shown;
use std::test::Fail;

/// Bytes over 127.
static BYTES: [(&[u8], &str); 3] = [
    (
        b"_start: nop\n  li a0, 5 # \xc3\xa4\n",
        "  f.s:2:14: NotAscii: byte c3\n    li a0, 5 # \\xc3\\xa4\n               ^~~~",
    ),
    (
        b"_start: nop\n\xef\xbb\xbf\n",
        "  f.s:2:1: NotAscii: byte ef\n    \\xef\\xbb\\xbf\n    ^~~~",
    ),
    (
        b"\tnop\t# \x1b[1m\x9b",
        "  f.s:1:12: NotAscii: byte 9b\n    nop # \\x1b[1m\\x9b\n                 ^~~~",
    ),
];

#[test]
fn bytes_are_named(rt: HostRuntime) -> Result<(), Fail> {
    are_shown(&rt, rt.alloc(), &BYTES)
}

/// Bytes that begin no token.
static TOKENS: [(&[u8], &str); 12] = [
    (
        b"K = 3\n",
        "  f.s:1:3: BadToken: '=' begins no token\n    K = 3\n      ^",
    ),
    (
        b".ascii \"ab  \n",
        "  f.s:1:8: BadToken: the string has no end\n    .ascii \"ab\n           ^~~",
    ),
    (
        b".ascii \"\\",
        "  f.s:1:8: BadToken: the string has no end\n    .ascii \"\\\n           ^~",
    ),
    (
        b".ascii \"a\tb\"\n",
        "  f.s:1:10: BadToken: a tab in a string: write \\t\n    .ascii \"a b\"\n             ^",
    ),
    (
        b".ascii \"a\x01\"\n",
        "  f.s:1:10: BadToken: byte 01 in a string\n    .ascii \"a\\x01\"\n             ^~~~",
    ),
    (
        b"li a0, - 5\n",
        "  f.s:1:8: BadToken: '-' begins no token\n    li a0, - 5\n           ^",
    ),
    (
        b"nop \x0c\n",
        "  f.s:1:5: BadToken: byte 0c begins no token\n    nop \\x0c\n        ^~~~",
    ),
    (
        b"nop\r\r\n",
        "  f.s:1:4: BadToken: byte 0d begins no token\n    nop\\x0d\n       ^~~~",
    ),
    (
        b"nop\r",
        "  f.s:1:4: BadToken: byte 0d begins no token\n    nop\\x0d\n       ^~~~",
    ),
    (
        b"// a comment\n",
        "  f.s:1:1: BadToken: '/' begins no token\n    // a comment\n    ^",
    ),
    (
        b".byte 'a'\n",
        "  f.s:1:7: BadToken: ''' begins no token\n    .byte 'a'\n          ^",
    ),
    (
        b"  sw \\r, 0(sp)\n",
        "  f.s:1:6: BadToken: '\\' begins no token\n    sw \\r, 0(sp)\n       ^",
    ),
];

#[test]
fn tokens_are_named(rt: HostRuntime) -> Result<(), Fail> {
    are_shown(&rt, rt.alloc(), &TOKENS)
}

/// Words that begin as a number and are none.
static NUMBERS: [(&[u8], &str); 13] = [
    (
        b"li a1, -017 # 15\n",
        "  f.s:1:8: BadNumber: -017: leading zero (octal? write -15 or -0xf)\n    li a1, -017 # 15\n           ^~~~",
    ),
    (
        b"li a1, 089\n",
        "  f.s:1:8: BadNumber: 089: leading zero\n    li a1, 089\n           ^~~",
    ),
    (
        b"li a1, 00\n",
        "  f.s:1:8: BadNumber: 00: leading zero (octal? write 0 or 0x0)\n    li a1, 00\n           ^~",
    ),
    (
        b"j 12f\n",
        "  f.s:1:3: BadNumber: 12f: letters in a number; no numeric labels\n    j 12f\n      ^~~",
    ),
    (
        b"li a0, -2147483649\n",
        "  f.s:1:8: BadNumber: -2147483649: wanted -2147483648 to 4294967295\n    li a0, -2147483649\n           ^~~~~~~~~~~",
    ),
    (
        b"li a0, 0x100000000\n",
        "  f.s:1:8: BadNumber: 0x100000000: wanted -2147483648 to 4294967295\n    li a0, 0x100000000\n           ^~~~~~~~~~~",
    ),
    (
        b"li a0, 0x\n",
        "  f.s:1:8: BadNumber: 0x: no digits behind it\n    li a0, 0x\n           ^~",
    ),
    (
        b"li a0, 0xfg\n",
        "  f.s:1:8: BadNumber: 0xfg: hexadecimal digits are 0 to 9 and a to f\n    li a0, 0xfg\n           ^~~~",
    ),
    (
        b"li a0, 0b12\n",
        "  f.s:1:8: BadNumber: 0b12: binary digits are 0 and 1\n    li a0, 0b12\n           ^~~~",
    ),
    (
        b"li a0, 0o17\n",
        "  f.s:1:8: BadNumber: 0o17: leading zero (octal? write 15 or 0xf)\n    li a0, 0o17\n           ^~~~",
    ),
    (
        b"li a0, 64K\n",
        "  f.s:1:8: BadNumber: 64K: letters in a number\n    li a0, 64K\n           ^~~",
    ),
    (
        b"li a0, 1.5\n",
        "  f.s:1:8: BadNumber: 1.5: numbers are whole\n    li a0, 1.5\n           ^~~",
    ),
    (
        b".byte 1, 007, 2\n",
        "  f.s:1:10: BadNumber: 007: leading zero (octal? write 7 or 0x7)\n    .byte 1, 007, 2\n             ^~~",
    ),
];

#[test]
fn numbers_are_explained(rt: HostRuntime) -> Result<(), Fail> {
    are_shown(&rt, rt.alloc(), &NUMBERS)
}

/// Lines of which a part is shown.
static WIDE: [(&[u8], &str); 4] = [
    (
        b".byte 10, 10, 10, 10, 10, 10, 10, 10, 10, 10, 10, 10, 10, 10, 10, 10, 10, 10, 10, 10, 10, 10, 10, 10, 10, x\n",
        "  f.s:1:107: BadOperands: wanted: .byte imm, ..\n    .byte 10, 10, 10, 10, 10, 10, 10, 10, 10, 10, 10, 10, 10, 10, 10, 10, 10, 10, 10, 10, 10, 10, 10, 10 ..",
    ),
    (
        b"\t.byte 10, 10, 10, 10, 10, 10, 10, 10, 10, 10, 10, 10, 10, 10, 10, 10, 10, 10, 10, 10, 10, 10, 10, 10xyz, 5\n",
        "  f.s:1:100: BadNumber: 10xyz: letters in a number\n    .byte 10, 10, 10, 10, 10, 10, 10, 10, 10, 10, 10, 10, 10, 10, 10, 10, 10, 10, 10, 10, 10, 10, 10, 10 ..\n                                                                                                      ^~",
    ),
    (
        b".ascii \"yyyyyyyyyyyyyyyyyyyyyyyyyyyyyyyyyyyyyyyyyyyyyyyyyyyyyyyyyyyyyyyyyyyyyyyyyyyyyyyyyyyyyyyyyyyy\n",
        "  f.s:1:8: BadToken: the string has no end\n    .ascii \"yyyyyyyyyyyyyyyyyyyyyyyyyyyyyyyyyyyyyyyyyyyyyyyyyyyyyyyyyyyyyyyyyyyyyyyyyyyyyyyyyyyyyyyyyyyy\n           ^~~~~~~~~~~~~~~~~~~~~~~~~~~~~~~~~~~~~~~~~~~~~~~~~~~~~~~~~~~~~~~~~~~~~~~~~~~~~~~~~~~~~~~~~~~~~",
    ),
    (
        b".ascii \"yyyyyyyyyyyyyyyyyyyyyyyyyyyyyyyyyyyyyyyyyyyyyyyyyyyyyyyyyyyyyyyyyyyyyyyyyyyyyyyyyyyyyyyyyyyyy\n",
        "  f.s:1:8: BadToken: the string has no end\n    .ascii \"yyyyyyyyyyyyyyyyyyyyyyyyyyyyyyyyyyyyyyyyyyyyyyyyyyyyyyyyyyyyyyyyyyyyyyyyyyyyyyyyyyyyyyyyyyyy ..\n           ^~~~~~~~~~~~~~~~~~~~~~~~~~~~~~~~~~~~~~~~~~~~~~~~~~~~~~~~~~~~~~~~~~~~~~~~~~~~~~~~~~~~~~~~~~~~~",
    ),
];

#[test]
fn a_hundred_bytes_of_a_line_are_shown(rt: HostRuntime) -> Result<(), Fail> {
    are_shown(&rt, rt.alloc(), &WIDE)
}
