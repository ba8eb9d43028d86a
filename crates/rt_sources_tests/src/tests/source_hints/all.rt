//! All faulty lines of a source.

use super::copies;
use crate::tests::same;
use rt_file_hints::source_hints::source_hints;
use std::test::Fail;

/// Sources, each with what is shown of all its faulty lines.
static SOURCES: [(&[u8], &str); 6] = [
    (
        b"_start: li a0, 5\n        frob a0\n        li a1, 012\n",
        "  f.s:2:9: UnknownName: frob: no instruction or directive has this name\n    frob a0\n    ^~~~\n  f.s:3:16: BadNumber: 012: leading zero (octal? write 10 or 0xa)\n    li a1, 012\n           ^~~",
    ),
    (
        b"\r\n;\r\nnop\r\n\r\n_start: j .+4\r\n\r\nnop\r",
        "  f.s:2:1: BadToken: ';' begins no token\n    ;\n    ^\n  f.s:5:12: BadToken: '+' begins no token\n    _start: j .+4\n               ^\n  f.s:7:4: BadToken: byte 0d begins no token\n    nop\\x0d\n       ^~~~",
    ),
    (
        b"a: nop\n\nb: .zero -1\na: a: nop\nb: .align 13\n.zero 1048576\nc: frobs: a:\n",
        "  f.s:3:10: OutOfRange: -1, wanted 0 to 1048576\n    b: .zero -1\n             ^~\n  f.s:4:1: DuplicateLabel: a: defined in line 1\n    a: a: nop\n    ^\n  f.s:5:1: DuplicateLabel: b: defined in line 3\n    b: .align 13\n    ^\n  f.s:6: TooLarge: 1048584 bytes, at most 1048576\n    .zero 1048576",
    ),
    (
        b"_start:\n\tbeq a0, a1, far\n\tj faar\n.byte 300, 400\n\tbeq a0, a1, odd\n.byte 1\nodd:\n.zero 5000\nfar: nop\n",
        "  f.s:2:14: OutOfRange: far: 5015 bytes away, wanted -4096 to 4094\n    beq a0, a1, far\n                ^~~\n  f.s:3:4: UndefinedLabel: faar: is far meant?\n    j faar\n      ^~~~\n  f.s:4:7: OutOfRange: 300, wanted -128 to 255\n    .byte 300, 400\n          ^~~\n  f.s:5:14: OddTarget: odd: 5 bytes away, wanted a multiple of 2\n    beq a0, a1, odd\n                ^~~",
    ),
    (b"nop\n", "  f.s: NoEntry: no line defines _start"),
    (b"", "  f.s: NoEntry: no line defines _start"),
];

#[test]
fn all_lines_are_shown(rt: HostRuntime) -> Result<(), Fail> {
    for (source, wanted) in &SOURCES {
        let text = source_hints(rt.alloc(), "f.s", source)?;
        same(&rt, "a source", text.as_str(), *wanted);
    }
    Ok(())
}

#[test]
fn a_hundred_lines_are_shown(rt: HostRuntime) -> Result<(), Fail> {
    let source = copies(rt.alloc(), b"\nfrob\n", 40_000)?;
    let text = source_hints(rt.alloc(), "f.s", &source)?;
    let mut wanted = String::new(rt.alloc());
    for number in 1_u64..=100 {
        let line = number * 2;
        let reason = "frob: no instruction or directive has this name";
        wanted.write(format_args!("  f.s:{line}:1: UnknownName: {reason}\n    frob\n    ^~~~\n"))?;
    }
    wanted.push_str("  .. and 39900 more")?;
    same(&rt, "a hundred", text.as_str(), wanted.as_str());
    Ok(())
}

#[test]
fn a_hundred_lines_are_all(rt: HostRuntime) -> Result<(), Fail> {
    let source = copies(rt.alloc(), b"frob\n", 100)?;
    let text = source_hints(rt.alloc(), "f.s", &source)?;
    let is_all = text.as_str().ends_with("\n    frob\n    ^~~~");
    same(&rt, "all", is_all, true);
    Ok(())
}
