//! Texts are assembled as their lines are, and their own faults come first.

use crate::tests::same;
use rt_asm::*;
use rt_text::{TextFault, TextKind};
use std::alloc::Global;
use std::test::Fail;

static TEXTS: [(&str, &[u8]); 4] = [
    (
        "_start: addi x1,x0,-1\nx: jal x0,x\n",
        &[0x93, 0x00, 0xf0, 0xff, 0x6f, 0, 0, 0],
    ),
    (
        "\n# begins here\r\n_start: a:\n\n.half 0x201,-2 # then\nb: ret",
        &[1, 2, 0xfe, 0xff, 0x67, 0x80, 0, 0],
    ),
    (".byte 7\n_start:\n", &[7]),
    (
        "_start: beq x1,x2,end\naddi x1,x2,-7\nj end\n.byte 1,2,3,4\nend: ret",
        &[
            0x63, 0x88, 0x20, 0, 0x93, 0, 0x91, 0xff, 0x6f, 0, 0x80, 0, 1, 2, 3, 4, 0x67, 0x80, 0,
            0,
        ],
    ),
];

#[test]
fn texts_are_assembled(rt: HostRuntime) -> Result<(), Fail> {
    for (source, want) in &TEXTS {
        let assembled = assemble_text(rt.alloc(), source.as_bytes());
        let assembled = assembled.ok().ok_or("an image")?;
        same(&rt, *source, assembled.bytes(), *want);
    }
    Ok(())
}

/// Texts with a fault of their own, which comes first.
static TEXT_FAULTS: [(&str, u64, TextKind); 2] = [
    ("x:\nx:\n\nfoo\n?", 4, TextKind::UnknownName),
    ("_start: j t\n.byte 256\n?", 3, TextKind::BadToken),
];

/// Sources, each with its first faulty line, or 0, and what is wrong.
static SOURCE_FAULTS: [(&str, u64, AsmKind); 6] = [
    ("x:\nx:\n\nnop", 2, AsmKind::DuplicateLabel),
    ("_start: j t\n\n.align 13", 3, AsmKind::OutOfRange),
    ("_start:\n\nj t\nlui x1,-1", 3, AsmKind::UndefinedLabel),
    ("_start: addi x1,x1,2048\nj t", 1, AsmKind::OutOfRange),
    (
        "_start: j t\naddi x1,x1,2048\nj u\nt:",
        2,
        AsmKind::OutOfRange,
    ),
    ("\n\n", 0, AsmKind::NoEntry),
];

/// What a text is refused for.
fn refusal(alloc: Global, text: &str) -> Option<AssembleTextFault> {
    assemble_text(alloc, text.as_bytes()).err()
}

#[test]
fn faults_of_the_text_come_first(rt: HostRuntime) -> Result<(), Fail> {
    for (text, line, kind) in &TEXT_FAULTS {
        let fault = TextFault {
            line: *line,
            kind: *kind,
        };
        let want = AssembleTextFault::Text(fault);
        same(&rt, *text, refusal(rt.alloc(), text), Some(want));
    }
    for (text, line, kind) in &SOURCE_FAULTS {
        let fault = AsmFault {
            line: *line,
            kind: *kind,
        };
        let want = AssembleTextFault::Source(fault);
        same(&rt, *text, refusal(rt.alloc(), text), Some(want));
    }
    Ok(())
}
