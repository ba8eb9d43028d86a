//! All lines of a text that are at fault, by hand.

use crate::tests::same;
use rt_asm::*;
use rt_text::{TextFault, TextKind};
use std::alloc::{AllocError, Global};
use std::process::Abort;
use std::test::Fail;

fn text(line: u64, kind: TextKind) -> LineFault {
    LineFault::Text(TextFault { line, kind })
}

fn source(line: u64, kind: AsmKind) -> LineFault {
    LineFault::Source(AsmFault { line, kind })
}

/// The faults of a text are exactly these.
fn tells(rt: &impl Abort, alloc: Global, text: &str, want: &[LineFault]) -> Result<(), AllocError> {
    let faults = all_faults(alloc, text.as_bytes())?;
    same(rt, text, faults.as_slice(), want);
    Ok(())
}

#[test]
fn lines_that_are_no_assembly_text(rt: HostRuntime) -> Result<(), AllocError> {
    let want = [text(2, TextKind::UnknownName), text(3, TextKind::BadNumber)];
    tells(
        &rt,
        rt.alloc(),
        "_start: li a0, 5\n  frob a0\n  li a1, 012\n",
        &want,
    )?;
    let want = [text(1, TextKind::BadToken), text(4, TextKind::BadOperands)];
    tells(&rt, rt.alloc(), "?\nx:\nx: .byte 256\nli a0\n", &want)
}

#[test]
fn lines_whose_layout_is_faulty(rt: HostRuntime) -> Result<(), AllocError> {
    let want = [
        source(2, AsmKind::DuplicateLabel),
        source(3, AsmKind::DuplicateLabel),
        source(4, AsmKind::OutOfRange),
        source(6, AsmKind::OutOfRange),
    ];
    let lines = "x: nop\nx: y: nop\ny:\nz: .zero -1\nj nowhere\n.align 13\n";
    tells(&rt, rt.alloc(), lines, &want)?;
    // of a line with several faults the first is told, and its other labels count
    let want = [
        source(1, AsmKind::DuplicateLabel),
        source(2, AsmKind::DuplicateLabel),
    ];
    tells(&rt, rt.alloc(), "x: x: y: .zero -1\ny: nop", &want)
}

#[test]
fn nothing_is_told_behind_the_limits(rt: HostRuntime) -> Result<(), AllocError> {
    let full = "_start: .zero 1048575\nx: .byte 1,2\nx: nop\n.zero -1";
    tells(&rt, rt.alloc(), full, &[source(2, AsmKind::TooLarge)])?;
    let full = "_start: .zero 1048575\n_start: .byte 1,2\n.zero -1";
    tells(&rt, rt.alloc(), full, &[source(2, AsmKind::DuplicateLabel)])
}

#[test]
fn lines_whose_operands_are_faulty(rt: HostRuntime) -> Result<(), AllocError> {
    let want = [
        source(1, AsmKind::UndefinedLabel),
        source(2, AsmKind::OutOfRange),
        source(4, AsmKind::OddTarget),
        source(6, AsmKind::UndefinedLabel),
    ];
    // line 3 stands 8 and 3 bytes behind the first, 4,094 before its target
    let lines =
        "tail far\n.byte 256,1,2\nbeq x1,x2,0x80001009\nbeq x1,x2,0x80000010\nb: nop\n.word 1,far,b\n";
    tells(&rt, rt.alloc(), lines, &want)
}

/// A source without `_start` has no faulty line.
#[test]
fn lines_that_are_not_faulty(rt: HostRuntime) -> Result<(), AllocError> {
    tells(&rt, rt.alloc(), "", &[])?;
    tells(&rt, rt.alloc(), "x: j x\n\n# none", &[])
}

/// Fails unless a fault is shown so.
fn shows(rt: &impl Abort, alloc: Global, fault: LineFault, want: &str) -> Result<(), Fail> {
    let shown = format!(in alloc; "{fault}")?;
    same(rt, "a fault", shown.as_str(), want);
    Ok(())
}

#[test]
fn faults_are_shown_with_their_lines(rt: HostRuntime) -> Result<(), Fail> {
    let fault = text(3, TextKind::BadToken);
    shows(&rt, rt.alloc(), fault, "line 3: BadToken")?;
    let fault = source(4, AsmKind::OddTarget);
    shows(&rt, rt.alloc(), fault, "line 4: OddTarget")
}
