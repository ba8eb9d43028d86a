//! Requests for memory, of which one may be refused: with `rt try --test --fail-alloc N` the Nth.

use crate::tests::same;
use rt_text::{Line, ParseFault, RefusedWord, parse, refused_word, statement_names, text_faults};
use std::alloc::{AllocError, Global};
use std::process::Abort;
use std::test::Fail;

/// Labels, memory operands, lists of numbers and of targets, a string and fence sets.
const EACH_ROOM: &[u8] =
    b"a: b: lw x5,-4(sp)\n.byte 1,-2\n.word 7,a\n.ascii \"\\t#\"\nfence iorw,w\n";

/// The name of each statement, and how many labels and operands its line has.
static LINES: [(&[u8], usize, usize); 5] = [
    (b"lw", 2, 2),
    (b".byte", 0, 2),
    (b".word", 0, 2),
    (b".ascii", 0, 1),
    (b"fence", 0, 2),
];

fn look_at_line(rt: &impl Abort, line: &Line, row: &(&[u8], usize, usize)) -> Result<(), Fail> {
    let (name, labels, operands) = *row;
    let statement = line.statement().ok_or("no statement")?;
    same(rt, name, statement.name().text(), name);
    same(rt, name, line.labels().len(), labels);
    same(rt, name, statement.operands().len(), operands);
    Ok(())
}

#[test]
fn lines_are_read_again(rt: HostRuntime) -> Result<(), Fail> {
    let lines = match parse(rt.alloc(), EACH_ROOM) {
        Err(ParseFault::Memory) => parse(rt.alloc(), EACH_ROOM)?,
        answer => answer?,
    };
    same(&rt, "lines", lines.len(), LINES.len());
    for (line, row) in lines.iter().zip(&LINES) {
        look_at_line(&rt, line, row)?;
    }
    Ok(())
}

#[test]
fn faults_are_told_again(rt: HostRuntime) -> Result<(), Fail> {
    let text = b"frob\nx: nop\nli x1\n";
    let faults = match text_faults(rt.alloc(), text) {
        Err(_) => text_faults(rt.alloc(), text)?,
        Ok(faults) => faults,
    };
    same(&rt, "faults", faults.len(), 2);
    Ok(())
}

/// The word for which a line is refused, asked for once more where there was no memory.
fn word_again(alloc: Global, line: &[u8]) -> Result<Option<RefusedWord>, AllocError> {
    match refused_word(alloc, 100, line) {
        Err(_) => refused_word(alloc, 100, line),
        answer => answer,
    }
}

/// Lines, and where the word lies for which each is refused.
static REFUSED: [(&[u8], (usize, usize)); 5] = [
    (b"frob a0", (100, 104)),
    (b"x: li a0, 08", (110, 112)),
    (b".ascii \"a\\q\"", (109, 111)),
    (b"jal ra, x, 5", (111, 112)),
    (b"addi a0,, 5", (108, 109)),
];

#[test]
fn words_are_refused_again(rt: HostRuntime) -> Result<(), Fail> {
    for (line, wanted) in &REFUSED {
        let word = word_again(rt.alloc(), line)?.ok_or("no word")?;
        same(&rt, *line, (word.span.start, word.span.end), *wanted);
    }
    let names = match statement_names(rt.alloc()) {
        Err(_) => statement_names(rt.alloc())?,
        Ok(names) => names,
    };
    same(&rt, "names", names.len(), 80);
    Ok(())
}
