//! The lines behind the first one of a source that isn't assembled.

use crate::source_hints::sources::{number_at, span_of, write_source_reason};
use crate::source_hints::texts::{bytes_at, marked_span, write_text_reason};
use rt_asm::{AsmFault, AsmKind, Flaw, LineFault, Reason, all_faults, all_flaws};
use rt_fault_lines::shown::{Escaped, Explanation, Marked};
use rt_text::{Line, ParseFault, TextFault, parse, refused_word, statement_names};
use rt_token::{Span, cut_line};
use std::alloc::{AllocError, Global};

/// How many faulty lines of a source are shown at most.
const MOST_SHOWN: usize = 100;

/// The fault of a source of which no line is faulty.
const NO_ENTRY: LineFault = LineFault::Source(AsmFault {
    line: 0,
    kind: AsmKind::NoEntry,
});

/// A source that isn't assembled, and what is known of it: nothing of one that is no assembly text.
#[derive(Drop)]
struct Source<'a> {
    path: &'a str,
    lines: Vec<Line<'a>>,
    flaws: Vec<Flaw>,
    /// The names that statements have.
    names: Vec<&'static [u8]>,
}

/// A faulty line, without its end, and where it begins in its source.
#[derive(Clone, Copy)]
struct FaultyLine<'a> {
    text: &'a [u8],
    start: usize,
}

/// The lines behind the first one of a source that isn't assembled, for its first fault. The assembler answered this fault for this
/// source.
pub fn source_hint(alloc: Global, path: &str, source: &[u8], fault: LineFault) -> Explanation {
    Ok(Some(text_of(alloc, path, source, &[fault])?))
}

/// The lines for every faulty line of a source that isn't assembled, at most a hundred, and how many more there are. Where no line is
/// faulty, the source has no entry.
pub fn source_hints(alloc: Global, path: &str, source: &[u8]) -> Result<String, AllocError> {
    let faults = all_faults(alloc, source)?;
    if faults.is_empty() {
        text_of(alloc, path, source, &[NO_ENTRY])
    } else {
        text_of(alloc, path, source, &faults)
    }
}

/// The lines for the first faults of a source.
fn text_of(
    alloc: Global,
    path: &str,
    source: &[u8],
    faults: &[LineFault],
) -> Result<String, AllocError> {
    let known = Source::of(alloc, path, source, faults.first())?;
    let mut text = String::new(alloc);
    let mut rest = source;
    let mut next = 1;
    for (index, fault) in faults.iter().take(MOST_SHOWN).enumerate() {
        let number = number_of(*fault);
        rest = behind_lines(rest, number.saturating_sub(next));
        let start = source.len().saturating_sub(rest.len());
        let (line, after) = first_line(rest);
        (rest, next) = (after, number.saturating_add(1));
        if index > 0 {
            text.push('\n')?;
        }
        let at = FaultyLine { text: line, start };
        match fault {
            LineFault::Text(fault) => known.write_text_fault(alloc, &mut text, at, *fault)?,
            LineFault::Source(fault) => known.write_fault(&mut text, at, *fault, index)?,
        }
    }
    let left = faults.len().saturating_sub(MOST_SHOWN);
    if left > 0 {
        text.write(format_args!("\n  .. and {left} more"))?;
    }
    Ok(text)
}

/// What stands behind so many lines of a text.
fn behind_lines(text: &[u8], skipped: u64) -> &[u8] {
    let mut rest = text;
    for _ in 0..skipped {
        rest = first_line(rest).1;
    }
    rest
}

/// The first line of a text, and what stands behind it.
fn first_line(text: &[u8]) -> (&[u8], &[u8]) {
    if text.is_empty() {
        (text, text)
    } else {
        cut_line(text)
    }
}

/// The line of a fault, counted from 1; 0 where no line has it.
fn number_of(fault: LineFault) -> u64 {
    match fault {
        LineFault::Text(fault) => fault.line,
        LineFault::Source(fault) => fault.line,
    }
}

impl<'a> Source<'a> {
    /// What is known of a source whose first fault is this one.
    fn of(
        alloc: Global,
        path: &'a str,
        source: &'a [u8],
        fault: Option<&LineFault>,
    ) -> Result<Source<'a>, AllocError> {
        let mut known = Source {
            path,
            lines: Vec::new(alloc),
            flaws: Vec::new(alloc),
            names: statement_names(alloc)?,
        };
        match fault {
            Some(LineFault::Source(fault)) if fault.line > 0 => {}
            _ => return Ok(known),
        }
        match parse(alloc, source) {
            Ok(lines) => known.lines = lines,
            Err(ParseFault::Fault(_)) => {}
            Err(ParseFault::Memory) => return Err(AllocError),
        }
        known.flaws = all_flaws(alloc, source)?;
        Ok(known)
    }

    /// Writes what is said of a line that is no assembly text.
    fn write_text_fault(
        &self,
        alloc: Global,
        text: &mut String,
        line: FaultyLine<'_>,
        fault: TextFault,
    ) -> Result<(), AllocError> {
        let word = refused_word(alloc, 0, line.text)?;
        let span = word.and_then(|word| marked_span(line.text, fault.line == 1, word));
        self.write_place(text, fault.line, span)?;
        text.write(format_args!("{}", fault.kind))?;
        if let Some(word) = word {
            text.push_str(": ")?;
            let bytes = bytes_at(line.text, span.unwrap_or(word.span));
            write_text_reason(text, &self.names, line.text, word.flaw, bytes)?;
        }
        write_line(text, line.text, span)
    }

    /// Writes what is said of a line whose layout or operands are at fault, the flaw of this index.
    fn write_fault(
        &self,
        text: &mut String,
        line: FaultyLine<'_>,
        fault: AsmFault,
        index: usize,
    ) -> Result<(), AllocError> {
        let reason = self.flaws.get(index).and_then(|flaw| flaw.reason);
        let span = reason.and_then(|reason| span_in(line, reason));
        self.write_place(text, fault.line, span)?;
        text.write(format_args!("{}", fault.kind))?;
        if fault.line == 0 {
            return text.push_str(": no line defines _start");
        }
        if let Some(reason) = reason {
            text.push_str(": ")?;
            let word = span.map_or(&b""[..], |span| bytes_at(line.text, span));
            write_source_reason(text, &self.lines, reason, word)?;
        }
        write_line(text, line.text, span)
    }

    /// Writes where a fault lies.
    fn write_place(
        &self,
        text: &mut String,
        number: u64,
        span: Option<Span>,
    ) -> Result<(), AllocError> {
        text.write(format_args!("  {}", Escaped::line(self.path)))?;
        if number > 0 {
            text.write(format_args!(":{number}"))?;
        }
        if let Some(span) = span {
            text.write(format_args!(":{}", span.start.saturating_add(1)))?;
        }
        text.push_str(": ")
    }
}

/// Where the word lies in its line for which the line is at fault: of a memory operand, the number.
fn span_in(line: FaultyLine<'_>, reason: Reason) -> Option<Span> {
    let span = span_of(reason)?;
    let start = span.start.saturating_sub(line.start);
    let end = span.end.saturating_sub(line.start);
    let span = Span { start, end };
    match reason {
        Reason::Number(..) => Some(Span {
            start,
            end: start.saturating_add(number_at(bytes_at(line.text, span)).len()),
        }),
        _ => Some(span),
    }
}

/// Writes a line without the blanks around it, and a mark under a word of it.
fn write_line(text: &mut String, line: &[u8], word: Option<Span>) -> Result<(), AllocError> {
    let Some(front) = line.iter().position(|byte| !is_blank(*byte)) else {
        return Ok(());
    };
    let last = line.iter().rposition(|byte| !is_blank(*byte));
    let line = line.get(front..=last.unwrap_or(front)).unwrap_or(b"");
    let mark = word.map(|word| {
        let length = word.end.saturating_sub(word.start);
        (word.start.saturating_sub(front), length)
    });
    text.write(format_args!("{}", Marked { line, mark }))
}

fn is_blank(byte: u8) -> bool {
    byte == b' ' || byte == b'\t'
}
