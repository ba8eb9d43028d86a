//! What is said of a line that is no assembly text.

use crate::source_hints::names::write_name_reason;
use crate::source_hints::numbers::write_number_reason;
use rt_fault_lines::shown::Printable;
use rt_text::{Flaw, OperandKind, RefusedWord, shapes_by};
use rt_token::Span;
use rt_words::MAX_LINE;
use std::alloc::AllocError;

/// What some editors write at the front of a file.
const BYTE_ORDER_MARK: &[u8] = b"\xef\xbb\xbf";

/// The bytes of a line that a span has.
pub(crate) fn bytes_at(line: &[u8], span: Span) -> &[u8] {
    line.get(span.start..span.end).unwrap_or(b"")
}

/// Where a refused word is marked: a byte order mark at the front of a text as a whole, and no line that is too long.
pub(crate) fn marked_span(line: &[u8], is_first: bool, word: RefusedWord) -> Option<Span> {
    match word.flaw {
        Flaw::TooLong => None,
        Flaw::NotAscii if is_first && line.starts_with(BYTE_ORDER_MARK) => {
            Some(Span { start: 0, end: 3 })
        }
        _ => Some(word.span),
    }
}

/// Writes why a line is refused for a word, which these bytes are.
pub(crate) fn write_text_reason(
    text: &mut String,
    names: &[&[u8]],
    line: &[u8],
    flaw: Flaw,
    bytes: &[u8],
) -> Result<(), AllocError> {
    let word = Printable(bytes);
    let first = bytes.first().copied().unwrap_or(0);
    match flaw {
        Flaw::TooLong => text.write(format_args!("{} bytes, at most {MAX_LINE}", line.len())),
        Flaw::NotAscii if bytes == BYTE_ORDER_MARK => {
            text.push_str("a byte order mark (ef bb bf): save the file without it")
        }
        Flaw::NotAscii => text.write(format_args!("byte {first:02x}")),
        Flaw::Byte if matches!(first, b' '..=b'~') => {
            text.write(format_args!("'{word}' begins no token"))
        }
        Flaw::Byte => text.write(format_args!("byte {first:02x} begins no token")),
        Flaw::InString if first == b'\t' => text.push_str("a tab in a string: write \\t"),
        Flaw::InString => text.write(format_args!("byte {first:02x} in a string")),
        Flaw::Escape => text.write(format_args!("unknown escape {word}")),
        Flaw::Endless => text.push_str("the string has no end"),
        Flaw::Number => {
            text.write(format_args!("{word}: "))?;
            write_number_reason(text, bytes)
        }
        Flaw::Name => {
            text.write(format_args!("{word}: "))?;
            write_name_reason(text, names, bytes)
        }
        Flaw::NoName => text.push_str("wanted: NAME OPERANDS"),
        Flaw::Operand(name) => write_wanted(text, bytes_at(line, name)),
    }
}

/// Writes the forms that a statement of this name has.
fn write_wanted(text: &mut String, name: &[u8]) -> Result<(), AllocError> {
    let mut before = "wanted: ";
    for shape in shapes_by(name) {
        text.write(format_args!("{before}{}", Printable(name)))?;
        before = " ";
        for kind in *shape {
            text.write(format_args!("{before}{}", word_of(*kind)))?;
            before = ", ";
        }
        before = " or ";
    }
    Ok(())
}

/// An operand as the RISC-V manual writes it.
fn word_of(kind: OperandKind) -> &'static str {
    match kind {
        OperandKind::Written => "rd",
        OperandKind::First => "rs1",
        OperandKind::Second => "rs2",
        OperandKind::Number => "imm",
        OperandKind::Amount => "shamt",
        OperandKind::Target => "target",
        OperandKind::Memory => "imm(rs1)",
        OperandKind::Before => "pred",
        OperandKind::After => "succ",
        OperandKind::Symbol => "symbol",
        OperandKind::Item => "item",
        OperandKind::Text => "\"text\"",
        OperandKind::MoreNumbers | OperandKind::MoreItems => "..",
    }
}
