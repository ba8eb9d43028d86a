//! What is said of a line whose layout or operands are at fault.

use crate::source_hints::near::is_near;
use rt_asm::{Range, Reason, defining_line};
use rt_fault_lines::shown::Printable;
use rt_text::Line;
use rt_token::Span;
use rt_words::{MAX_IMAGE, MAX_SYMBOLS};
use std::alloc::AllocError;

/// Where the word lies in the source that is at fault.
pub(crate) fn span_of(reason: Reason) -> Option<Span> {
    match reason {
        Reason::Duplicate(span)
        | Reason::Undefined(span)
        | Reason::Number(span, ..)
        | Reason::Far(span, ..)
        | Reason::Odd(span, _) => Some(span),
        Reason::Image(_) | Reason::Labels(_) => None,
    }
}

/// The number that an operand begins with, or what else it is.
pub(crate) fn number_at(operand: &[u8]) -> &[u8] {
    let end = operand
        .iter()
        .position(|byte| matches!(byte, b'(' | b' ' | b'\t'));
    operand
        .get(..end.unwrap_or(operand.len()))
        .unwrap_or(operand)
}

/// Writes why a line is at fault, of whose source these are the lines, and whose word these bytes are.
pub(crate) fn write_source_reason(
    text: &mut String,
    lines: &[Line<'_>],
    reason: Reason,
    bytes: &[u8],
) -> Result<(), AllocError> {
    let word = Printable(bytes);
    match reason {
        Reason::Duplicate(_) => {
            let line = defining_line(lines, bytes).unwrap_or(0);
            text.write(format_args!("{word}: defined in line {line}"))
        }
        Reason::Undefined(_) => match near(lines, bytes) {
            Some(label) => text.write(format_args!("{word}: is {} meant?", Printable(label))),
            None => text.write(format_args!("{word}: no line defines it")),
        },
        Reason::Number(_, value, Range { low, high }) => {
            let is_decimal = bytes
                .iter()
                .all(|byte| byte.is_ascii_digit() || *byte == b'-');
            if is_decimal {
                text.write(format_args!("{value}"))?;
            } else {
                text.write(format_args!("{word} ({value})"))?;
            }
            text.write(format_args!(", wanted {low} to {high}"))
        }
        Reason::Far(_, distance, Range { low, high }) => {
            // Distances are even.
            let high = high.saturating_sub(high.rem_euclid(2));
            text.write(format_args!("{word}: {distance} bytes away, wanted {low} to {high}"))
        }
        Reason::Odd(_, distance) => {
            text.write(format_args!("{word}: {distance} bytes away, wanted a multiple of 2"))
        }
        Reason::Image(size) => text.write(format_args!("{size} bytes, at most {MAX_IMAGE}")),
        Reason::Labels(count) => text.write(format_args!("{count} labels, at most {MAX_SYMBOLS}")),
    }
}

/// The first label whose name is one slip away from this one.
fn near<'a>(lines: &[Line<'a>], name: &[u8]) -> Option<&'a [u8]> {
    for line in lines {
        for label in line.labels() {
            if is_near(name, label.text()) {
                return Some(label.text());
            }
        }
    }
    None
}
