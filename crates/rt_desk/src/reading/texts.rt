//! Texts that are refused by their first bytes already.

ghost use Rattle.std.specs.Prelude.{◌≡◌, ◌++◌, ◌+◌, ◌-◌, ◌==◌, ℕ, List, length, take, drop, count_by, true, false, Contains};
ghost use Rattle.rt_words.specs.Found.{Finds};
ghost use Rattle.rt_desk.specs.reading.Extent.{block_size, first_said, may_begin_set, may_begin_names, HasFaultyLine, HasFaultyText};

use rt_set::{SetFault, read_set};
use rt_text::{ParseFault, parse};
use rt_words::MAX_LINE;
use std::alloc::Global;

/// How many bytes are read before it is asked whether others can matter.
pub(crate) const BLOCK: usize = 65_536;

/// The first byte that ends no line. None where there is no such byte.
fn first_said(text: &[u8]) -> Option<u8>
    ensures { result ≡ first_said text.now }
{
    for byte in text {
        if *byte != b'\n' && *byte != b'\r' {
            return Some(*byte);
        }
    }
    None
}

/// The first bytes of a text, at most a block.
fn first_block(text: &[u8]) -> &[u8]
    ensures { result.now ≡ take block_size text.now }
{
    &text[..BLOCK.min(text.len())]
}

/// Whether a set may begin so: by a comment, or by a line that begins as `hyper` does.
pub(crate) fn may_begin_set(text: &[u8]) -> bool
    ensures { result ≡ may_begin_set (first_said (take block_size text.now)) }
{
    match first_said(first_block(text)) {
        Some(byte) => byte == b'#' || byte == b'h',
        None => true,
    }
}

/// Whether a list of names may begin so: by a hexadecimal digit.
pub(crate) fn may_begin_names(text: &[u8]) -> bool
    ensures { result ≡ may_begin_names (first_said (take block_size text.now)) }
{
    match first_said(first_block(text)) {
        Some(byte) => byte.is_ascii_hexdigit(),
        None => true,
    }
}

/// Whether a line ends within so many of the last bytes as the longest line has with its end.
pub(crate) fn ends_a_line(text: &[u8]) -> bool
    ensures { result ≡ false → Contains (drop (length text.now - (MAX_LINE + 2)) text.now) 10 → ⊥ }
{
    let last = text.len().saturating_sub(MAX_LINE as usize + 2);
    text[last..].contains(&b'\n')
}

/// The lines of a text that have ended.
fn ended_lines(text: &[u8]) -> &[u8]
    ensures { (rest : List ℕ) × (text.now ≡ result.now ++ rest) }
{
    match text.iter().rposition(|byte| *byte == b'\n') {
        Some(last) => &text[..=last],
        None => b"",
    }
}

fn count_of_lines(lines: &[u8]) -> u64
    ensures { result ≡ count_by (λ b. b == 10) lines.now }
{
    lines.iter().filter(|byte| **byte == b'\n').count() as u64
}

/// Whether a line of a source is faulty that has ended: a fault of any line behind it is reported after its own.
pub(crate) fn has_faulty_text(alloc: Global, text: &[u8]) -> bool
    ensures { result ≡ true → HasFaultyText text.now }
{
    let lines = ended_lines(text);
    match parse(alloc, lines) {
        Err(ParseFault::Fault(fault)) => fault.line <= count_of_lines(lines),
        _ => false,
    }
}

/// Whether a line of a set file is faulty that has ended: a fault of any line behind it is reported after its own.
pub(crate) fn has_faulty_line(alloc: Global, text: &[u8]) -> bool
    ensures { result ≡ true → HasFaultyLine text.now }
{
    let lines = ended_lines(text);
    match read_set(alloc, lines) {
        Err(SetFault::Line(number)) => number <= count_of_lines(lines),
        _ => false,
    }
}
