//! A line of a file with a mark under the word for which it is refused.

use rt_fault_lines::shown::{Escaped, Explanation, Marked, Printable};
use std::alloc::Global;

/// A line of a file.
#[derive(Clone, Copy)]
pub(crate) struct FileLine<'a> {
    pub path: &'a str,
    /// Counted from 1.
    pub number: u64,
    pub bytes: &'a [u8],
}

/// Bytes that separate words elsewhere, or end lines, and what is said of one in a word.
const STRAYS: [(u8, &str); 2] = [
    (b'\t', "a tab; words are separated by one blank"),
    (b'\r', "a carriage return within the line"),
];

/// What is said of a word.
#[derive(Clone, Copy)]
pub(crate) struct Said {
    /// What its place is called, with a blank, if it has a name.
    pub name: &'static str,
    /// What is wanted there.
    pub wanted: &'static str,
    /// What is said where the line ends before.
    pub ends: &'static str,
}

/// What is said of so many bytes of a line from `start` on, with the line below it and a mark under them.
pub(crate) fn marked(
    alloc: Global,
    at: FileLine<'_>,
    (start, length): (usize, usize),
    said: &'static str,
) -> Explanation {
    named(alloc, at, (start, length), ("", b""), said)
}

/// The same behind a name and a word.
fn named(
    alloc: Global,
    at: FileLine<'_>,
    (start, length): (usize, usize),
    (name, word): (&'static str, &[u8]),
    said: &'static str,
) -> Explanation {
    let path = Escaped::line(at.path);
    let number = at.number;
    let column = start.saturating_add(1);
    let between = if word.is_empty() { "" } else { ": " };
    let word = Printable(word);
    let marked = Marked {
        line: at.bytes,
        mark: Some((start, length)),
    };
    rt_fault_lines::shown::line(
        alloc,
        format_args!("{path}:{number}:{column}: {name}{word}{between}{said}{marked}"),
    )
}

/// A byte of a word that separates words elsewhere: its place, and what is said of it.
fn stray(word: &[u8]) -> Option<(usize, &'static str)> {
    if word.starts_with(b"\xef\xbb\xbf") {
        return Some((0, "a byte order mark; save the file without it"));
    }
    for (stray, said) in STRAYS {
        if let Some(place) = word.iter().position(|byte| *byte == stray) {
            return Some((place, said));
        }
    }
    None
}

/// What is said of blanks that stand where a word is to begin.
fn blanks(line: &[u8], start: usize, word: &[u8]) -> Option<&'static str> {
    if start >= line.len() || !word.iter().all(|byte| *byte == b' ') {
        None
    } else if start == 0 {
        Some("a leading blank; a line begins with its first word")
    } else if start.saturating_add(word.len()) == line.len() {
        Some("a trailing blank; a line ends with its last word")
    } else {
        Some("two blanks; words are separated by one blank")
    }
}

/// What is said of the word for which a line is refused, with a mark under it.
pub(crate) fn refused(
    alloc: Global,
    at: FileLine<'_>,
    (start, word): (usize, &[u8]),
    said: Said,
) -> Explanation {
    let span = (start, word.len());
    if let Some((place, odd)) = stray(word) {
        marked(alloc, at, (start.saturating_add(place), 1), odd)
    } else if let Some(odd) = blanks(at.bytes, start, word) {
        marked(alloc, at, span, odd)
    } else if start >= at.bytes.len() {
        marked(alloc, at, span, said.ends)
    } else {
        named(alloc, at, span, (said.name, word), said.wanted)
    }
}
