//! The faulty line of a list of names.

use crate::marked::{FileLine, Said, marked, refused};
use rt_elf::flat::refused_word;
use rt_fault_lines::shown::Explanation;
use rt_text::numbered_line;
use std::alloc::Global;

/// What is said of a word of a line that has another form.
const SAID: Said = Said {
    name: "",
    wanted: "wanted 8 hexadecimal digits, a letter, a name, with single blanks",
    ends: "the line ends; wanted 8 hexadecimal digits, a letter, a name, with single blanks",
};

/// The word for which the line of this number is refused, and how a line is to be, with the line below it. A line that has this form is
/// one symbol too many.
pub(crate) fn names_hint(alloc: Global, path: &str, text: &[u8], number: u64) -> Explanation {
    let Some(bytes) = numbered_line(text, number) else {
        return Ok(None);
    };
    let at = FileLine {
        path,
        number,
        bytes,
    };
    match refused_word(bytes) {
        Some((0, b"")) if bytes.starts_with(b"        ") => marked(
            alloc,
            at,
            (0, 8),
            "a line without an address; nm --defined-only leaves it out",
        ),
        Some((start, word)) => refused(alloc, at, (start, word), SAID),
        None => marked(alloc, at, (0, 8), "an object has at most 65536 symbols"),
    }
}
