//! The faulty line of a set file.

use crate::kinds::kind_hint;
use crate::marked::{FileLine, Said, refused};
use rt_desk::reading::FileKind;
use rt_fault_lines::shown::{Escaped, Explanation, line};
use rt_set::{Misfit, WordKind, first_misfit, said_before};
use rt_text::numbered_line;
use std::alloc::Global;

/// What is said of a hyper line that ends too early.
const HYPER_ENDS: &str = "the line ends; wanted hyper N";

/// What is said of a task line that ends too early.
const TASK_ENDS: &str = "the line ends; wanted task BUDGET PERIOD START RAM PATH";

/// The range of numbers that the line reader alone limits.
const NUMBERS: &str = "at most 4294967295";

/// What is said of a word of a kind: its name, and what is wanted, of a number its range.
fn row(kind: WordKind) -> (&'static str, &'static str) {
    match kind {
        WordKind::Hyper => ("", "the first line is hyper N"),
        WordKind::Ticks => ("hyper ", "1 to 4194304"),
        WordKind::End => ("", "N ends the line"),
        WordKind::Task => ("", "wanted task or task-split"),
        WordKind::Budget => ("BUDGET ", NUMBERS),
        WordKind::Period => ("PERIOD ", NUMBERS),
        WordKind::Start => ("START ", NUMBERS),
        WordKind::Ram => ("RAM ", "a multiple of 4 from 4 to 1048576"),
        WordKind::Path => ("PATH ", "text in UTF-8"),
        WordKind::Nothing => ("", "the 257th task, at most 256"),
    }
}

/// What is said of a word that isn't in the form of a number: of the last one of a task line, that words are missing.
fn digits_said(word: &[u8], said: Said, is_last: bool) -> &'static str {
    if !word.iter().all(|byte| byte.is_ascii_digit()) {
        if is_last {
            said.ends
        } else {
            "decimal digits alone"
        }
    } else if word.len() > 1 && word.starts_with(b"0") {
        "no leading zero"
    } else {
        said.wanted
    }
}

/// What is said of a word of a line.
fn said_of(line: &[u8], misfit: Misfit<'_>) -> Said {
    let (name, wanted) = row(misfit.kind);
    let is_first = matches!(
        misfit.kind,
        WordKind::Hyper | WordKind::Ticks | WordKind::End
    );
    let ends = if is_first { HYPER_ENDS } else { TASK_ENDS };
    let said = Said { name, wanted, ends };
    let end = misfit.start.saturating_add(misfit.word.len());
    let is_last = end == line.len();
    let wanted = match misfit.kind {
        WordKind::Ticks => digits_said(misfit.word, said, false),
        WordKind::Budget | WordKind::Period | WordKind::Start | WordKind::Ram => {
            digits_said(misfit.word, said, is_last)
        }
        _ => said.wanted,
    };
    Said { wanted, ..said }
}

/// The word for which a set file's line of this number is refused, and what is wanted there, with the line below it; of a file of another
/// kind, what it is. Nothing of a line that isn't faulty.
pub fn set_hint(alloc: Global, path: &str, text: &[u8], number: u64) -> Explanation {
    let Some(bytes) = numbered_line(text, number) else {
        let path = Escaped::line(path);
        return line(
            alloc,
            format_args!("{path}:{number}:1: the file ends without a line hyper N"),
        );
    };
    let kind = kind_hint(alloc, path, text, FileKind::Set)?;
    if kind.is_some() {
        return Ok(kind);
    }
    let at = FileLine {
        path,
        number,
        bytes,
    };
    match first_misfit(bytes, said_before(text, number)) {
        Some(misfit) => {
            let said = said_of(bytes, misfit);
            refused(alloc, at, (misfit.start, misfit.word), said)
        }
        None => Ok(None),
    }
}
