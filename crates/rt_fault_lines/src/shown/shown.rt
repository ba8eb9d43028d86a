//! Texts as the standard error shows them.

ghost use Rattle.std.specs.Prelude.{◌≡◌, Some, true, false};
ghost use Rattle.rt_fault_lines.specs.shown.Escaped.{turns, shown, escaped};

use rt_text::numbered_line;
use std::alloc::{AllocError, Global};
use std::fmt;

/// The most bytes that are shown of a line.
const SHOWN: usize = 100;

/// Whether a character that is no control character turns the direction of a text, or ends a line of it.
fn turns(letter: char) -> bool
    ensures { result ≡ turns letter }
{
    matches!(
        letter,
        '\u{61c}' | '\u{200e}'..='\u{200f}' | '\u{2028}'..='\u{202e}' | '\u{2066}'..='\u{2069}'
    )
}

/// A character of a text that is escaped where it would change a terminal.
#[derive(Clone, Copy)]
struct Letter {
    letter: char,
    keeps_lines: bool,
}

impl fmt::Display for Letter {
    ghost output = { λ l. Some (shown l.keeps_lines l.letter) };

    fn fmt<W: fmt::Write>(&self, f: &mut fmt::Formatter<W>) -> fmt::Result {
        let letter = self.letter;
        if letter.is_control() && !(self.keeps_lines && letter == '\n') {
            write!(f, "\\x{:02x}", letter as u32)
        } else if turns(letter) {
            write!(f, "\\u{{{:x}}}", letter as u32)
        } else {
            write!(f, "{letter}")
        }
    }
}

/// A text whose control characters are escaped, and those that turn its direction, so that none of them reaches a terminal.
#[derive(Clone, Copy)]
pub struct Escaped<'a> {
    text: &'a str,
    /// Whether its line feeds stay, so that its lines do.
    keeps_lines: bool,
}

impl<'a> Escaped<'a> {
    /// A text that is shown as one line.
    pub fn line(text: &'a str) -> Escaped<'a>
        ensures { result ≡ record { text = text.entry; keeps_lines = false } }
    {
        Escaped {
            text,
            keeps_lines: false,
        }
    }

    /// A text that is shown as the lines that it has.
    pub fn lines(text: &'a str) -> Escaped<'a>
        ensures { result ≡ record { text = text.entry; keeps_lines = true } }
    {
        Escaped {
            text,
            keeps_lines: true,
        }
    }
}

impl fmt::Display for Escaped<'_> {
    ghost output = { λ e. Some (escaped e.keeps_lines e.text.now) };

    fn fmt<W: fmt::Write>(&self, f: &mut fmt::Formatter<W>) -> fmt::Result {
        let keeps_lines = self.keeps_lines;
        for letter in self.text.chars() {
            let letter = Letter {
                letter,
                keeps_lines,
            };
            write!(f, "{letter}")?;
        }
        Ok(())
    }
}

/// The first bytes of a line, each that isn't printed in ASCII escaped.
#[derive(Clone, Copy)]
pub struct Printable<'a>(pub &'a [u8]);

impl fmt::Display for Printable<'_> {
    fn fmt<W: fmt::Write>(&self, f: &mut fmt::Formatter<W>) -> fmt::Result {
        for byte in self.0.iter().take(SHOWN) {
            match byte {
                b' '..=b'~' => write!(f, "{}", *byte as char)?,
                b'\t' => f.write_str(" ")?,
                _ => write!(f, "\\x{byte:02x}")?,
            }
        }
        if self.0.len() > SHOWN {
            f.write_str(" ..")?;
        }
        Ok(())
    }
}

/// How many letters `Printable` makes of a byte.
fn width_of(byte: u8) -> usize {
    match byte {
        b' '..=b'~' | b'\t' => 1,
        _ => 4,
    }
}

/// A line below what is said of it, and a mark under a word of it, as wide as the word is shown.
#[derive(Clone, Copy)]
pub struct Marked<'a> {
    /// The line, without its end.
    pub line: &'a [u8],
    /// Where the word begins in the line, and how many bytes it has, if one is marked.
    pub mark: Option<(usize, usize)>,
}

impl fmt::Display for Marked<'_> {
    fn fmt<W: fmt::Write>(&self, f: &mut fmt::Formatter<W>) -> fmt::Result {
        let Marked { line, mark } = *self;
        write!(f, "\n    {}", Printable(line))?;
        let Some((start, length)) = mark else {
            return Ok(());
        };
        let shown = line.get(..SHOWN).unwrap_or(line);
        if start > shown.len() || start == shown.len() && start < line.len() {
            return Ok(());
        }
        f.write_str("\n    ")?;
        let (before, behind) = shown.split_at(start);
        for byte in before {
            write_times(f, " ", width_of(*byte))?;
        }
        let (first, others) = behind.split_at(behind.len().min(1));
        f.write_str("^")?;
        for byte in first {
            write_times(f, "~", width_of(*byte).saturating_sub(1))?;
        }
        for byte in others.iter().take(length.saturating_sub(1)) {
            write_times(f, "~", width_of(*byte))?;
        }
        Ok(())
    }
}

/// Writes a letter so often.
fn write_times<W: fmt::Write>(
    f: &mut fmt::Formatter<W>,
    letter: &str,
    times: usize,
) -> fmt::Result {
    for _ in 0..times {
        f.write_str(letter)?;
    }
    Ok(())
}

/// A line of a file: its path, its number from 1, and its bytes.
#[derive(Clone, Copy)]
pub struct Place<'a> {
    path: &'a str,
    number: u64,
    text: &'a [u8],
}

impl<'a> Place<'a> {
    /// The line of this number of a text, the bytes of this file.
    pub fn of(path: &'a str, text: &'a [u8], number: u64) -> Place<'a> {
        Place {
            path,
            number,
            text: numbered_line(text, number).unwrap_or(b""),
        }
    }
}

impl fmt::Display for Place<'_> {
    fn fmt<W: fmt::Write>(&self, f: &mut fmt::Formatter<W>) -> fmt::Result {
        let Place { path, number, text } = *self;
        write!(
            f,
            "{}:{number}: {}",
            Escaped::line(path),
            Printable(text.trim_ascii())
        )
    }
}

/// Lines behind the first one of a fault, each with two blanks before it and all but the last with its end. None where there is nothing
/// more to say.
pub type Explanation = Result<Option<String>, AllocError>;

/// One line behind the first one.
pub fn line<D: fmt::Display + Drop>(alloc: Global, more: D) -> Explanation {
    Ok(Some(format!(in alloc; "  {more}")?))
}
