//! A reason, as a terminal shows it.

ghost use Rattle.std.specs.Prelude.{◌≡◌, ◌↔◌, true};

use crate::reasons::paragraph::Paragraph;
use std::fmt;

/// Why the program ended early, or refused something.
#[derive(Clone, Copy)]
pub struct Reason {
    /// What the reasons of its table are of, and the exit status.
    pub about: &'static str,
    /// The number that the debugger shows, if it has one.
    pub number: Option<u8>,
    /// The word that help takes.
    pub name: &'static str,
    /// What is printed.
    pub text: &'static str,
    pub cause: &'static str,
    /// What to do.
    pub remedy: &'static str,
}

impl Reason {
    /// The reason of a row of a table, which begins with this line; none where the line is no row.
    pub(crate) fn read(about: &'static str, row: &'static str) -> Option<Reason> {
        let mut cells = row.split('|');
        Some(Reason {
            about,
            number: cells.next()?.parse().ok(),
            name: cells.next()?,
            text: cells.next()?,
            cause: cells.next()?,
            remedy: cells.next()?,
        })
    }

    /// Whether a word is its name.
    pub fn is_named(&self, word: &str) -> bool
        ensures { (result ≡ true) ↔ (self.now.name.now ≡ word.now) }
    {
        self.name == word
    }

    /// Whether a word is its name in letters of either case.
    pub fn is_meant(&self, word: &str) -> bool {
        self.name.eq_ignore_ascii_case(word)
    }
}

/// A reason, after what its table is of: at most five lines of at most 100 columns.
impl fmt::Display for Reason {
    fn fmt<W: fmt::Write>(&self, f: &mut fmt::Formatter<W>) -> fmt::Result {
        write!(f, "{} ({}", self.text, self.about)?;
        if let Some(number) = self.number {
            write!(f, "; number {number}")?;
        }
        let cause = Paragraph {
            head: "",
            text: self.cause,
        };
        let remedy = Paragraph {
            head: "What to do: ",
            text: self.remedy,
        };
        write!(f, ")\n{cause}{remedy}")
    }
}
