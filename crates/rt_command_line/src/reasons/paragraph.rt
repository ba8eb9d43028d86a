//! A text of the page as lines of a terminal.

use std::fmt;

/// How many columns of a terminal a line may fill.
const COLUMNS: usize = 100;

/// A word of the page without the target of a link that ends in it: what comes before the target, and what comes behind.
fn without_target(word: &str) -> (&str, &str) {
    let Some((words, rest)) = word.split_once("](") else {
        return (word, "");
    };
    match rest.split_once(')') {
        Some((_target, behind)) => (words, behind),
        None => (words, ""),
    }
}

/// Whether a terminal shows a character of the page.
fn is_shown(letter: char) -> bool {
    !matches!(letter, '`' | '[')
}

/// A word of the page as a terminal shows it.
#[derive(Clone, Copy)]
struct Word<'a> {
    text: &'a str,
    /// Whether its first letter is a capital one, unless it stands in backquotes.
    is_capital: bool,
}

impl Word<'_> {
    /// How many columns it fills.
    fn len(&self) -> usize {
        let (words, behind) = without_target(self.text);
        let mut len = 0usize;
        for letter in words.chars().chain(behind.chars()) {
            if is_shown(letter) {
                len = len.saturating_add(1);
            }
        }
        len
    }
}

impl fmt::Display for Word<'_> {
    fn fmt<W: fmt::Write>(&self, f: &mut fmt::Formatter<W>) -> fmt::Result {
        let (words, behind) = without_target(self.text);
        let mut is_capital = self.is_capital;
        for letter in words.chars().chain(behind.chars()) {
            let shown = if is_capital {
                letter.to_ascii_uppercase()
            } else {
                letter
            };
            if is_shown(letter) {
                write!(f, "{shown}")?;
            }
            is_capital = false;
        }
        Ok(())
    }
}

/// A text of the page with a point behind it, in lines that begin with two blanks: without backquotes, and a link as its words.
#[derive(Clone, Copy)]
pub struct Paragraph {
    /// What comes before the text. Where that is nothing, the text begins with a capital letter.
    pub head: &'static str,
    pub text: &'static str,
}

impl fmt::Display for Paragraph {
    fn fmt<W: fmt::Write>(&self, f: &mut fmt::Formatter<W>) -> fmt::Result {
        let Paragraph { head, text } = *self;
        write!(f, "  {head}")?;
        let mut column = head.len().saturating_add(2);
        let mut is_first = true;
        for text in text.split(' ') {
            let word = Word {
                text,
                is_capital: is_first && head.is_empty(),
            };
            let gap = if is_first { "" } else { " " };
            // The point behind the last word has a column too.
            column = column.saturating_add(gap.len()).saturating_add(word.len());
            if column < COLUMNS {
                write!(f, "{gap}{word}")?;
            } else {
                write!(f, "\n  {word}")?;
                column = word.len().saturating_add(2);
            }
            is_first = false;
        }
        f.write_str(".\n")
    }
}
