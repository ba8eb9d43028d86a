//! The words that programs print, as the help of their commands explains them.

use crate::{Row, commands};
use std::alloc::{AllocError, Global};
use std::fmt;

/// A word that a program prints, as a column, or takes, as one of `--fail-on`.
#[derive(Clone, Copy)]
pub struct Printed<'a>(&'a str);

/// The names that a line explains, with commas between them: two blanks stand before them, and two or more behind them.
fn names_of(line: &'static str) -> &'static str {
    match line
        .strip_prefix("  ")
        .and_then(|line| line.split_once("  "))
    {
        Some((names, _)) => names,
        None => "",
    }
}

/// The commands, and all words that they print, in the order of the help.
pub fn printed_names(alloc: Global) -> Result<Vec<&'static str>, AllocError> {
    let mut words = Vec::new(alloc);
    for row in &commands() {
        words.push(row.name)?;
        for line in row.help.lines() {
            for name in names_of(line).split(", ") {
                words.push(name.split(' ').next().unwrap_or(""))?;
            }
        }
    }
    Ok(words)
}

impl<'a> Printed<'a> {
    /// None where no help explains the word.
    pub fn by(word: &'a str) -> Option<Printed<'a>> {
        let printed = Printed(word);
        for row in &commands() {
            if row.help.lines().any(|line| printed.begins(line)) {
                return Some(printed);
            }
        }
        None
    }

    /// Whether a line explains the word.
    fn begins(self, line: &'static str) -> bool {
        let names = names_of(line);
        !self.0.is_empty()
            && names
                .split(", ")
                .any(|name| name.split(' ').next() == Some(self.0))
    }

    /// Writes the lines of a command's help that explain the word, below the command.
    fn write_of<W: fmt::Write>(self, f: &mut fmt::Formatter<W>, row: &Row) -> fmt::Result {
        let mut is_headed = false;
        let mut is_its = false;
        for line in row.help.lines() {
            // a line that goes on begins with more blanks
            is_its = self.begins(line) || is_its && line.starts_with("   ");
            if is_its && !is_headed {
                write!(f, "Of rt_sim {}:\n", row.name)?;
                is_headed = true;
            }
            if is_its {
                write!(f, "{line}\n")?;
            }
        }
        Ok(())
    }
}

impl fmt::Display for Printed<'_> {
    fn fmt<W: fmt::Write>(&self, f: &mut fmt::Formatter<W>) -> fmt::Result {
        for row in &commands() {
            self.write_of(f, row)?;
        }
        Ok(())
    }
}
