//! A word that help doesn't explain, beside the nearest one that it does.

use rt_command_line::pages::printed_names;
use rt_command_line::reasons::TABLES;
use std::alloc::{AllocError, Global};
use std::fmt;
use strsim::osa_distance;

/// A word, and the nearest one that help explains.
#[derive(Clone, Copy)]
pub(crate) struct Near<'a> {
    word: &'a str,
    near: &'static str,
}

/// The words that help explains: commands, what they print, and reasons.
fn explained(alloc: Global) -> Result<Vec<&'static str>, AllocError> {
    let mut names = printed_names(alloc)?;
    for table in &TABLES {
        for row in table.lines() {
            if let Some(name) = row.split('|').nth(1) {
                names.push(name)?;
            }
        }
    }
    Ok(names)
}

impl<'a> Near<'a> {
    /// None where more than one slip in three letters leads to each, whatever their case.
    pub(crate) fn of(alloc: Global, word: &'a str) -> Result<Option<Near<'a>>, AllocError> {
        let lower = word.to_ascii_lowercase(alloc)?;
        let mut found = None;
        let mut least = word.len() / 3 + 1;
        for near in explained(alloc)? {
            if !near.is_empty() && near.len().abs_diff(word.len()) < least {
                let distance = osa_distance(alloc, &lower, &near.to_ascii_lowercase(alloc)?)?;
                if distance < least {
                    least = distance;
                    found = Some(Near { word, near });
                }
            }
        }
        Ok(found)
    }
}

impl fmt::Display for Near<'_> {
    fn fmt<W: fmt::Write>(&self, f: &mut fmt::Formatter<W>) -> fmt::Result {
        let Near { word, near } = *self;
        write!(
            f,
            "error: unrecognized subcommand '{word}'\n\n  tip: a similar word exists: '{near}'\n\nFor more information, try '--help'.\n"
        )
    }
}
