//! The reasons of a name.

use crate::reasons::reason::Reason;
use crate::reasons::tables::TABLES;
use std::fmt;

/// The reasons that a word names: those of just this name or, if there is none, those of this name in letters of another case.
#[derive(Clone, Copy)]
pub struct Named<'a> {
    word: &'a str,
    any_case: bool,
}

impl<'a> Named<'a> {
    /// None where the word names no reason.
    pub fn by(word: &'a str) -> Option<Named<'a>> {
        for any_case in [false, true] {
            let named = Named { word, any_case };
            for table in &TABLES {
                if named.has_any(table) {
                    return Some(named);
                }
            }
        }
        None
    }

    fn has(&self, reason: &Reason) -> bool {
        reason.is_named(self.word) || self.any_case && reason.is_meant(self.word)
    }

    fn has_any(&self, table: &'static str) -> bool {
        for row in table.lines() {
            if let Some(reason) = Reason::read("", row)
                && self.has(&reason)
            {
                return true;
            }
        }
        false
    }
}

impl fmt::Display for Named<'_> {
    fn fmt<W: fmt::Write>(&self, f: &mut fmt::Formatter<W>) -> fmt::Result {
        for table in &TABLES {
            let (about, rows) = table.split_once('\n').unwrap_or((*table, ""));
            for row in rows.lines() {
                if let Some(reason) = Reason::read(about, row)
                    && self.has(&reason)
                {
                    write!(f, "{reason}")?;
                }
            }
        }
        Ok(())
    }
}
