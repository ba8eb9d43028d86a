//! What a terminal shows of reasons.

use crate::tests::same;
use rt_command_line::reasons::{Named, TABLES};
use std::alloc::{AllocError, Global};
use std::test::Fail;

/// What a word explains, or nothing.
fn explained(alloc: Global, word: &str) -> Result<String, AllocError> {
    match Named::by(word) {
        Some(named) => format!(in alloc; "{named}"),
        None => Ok(String::new(alloc)),
    }
}

/// How many lines a text has, or none where one has over 100 columns or shows what the page alone has.
fn lines_of(text: &str) -> Option<usize> {
    let mut count = 0usize;
    for line in text.lines() {
        if line.chars().count() > 100 || line.contains('`') || line.contains("](") {
            return None;
        }
        count = count.saturating_add(1);
    }
    Some(count)
}

/// The name in a row of a table; none where the line is no row.
fn name_in(row: &str) -> Option<&str> {
    row.split('|').nth(1)
}

/// How many reasons of all tables have this name.
fn count_of(name: &str) -> usize {
    let mut count = 0usize;
    for row in TABLES.iter().flat_map(|table| table.lines()) {
        if name_in(row) == Some(name) {
            count = count.saturating_add(1);
        }
    }
    count
}

#[test]
fn each_reason_has_five_lines_at_most(rt: HostRuntime) -> Result<(), Fail> {
    for row in TABLES.iter().flat_map(|table| table.lines()) {
        if let Some(name) = name_in(row) {
            let text = explained(rt.alloc(), name)?;
            let most = count_of(name).saturating_mul(5);
            let is_short = lines_of(&text).is_some_and(|lines| lines <= most);
            same(&rt, name, is_short, true);
        }
    }
    Ok(())
}
