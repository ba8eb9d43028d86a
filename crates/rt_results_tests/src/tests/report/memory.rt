//! Requests for memory, of which one may be refused: with `rt try --test --fail-alloc N` the Nth.

use super::cases::{BUSY_TASKS, Counts};
use super::{add_pieces, counts_of};
use crate::tests::same;
use rt_admit::examine;
use rt_report::Report;
use std::alloc::Global;
use std::process::Abort;
use std::test::Fail;

/// A report of the busy tasks, which is made once more where there was no memory.
fn made_again(alloc: Global) -> Result<Report, Fail> {
    let runnable = examine(BUSY_TASKS.hyper, BUSY_TASKS.tasks)?;
    match Report::new(alloc, &runnable) {
        Err(_) => Ok(Report::new(alloc, &runnable)?),
        Ok(report) => Ok(report),
    }
}

fn look_at_rows(rt: &impl Abort, report: &Report, want: &[Counts]) -> Result<(), Fail> {
    let rows = match report.rows() {
        Err(_) => report.rows()?,
        Ok(rows) => rows,
    };
    same(rt, "rows", rows.len(), 2);
    for (row, counts) in rows.iter().zip(want) {
        same(rt, "a row", counts_of(row), *counts);
    }
    Ok(())
}

fn look_at_wide_rows(rt: &impl Abort, report: &Report, want: &[Counts]) -> Result<(), Fail> {
    let rows = match report.wide_rows() {
        Err(_) => report.wide_rows()?,
        Ok(rows) => rows,
    };
    same(rt, "wide rows", rows.len(), 2);
    for (wide, counts) in rows.iter().zip(want) {
        same(rt, "a wide row", counts_of(&wide.row), *counts);
    }
    Ok(())
}

#[test]
fn reports_are_made_and_shown_again(rt: HostRuntime) -> Result<(), Fail> {
    let mut report = made_again(rt.alloc())?;
    add_pieces(&rt, &mut report, BUSY_TASKS.pieces);
    look_at_rows(&rt, &report, BUSY_TASKS.rows)?;
    look_at_wide_rows(&rt, &report, BUSY_TASKS.rows)
}
