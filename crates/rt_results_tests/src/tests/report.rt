//! Reports of histories by hand, against rows and texts that were worked out by hand.

use crate::tests::same;
use rt_admit::{Params, examine};
use rt_history::AttemptOutcome::{End, Next, Reserve, Sleep};
use rt_history::{Attempt, Entry, Mode};
use rt_report::*;
use rt_sink::{DeviceFault, Limited};
use rt_words::{MAX_TICKS, RAM_BASE};
use std::alloc::Global;
use std::process::Abort;
use std::test::Fail;

mod cases;
mod details;
mod jobs;
mod memory;
mod names;
mod plain;
mod reserves;
mod wide;

use cases::{BUSY_TASKS, Case, Counts, LATER, OTHERS, Piece, TWELVE_TICKS};
use reserves::RESERVES;

/// Tells a report of the coming tick, or of idle ones.
fn add_piece(rt: &impl Abort, report: &mut Report, piece: Piece) {
    let t = report.now();
    match piece {
        Piece::Busy(task, outcome) => {
            assert!(rt; t < MAX_TICKS && task < report.count());
            let rec = Attempt {
                task,
                pc: RAM_BASE,
                word: None,
                outcome,
            };
            report.add(Entry::Busy { t, rec });
        }
        Piece::Idle(n) => {
            assert!(rt; n <= MAX_TICKS - t);
            report.add(Entry::Idle { t, n });
        }
    }
}

fn counts_of(row: &Row) -> Counts {
    (
        row.jobs,
        row.ticks,
        row.least,
        row.greatest,
        row.hard,
        row.late,
    )
}

fn check_rows(rt: &impl Abort, report: &Report, want: &[Counts], name: &str) -> Result<(), Fail> {
    let rows = report.rows()?;
    same(rt, name, rows.len(), want.len());
    for (task, row) in rows.iter().enumerate() {
        same(rt, name, row.task as usize, task);
    }
    for (row, counts) in rows.iter().zip(want) {
        same(rt, name, counts_of(row), *counts);
    }
    Ok(())
}

/// The report of a case, whose rows and idle ticks are as they are to be.
fn told(rt: &impl Abort, alloc: Global, case: &Case) -> Result<Report, Fail> {
    let mut report = Report::new(alloc, &examine(case.hyper, case.tasks)?)?;
    for piece in case.pieces {
        add_piece(rt, &mut report, *piece);
    }
    check_rows(rt, &report, case.rows, case.name)?;
    same(rt, case.name, report.idle(), case.idle);
    Ok(report)
}

#[test]
fn rows(rt: HostRuntime) -> Result<(), Fail> {
    for case in &OTHERS {
        told(&rt, rt.alloc(), case)?;
    }
    Ok(())
}

#[test]
fn rows_with_reserves(rt: HostRuntime) -> Result<(), Fail> {
    for case in &RESERVES {
        told(&rt, rt.alloc(), case)?;
    }
    Ok(())
}

/// Tells a report of pieces, one after the other.
fn add_pieces(rt: &impl Abort, report: &mut Report, pieces: &[Piece]) {
    for piece in pieces {
        add_piece(rt, report, *piece);
    }
}

/// Tells a report of a reserve behind so many ticks of its task, which changes nothing but these.
fn add_impossible(
    rt: &impl Abort,
    report: &mut Report,
    ticks: u64,
    budget: u32,
) -> Result<(), Fail> {
    check_rows(rt, report, &[(0, ticks, None, None, 0, 0)], "before")?;
    add_piece(rt, report, Piece::Busy(0, Reserve(budget)));
    same(rt, budget, report.now(), ticks.saturating_add(1));
    Ok(())
}

/// d is 15 and c is 1 before them, so the wake at 12 is fresh: 15 * 1 <= 1 * 3 + 12 * 1.
static BEHIND_RESERVES: [Piece; 6] = [
    Piece::Busy(0, Sleep(12)),
    Piece::Idle(8),
    Piece::Busy(0, Next),
    Piece::Busy(0, Sleep(21)),
    Piece::Idle(7),
    Piece::Busy(0, Sleep(30)),
];

/// A reserve that no server can take changes nothing but the ticks.
#[test]
fn impossible_reserves(rt: HostRuntime) -> Result<(), Fail> {
    let mut report = Report::new(rt.alloc(), &examine(12, &[reserves::ONE])?)?;
    add_impossible(&rt, &mut report, 0, 0)?;
    add_impossible(&rt, &mut report, 1, 4)?;
    add_impossible(&rt, &mut report, 2, 4_294_967_295)?;
    add_pieces(&rt, &mut report, &BEHIND_RESERVES);
    same(&rt, "idle", report.idle(), 15);
    check_rows(&rt, &report, &[(3, 7, Some(1), Some(4), 1, 0)], "after")
}

const TWELVE_TEXT: &str =
    "task          jobs         ticks           min           max          hard          late\n   0             1             8             4             4             1             0\nidle             4\n";

const BUSY_TEXT: &str =
    "task          jobs         ticks           min           max          hard          late\n   0             0             5             -             -             0             0\n   1             0             7             -             -             0             0\nidle             0\n";

/// The text of a case, into enough room and into 100 bytes.
fn try_text(rt: &impl Abort, alloc: Global, case: &Case, text: &str) -> Result<(), Fail> {
    let report = told(rt, alloc, case)?;
    let mut sink = Limited::new(alloc, 7, text.len())?;
    let written = report.write_text(&mut sink);
    same(rt, case.name, written, Ok(text.len() as u64));
    same(rt, case.name, sink.bytes(), text.as_bytes());
    let mut short = Limited::new(alloc, 7, 100)?;
    let written = report.write_text(&mut short);
    same(rt, case.name, written, Err(DeviceFault { written: 100 }));
    Ok(())
}

#[test]
fn texts(rt: HostRuntime) -> Result<(), Fail> {
    try_text(&rt, rt.alloc(), &TWELVE_TICKS, TWELVE_TEXT)?;
    try_text(&rt, rt.alloc(), &BUSY_TASKS, BUSY_TEXT)
}

/// How many ticks each task has before each of nine ticks.
static TICKS_BEFORE: [(u64, u64); 9] = [
    (0, 0),
    (1, 0),
    (2, 0),
    (3, 0),
    (4, 0),
    (5, 0),
    (5, 1),
    (5, 2),
    (5, 3),
];

fn check_ticks(rt: &impl Abort, report: &Report, ticks: (u64, u64)) -> Result<(), Fail> {
    let rows = [
        (0, ticks.0, None, None, 0, 0),
        (0, ticks.1, None, None, 0, 0),
    ];
    check_rows(rt, report, &rows, "before a tick")
}

/// The first task runs for 5 ticks, then the second until its sleep at tick 8.
#[test]
fn after_each_tick(rt: HostRuntime) -> Result<(), Fail> {
    let mut report = Report::new(rt.alloc(), &examine(LATER.hyper, LATER.tasks)?)?;
    for (piece, ticks) in LATER.pieces.iter().zip(&TICKS_BEFORE) {
        check_ticks(&rt, &report, *ticks)?;
        add_piece(&rt, &mut report, *piece);
    }
    check_rows(&rt, &report, LATER.rows, LATER.name)
}

/// A task that wakes at each multiple of 10, up to tick 100, and has 3 ticks.
fn periodic(rt: &impl Abort, alloc: Global) -> Result<Report, Fail> {
    let mut report = Report::new(alloc, &examine(10, &[cases::THIRD])?)?;
    for period in 1..11 {
        add_busy(rt, &mut report, &[0, 0]);
        add_piece(rt, &mut report, Piece::Busy(0, Sleep(10 * period)));
        add_piece(rt, &mut report, Piece::Idle(7));
    }
    same(rt, "periodic", report.now(), 100);
    same(rt, "periodic", report.idle(), 70);
    let counts = (10, 30, Some(3), Some(3), 10, 0);
    check_rows(rt, &report, &[counts], "periodic")?;
    Ok(report)
}

#[test]
fn periodic_task(rt: HostRuntime) -> Result<(), Fail> {
    periodic(&rt, rt.alloc())?;
    Ok(())
}

/// Tells a report of busy ticks of these tasks, without a call.
fn add_busy(rt: &impl Abort, report: &mut Report, tasks: &[u32]) {
    for task in tasks {
        add_piece(rt, report, Piece::Busy(*task, Next));
    }
}

/// Of 10 ticks, the first of two busy tasks has 4.
#[test]
fn none_is_late_of_busy_tasks(rt: HostRuntime) -> Result<(), Fail> {
    let mut report = Report::new(rt.alloc(), &examine(BUSY_TASKS.hyper, BUSY_TASKS.tasks)?)?;
    for _ in 0..100 {
        add_busy(&rt, &mut report, &[0, 1, 1, 0, 1, 1, 0, 0, 1, 1]);
    }
    same(&rt, "now", report.now(), 1000);
    let rows = [(0, 400, None, None, 0, 0), (0, 600, None, None, 0, 0)];
    check_rows(&rt, &report, &rows, "two busy tasks, 1,000 ticks")
}

/// From tick 9 on the tasks take turns of 5 ticks.
#[test]
fn none_is_late_beside_a_sleeper(rt: HostRuntime) -> Result<(), Fail> {
    let mut report = told(&rt, rt.alloc(), &LATER)?;
    for _ in 0..99 {
        add_busy(&rt, &mut report, &[1, 1, 1, 1, 1, 0, 0, 0, 0, 0]);
    }
    add_busy(&rt, &mut report, &[1]);
    same(&rt, "now", report.now(), 1000);
    let rows = [(0, 500, None, None, 0, 0), (1, 500, Some(9), Some(9), 1, 0)];
    check_rows(&rt, &report, &rows, "a sleeper, 1,000 ticks")
}

/// With each allocation refused in turn, a report that was made stays as it was.
#[test]
fn wants_memory(rt: HostRuntime) -> Result<(), Fail> {
    let Ok(report) = Report::new(rt.alloc(), &examine(LATER.hyper, LATER.tasks)?) else {
        return Ok(());
    };
    if let Ok(rows) = report.rows() {
        same(&rt, "rows", rows.len(), 2);
    }
    same(&rt, "now", report.now(), 0);
    same(&rt, "tasks", report.count(), 2);
    same(&rt, "idle", report.idle(), 0);
    Ok(())
}

/// As many tasks as are admitted, of which the last ends at once.
fn sixty_four_tasks(rt: &impl Abort, alloc: Global) -> Result<Report, Fail> {
    let task = Params {
        budget: 1,
        period: 64,
        start: 0,
    };
    let mut report = Report::new(alloc, &examine(64, &[task; 64])?)?;
    add_piece(rt, &mut report, Piece::Busy(63, End));
    Ok(report)
}

#[test]
fn sixty_four_tasks_have_rows(rt: HostRuntime) -> Result<(), Fail> {
    let report = sixty_four_tasks(&rt, rt.alloc())?;
    let mut want: [Counts; 64] = [(0, 0, None, None, 0, 0); 64];
    want[63] = (1, 1, Some(1), Some(1), 1, 0);
    check_rows(&rt, &report, &want, "64 tasks")?;
    let wide = report.wide_rows()?;
    let last = wide.last().map(|row| row.stands);
    same(&rt, "wide rows", wide.len(), 64);
    same(&rt, "the last", last, Some(Mode::Ended));
    Ok(())
}

#[test]
fn laws_can_be_called(_rt: HostRuntime) {
    details_are_of_finished_jobs();
    kept_servers_are_due();
    rows_count_jobs();
}
