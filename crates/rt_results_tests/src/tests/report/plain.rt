//! Plain ticks told at once, beside the same told one by one, against rows and wide rows that were worked out by hand. Behind some
//! stands the account that they leave: the current budget c and the deadline d.

use super::cases::{Counts, Piece, SHORT};
use super::wide::{FIFTH, Wide, check_wide};
use super::{add_piece, check_rows};
use crate::tests::same;
use rt_admit::{Params, examine};
use rt_history::AttemptOutcome::{End, Next, Sleep};
use rt_history::Mode;
use rt_report::Report;
use rt_words::MAX_TICKS;
use std::alloc::Global;
use std::process::Abort;
use std::test::Fail;

/// Plain ticks of a task, or something else.
#[derive(Clone, Copy)]
enum Stretch {
    Plain(u32, u64),
    Other(Piece),
}

use Stretch::{Other, Plain};

/// 5 ticks of 10, from tick 4 on.
const FROM_FOUR: Params = Params {
    budget: 5,
    period: 10,
    start: 4,
};

#[derive(Clone, Copy)]
struct Stretches {
    name: &'static str,
    hyper: u32,
    tasks: &'static [Params],
    told: &'static [Stretch],
    now: u64,
    idle: u64,
    rows: &'static [Counts],
    wide: &'static [Wide],
}

/// The ticks 1, 3, 14, 20, 22, 24, 61, 63 and 65 postpone the first task, 8 and 15 the second. At 15 it keeps its account:
/// 24 * 5 > 1 * 10 + 15 * 5. At 60 the first one wakes afresh: 70 * 2 <= 2 * 10 + 60 * 2.
static TWO_TASKS: Stretches = Stretches {
    name: "two tasks",
    hyper: 10,
    tasks: &[FIFTH, FROM_FOUR],
    told: &[
        Plain(0, 4), // c 2 d 30
        Plain(1, 8), // c 2 d 24
        Other(Piece::Busy(1, Sleep(15))),
        Plain(1, 0),
        Plain(0, 2), // c 2 d 40
        Plain(1, 3), // c 3 d 34
        Other(Piece::Busy(1, End)),
        Plain(0, 5), // c 1 d 60
        Other(Piece::Busy(0, Sleep(60))),
        Other(Piece::Idle(35)),
        Plain(0, 7), // c 1 d 100
    ],
    now: 67,
    idle: 35,
    rows: &[
        (1, 19, Some(25), Some(25), 0, 0),
        (2, 13, Some(4), Some(9), 0, 0),
    ],
    wide: &[
        (Mode::Active, Some(12), 1, 2, 0, 9, 0),
        (Mode::Ended, Some(9), 0, 1, 1, 2, 0),
    ],
};

/// No legal history has ticks of a task that has ended. They make it active, and each postpones.
static BEHIND_AN_END: Stretches = Stretches {
    name: "behind an end",
    hyper: 2,
    tasks: &[SHORT],
    told: &[Other(Piece::Busy(0, End)), Plain(0, 3)],
    now: 4,
    idle: 0,
    rows: &[(1, 4, Some(1), Some(1), 1, 0)],
    wide: &[(Mode::Active, Some(1), 0, 1, 0, 4, 0)],
};

/// Tells a report of plain ticks of a task, at once or one by one.
fn add_plain(rt: &impl Abort, report: &mut Report, task: u32, n: u64, at_once: bool) {
    if at_once {
        assert!(rt; n <= MAX_TICKS - report.now() && task < report.count());
        report.add_plain(task, n);
    } else {
        for _ in 0..n {
            add_piece(rt, report, Piece::Busy(task, Next));
        }
    }
}

fn add_stretch(rt: &impl Abort, report: &mut Report, stretch: Stretch, at_once: bool) {
    match stretch {
        Plain(task, n) => add_plain(rt, report, task, n, at_once),
        Other(piece) => add_piece(rt, report, piece),
    }
}

fn try_stretches(
    rt: &impl Abort,
    alloc: Global,
    case: &Stretches,
    at_once: bool,
) -> Result<(), Fail> {
    let mut report = Report::new(alloc, &examine(case.hyper, case.tasks)?)?;
    for stretch in case.told {
        add_stretch(rt, &mut report, *stretch, at_once);
    }
    same(rt, case.name, report.now(), case.now);
    same(rt, case.name, report.idle(), case.idle);
    check_rows(rt, &report, case.rows, case.name)?;
    check_wide(rt, &report, case.wide, case.name)
}

#[test]
fn plain_ticks(rt: HostRuntime) -> Result<(), Fail> {
    try_stretches(&rt, rt.alloc(), &TWO_TASKS, false)?;
    try_stretches(&rt, rt.alloc(), &TWO_TASKS, true)?;
    try_stretches(&rt, rt.alloc(), &BEHIND_AN_END, false)?;
    try_stretches(&rt, rt.alloc(), &BEHIND_AN_END, true)
}
