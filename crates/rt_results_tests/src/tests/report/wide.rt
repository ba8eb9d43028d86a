//! Wide reports of histories by hand, against wide rows and texts that were worked out by hand. Behind some ticks stands the
//! account that they leave: the current budget c and the deadline d.

use super::cases::Piece::{Busy, Idle};
use super::cases::{BUSY_TASKS, Case, HALF, LATER, SHORT, TWELVE_TICKS};
use super::names::{named_file, names_of};
use super::reserves::BUDGET_OF_TWO;
use super::{periodic, told};
use crate::tests::same;
use rt_admit::Params;
use rt_exec::Fault;
use rt_history::AttemptOutcome::{End, Next, Sleep, Yield};
use rt_history::{AttemptOutcome, Mode};
use rt_names::TaskNames;
use rt_report::{Report, WideRow};
use rt_sink::{DeviceFault, Limited};
use std::alloc::Global;
use std::process::Abort;
use std::test::Fail;

/// How the task stands, the most ticks of a job, jobs over the period, fresh wakes, kept ones, postponements, yields.
pub type Wide = (Mode, Option<u64>, u64, u64, u64, u64, u64);

/// 4 ticks of 10.
const FOUR: Params = Params {
    budget: 4,
    period: 10,
    start: 0,
};

/// 2 ticks of 10.
pub const FIFTH: Params = Params {
    budget: 2,
    period: 10,
    start: 0,
};

/// 5 ticks of 10, from tick 3 on.
const FROM_THREE: Params = Params {
    budget: 5,
    period: 10,
    start: 3,
};

const YIELD_AT_TWO: Case = Case {
    name: "a yield at 2",
    hyper: 10,
    tasks: &[HALF],
    pieces: &[Busy(0, Next), Busy(0, Yield)],
    rows: &[(0, 2, None, None, 0, 0)],
    idle: 0,
};

const YIELD_OF_TWO: Case = Case {
    name: "a yield at 2 with a budget of 2",
    hyper: 10,
    tasks: &[FIFTH],
    pieces: &[Busy(0, Next), Busy(0, Yield)],
    rows: &[(0, 2, None, None, 0, 0)],
    idle: 0,
};

const YIELD_AND_END: Case = Case {
    name: "a yield and an end",
    hyper: 10,
    tasks: &[HALF],
    pieces: &[
        Busy(0, Next),
        Busy(0, Yield), // c 5 d 20
        Busy(0, Next),
        Busy(0, End),
        Idle(6),
    ],
    rows: &[(1, 4, Some(4), Some(4), 0, 0)],
    idle: 6,
};

/// The sleep uses the budget up: it leaves c 4 d 20.
const EXHAUSTED: Case = Case {
    name: "an exhausted sleeper at 8",
    hyper: 10,
    tasks: &[FOUR],
    pieces: &[
        Busy(0, Next),
        Busy(0, Next),
        Busy(0, Next),
        Busy(0, Sleep(9)),
        Idle(4),
    ],
    rows: &[(1, 4, Some(4), Some(4), 1, 0)],
    idle: 4,
};

/// 20 * 4 > 4 * 10 + 9 * 4: kept.
const EXHAUSTED_KEPT: Case = Case {
    name: "an exhausted sleeper at 9",
    hyper: 10,
    tasks: &[FOUR],
    pieces: &[
        Busy(0, Next),
        Busy(0, Next),
        Busy(0, Next),
        Busy(0, Sleep(9)),
        Idle(5),
    ],
    rows: &[(1, 4, Some(4), Some(4), 1, 0)],
    idle: 5,
};

/// 20 * 4 <= 4 * 10 + 11 * 4: fresh.
const EXHAUSTED_FRESH: Case = Case {
    name: "an exhausted sleeper at 11",
    hyper: 10,
    tasks: &[FOUR],
    pieces: &[
        Busy(0, Next),
        Busy(0, Next),
        Busy(0, Next),
        Busy(0, Sleep(11)),
        Idle(7),
    ],
    rows: &[(1, 4, Some(4), Some(4), 1, 0)],
    idle: 7,
};

const FAULTED: Case = Case {
    name: "a fault",
    hyper: 10,
    tasks: &[HALF],
    pieces: &[
        Busy(0, Next),
        Busy(0, AttemptOutcome::Fault(Fault::StoreMisaligned)),
        Idle(3),
    ],
    rows: &[(0, 2, None, None, 0, 0)],
    idle: 3,
};

/// The second job, of one tick, uses the budget up.
const KEPT: Case = Case {
    name: "a kept wake",
    hyper: 10,
    tasks: &[HALF],
    pieces: &[
        Busy(0, Next),
        Busy(0, Next),
        Busy(0, Next),
        Busy(0, Sleep(7)), // c 1 d 10
        Idle(3),
        Busy(0, End), // c 5 d 20
    ],
    rows: &[(2, 5, Some(1), Some(4), 1, 0)],
    idle: 3,
};

const PENDING: Case = Case {
    name: "sleeps until 0",
    hyper: 10,
    tasks: &[HALF],
    pieces: &[
        Busy(0, Next),
        Busy(0, Sleep(0)),
        Busy(0, Next),
        Busy(0, Sleep(0)),
        Busy(0, Next), // c 5 d 20
        Busy(0, Sleep(0)),
    ],
    rows: &[(3, 6, Some(2), Some(6), 1, 0)],
    idle: 0,
};

/// The response is 3, and the job isn't hard: it has 3 ticks, which postpone three times.
const OVER: Case = Case {
    name: "over the period, not hard",
    hyper: 2,
    tasks: &[SHORT],
    pieces: &[Busy(0, Next), Busy(0, Next), Busy(0, End)],
    rows: &[(1, 3, Some(3), Some(3), 0, 0)],
    idle: 0,
};

const AT_THE_PERIOD: Case = Case {
    name: "at the period, not hard",
    hyper: 2,
    tasks: &[SHORT],
    pieces: &[Busy(0, Next), Busy(0, End)],
    rows: &[(1, 2, Some(2), Some(2), 0, 0)],
    idle: 0,
};

const TO_COME: Case = Case {
    name: "a start to come",
    hyper: 10,
    tasks: &[FROM_THREE],
    pieces: &[Idle(2)],
    rows: &[(0, 0, None, None, 0, 0)],
    idle: 2,
};

const COME: Case = Case {
    name: "a start that has come",
    hyper: 10,
    tasks: &[FROM_THREE],
    pieces: &[Idle(3)],
    rows: &[(0, 0, None, None, 0, 0)],
    idle: 3,
};

const ACTIVE: Mode = Mode::Active;

static WIDE: [(Case, &[Wide]); 17] = [
    (TWELVE_TICKS, &[(ACTIVE, Some(4), 0, 2, 0, 0, 0)]),
    (
        BUSY_TASKS,
        &[(ACTIVE, None, 0, 1, 0, 5, 0), (ACTIVE, None, 0, 1, 0, 3, 0)],
    ),
    // at 9 the second task wakes: 10 * 5 <= 1 * 10 + 9 * 5
    (
        LATER,
        &[
            (ACTIVE, None, 0, 1, 0, 1, 0),
            (ACTIVE, Some(4), 0, 2, 0, 0, 0),
        ],
    ),
    (YIELD_AT_TWO, &[(ACTIVE, None, 0, 1, 0, 1, 1)]),
    (YIELD_OF_TWO, &[(ACTIVE, None, 0, 1, 0, 1, 1)]),
    (YIELD_AND_END, &[(Mode::Ended, Some(4), 0, 1, 0, 1, 1)]),
    (EXHAUSTED, &[(Mode::Asleep(9), Some(4), 0, 1, 0, 1, 0)]),
    (EXHAUSTED_KEPT, &[(ACTIVE, Some(4), 0, 1, 1, 1, 0)]),
    (EXHAUSTED_FRESH, &[(ACTIVE, Some(4), 0, 2, 0, 1, 0)]),
    (
        FAULTED,
        &[(Mode::Faulted(Fault::StoreMisaligned), None, 0, 1, 0, 0, 0)],
    ),
    (KEPT, &[(Mode::Ended, Some(4), 0, 1, 1, 1, 0)]),
    (PENDING, &[(ACTIVE, Some(2), 0, 1, 0, 1, 0)]),
    (OVER, &[(Mode::Ended, Some(3), 1, 1, 0, 3, 0)]),
    (AT_THE_PERIOD, &[(Mode::Ended, Some(2), 0, 1, 0, 2, 0)]),
    (TO_COME, &[(Mode::Asleep(3), None, 0, 0, 0, 0, 0)]),
    (COME, &[(ACTIVE, None, 0, 1, 0, 0, 0)]),
    // the ticks 0, 1, 7, 13 and 17 postpone
    (BUDGET_OF_TWO, &[(Mode::Ended, Some(3), 0, 4, 0, 5, 0)]),
];

fn wide_of(row: &WideRow) -> Wide {
    let counts = row.counts;
    (
        row.stands,
        counts.most_ticks,
        counts.overtimes,
        counts.fresh_wakes,
        counts.kept_wakes,
        counts.postponements,
        counts.yields,
    )
}

/// The wide rows of a report are these, and have its rows in them.
pub fn check_wide(rt: &impl Abort, report: &Report, want: &[Wide], name: &str) -> Result<(), Fail> {
    let found = report.wide_rows()?;
    same(rt, name, found.len(), want.len());
    for (row, wide) in found.iter().zip(want) {
        same(rt, name, wide_of(row), *wide);
    }
    have_rows(rt, report, &found, name)
}

fn have_rows(rt: &impl Abort, report: &Report, found: &[WideRow], name: &str) -> Result<(), Fail> {
    let rows = report.rows()?;
    same(rt, name, found.len(), rows.len());
    for (wide, row) in found.iter().zip(&rows) {
        same(rt, name, wide.row, *row);
    }
    Ok(())
}

fn try_wide(rt: &impl Abort, alloc: Global, case: &Case, want: &[Wide]) -> Result<(), Fail> {
    let report = told(rt, alloc, case)?;
    check_wide(rt, &report, want, case.name)
}

#[test]
fn wide_rows(rt: HostRuntime) -> Result<(), Fail> {
    for (case, want) in &WIDE {
        try_wide(&rt, rt.alloc(), case, want)?;
    }
    Ok(())
}

/// At each multiple of 10 the job uses its budget up: c 3 and a deadline 10 ticks on, so the next wake is fresh, the one at 100
/// too.
#[test]
fn wide_periodic_task(rt: HostRuntime) -> Result<(), Fail> {
    let report = periodic(&rt, rt.alloc())?;
    let want = [(ACTIVE, Some(3), 0, 11, 0, 10, 0)];
    check_wide(&rt, &report, &want, "periodic")
}

static TEXTS: [(Case, &str); 5] = [
    (
        TWELVE_TICKS,
        "task          jobs         ticks           min           max          hard          late            stands          most          over         fresh          kept     postponed        yields        budget        period  name\n   0             1             8             4             4             1             0            active             4             0             2             0             0             0             5            10  motor\nidle             4\n",
    ),
    (
        BUSY_TASKS,
        "task          jobs         ticks           min           max          hard          late            stands          most          over         fresh          kept     postponed        yields        budget        period  name\n   0             0             5             -             -             0             0            active             -             0             1             0             5             0             1             3  motor\n   1             0             7             -             -             0             0            active             -             0             1             0             3             0             2             4  task1\nidle             0\n",
    ),
    (
        FAULTED,
        "task          jobs         ticks           min           max          hard          late            stands          most          over         fresh          kept     postponed        yields        budget        period  name\n   0             0             2             -             -             0             0   StoreMisaligned             -             0             1             0             0             0             5            10  motor\nidle             3\n",
    ),
    (
        EXHAUSTED,
        "task          jobs         ticks           min           max          hard          late            stands          most          over         fresh          kept     postponed        yields        budget        period  name\n   0             1             4             4             4             1             0            asleep             4             0             1             0             1             0             4            10  motor\nidle             4\n",
    ),
    (
        YIELD_AND_END,
        "task          jobs         ticks           min           max          hard          late            stands          most          over         fresh          kept     postponed        yields        budget        period  name\n   0             1             4             4             4             0             0             ended             4             0             1             0             1             1             5            10  motor\nidle             6\n",
    ),
];

fn try_text(rt: &impl Abort, alloc: Global, case: &Case, text: &str) -> Result<(), Fail> {
    let report = told(rt, alloc, case)?;
    let file = named_file(alloc)?;
    let names = names_of(alloc, &file)?;
    let mut sink = Limited::new(alloc, 7, text.len())?;
    let written = report.write_wide_text(&names, &mut sink);
    same(rt, case.name, written, Ok(text.len() as u64));
    same(rt, case.name, sink.bytes(), text.as_bytes());
    Ok(())
}

#[test]
fn wide_texts(rt: HostRuntime) -> Result<(), Fail> {
    for (case, text) in &TEXTS {
        try_text(&rt, rt.alloc(), case, text)?;
    }
    Ok(())
}

/// Writes a report into so many bytes of room, which aren't enough for its text.
fn fails_behind(
    rt: &impl Abort,
    alloc: Global,
    report: &Report,
    names: &TaskNames<'_>,
    text: &str,
    room: usize,
) -> Result<(), Fail> {
    let mut short = Limited::new(alloc, 7, room)?;
    let answer = report.write_wide_text(names, &mut short);
    let written = room as u64;
    same(rt, room, answer, Err(DeviceFault { written }));
    same(rt, room, text.as_bytes().starts_with(short.bytes()), true);
    Ok(())
}

fn try_short(rt: &impl Abort, alloc: Global, case: &Case, text: &str) -> Result<(), Fail> {
    let report = told(rt, alloc, case)?;
    let file = named_file(alloc)?;
    let names = names_of(alloc, &file)?;
    for room in [0, 100, 206, 306, 391, 394, 400] {
        fails_behind(rt, alloc, &report, &names, text, room)?;
    }
    Ok(())
}

/// The sink fails in the header, in each part of a line, the name among them, and in the last line.
#[test]
fn wide_text_on_a_short_device(rt: HostRuntime) -> Result<(), Fail> {
    for (case, text) in &TEXTS {
        try_short(&rt, rt.alloc(), case, text)?;
    }
    Ok(())
}
