//! The finished jobs of histories by hand, against lines that were worked out by hand.

use super::cases::Piece::{Busy, Idle};
use super::cases::{Case, HALF, LATER, Piece, SHORT};
use super::check_rows;
use crate::tests::same;
use rt_admit::examine;
use rt_exec::Fault;
use rt_history::AttemptOutcome::{End, Next, Sleep, Yield};
use rt_history::{Attempt, AttemptOutcome, Entry};
use rt_report::{FinishedJob, JOBS_HEADER, Report};
use rt_sink::{DeviceFault, Limited, Writer};
use rt_text_out::{Text, plain, write};
use rt_words::{MAX_TICKS, RAM_BASE};
use std::alloc::Global;
use std::process::Abort;
use std::test::Fail;

/// The second job is kept at its wake; the third and the fourth are released to an active task; the fifth wakes afresh and yields.
static SOFT: Case = Case {
    name: "soft jobs",
    hyper: 10,
    tasks: &[HALF],
    pieces: &[
        Busy(0, Next),
        Busy(0, Next),
        Busy(0, Next),
        Busy(0, Sleep(7)), // c 1 d 10
        Idle(3),
        Busy(0, Sleep(7)), // c 5 d 20
        Busy(0, Sleep(7)),
        Busy(0, Next),
        Busy(0, Yield), // c 5 d 30
        Busy(0, Next),
        Busy(0, Next),
        Busy(0, Sleep(26)), // c 2 d 30; 30 * 5 <= 2 * 10 + 26 * 5: fresh
        Idle(12),
        Busy(0, Next),
        Busy(0, Yield),
        Busy(0, Next),
        Busy(0, End),
    ],
    rows: &[(5, 15, Some(1), Some(7), 1, 0)],
    idle: 15,
};

/// Jobs of two tasks, each numbered by itself.
static TWO_TASKS: Case = Case {
    name: "jobs of two tasks",
    hyper: 10,
    tasks: &[HALF, HALF],
    pieces: &[
        Busy(0, Next),
        Busy(0, Sleep(10)),
        Busy(1, Sleep(10)),
        Idle(7),
        Busy(0, Sleep(20)),
        Busy(1, Next),
        Busy(1, End),
    ],
    rows: &[
        (2, 3, Some(1), Some(2), 2, 0),
        (2, 3, Some(3), Some(3), 2, 0),
    ],
    idle: 7,
};

/// Of no machine.
static LATE: Case = Case {
    name: "late, and a fault",
    hyper: 2,
    tasks: &[SHORT, SHORT],
    pieces: &[
        Idle(5),
        Busy(0, End),
        Busy(1, AttemptOutcome::Fault(Fault::Break)),
    ],
    rows: &[(1, 1, Some(6), Some(6), 1, 1), (0, 1, None, None, 0, 0)],
    idle: 5,
};

const SOFT_LINES: &str =
    "task,job,release,finish,response,ticks,fresh,calm,hard,late\n0,0,0,3,4,4,true,true,true,false\n0,1,7,7,1,1,false,true,false,false\n0,2,7,8,2,1,false,true,false,false\n0,3,7,13,7,5,false,false,false,false\n0,4,26,29,4,4,true,false,false,false\n";

const TWO_LINES: &str =
    "task,job,release,finish,response,ticks,fresh,calm,hard,late\n0,0,0,1,2,2,true,true,true,false\n1,0,0,2,3,1,true,true,true,false\n0,1,10,10,1,1,true,true,true,false\n1,1,10,12,3,2,true,true,true,false\n";

const LATER_LINES: &str =
    "task,job,release,finish,response,ticks,fresh,calm,hard,late\n1,0,0,8,9,4,true,true,true,false\n";

const LATE_LINES: &str =
    "task,job,release,finish,response,ticks,fresh,calm,hard,late\n0,0,0,5,6,1,true,true,true,true\n";

/// The job that an entry finishes; the report is told of the entry then.
fn finish(report: &mut Report, entry: Entry) -> Option<FinishedJob> {
    let job = report.finished_by(&entry);
    report.add(entry);
    job
}

fn finish_piece(rt: &impl Abort, report: &mut Report, piece: Piece) -> Option<FinishedJob> {
    let t = report.now();
    match piece {
        Piece::Busy(task, outcome) => {
            assert!(rt; t < MAX_TICKS && task < report.count());
            let rec = Attempt {
                task,
                pc: RAM_BASE,
                word: None,
                outcome,
            };
            finish(report, Entry::Busy { t, rec })
        }
        Piece::Idle(n) => {
            assert!(rt; n <= MAX_TICKS - t);
            finish(report, Entry::Idle { t, n })
        }
    }
}

/// Offers the line of the job that a piece finishes, if it finishes one.
fn list_piece(
    rt: &impl Abort,
    report: &mut Report,
    piece: Piece,
    writer: &mut Writer<'_, Limited>,
) {
    if let Some(job) = finish_piece(rt, report, piece) {
        job.offer(writer);
    }
}

/// Lists a case into this room: the answer of the writer, and the bytes that were taken.
fn list(
    rt: &impl Abort,
    alloc: Global,
    case: &Case,
    sink: &mut Limited,
) -> Result<Result<u64, DeviceFault>, Fail> {
    let mut report = Report::new(alloc, &examine(case.hyper, case.tasks)?)?;
    let mut writer = Writer { sink, written: 0 };
    plain(JOBS_HEADER).offer(&mut writer);
    for piece in case.pieces {
        list_piece(rt, &mut report, *piece, &mut writer);
    }
    check_rows(rt, &report, case.rows, case.name)?;
    Ok(writer.end())
}

fn try_lines(rt: &impl Abort, alloc: Global, case: &Case, text: &str) -> Result<(), Fail> {
    let mut sink = Limited::new(alloc, 7, 1024)?;
    let answer = list(rt, alloc, case, &mut sink)?;
    same(rt, case.name, answer, Ok(text.len() as u64));
    same(rt, case.name, sink.bytes(), text.as_bytes());
    Ok(())
}

#[test]
fn lines(rt: HostRuntime) -> Result<(), Fail> {
    try_lines(&rt, rt.alloc(), &SOFT, SOFT_LINES)?;
    try_lines(&rt, rt.alloc(), &TWO_TASKS, TWO_LINES)?;
    try_lines(&rt, rt.alloc(), &LATER, LATER_LINES)?;
    try_lines(&rt, rt.alloc(), &LATE, LATE_LINES)
}

/// The greatest numbers, none of a machine.
const WIDEST: FinishedJob = FinishedJob {
    task: 4_294_967_295,
    number: 18_446_744_073_709_551_615,
    release: 18_446_744_073_709_551_615,
    finish: 18_446_744_073_709_551_615,
    response: 18_446_744_073_709_551_615,
    ticks: 18_446_744_073_709_551_615,
    fresh: false,
    calm: false,
    hard: false,
    late: false,
};

const WIDEST_LINE: &str =
    "4294967295,18446744073709551615,18446744073709551615,18446744073709551615,18446744073709551615,18446744073709551615,false,false,false,false\n";

#[test]
fn widest_line(rt: HostRuntime) -> Result<(), Fail> {
    let mut sink = Limited::new(rt.alloc(), 64, 140)?;
    same(&rt, "the widest", write(&WIDEST, &mut sink), Ok(140));
    same(&rt, "the widest", sink.bytes(), WIDEST_LINE.as_bytes());
    Ok(())
}

/// Lists the soft jobs into so many bytes of room, and looks whether all were taken.
fn fails_behind(rt: &impl Abort, alloc: Global, room: usize) -> Result<(), Fail> {
    let mut sink = Limited::new(alloc, 7, room)?;
    let answer = list(rt, alloc, &SOFT, &mut sink)?;
    let written = room as u64;
    same(rt, room, answer, Err(DeviceFault { written }));
    let taken = SOFT_LINES.as_bytes().get(..room);
    same(rt, room, Some(sink.bytes()), taken);
    Ok(())
}

#[test]
fn fails_where_the_sink_fails(rt: HostRuntime) -> Result<(), Fail> {
    for room in [0, 59, 60, 100] {
        fails_behind(&rt, rt.alloc(), room)?;
    }
    Ok(())
}
