//! Comma-separated values, jobs with their details, jobs that aren't finished, and what is held against tasks, of a history by hand.
//! Behind some ticks stands the account that they leave: the budget Q, the current one c, the deadline d, and what is pending.

use super::cases::Case;
use super::cases::Piece::{self, Busy, Idle};
use super::names::{named_file, names_of};
use super::told;
use crate::tests::same;
use rt_admit::{Params, examine};
use rt_exec::Fault;
use rt_history::AttemptOutcome::{End, Next, Reserve, ReserveRefused, Sleep, Yield};
use rt_history::{Attempt, AttemptOutcome, Entry};
use rt_names::TaskNames;
use rt_report::{DETAILED_HEADER, DetailedJob, DetailedLine, Failing, Report};
use rt_sink::{DeviceFault, Limited, Writer};
use rt_text_out::{Text, plain};
use rt_words::{MAX_TICKS, RAM_BASE};
use std::alloc::Global;
use std::process::Abort;
use std::test::Fail;

/// 2 ticks of 6.
const TWO: Params = Params {
    budget: 2,
    period: 6,
    start: 0,
};

/// 1 tick of 3.
const ONE: Params = Params {
    budget: 1,
    period: 3,
    start: 0,
};

/// 1 tick of 12, from tick 20 on.
const LATER: Params = Params {
    budget: 1,
    period: 12,
    start: 20,
};

/// The second job of the first task wakes afresh, 12 * 2 <= 2 * 6 + 7 * 2; that of the second is released to an active task.
static MIXED: Case = Case {
    name: "reserves, an interrupted job, and three open ones",
    hyper: 12,
    tasks: &[TWO, ONE, LATER],
    pieces: &[
        Busy(0, Reserve(3)), // Q 2, c 1, d 6, pending 3
        Busy(0, Sleep(7)), // c 2, d 12
        Busy(1, ReserveRefused), // Q 1, c 1, d 6
        Idle(2),
        Busy(1, Next), // d 9
        Busy(1, Yield), // d 12
        Busy(0, Next), // Q 3, c 2, d 13, nothing pending
        Busy(1, Sleep(8)), // d 15
        Busy(0, ReserveRefused), // c 1
    ],
    rows: &[
        (1, 4, Some(2), Some(2), 1, 0),
        (1, 4, Some(9), Some(9), 0, 0),
        (0, 0, None, None, 0, 0),
    ],
    idle: 2,
};

const CSV: &str =
    "task,jobs,ticks,min,max,hard,late,stands,most,over,fresh,kept,postponed,yields,granted,refused,response,budget,period,name\n0,1,4,2,2,1,0,active,2,0,2,0,1,0,1,1,2,3,6,motor\n1,1,4,9,9,0,0,active,4,1,1,0,4,1,0,1,9,1,3,task1\n2,0,0,,,0,0,asleep,,0,0,0,0,0,0,0,0,1,12,log\n";

/// The job of the second task is interrupted in ticks 3, 4 and 7.
const DETAILED: &str =
    "task,job,release,finish,response,ticks,fresh,calm,hard,late,start,budget,deadline,interrupted,period,over,name\n0,0,0,1,2,2,true,true,true,false,0,2,6,0,6,false,motor\n1,0,0,8,9,4,true,false,false,false,2,1,3,3,3,true,task1\n0,1,7,,,2,true,true,,,7,3,13,1,6,,motor\n1,1,8,,,0,false,true,,,,1,15,0,3,,task1\n2,0,20,,,0,true,true,,,,1,32,0,12,,log\n";

const UNFINISHED: &str = "0,1,7,,,2,true,true,,\n1,1,8,,,0,false,true,,\n2,0,20,,,0,true,true,,\n";

#[test]
fn comma_separated_values(rt: HostRuntime) -> Result<(), Fail> {
    let report = told(&rt, rt.alloc(), &MIXED)?;
    let file = named_file(rt.alloc())?;
    let names = names_of(rt.alloc(), &file)?;
    let mut sink = Limited::new(rt.alloc(), 7, 300)?;
    same(
        &rt,
        "csv",
        report.write_csv(&names, &mut sink),
        Ok(CSV.len() as u64),
    );
    same(&rt, "csv", sink.bytes(), CSV.as_bytes());
    Ok(())
}

/// The sink fails in the header, and in each part of a line, the name among them.
#[test]
fn comma_separated_values_on_a_short_device(rt: HostRuntime) -> Result<(), Fail> {
    let report = told(&rt, rt.alloc(), &MIXED)?;
    let file = named_file(rt.alloc())?;
    let names = names_of(rt.alloc(), &file)?;
    for room in [0, 122, 133, 149, 163, 169, 171] {
        let mut short = Limited::new(rt.alloc(), 7, room)?;
        let written = room as u64;
        same(
            &rt,
            room,
            report.write_csv(&names, &mut short),
            Err(DeviceFault { written }),
        );
        same(&rt, room, CSV.as_bytes().starts_with(short.bytes()), true);
    }
    Ok(())
}

/// The job that an entry finishes, with its details; the report is told of the entry then.
fn finish(report: &mut Report, entry: Entry) -> Option<DetailedJob> {
    let job = report.detailed_by(&entry);
    report.add(entry);
    job
}

fn finish_piece(rt: &impl Abort, report: &mut Report, piece: Piece) -> Option<DetailedJob> {
    let t = report.now();
    match piece {
        Busy(task, outcome) => {
            assert!(rt; t < MAX_TICKS && task < report.count());
            let rec = Attempt {
                task,
                pc: RAM_BASE,
                word: None,
                outcome,
            };
            finish(report, Entry::Busy { t, rec })
        }
        Idle(n) => {
            assert!(rt; n <= MAX_TICKS - t);
            finish(report, Entry::Idle { t, n })
        }
    }
}

/// Offers the line of the job that a piece finishes, if it finishes one.
fn list_piece(
    rt: &impl Abort,
    report: &mut Report,
    names: &TaskNames<'_>,
    piece: Piece,
    writer: &mut Writer<'_, Limited>,
) {
    if let Some(detailed) = finish_piece(rt, report, piece) {
        DetailedLine { names, detailed }.offer(writer);
    }
}

#[test]
fn detailed_lines(rt: HostRuntime) -> Result<(), Fail> {
    let mut report = Report::new(rt.alloc(), &examine(12, MIXED.tasks)?)?;
    let file = named_file(rt.alloc())?;
    let names = names_of(rt.alloc(), &file)?;
    let mut sink = Limited::new(rt.alloc(), 7, 400)?;
    let mut writer = Writer {
        sink: &mut sink,
        written: 0,
    };
    plain(DETAILED_HEADER).offer(&mut writer);
    for piece in MIXED.pieces {
        list_piece(&rt, &mut report, &names, *piece, &mut writer);
    }
    same(&rt, "detailed", writer.end().is_ok(), true);
    let unfinished = report.write_unfinished(true, &names, &mut sink);
    same(&rt, "detailed", unfinished.is_ok(), true);
    same(&rt, "detailed", sink.bytes(), DETAILED.as_bytes());
    Ok(())
}

fn list_unfinished(
    rt: &impl Abort,
    alloc: Global,
    report: &Report,
    text: &str,
) -> Result<(), Fail> {
    let file = named_file(alloc)?;
    let names = names_of(alloc, &file)?;
    let mut sink = Limited::new(alloc, 7, 100)?;
    let answer = report.write_unfinished(false, &names, &mut sink);
    same(rt, text.len(), answer, Ok(text.len() as u64));
    same(rt, text.len(), sink.bytes(), text.as_bytes());
    Ok(())
}

#[test]
fn unfinished_lines(rt: HostRuntime) -> Result<(), Fail> {
    let report = told(&rt, rt.alloc(), &MIXED)?;
    list_unfinished(&rt, rt.alloc(), &report, UNFINISHED)
}

/// 1 tick of 4.
const FOURTH: Params = Params {
    budget: 1,
    period: 4,
    start: 0,
};

/// A task that ends has no open job, one that faults has; its response is 5 by tick 5.
static STOPPED: Case = Case {
    name: "an end and a fault",
    hyper: 4,
    tasks: &[FOURTH, FOURTH],
    pieces: &[
        Busy(0, End),
        Busy(1, AttemptOutcome::Fault(Fault::Break)),
        Idle(3),
    ],
    rows: &[(1, 1, Some(1), Some(1), 1, 0), (0, 1, None, None, 0, 0)],
    idle: 3,
};

#[test]
fn stopped_tasks(rt: HostRuntime) -> Result<(), Fail> {
    let report = told(&rt, rt.alloc(), &STOPPED)?;
    list_unfinished(&rt, rt.alloc(), &report, "1,0,0,,,1,true,true,,\n")?;
    check_failures(&rt, &report, 0, [false; 4]);
    check_failures(&rt, &report, 1, [true, true, false, false]);
    Ok(())
}

/// Whether it has faulted, been over its period, finished a soft job, been refused a reserve.
fn check_failures(rt: &impl Abort, report: &Report, task: u32, want: [bool; 4]) {
    assert!(rt; task < report.count());
    let found = [
        report.has_failed(task, Failing::Fault, false),
        report.has_failed(task, Failing::Over, false),
        report.has_failed(task, Failing::Soft, false),
        report.has_failed(task, Failing::Refused, false),
    ];
    same(rt, task, found, want);
}

/// The open job of the first task has a response of 6, its period, by tick 13, and of 7 by tick 14.
#[test]
fn failures(rt: HostRuntime) -> Result<(), Fail> {
    let mut report = told(&rt, rt.alloc(), &MIXED)?;
    check_failures(&rt, &report, 0, [false, false, false, true]);
    check_failures(&rt, &report, 1, [false, true, true, true]);
    check_failures(&rt, &report, 2, [false; 4]);
    let _job = finish_piece(&rt, &mut report, Idle(3));
    check_failures(&rt, &report, 0, [false, false, false, true]);
    let _later = finish_piece(&rt, &mut report, Idle(1));
    check_failures(&rt, &report, 0, [false, true, false, true]);
    Ok(())
}
