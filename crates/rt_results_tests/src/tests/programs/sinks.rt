//! Each program over sinks that fail within its text: what they took is the text's beginning, and the fault counts it.

use super::{BEAT, BUSY, SLEEPER, same};
use rt_admit::AdmitFault;
use rt_chart::{Style, Window};
use rt_exec::Predecoded;
use rt_fault_lines::FaultLines;
use rt_programs::{
    AccountedRun, Admission, Limits, NoBeat, ProfileForm, Question, ReportWidth, Scale, ScaleCount,
    SimFault, SoloTask, TimeUnit, certify, chart, check, dis, profile, report, show, simulate,
    solo, trace, vcd, write_jobs_header,
};
use rt_queue::Tournament;
use rt_sink::{DeviceFault, Limited};
use std::alloc::Global;
use std::process::Abort;
use std::test::Fail;

/// An object whose two words set x1 to -1 and then jump to themselves, and one that sleeps until 10, 20, 30, ..
static LOOP: &[u8] = b"RTI1\0\0\0\x80\x08\0\0\0\0\0\0\0\x93\0\xf0\xffo\0\0\0";

static ALONE: &[u8] =
    b"RTI1\0\0\0\x80\x10\0\0\0\0\0\0\0\x93\x08 \0\x13\x05\xa5\0s\0\0\0o\xf0\x9f\xff";

/// Gives a program sinks of each room that is less than its text, of which a put takes so many bytes, and then one with just enough.
fn fails<P: Fn(&mut Limited) -> Result<u64, SimFault>>(
    rt: &impl Abort,
    alloc: Global,
    per_put: usize,
    program: P,
) -> Result<(), Fail> {
    let mut whole = Limited::new(alloc, 64, 65_536)?;
    let length = program(&mut whole)?;
    same(rt, "length", whole.bytes().len() as u64, length);
    for room in 0..whole.bytes().len() + 1 {
        let mut sink = Limited::new(alloc, per_put, room)?;
        let written = room as u64;
        let answer = program(&mut sink);
        let cut = Err(SimFault::Device(DeviceFault { written }));
        same(
            rt,
            room,
            answer,
            if written < length { cut } else { Ok(length) },
        );
        same(rt, room, sink.bytes(), &whole.bytes()[..room]);
    }
    Ok(())
}

#[test]
fn files_are_listed(rt: HostRuntime) -> Result<(), Fail> {
    let alloc = rt.alloc();
    fails(&rt, alloc, 7, |sink| dis(alloc, LOOP, sink))?;
    fails(&rt, alloc, 7, |sink| show(alloc, BEAT, sink))?;
    fails(&rt, alloc, 4, |sink| check(alloc, BUSY, sink))
}

#[test]
fn objects_are_run(rt: HostRuntime) -> Result<(), Fail> {
    let alloc = rt.alloc();
    let task = SoloTask {
        ram: 65_536,
        split: false,
    };
    for per_put in 1..4 {
        fails(&rt, alloc, per_put, |sink| {
            solo::<Tournament, Predecoded, Limited>(
                alloc,
                LOOP,
                task,
                3,
                sink,
                &mut FaultLines::none(),
            )
        })?;
    }
    let limits = Limits {
        budget: 3,
        period: 10,
        periods: 1,
    };
    let question = Question {
        ram: 64,
        split: false,
        start: 0,
        limits,
        jobs: 60,
        places: true,
    };
    fails(&rt, alloc, 5, |sink| {
        certify(
            alloc,
            ALONE,
            &question,
            sink,
            &mut FaultLines::none(),
            &NoBeat,
        )
    })
}

#[test]
fn systems_are_run(rt: HostRuntime) -> Result<(), Fail> {
    let alloc = rt.alloc();
    let required = Admission::Required;
    for per_put in 1..4 {
        fails(&rt, alloc, per_put, |sink| {
            simulate(alloc, SLEEPER, required, 9, sink, &mut FaultLines::none())
        })?;
    }
    fails(
        &rt,
        alloc,
        5,
        |sink| report(alloc, BEAT, required, 100, ReportWidth::Wide, sink, &NoBeat),
    )?;
    fails(
        &rt,
        alloc,
        5,
        |sink| profile(alloc, BEAT, required, 37, ProfileForm::Rows, sink, &NoBeat),
    )?;
    fails(
        &rt,
        alloc,
        16,
        |sink| trace(alloc, BUSY, required, 0, 9, None, sink, &NoBeat),
    )?;
    let scale = Scale {
        count: ScaleCount::One,
        unit: TimeUnit::Nanoseconds,
    };
    fails(
        &rt,
        alloc,
        16,
        |sink| vcd(alloc, BUSY, required, 0, 9, scale, sink, &NoBeat),
    )?;
    let window = Window::new(6, 1).ok_or("a window")?;
    let style = Style {
        width: None,
        is_compact: false,
    };
    fails(
        &rt,
        alloc,
        7,
        |sink| chart(alloc, BUSY, required, window, style, &[], sink, &NoBeat),
    )
}

/// The run of a listing of jobs stops where the sink fails: 2^40 ticks of these tasks are never executed.
#[test]
fn jobs_are_listed(rt: HostRuntime) -> Result<(), Fail> {
    let mut whole = Limited::new(rt.alloc(), 64, 4_096)?;
    let run = AccountedRun::open(rt.alloc(), BEAT, Admission::Required)?;
    let header = write_jobs_header(false, &mut whole)?;
    run.write_jobs_until(false, 100, &mut whole, &NoBeat)?;
    for room in 0..whole.bytes().len() {
        let mut sink = Limited::new(rt.alloc(), 5, room)?;
        let run = AccountedRun::open(rt.alloc(), BEAT, Admission::Required)?;
        let answer = match write_jobs_header(false, &mut sink) {
            Ok(_) => match run.write_jobs_until(false, 1 << 40, &mut sink, &NoBeat) {
                Ok(_) => None,
                Err(fault) => Some(header + fault.written),
            },
            Err(fault) => Some(fault.written),
        };
        same(&rt, room, answer, Some(room as u64));
        same(&rt, room, sink.bytes(), &whole.bytes()[..room]);
    }
    Ok(())
}

/// Two tasks that ask for 14 of 12 ticks: the refusal is the same whether the sink takes the lines that say why or fails within them.
static OVERLOAD: &[u8] =
    b"RTS1\x0c\0\0\0\x02\0\0\0\x02\0\0\0\x03\0\0\0\0\0\0\0@\0\0\0\x10\0\0\0RTI1\0\0\0\x80\0\0\0\0\0\0\0\0\x02\0\0\0\x04\0\0\0\0\0\0\0@\0\0\0\x10\0\0\0RTI1\0\0\0\x80\0\0\0\0\0\0\0\0";

static REASONS: &[u8] = b"task 0 weight 8\ntask 1 weight 6\nbreach task 1 c 2 d 12 tick 12\n";

#[test]
fn sets_are_refused(rt: HostRuntime) -> Result<(), Fail> {
    let overload = AdmitFault::Overload {
        total: 14,
        hyper: 12,
    };
    for room in 0..=REASONS.len() {
        let mut sink = Limited::new(rt.alloc(), 4, room)?;
        let answer = check(rt.alloc(), OVERLOAD, &mut sink);
        same(&rt, room, answer, Err(SimFault::Admit(overload)));
        same(&rt, room, sink.bytes(), &REASONS[..room]);
    }
    Ok(())
}

/// A number that no task has is refused behind what its set is refused for, and nothing is written.
#[test]
fn tasks_that_are_not_there_are_not_traced(rt: HostRuntime) -> Result<(), Fail> {
    let alloc = rt.alloc();
    let required = Admission::Required;
    let traced = |file: &[u8], task, sink: &mut Limited| {
        trace(alloc, file, required, 0, 9, Some(task), sink, &NoBeat)
    };
    let mut sink = Limited::new(alloc, 64, 4_096)?;
    for task in 2..4 {
        let missing = SimFault::NoTask { task, count: 2 };
        same(&rt, task, traced(BUSY, task, &mut sink), Err(missing));
    }
    let overload = SimFault::Admit(AdmitFault::Overload {
        total: 14,
        hyper: 12,
    });
    same(&rt, 2, traced(OVERLOAD, 2, &mut sink), Err(overload));
    assert!(rt; sink.bytes().is_empty());
    traced(BUSY, 1, &mut sink)?;
    let first = b"1\t1\t80000000\ttask1:-\tjal x0,0x80000000\tpc=80000000\n";
    assert!(rt; sink.bytes().starts_with(first));
    Ok(())
}

/// An object that ends at once runs no tick beyond the last.
#[test]
fn no_tick_is_beyond_the_last(rt: HostRuntime) -> Result<(), Fail> {
    let ends = b"RTI1\0\0\0\x80\x04\0\0\0\0\0\0\0s\0\0\0";
    let text =
        b"0 0 80000000 00000073 end\n1 idle 1099511627775\nafter 1099511627776\ntask 0 ended pc 80000004\nregs\nout 0\n";
    let task = SoloTask {
        ram: 4,
        split: false,
    };
    let mut sink = Limited::new(rt.alloc(), 64, 4_096)?;
    solo::<Tournament, Predecoded, Limited>(
        rt.alloc(),
        ends,
        task,
        u64::MAX,
        &mut sink,
        &mut FaultLines::none(),
    )?;
    same(&rt, "ends", sink.bytes(), text.as_slice());
    Ok(())
}
