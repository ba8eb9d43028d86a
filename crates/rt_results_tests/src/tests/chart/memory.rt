//! Requests for memory, of which one may be refused: with `rt try --test --fail-alloc N` the Nth.

use super::drawings::{drawn_in, new_picture};
use super::same;
use rt_chart::{Chart, Window};
use rt_history::{Attempt, AttemptOutcome, Entry};
use rt_image::{ReadFault, System, read_system};
use rt_sink::Limited;
use std::alloc::Global;
use std::process::Abort;
use std::test::Fail;

/// A system file of hyperperiod 4, whose task jumps to itself: 2 ticks of 4, in 64 bytes of RAM.
static HALF: &[u8] = b"RTS1\x04\0\0\0\x01\0\0\0\
\x02\0\0\0\x04\0\0\0\0\0\0\0\x40\0\0\0\x14\0\0\0RTI1\0\0\0\x80\x04\0\0\0\0\0\0\0\x6f\0\0\0";

/// One of two such tasks.
static BOTH: &[u8] = b"RTS1\x04\0\0\0\x02\0\0\0\
\x02\0\0\0\x04\0\0\0\0\0\0\0\x40\0\0\0\x14\0\0\0RTI1\0\0\0\x80\x04\0\0\0\0\0\0\0\x6f\0\0\0\
\x02\0\0\0\x04\0\0\0\0\0\0\0\x40\0\0\0\x14\0\0\0RTI1\0\0\0\x80\x04\0\0\0\0\0\0\0\x6f\0\0\0";

/// The system of a file, which is read again where there is no memory at first.
fn system_in<'b>(alloc: Global, file: &'b [u8]) -> Result<System<'b>, ReadFault> {
    match read_system(alloc, file) {
        Err(_) => read_system(alloc, file),
        Ok(system) => Ok(system),
    }
}

/// A jump to itself.
const FIRST: Entry = Entry::Busy {
    t: 0,
    rec: Attempt {
        task: 0,
        pc: 0x8000_0000,
        word: Some(0x0000_006f),
        outcome: AttemptOutcome::Next,
    },
};

/// The budget is used up at 1 (d 8) and at 3 (d 12). The picture ends with tick 4, of which it isn't told: the task waits in it.
static MARKS: &str = "\"wait over\" data-task=\"0\" data-from=\"4\" data-to=\"5\"
\"run\" data-task=\"0\" data-from=\"0\" data-to=\"4\"
\"wake fresh\" data-task=\"0\" data-tick=\"0\"
\"deadline\" data-task=\"0\" data-tick=\"4\"
\"postponed\" data-task=\"0\" data-tick=\"1\"
\"postponed\" data-task=\"0\" data-tick=\"3\"
";

/// What is drawn in a picture, where there is memory for its text.
fn shows(rt: &impl Abort, alloc: Global, chart: &Chart<'_>, marks: &str) -> Result<(), Fail> {
    let Ok(mut sink) = Limited::new(alloc, 4096, 65_536) else {
        return Ok(());
    };
    chart.write_text(&mut sink)?;
    let text = std::str::from_utf8(sink.bytes())?;
    let is_same = text.lines().filter_map(drawn_in).eq(marks.lines());
    same(rt, marks, is_same, true);
    Ok(())
}

/// Four ticks of a busy task: the first one, the rest of its budget, and a whole budget. Its marks need more room at the last.
#[test]
fn pictures_are_made_and_drawn_again(rt: HostRuntime) -> Result<(), Fail> {
    let window = Window::new(0, 5).ok_or("a window")?;
    let system = system_in(rt.alloc(), HALF)?;
    if system.tasks.len() != 1 {
        return Err(Fail::from("one task"));
    }
    let mut chart = new_picture(rt.alloc(), &system, window)?;
    if chart.add(FIRST).is_err() {
        chart.add(FIRST)?;
    }
    let rest = match chart.add_plain(0, 1) {
        Err(_) => chart.add_plain(0, 1)?,
        Ok(ticks) => ticks,
    };
    same(&rt, "rest", rest, 1);
    let whole = match chart.add_plain(0, 2) {
        Err(_) => chart.add_plain(0, 2)?,
        Ok(ticks) => ticks,
    };
    same(&rt, "whole", whole, 2);
    shows(&rt, rt.alloc(), &chart, MARKS)
}

/// The same as tick 2.
const THIRD: Entry = Entry::Busy {
    t: 2,
    rec: Attempt {
        task: 0,
        pc: 0x8000_0000,
        word: Some(0x0000_006f),
        outcome: AttemptOutcome::Next,
    },
};

/// The second task waits for six ticks, of which two are over its period, and misses its deadline.
static WAITS: &str = "\"wait\" data-task=\"0\" data-from=\"0\" data-to=\"2\"
\"wait over\" data-task=\"0\" data-from=\"6\" data-to=\"7\"
\"run\" data-task=\"0\" data-from=\"2\" data-to=\"4\"
\"run over\" data-task=\"0\" data-from=\"4\" data-to=\"6\"
\"wake fresh\" data-task=\"0\" data-tick=\"0\"
\"deadline\" data-task=\"0\" data-tick=\"4\"
\"postponed\" data-task=\"0\" data-tick=\"3\"
\"postponed\" data-task=\"0\" data-tick=\"5\"
\"wait\" data-task=\"1\" data-from=\"0\" data-to=\"4\"
\"wait over\" data-task=\"1\" data-from=\"4\" data-to=\"6\"
\"run over\" data-task=\"1\" data-from=\"6\" data-to=\"7\"
\"wake fresh\" data-task=\"1\" data-tick=\"0\"
\"deadline\" data-task=\"1\" data-tick=\"4\"
\"breach\" data-task=\"1\" data-tick=\"4\"
";

/// Takes plain ticks of a task, where there is no memory at first.
fn told(chart: &mut Chart<'_>, task: u32, n: u64) -> Result<u64, Fail> {
    let taken = match chart.add_plain(task, n) {
        Err(_) => chart.add_plain(task, n)?,
        Ok(ticks) => ticks,
    };
    Ok(taken)
}

/// Task 0 takes ticks 2 to 5, of which the last two are over its period, and task 1 tick 6.
fn waits_in(rt: &impl Abort, chart: &mut Chart<'_>) -> Result<(), Fail> {
    chart.add(Entry::Idle { t: 0, n: 2 })?;
    if chart.add(THIRD).is_err() {
        chart.add(THIRD)?;
    }
    let steps = [told(chart, 0, 1)?, told(chart, 0, 2)?, told(chart, 1, 1)?];
    same(rt, "steps", steps, [1, 2, 1]);
    Ok(())
}

#[test]
fn waits_are_drawn_again(rt: HostRuntime) -> Result<(), Fail> {
    let window = Window::new(0, 7).ok_or("a window")?;
    let system = system_in(rt.alloc(), BOTH)?;
    if system.tasks.len() != 2 {
        return Err(Fail::from("two tasks"));
    }
    let mut chart = new_picture(rt.alloc(), &system, window)?;
    waits_in(&rt, &mut chart)?;
    shows(&rt, rt.alloc(), &chart, WAITS)
}
