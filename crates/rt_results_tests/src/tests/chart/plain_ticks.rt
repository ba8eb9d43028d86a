//! Pictures that are told of plain ticks at once, against steps and marks that were worked out by hand.

use super::drawings::{marks_in, new_picture, system_of};
use super::same;
use rt_chart::{Chart, Window};
use rt_image::{System, read_system};
use rt_sink::Limited;
use std::alloc::Global;
use std::process::Abort;
use std::test::Fail;

/// A picture of ticks 0 to 7: the first tick of a task wakes it (c 3, d 10) and is a step; its budget is used up at 2 and at 5
/// (d 20), and task 0 then has 3 ticks more, of which two are taken.
fn picture_of<'b>(
    rt: &impl Abort,
    alloc: Global,
    system: &System<'b>,
    window: Window,
) -> Result<Chart<'b>, Fail> {
    let mut chart = new_picture(alloc, system, window)?;
    let wakes_0 = chart.add_plain(0, 3)?;
    let ends_0 = chart.add_plain(0, 2)?;
    let wakes_1 = chart.add_plain(1, 8)?;
    let ends_1 = chart.add_plain(1, 8)?;
    let more_0 = chart.add_plain(0, 2)?;
    same(rt, "task 0", (wakes_0, ends_0, more_0), (1, 2, 2));
    same(rt, "task 1", (wakes_1, ends_1), (1, 2));
    Ok(chart)
}

/// What is drawn in a picture.
fn marks_of(alloc: Global, chart: &Chart<'_>) -> Result<String, Fail> {
    let mut sink = Limited::new(alloc, 64, 65_536)?;
    chart.write_text(&mut sink)?;
    marks_in(alloc, sink.bytes())
}

fn try_window(
    rt: &impl Abort,
    alloc: Global,
    (from, ticks): (u64, u64),
    marks: &str,
) -> Result<(), Fail> {
    let window = Window::new(from, ticks).ok_or("a window")?;
    let file = system_of(alloc, 2)?;
    let system = read_system(alloc, &file)?;
    if system.tasks.len() != 2 {
        return Err(Fail::from("two tasks"));
    }
    let chart = picture_of(rt, alloc, &system, window)?;
    let found = marks_of(alloc, &chart)?;
    same(rt, (from, ticks), found.as_str(), marks);
    Ok(())
}

/// Task 0 alone: its budget is used up at 2, 5 and 8, and from 10 on it is over its period.
fn picture_of_one<'b>(
    rt: &impl Abort,
    alloc: Global,
    system: &System<'b>,
    window: Window,
) -> Result<Chart<'b>, Fail> {
    let mut chart = new_picture(alloc, system, window)?;
    let wakes = chart.add_plain(0, 9)?;
    let ends = chart.add_plain(0, 9)?;
    let second = chart.add_plain(0, 9)?;
    let third = chart.add_plain(0, 9)?;
    let last_before = chart.add_plain(0, 9)?;
    let over = chart.add_plain(0, 2)?;
    same(
        rt,
        "one task",
        [wakes, ends, second, third, last_before, over],
        [1, 2, 3, 3, 1, 2],
    );
    Ok(chart)
}

#[test]
fn steps_end_with_the_period(rt: HostRuntime) -> Result<(), Fail> {
    let window = Window::new(9, 3).ok_or("a window")?;
    let file = system_of(rt.alloc(), 1)?;
    let system = read_system(rt.alloc(), &file)?;
    if system.tasks.len() != 1 {
        return Err(Fail::from("one task"));
    }
    let chart = picture_of_one(&rt, rt.alloc(), &system, window)?;
    let found = marks_of(rt.alloc(), &chart)?;
    let marks = "\"run\" data-task=\"0\" data-from=\"9\" data-to=\"10\"
\"run over\" data-task=\"0\" data-from=\"10\" data-to=\"12\"
\"deadline\" data-task=\"0\" data-tick=\"10\"
\"postponed\" data-task=\"0\" data-tick=\"11\"
";
    same(&rt, "over", found.as_str(), marks);
    Ok(())
}

#[test]
fn steps(rt: HostRuntime) -> Result<(), Fail> {
    // all ticks
    try_window(
        &rt,
        rt.alloc(),
        (0, 8),
        "\"wait\" data-task=\"0\" data-from=\"3\" data-to=\"6\"
\"run\" data-task=\"0\" data-from=\"0\" data-to=\"3\"
\"run\" data-task=\"0\" data-from=\"6\" data-to=\"8\"
\"wake fresh\" data-task=\"0\" data-tick=\"0\"
\"postponed\" data-task=\"0\" data-tick=\"2\"
\"wait\" data-task=\"1\" data-from=\"0\" data-to=\"3\"
\"wait\" data-task=\"1\" data-from=\"6\" data-to=\"8\"
\"run\" data-task=\"1\" data-from=\"3\" data-to=\"6\"
\"wake fresh\" data-task=\"1\" data-tick=\"0\"
\"postponed\" data-task=\"1\" data-tick=\"5\"
",
    )?;
    // from within the first budget on
    try_window(
        &rt,
        rt.alloc(),
        (1, 7),
        "\"wait\" data-task=\"0\" data-from=\"3\" data-to=\"6\"
\"run\" data-task=\"0\" data-from=\"1\" data-to=\"3\"
\"run\" data-task=\"0\" data-from=\"6\" data-to=\"8\"
\"postponed\" data-task=\"0\" data-tick=\"2\"
\"wait\" data-task=\"1\" data-from=\"1\" data-to=\"3\"
\"wait\" data-task=\"1\" data-from=\"6\" data-to=\"8\"
\"run\" data-task=\"1\" data-from=\"3\" data-to=\"6\"
\"postponed\" data-task=\"1\" data-tick=\"5\"
",
    )?;
    // from its last tick on, and from behind it
    try_window(
        &rt,
        rt.alloc(),
        (2, 6),
        "\"wait\" data-task=\"0\" data-from=\"3\" data-to=\"6\"
\"run\" data-task=\"0\" data-from=\"2\" data-to=\"3\"
\"run\" data-task=\"0\" data-from=\"6\" data-to=\"8\"
\"postponed\" data-task=\"0\" data-tick=\"2\"
\"wait\" data-task=\"1\" data-from=\"2\" data-to=\"3\"
\"wait\" data-task=\"1\" data-from=\"6\" data-to=\"8\"
\"run\" data-task=\"1\" data-from=\"3\" data-to=\"6\"
\"postponed\" data-task=\"1\" data-tick=\"5\"
",
    )?;
    try_window(
        &rt,
        rt.alloc(),
        (7, 1),
        "\"run\" data-task=\"0\" data-from=\"7\" data-to=\"8\"
\"wait\" data-task=\"1\" data-from=\"7\" data-to=\"8\"
",
    )
}
