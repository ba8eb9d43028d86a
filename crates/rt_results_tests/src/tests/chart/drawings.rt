//! Pictures of systems, and the marks in their texts.

use rt_admit::examine;
use rt_chart::{Chart, Style, Window};
use rt_history::params_of;
use rt_image::System;
use std::alloc::Global;
use std::test::Fail;

/// As a picture looks if nothing is asked for.
const USUAL: Style = Style {
    width: None,
    is_compact: false,
};

/// A system file of so many tasks that jump to themselves, with 3 ticks of 10 and 64 bytes of RAM.
pub fn system_of(alloc: Global, count: u32) -> Result<Vec<u8>, Fail> {
    let mut file = Vec::new(alloc);
    file.extend_from_slice(b"RTS1\x0a\0\0\0")?;
    file.extend_from_slice(&count.to_le_bytes())?;
    for _ in 0..count {
        file.extend_from_slice(b"\x03\0\0\0\x0a\0\0\0\0\0\0\0\x40\0\0\0\x14\0\0\0")?;
        file.extend_from_slice(b"RTI1\0\0\0\x80\x04\0\0\0\0\0\0\0\x6f\0\0\0")?;
    }
    Ok(file)
}

/// The picture of a system before its first tick, which is made again where there is no memory at first.
pub fn new_picture<'b>(
    alloc: Global,
    system: &System<'b>,
    window: Window,
) -> Result<Chart<'b>, Fail> {
    let params = match params_of(alloc, &system.tasks) {
        Err(_) => params_of(alloc, &system.tasks)?,
        Ok(params) => params,
    };
    let runnable = examine(system.hyper, &params)?;
    let chart = match Chart::new(alloc, &runnable, &system.tasks, window, USUAL, &[]) {
        Err(_) => Chart::new(alloc, &runnable, &system.tasks, window, USUAL, &[])?,
        Ok(chart) => chart,
    };
    Ok(chart)
}

/// What a line draws of a task, without its place: nothing, where it is no stretch and no mark.
pub fn drawn_in(line: &str) -> Option<&str> {
    for (begin, end) in &[
        ("<rect class=", " x="),
        ("<path class=", " d="),
        ("<line class=", " x1="),
    ] {
        if line.contains("data-task=")
            && let Some(behind) = line.strip_prefix(*begin)
        {
            return behind.split_once(*end).map(|(drawn, _)| drawn);
        }
    }
    None
}

/// All that is drawn in a picture, a line each.
pub fn marks_in(alloc: Global, text: &[u8]) -> Result<String, Fail> {
    let mut marks = String::new(alloc);
    for line in std::str::from_utf8(text)?.lines() {
        if let Some(drawn) = drawn_in(line) {
            marks.push_str(drawn)?;
            marks.push('\n')?;
        }
    }
    Ok(marks)
}
