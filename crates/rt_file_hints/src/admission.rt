//! The numbers behind a refusal of a set or of a load.

use crate::listed::has_word;
use rt_admit::AdmitFault;
use rt_fault_lines::shown::{Explanation, line};
use rt_image::{Object, ReadFault, Task, read_system};
use rt_words::{RAM_BASE, is_ram_size};
use std::alloc::{AllocError, Global};
use std::fmt;

/// The longest hyperperiod.
const MAX_HYPER: u64 = 4_194_304;

/// The greatest number that divides both.
fn divisor(first: u64, second: u64) -> u64 {
    let mut left = first;
    let mut right = second;
    while right != 0 {
        (left, right) = (right, left % right);
    }
    left
}

/// The least hyperperiod that all periods divide, if one does.
fn common(tasks: &[Task]) -> Option<u64> {
    let mut all: u64 = 1;
    for task in tasks {
        let period = u64::from(task.period);
        let times = period.checked_div(divisor(all, period))?;
        all = all.checked_mul(times)?;
        if all == 0 || all > MAX_HYPER {
            return None;
        }
    }
    Some(all)
}

/// What hyperperiod the periods want: behind what is wrong with the one that there is.
fn hyper_hint<D: fmt::Display + Drop>(alloc: Global, said: D, tasks: &[Task]) -> Explanation {
    match common(tasks) {
        Some(all) => line(
            alloc,
            format_args!("{said}; the least hyper of these periods is {all}"),
        ),
        None => line(
            alloc,
            format_args!("{said}; these periods have no hyper up to {MAX_HYPER}"),
        ),
    }
}

/// The numbers of a set that isn't admitted.
pub fn admit_hint(alloc: Global, fault: AdmitFault, hyper: u32, tasks: &[Task]) -> Explanation {
    let number = match fault {
        AdmitFault::NoTasks => return line(alloc, "the set has no line task"),
        AdmitFault::TooMany => {
            let count = tasks.len();
            return line(alloc, format_args!("{count} tasks, at most 64"));
        }
        AdmitFault::BadHyper => {
            let said = format_args!("hyper {hyper}, 1 to {MAX_HYPER}");
            return hyper_hint(alloc, said, tasks);
        }
        AdmitFault::Overload { .. } => return Ok(None),
        AdmitFault::ZeroBudget(number)
        | AdmitFault::BudgetOverPeriod(number)
        | AdmitFault::NotDivisor(number) => number,
    };
    let Some(Task { budget, period, .. }) = tasks.get(number as usize) else {
        return Ok(None);
    };
    if let AdmitFault::NotDivisor(_) = fault {
        let said = format_args!("task {number}: period {period}, hyper {hyper}");
        return hyper_hint(alloc, said, tasks);
    }
    line(
        alloc,
        format_args!("task {number}: budget {budget}, 1 to its period {period}"),
    )
}

/// Whether the image has more bytes than a RAM of this size.
fn is_too_big(object: &Object, ram: u32) -> bool {
    object.bytes.len() as u64 > u64::from(ram)
}

/// The numbers of an object that isn't loaded into so many bytes of RAM.
pub fn load_hint(alloc: Global, object: &Object, ram: u32) -> Explanation {
    if !is_ram_size(ram) {
        return line(alloc, "RAM has a multiple of 4 from 4 to 1048576 bytes");
    }
    if is_too_big(object, ram) {
        let size = object.bytes.len();
        let least = size.saturating_add(3) & !3;
        return line(
            alloc,
            format_args!(
                "image {size} bytes, RAM {ram}: give the task at least {least}, and its stack"
            ),
        );
    }
    let entry = object.entry;
    let why = if entry % 4 != 0 {
        "no multiple of 4; put .align 2 before _start"
    } else if !has_word(u64::from(ram), entry) {
        "its word isn't in RAM"
    } else {
        return Ok(None);
    };
    let last = RAM_BASE.saturating_add(ram).saturating_sub(1);
    line(
        alloc,
        format_args!("entry {entry:08x}, RAM {RAM_BASE:08x} to {last:08x}: {why}"),
    )
}

/// Why an admitted system of these bytes isn't run all the same, if it isn't: its first task that isn't loaded.
pub fn admitted_hint(alloc: Global, bytes: &[u8]) -> Explanation {
    let system = match read_system(alloc, bytes) {
        Ok(system) => system,
        Err(ReadFault::Memory) => return Err(AllocError),
        Err(ReadFault::Fault(_)) => return Ok(None),
    };
    for (number, task) in system.tasks.iter().enumerate() {
        let Some(why) = load_hint(alloc, &task.object, task.ram)? else {
            continue;
        };
        let fault = if is_too_big(&task.object, task.ram) {
            "ImageTooBig"
        } else {
            "BadEntry"
        };
        return Ok(Some(format!(in alloc; "  run refuses it: load: {fault} task {number}\n{why}")?));
    }
    Ok(None)
}
