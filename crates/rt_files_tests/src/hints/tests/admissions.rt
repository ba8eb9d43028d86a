//! Sets that aren't admitted, and objects that aren't loaded.

use crate::hints::tests::same;
use rt_admit::AdmitFault;
use rt_file_hints::{admit_hint, admitted_hint, load_hint};
use rt_image::{Object, System, Task, Version, write_system};
use std::alloc::Global;
use std::test::Fail;

/// An image of 8 bytes.
const IMAGE: [u8; 8] = [0; 8];

/// A task of an object that begins at 0x80000000.
fn task(alloc: Global, budget: u32, period: u32) -> Task<'static> {
    Task {
        budget,
        period,
        start: 0,
        split: false,
        ram: 64,
        object: object(alloc, 0x8000_0000),
    }
}

fn object(alloc: Global, entry: u32) -> Object<'static> {
    Object {
        entry,
        bytes: &IMAGE,
        symbols: Vec::new(alloc),
    }
}

/// Budgets and periods of tasks, the hyperperiod, the refusal, and what is said of it.
static SETS: [(&[(u32, u32)], u32, AdmitFault, Option<&str>); 11] = [
    (
        &[(1, 60), (1, 7)],
        60,
        AdmitFault::NotDivisor(1),
        Some("  task 1: period 7, hyper 60; the least hyper of these periods is 420"),
    ),
    (
        &[(1, 4), (1, 6), (1, 10)],
        12,
        AdmitFault::NotDivisor(2),
        Some("  task 2: period 10, hyper 12; the least hyper of these periods is 60"),
    ),
    (
        &[(1, 4194304), (1, 3)],
        4194304,
        AdmitFault::NotDivisor(1),
        Some("  task 1: period 3, hyper 4194304; these periods have no hyper up to 4194304"),
    ),
    (
        &[(1, 5)],
        12,
        AdmitFault::NotDivisor(0),
        Some("  task 0: period 5, hyper 12; the least hyper of these periods is 5"),
    ),
    (
        &[(1, 4294967295), (1, 4294967291)],
        12,
        AdmitFault::NotDivisor(0),
        Some("  task 0: period 4294967295, hyper 12; these periods have no hyper up to 4194304"),
    ),
    (
        &[(1, 3), (5, 4)],
        12,
        AdmitFault::BudgetOverPeriod(1),
        Some("  task 1: budget 5, 1 to its period 4"),
    ),
    (
        &[(0, 3)],
        12,
        AdmitFault::ZeroBudget(0),
        Some("  task 0: budget 0, 1 to its period 3"),
    ),
    (
        &[(1, 3)],
        0,
        AdmitFault::BadHyper,
        Some("  hyper 0, 1 to 4194304; the least hyper of these periods is 3"),
    ),
    (
        &[(1, 3), (1, 3)],
        3,
        AdmitFault::TooMany,
        Some("  2 tasks, at most 64"),
    ),
    (
        &[],
        3,
        AdmitFault::NoTasks,
        Some("  the set has no line task"),
    ),
    (&[], 3, AdmitFault::NotDivisor(3), None),
];

fn tasks(alloc: Global, numbers: &[(u32, u32)]) -> Result<Vec<Task<'static>>, Fail> {
    let mut tasks = Vec::new(alloc);
    for (budget, period) in numbers {
        tasks.push(task(alloc, *budget, *period))?;
    }
    Ok(tasks)
}

#[test]
fn sets_that_are_not_admitted(rt: HostRuntime) -> Result<(), Fail> {
    for (numbers, hyper, fault, wanted) in &SETS {
        let tasks = tasks(rt.alloc(), *numbers)?;
        let said = admit_hint(rt.alloc(), *fault, *hyper, &tasks)?;
        same(&rt, *fault, said.as_deref(), *wanted);
    }
    Ok(())
}

/// Entries and sizes of RAM for an image of 8 bytes, what is said where it isn't loaded, and what is said of a system of it.
static LOADS: [(u32, u32, Option<&str>, Option<&str>); 7] = [
    (0x8000_0000, 8, None, None),
    (
        0x8000_0000,
        4,
        Some("  image 8 bytes, RAM 4: give the task at least 8, and its stack"),
        Some(
            "  run refuses it: load: ImageTooBig task 1\n  image 8 bytes, RAM 4: give the task at least 8, and its stack",
        ),
    ),
    (
        0x8000_0042,
        64,
        Some(
            "  entry 80000042, RAM 80000000 to 8000003f: no multiple of 4; put .align 2 before _start",
        ),
        Some(
            "  run refuses it: load: BadEntry task 1\n  entry 80000042, RAM 80000000 to 8000003f: no multiple of 4; put .align 2 before _start",
        ),
    ),
    (
        0x8000_0040,
        64,
        Some("  entry 80000040, RAM 80000000 to 8000003f: its word isn't in RAM"),
        Some(
            "  run refuses it: load: BadEntry task 1\n  entry 80000040, RAM 80000000 to 8000003f: its word isn't in RAM",
        ),
    ),
    (0x8000_003c, 64, None, None),
    (
        0x7fff_fffc,
        64,
        Some("  entry 7ffffffc, RAM 80000000 to 8000003f: its word isn't in RAM"),
        Some(
            "  run refuses it: load: BadEntry task 1\n  entry 7ffffffc, RAM 80000000 to 8000003f: its word isn't in RAM",
        ),
    ),
    (
        0xffff_fffc,
        1048576,
        Some("  entry fffffffc, RAM 80000000 to 800fffff: its word isn't in RAM"),
        Some(
            "  run refuses it: load: BadEntry task 1\n  entry fffffffc, RAM 80000000 to 800fffff: its word isn't in RAM",
        ),
    ),
];

/// What is said of the system of a right task, and of one with this entry and RAM.
fn said_of_system(alloc: Global, entry: u32, ram: u32) -> Result<Option<String>, Fail> {
    let mut tasks = tasks(alloc, &[(1, 3), (1, 3)])?;
    if let Some(task) = tasks.get_mut(1) {
        task.ram = ram;
        task.object.entry = entry;
    }
    let system = System {
        version: Version::One,
        hyper: 3,
        tasks,
    };
    let mut bytes = Vec::new(alloc);
    write_system(&system, &mut bytes).map_err(|_| Fail::from("no system"))?;
    Ok(admitted_hint(alloc, &bytes)?)
}

#[test]
fn objects_that_are_not_loaded(rt: HostRuntime) -> Result<(), Fail> {
    for (entry, ram, alone, in_system) in &LOADS {
        let said = load_hint(rt.alloc(), &object(rt.alloc(), *entry), *ram)?;
        same(&rt, "alone", said.as_deref(), *alone);
        let said = said_of_system(rt.alloc(), *entry, *ram)?;
        same(&rt, "in a system", said.as_deref(), *in_system);
    }
    let said = load_hint(rt.alloc(), &object(rt.alloc(), 0x8000_0000), 6)?;
    let wanted = "  RAM has a multiple of 4 from 4 to 1048576 bytes";
    same(&rt, "RAM of 6", said.as_deref(), Some(wanted));
    Ok(())
}

#[test]
fn images_of_odd_sizes(rt: HostRuntime) -> Result<(), Fail> {
    let bytes = [0u8; 201];
    let object = Object {
        entry: 0x8000_0000,
        bytes: &bytes,
        symbols: Vec::new(rt.alloc()),
    };
    let said = load_hint(rt.alloc(), &object, 64)?;
    let wanted = "  image 201 bytes, RAM 64: give the task at least 204, and its stack";
    same(&rt, "an odd size", said.as_deref(), Some(wanted));
    let said = admitted_hint(rt.alloc(), b"none")?;
    same(&rt, "no system", said.as_deref(), None);
    Ok(())
}
