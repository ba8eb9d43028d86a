//! Faulty lines of set files.

use crate::hints::tests::same;
use rt_file_hints::set_hint;
use rt_set::{SetFault, read_set};
use std::alloc::Global;
use std::test::Fail;

/// Sets, and what is said of their first faulty line.
static SETS: [(&[u8], &str); 17] = [
    // numbers
    (
        b"hyper 60\ntask 1 60 4294967296 64 a.rti\n",
        "  t.set:2:11: START 4294967296: at most 4294967295\n    task 1 60 4294967296 64 a.rti\n              ^~~~~~~~~~",
    ),
    // what separates words
    (
        b"hyper 60\ntask 1  60 0 64 a.rti\n",
        "  t.set:2:8: two blanks; words are separated by one blank\n    task 1  60 0 64 a.rti\n           ^",
    ),
    (
        b"hyper 60\ntask 1\t60 0 64 a.rti\n",
        "  t.set:2:7: a tab; words are separated by one blank\n    task 1 60 0 64 a.rti\n          ^",
    ),
    (
        b"hyper 60\n\ttask 1 60 0 64 a.rti\n",
        "  t.set:2:1: a tab; words are separated by one blank\n     task 1 60 0 64 a.rti\n    ^",
    ),
    (
        b"hyper 60\n   \n",
        "  t.set:2:1: a leading blank; a line begins with its first word\n       \n    ^",
    ),
    (
        b"hyper 60\ntask 1 60\r0 64 a.rti\n",
        "  t.set:2:10: a carriage return within the line\n    task 1 60\\x0d0 64 a.rti\n             ^~~~",
    ),
    (
        b"hyper 60\ntask \x1b1 60 0 64 a.rti\n",
        "  t.set:2:6: BUDGET \\x1b1: decimal digits alone\n    task \\x1b1 60 0 64 a.rti\n         ^~~~~",
    ),
    // words that are missing
    (
        b"hyper 60\ntask\n",
        "  t.set:2:5: the line ends; wanted task BUDGET PERIOD START RAM PATH\n    task\n        ^",
    ),
    (
        b"hyper 60\ntask 1 60\n",
        "  t.set:2:10: the line ends; wanted task BUDGET PERIOD START RAM PATH\n    task 1 60\n             ^",
    ),
    (
        b"hyper 60\ntask 1 60 \n",
        "  t.set:2:11: the line ends; wanted task BUDGET PERIOD START RAM PATH\n    task 1 60 \n              ^",
    ),
    (
        b"hyper 60\ntask 1 60 0 64\n",
        "  t.set:2:15: the line ends; wanted task BUDGET PERIOD START RAM PATH\n    task 1 60 0 64\n                  ^",
    ),
    (
        b"hyper 60\ntask-split 1 60 0 64 \n",
        "  t.set:2:22: the line ends; wanted task BUDGET PERIOD START RAM PATH\n    task-split 1 60 0 64 \n                         ^",
    ),
    (
        b"hyper 60\ntask 1 60 0 64 a\xff\n",
        "  t.set:2:16: PATH a\\xff: text in UTF-8\n    task 1 60 0 64 a\\xff\n                   ^~~~~",
    ),
    (
        b"# a set\n\ntask 1 60 0 64 a.rti\n",
        "  t.set:3:1: task: the first line is hyper N\n    task 1 60 0 64 a.rti\n    ^~~~",
    ),
    (
        b"hyper \n",
        "  t.set:1:7: the line ends; wanted hyper N\n    hyper \n          ^",
    ),
    (b"", "  t.set:1:1: the file ends without a line hyper N"),
    (
        b"# nothing\n\n",
        "  t.set:3:1: the file ends without a line hyper N",
    ),
];

/// What is said of the first faulty line of a set.
fn said_of(alloc: Global, set: &[u8]) -> Result<Option<String>, Fail> {
    match read_set(alloc, set) {
        Err(SetFault::Line(number)) => Ok(set_hint(alloc, "t.set", set, number)?),
        Err(SetFault::Memory) => Err(Fail::from("memory")),
        Ok(_) => Ok(None),
    }
}

#[test]
fn the_word_that_is_wrong_is_marked(rt: HostRuntime) -> Result<(), Fail> {
    for (set, wanted) in &SETS {
        let said = said_of(rt.alloc(), *set)?;
        same(&rt, "a set", said.as_deref(), Some(*wanted));
    }
    Ok(())
}

/// Lines that a set may have: no word of them is wrong.
static RIGHT: [(&[u8], u64); 4] = [
    (b"hyper 60\n", 1),
    (b"hyper 4294967295\n", 1),
    (b"hyper 60\ntask 0 0 4294967295 1048576 a b.rti \n", 2),
    (b"hyper 60\ntask-split 1 3 0 4  a.rti\n", 2),
];

#[test]
fn of_a_right_line_nothing_is_marked(rt: HostRuntime) -> Result<(), Fail> {
    for (set, number) in &RIGHT {
        same(&rt, *set, read_set(rt.alloc(), *set).is_ok(), true);
        let said = set_hint(rt.alloc(), "t.set", *set, *number)?;
        same(&rt, *set, said.as_deref(), None);
    }
    Ok(())
}

/// A set of so many tasks.
fn set_of(alloc: Global, tasks: u32) -> Result<Vec<u8>, Fail> {
    let mut set = Vec::from_slice(alloc, b"hyper 12\n")?;
    for _ in 0..tasks {
        set.extend_from_slice(b"task 1 12 0 64 a\n")?;
    }
    Ok(set)
}

#[test]
fn one_task_too_many_is_marked(rt: HostRuntime) -> Result<(), Fail> {
    let set = set_of(rt.alloc(), 257)?;
    let said = said_of(rt.alloc(), &set)?;
    let wanted = "  t.set:258:1: task: the 257th task, at most 256\n    task 1 12 0 64 a\n    ^~~~";
    same(&rt, "257 tasks", said.as_deref(), Some(wanted));
    let mut set = set_of(rt.alloc(), 255)?;
    set.extend_from_slice(b"task 01 12 0 64 a\n")?;
    let said = said_of(rt.alloc(), &set)?;
    let wanted = "  t.set:257:6: BUDGET 01: no leading zero\n    task 01 12 0 64 a\n         ^~";
    same(&rt, "256 tasks", said.as_deref(), Some(wanted));
    Ok(())
}

/// A line of a first word of so many letters.
fn long_line(alloc: Global, letters: u32, rest: &[u8]) -> Result<Vec<u8>, Fail> {
    let mut line = Vec::new(alloc);
    for _ in 0..letters {
        line.push(b'x')?;
    }
    line.extend_from_slice(rest)?;
    Ok(line)
}

#[test]
fn a_hundred_bytes_are_shown(rt: HostRuntime) -> Result<(), Fail> {
    let line = long_line(rt.alloc(), 101, b" 1")?;
    let said = said_of(rt.alloc(), &line)?;
    let letters = long_line(rt.alloc(), 100, b"")?;
    let mut wanted = Vec::from_slice(rt.alloc(), b"  t.set:1:1: ")?;
    wanted.extend_from_slice(&letters)?;
    wanted.extend_from_slice(b" ..: the first line is hyper N\n    ")?;
    wanted.extend_from_slice(&letters)?;
    wanted.extend_from_slice(b" ..\n    ^")?;
    for _ in 0..99 {
        wanted.push(b'~')?;
    }
    let said = said.as_deref().map(str::as_bytes);
    same(&rt, "a long line", said, Some(wanted.as_slice()));
    Ok(())
}
