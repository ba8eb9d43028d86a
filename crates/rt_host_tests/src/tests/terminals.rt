//! Sessions whose input is typed at a terminal, beside the same ones of a file or a pipe.

use super::programs::perform_on;
use super::same;
use crate::host_in_memory::{Pace, Record, Setup};
use std::alloc::Global;
use std::process::Abort;

/// An input, and what the standard error shows of its session where it is typed.
struct Session {
    system: &'static str,
    input: &'static [u8],
    pace: Pace,
    told: &'static str,
}

static SESSIONS: [Session; 4] = [
    // a line is asked for each time, and none behind `quit`
    Session {
        system: "busy",
        input: b"where\nstep\nquit\n",
        pace: Pace::Lines,
        told: "rt_sim debug: quit or Ctrl-D leaves; rt_sim help debug has the commands\n> > > ",
    },
    // the end of the input ends the line of its prompt
    Session {
        system: "busy",
        input: b"where\n",
        pace: Pace::Lines,
        told: "rt_sim debug: quit or Ctrl-D leaves; rt_sim help debug has the commands\n> > \n",
    },
    // lines that come at once are asked for once
    Session {
        system: "busy",
        input: b"where\nstep\nquit\n",
        pace: Pace::Whole,
        told: "rt_sim debug: quit or Ctrl-D leaves; rt_sim help debug has the commands\n> ",
    },
    // a system that is refused asks for nothing
    Session {
        system: "overload",
        input: b"where\n",
        pace: Pace::Lines,
        told: "rt_sim: set: Overload total 14 hyper 12\n  rt_sim help Overload\n",
    },
];

/// What a session does, typed or not.
fn record_of(memory: Global, session: &Session, is_typed: bool) -> Record {
    let words = ["rt_sim", "debug", session.system];
    let setup = Setup {
        input: session.input,
        pace: session.pace,
        is_typed,
        ..Setup::new(&words)
    };
    let (_status, record) = perform_on(memory, setup);
    record
}

fn is_asked_for(rt: &impl Abort, memory: Global, session: &Session) {
    let typed = record_of(memory, session, true);
    let piped = record_of(memory, session, false);
    same(rt, "typed", typed.told.as_slice(), session.told.as_bytes());
    let without = session.told.starts_with("rt_sim debug");
    same(rt, session.told, piped.told.is_empty(), without);
    same(
        rt,
        "printed",
        typed.printed.as_slice(),
        piped.printed.as_slice(),
    );
}

#[test]
fn typed_lines_are_asked_for(rt: HostRuntime) {
    for session in &SESSIONS {
        is_asked_for(&rt, rt.alloc(), session);
    }
}

/// What is typed at a session of `busy`, and what the terminal then shows: what is typed, and what is answered.
struct Repeating {
    input: &'static [u8],
    pace: Pace,
    printed: &'static [u8],
}

static REPEATING: [Repeating; 4] = [
    // task 0 has 1 tick of 3 and the earlier deadline, and task 1 has 2 of 4
    Repeating {
        input: b"where\n\nstep\n\n",
        pace: Pace::Lines,
        printed: b"where\ntick 0 next 0 80000000\n\ntick 0 next 0 80000000\nstep\ntick 1 next 1 80000000\n\ntick 2 next 1 80000000\n",
    },
    // there is none before the first
    Repeating {
        input: b"\nwhere\n",
        pace: Pace::Lines,
        printed: b"\nrefused 1 UnknownCommand\nwhere\ntick 0 next 0 80000000\n",
    },
    // an end of line that ends what came before is no empty line
    Repeating {
        input: b"step 3\nwhere\n",
        pace: Pace::Pieces,
        printed: b"tick 3 next 0 80000000\ntick 3 next 0 80000000\n",
    },
    // nor is an empty one that comes with others
    Repeating {
        input: b"where\n\n",
        pace: Pace::Whole,
        printed: b"tick 0 next 0 80000000\nrefused 1 UnknownCommand\n",
    },
];

#[test]
fn typed_empty_lines_repeat_the_last(rt: HostRuntime) {
    for case in &REPEATING {
        let words = ["rt_sim", "debug", "busy"];
        let setup = Setup {
            input: case.input,
            pace: case.pace,
            is_typed: true,
            ..Setup::new(&words)
        };
        let (_status, record) = perform_on(rt.alloc(), setup);
        same(&rt, "printed", record.printed.as_slice(), case.printed);
    }
}

/// gdb is at the other end of a terminal that its requests come from: nothing asks for them.
#[test]
fn gdb_is_asked_for_nothing(rt: HostRuntime) {
    let words = ["rt_sim", "gdb", "busy"];
    let setup = Setup {
        input: b"$qC#b4",
        pace: Pace::Pieces,
        is_typed: true,
        ..Setup::new(&words)
    };
    let (_status, record) = perform_on(rt.alloc(), setup);
    same(&rt, "told", record.told.as_slice(), b"".as_slice());
    same(
        &rt,
        "printed",
        record.printed.as_slice(),
        b"+$QC1#c5".as_slice(),
    );
}

/// What the standard error shows of a run, on a terminal, whose clock shows an hour more each time. It looks when the run begins, and each
/// 4,194,304 ticks.
fn shown(memory: Global, words: &[&str]) -> Record {
    let setup = Setup {
        is_shown: true,
        pause: 3_600_000,
        ..Setup::new(words)
    };
    let (_status, record) = perform_on(memory, setup);
    record
}

/// The rest of the second line is 3,611,392 of 8,388,608 ticks, which took two hours.
const HOURS: &str =
    "tick 4194304 of 12000000, 34.9 %, 1 h 51 min left\x1b[K\rtick 8388608 of 12000000, 69.9 %, 51 min left\x1b[K\r\
    tick 12000000 of 12000000, 100.0 %, 0 s left\x1b[K\r\x1b[K";

#[test]
fn a_run_shows_how_far_it_is(rt: HostRuntime) {
    let words = ["rt_sim", "report", "sleeper", "--ticks", "12000000"];
    let seen = shown(rt.alloc(), &words);
    same(&rt, "told", seen.told.as_slice(), HOURS.as_bytes());
    let [program, report, system, option, ticks] = words;
    let words = [program, report, system, option, ticks, "--no-progress"];
    let hidden = shown(rt.alloc(), &words);
    same(&rt, "hidden", hidden.told.as_slice(), b"".as_slice());
    same(
        &rt,
        "printed",
        hidden.printed.as_slice(),
        seen.printed.as_slice(),
    );
}
