//! Requests for memory of whole programs, of which one may be refused: with `rt try --test --fail-alloc N` the Nth.

use super::programs::perform_with;
use super::{ends, same};
use crate::host_in_memory::{Pace, Record, Setup};
use std::alloc::Global;
use std::process::{Abort, ExitCode};

/// What `--version` prints.
const VERSION: &[u8] = b"rt_sim 0.1, proved with logic dac8208d650f15bf\n";

/// What `certify` prints of a set whose tasks are excepted.
const EXCEPTED: &[u8] =
    b"0 task0 excepted\n1 task1 excepted\nthe first 5 jobs of these tasks are answered in time in this set\n";

/// A command line, its input, and what it prints: that of a run in which nothing is refused, and of one that is refused memory
/// and goes on. Then its exit status, and what is told with it: all, or what there is memory for.
struct Short {
    words: &'static [&'static str],
    input: &'static [u8],
    printed: [&'static [u8]; 2],
    status: u8,
    told: [&'static [u8]; 2],
}

static SHORTS: [Short; 6] = [
    // a stop for which there is no memory
    Short {
        words: &["rt_sim", "debug", "busy"],
        input: b"break 0 0x80000000\nwhere\n",
        printed: [
            b"break 1 0 80000000\ntick 0 next 0 80000000\n",
            b"refused 0 NoMemory\ntick 0 next 0 80000000\n",
        ],
        status: 0,
        told: [b"", b""],
    },
    // a breakpoint of gdb for which there is no memory
    Short {
        words: &["rt_sim", "gdb", "busy"],
        input: b"$Z0,80000000,4#9e$qC#b4",
        printed: [b"+$OK#9a+$QC1#c5", b"+$E0c#d8+$QC1#c5"],
        status: 0,
        told: [b"", b""],
    },
    Short {
        words: &["rt_sim", "check", "shares"],
        input: b"",
        printed: [b"admitted 12 of 12\n", b"admitted 12 of 12\n"],
        status: 0,
        told: [b"", b""],
    },
    Short {
        words: &["rt_sim", "check", "overload"],
        input: b"",
        printed: [
            b"task 0 weight 8\ntask 1 weight 6\nbreach task 1 c 2 d 12 tick 12\n",
            b"task 0 weight 8\ntask 1 weight 6\nbreach task 1 c 2 d 12 tick 12\n",
        ],
        status: 1,
        told: [
            b"rt_sim: set: Overload total 14 hyper 12\n  rt_sim help Overload\n",
            b"rt_sim: set: Overload total 14 hyper 12\n",
        ],
    },
    Short {
        words: &[
            "rt_sim", "certify", "busy", "--jobs", "5", "--except", "0,task1",
        ],
        input: b"",
        printed: [EXCEPTED, EXCEPTED],
        status: 0,
        told: [b"", b""],
    },
    Short {
        words: &["rt_sim", "--version"],
        input: b"",
        printed: [VERSION, VERSION],
        status: 0,
        told: [b"", b""],
    },
];

/// Runs a command line on a record with room for all.
fn ran(memory: Global, short: &Short, record: Record) -> (ExitCode, Record) {
    let setup = Setup {
        input: short.input,
        pace: Pace::Whole,
        ..Setup::new(short.words)
    };
    perform_with(memory, setup, record)
}

/// Looks at what a command line did, or at that it tells that memory was wanting, and does nothing else.
fn told_alike(rt: &impl Abort, short: &Short, status: ExitCode, record: &Record) {
    let printed = record.printed.as_slice();
    if status == ExitCode::from(short.status) {
        let [whole, refused] = short.told;
        let told = record.told.as_slice();
        same(rt, told, told == whole || told == refused, true);
        let [whole, refused] = short.printed;
        same(rt, printed, printed == whole || printed == refused, true);
    } else {
        ends(rt, status, record, 3, "rt_sim: memory\n");
        same(rt, short.words, printed, b"".as_slice());
    }
}

#[test]
fn want_of_memory_is_told(rt: HostRuntime) {
    for short in &SHORTS {
        if let Ok(record) = Record::with_capacity(rt.alloc(), 4_096) {
            let (status, record) = ran(rt.alloc(), short, record);
            told_alike(&rt, short, status, &record);
        }
    }
}
