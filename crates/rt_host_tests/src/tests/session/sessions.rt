//! Sessions of the debugger on a host in memory.

use super::performs;
use crate::host_in_memory::{Pace, Setup};
use std::alloc::{AllocError, Global};
use std::io::ErrorKind;
use std::process::Abort;
use std::test::Fail;

/// What a session on `EARLY` answers to each line; nothing stands behind the line that ends it.
static TALK: [(&[u8], &[u8]); 8] = [
    (b"step 5\n", b"tick 5 next idle\n"),
    (b"server 0\n", b"task 0 asleep 7 c 1 d 10 q 5 p 10\n"),
    (b"\n", b"refused 1 UnknownCommand\n"),
    (b"where\r\n", b"tick 5 next idle\n"),
    (b"trace 2\n", b"3 0 8000000c 00000073 sleep 7\n4 idle 1\n"),
    (b"break 0 0x80000010\n", b"break 1 0 80000010\n"),
    (b"continue\n", b"stop 1 tick 7 next 0 80000010\n"),
    (b"back 5", b"tick 2 next 0 80000008\n"),
];

/// The input of the talk, and what is printed of it: the replies, each behind its line where the input comes by lines.
fn texts_of(memory: Global, pace: Pace) -> Result<(Vec<u8>, Vec<u8>), AllocError> {
    let mut input = Vec::new(memory);
    let mut printed = Vec::new(memory);
    for (line, reply) in &TALK {
        input.extend_from_slice(line)?;
        if pace == Pace::Lines {
            printed.extend_from_slice(line)?;
        }
        printed.extend_from_slice(reply)?;
    }
    Ok((input, printed))
}

/// A session on a system, whose input comes at this pace.
fn talks(rt: &impl Abort, memory: Global, system: &str, input: &[u8], pace: Pace, printed: &[u8]) {
    let words = ["rt_sim", "debug", system];
    let setup = Setup {
        input,
        pace,
        ..Setup::new(&words)
    };
    performs(rt, memory, setup, 0, printed, b"");
}

#[test]
fn talks_at_each_pace(rt: HostRuntime) -> Result<(), Fail> {
    for pace in &[Pace::Lines, Pace::Whole, Pace::Pieces] {
        let (input, printed) = texts_of(rt.alloc(), *pace)?;
        talks(&rt, rt.alloc(), "early", &input, *pace, &printed);
    }
    Ok(())
}

/// A session on `busy` that ends early with status 3.
struct Ending {
    input: &'static [u8],
    input_fault: Option<ErrorKind>,
    room: usize,
    printed: &'static [u8],
    told: &'static [u8],
}

static ENDINGS: [Ending; 6] = [
    // a closed input, and inputs that can't be read on behind a whole line and within one
    Ending {
        input: b"",
        input_fault: Some(ErrorKind::Other),
        room: usize::MAX,
        printed: b"",
        told: b"rt_sim: file -\n",
    },
    Ending {
        input: b"where\nstep\n",
        input_fault: Some(ErrorKind::Other),
        room: usize::MAX,
        printed: b"where\ntick 0 next 0 80000000\nstep\ntick 1 next 1 80000000\n",
        told: b"rt_sim: file -\n",
    },
    Ending {
        input: b"where\nwhere",
        input_fault: Some(ErrorKind::PermissionDenied),
        room: usize::MAX,
        printed: b"where\ntick 0 next 0 80000000\nwhere",
        told: b"rt_sim: file -\n",
    },
    Ending {
        input: b"where\nwhere",
        input_fault: Some(ErrorKind::OutOfMemory),
        room: usize::MAX,
        printed: b"where\ntick 0 next 0 80000000\nwhere",
        told: b"rt_sim: memory\n",
    },
    Ending {
        input: b"where\nwhere\n",
        input_fault: None,
        room: 10,
        printed: b"where\ntick 0 nex",
        told: b"rt_sim: device after 10 bytes\n  standard output: no room on the device\n",
    },
    // the second reply meets the full device
    Ending {
        input: b"where\nwhere\nwhere\n",
        input_fault: None,
        room: 23,
        printed: b"where\ntick 0 next 0 80000000\nwhere\n",
        told: b"rt_sim: device after 23 bytes\n  standard output: no room on the device\n",
    },
];

fn end_early(rt: &impl Abort, memory: Global, ending: &Ending) {
    let words = ["rt_sim", "debug", "busy"];
    let setup = Setup {
        input: ending.input,
        input_fault: ending.input_fault,
        room: ending.room,
        ..Setup::new(&words)
    };
    performs(rt, memory, setup, 3, ending.printed, ending.told);
}

#[test]
fn sessions_end_early(rt: HostRuntime) {
    for ending in &ENDINGS {
        end_early(&rt, rt.alloc(), ending);
    }
}

/// A session of gdb on `busy` behind which the input fails or the device is full: as that of `debug`.
#[test]
fn sessions_of_gdb_end_early(rt: HostRuntime) {
    let words = ["rt_sim", "gdb", "busy"];
    let whole = Setup {
        input: b"$qC#b4$qC#b4",
        pace: Pace::Whole,
        ..Setup::new(&words)
    };
    let said = b"+$QC1#c5+$QC1#c5";
    performs(&rt, rt.alloc(), whole, 0, said, b"");
    let failing = Setup {
        input_fault: Some(ErrorKind::Other),
        ..whole
    };
    performs(&rt, rt.alloc(), failing, 3, said, b"rt_sim: file -\n");
    let full = Setup { room: 10, ..whole };
    let told = b"rt_sim: device after 10 bytes\n  standard output: no room on the device\n";
    performs(&rt, rt.alloc(), full, 3, b"+$QC1#c5+$", told);
}

/// How many bytes of a line come first, which begin with `break 0 `, how it goes on to its end, and what is answered to it and to
/// `where` behind it.
static LONG_LINES: [(usize, &[u8], &[u8]); 4] = [
    (512, b"\r\n", UNKNOWN_SYMBOL),
    (513, b"\n", UNKNOWN_COMMAND),
    (5_000, b"\n", UNKNOWN_COMMAND),
    (1_028, b"step\r\n", UNKNOWN_COMMAND),
];

const UNKNOWN_SYMBOL: &[u8] = b"refused 3 UnknownSymbol\ntick 0 next 0 80000000\n";

const UNKNOWN_COMMAND: &[u8] = b"refused 1 UnknownCommand\ntick 0 next 0 80000000\n";

/// A long line, and then another one.
fn long_line(memory: Global, len: usize, rest: &[u8]) -> Result<Vec<u8>, AllocError> {
    let mut line = Vec::from_slice(memory, b"break 0 ")?;
    line.resize(len, b'x')?;
    line.extend_from_slice(rest)?;
    line.extend_from_slice(b"where")?;
    Ok(line)
}

#[test]
fn long_lines_come_in_pieces(rt: HostRuntime) -> Result<(), Fail> {
    for (len, rest, printed) in &LONG_LINES {
        let line = long_line(rt.alloc(), *len, rest)?;
        talks(&rt, rt.alloc(), "busy", &line, Pace::Pieces, printed);
    }
    Ok(())
}

/// How a long line is cut off: by the input's end, or its failing; then what is printed and told, and the exit status.
static CUTS: [(Option<ErrorKind>, &[u8], &[u8], u8); 3] = [
    (None, b"refused 1 UnknownCommand\n", b"", 0),
    (Some(ErrorKind::Other), b"", b"rt_sim: file -\n", 3),
    (Some(ErrorKind::OutOfMemory), b"", b"rt_sim: memory\n", 3),
];

#[test]
fn long_lines_are_cut_off(rt: HostRuntime) {
    for (input_fault, printed, told, status) in &CUTS {
        let setup = Setup {
            input: &[b'x'; 600],
            pace: Pace::Whole,
            input_fault: *input_fault,
            ..Setup::new(&["rt_sim", "debug", "busy"])
        };
        performs(&rt, rt.alloc(), setup, *status, printed, told);
    }
}
