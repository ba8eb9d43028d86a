//! Standard outputs that fail within a text, and a file's fault told apart from want of memory.

use super::programs::{perform, perform_on};
use super::{ends, makes_nothing, same};
use crate::host_in_memory::Setup;
use std::alloc::{AllocError, Global};
use std::io::ErrorKind;
use std::process::Abort;
use std::test::Fail;

/// What is told behind the first line where a run fills the standard output.
const FULL: &str = "  standard output: no room on the device\n";

/// Runs a command line whose text ends at a full device with room for so many bytes: they are the first ones of the text, and
/// the fault counts them. What is told has these lines behind the first one.
fn fill_device(
    rt: &impl Abort,
    memory: Global,
    words: &[&str],
    room: usize,
    text: &[u8],
    behind: &str,
) -> Result<(), Fail> {
    let (status, record) = perform(memory, words, room);
    let told = format!(in memory; "rt_sim: device after {room} bytes\n{behind}")?;
    ends(rt, status, &record, 3, told.as_str());
    same(rt, words, record.printed.len(), room);
    same(rt, words, text.starts_with(&record.printed), true);
    Ok(())
}

/// The same of each of these rooms.
fn fill_devices(
    rt: &impl Abort,
    memory: Global,
    words: &[&str],
    rooms: &[usize],
    text: &[u8],
    behind: &str,
) -> Result<(), Fail> {
    for room in rooms {
        fill_device(rt, memory, words, *room, text, behind)?;
    }
    Ok(())
}

/// A device with just enough room takes the whole text.
fn fits_device(rt: &impl Abort, memory: Global, words: &[&str], text: &[u8]) {
    let (status, record) = perform(memory, words, text.len());
    ends(rt, status, &record, 0, "");
    same(rt, words, record.printed.as_slice(), text);
}

#[test]
fn version_meets_full_devices(rt: HostRuntime) -> Result<(), Fail> {
    let words = ["rt_sim", "--version"];
    let text = b"rt_sim 0.1, proved with logic dac8208d650f15bf\n".as_slice();
    for room in 0..text.len() {
        fill_device(&rt, rt.alloc(), &words, room, text, "")?;
    }
    fits_device(&rt, rt.alloc(), &words, text);
    Ok(())
}

/// How the help of a command line begins, and how it ends.
static HELPS: [(&[&str], &str, &str); 3] = [
    (
        &["rt_sim", "--help"],
        "Simulates tasks on one RISC-V hart, tick by tick\n",
        "4 for a failure that --fail-on lists.\n",
    ),
    (
        &["rt_sim", "solo", "--help"],
        "Runs one object and prints each tick\n",
        "Example: rt_sim solo sum.rti --ticks 100 --ram 256\n",
    ),
    (
        &["rt_sim", "help", "badmagic"],
        "BadMagic (object and system files; status 1; number 1)\n",
        "  What to do: give what the linker wrote; image takes what objcopy -O binary made.\n",
    ),
];

/// The text that a command line prints.
fn text_of(rt: &impl Abort, memory: Global, words: &[&str]) -> Vec<u8> {
    let (status, record) = perform(memory, words, usize::MAX);
    ends(rt, status, &record, 0, "");
    record.printed
}

#[test]
fn help_meets_full_devices(rt: HostRuntime) -> Result<(), Fail> {
    for (words, first, last) in &HELPS {
        let text = text_of(&rt, rt.alloc(), words);
        same(&rt, *first, text.starts_with(first.as_bytes()), true);
        same(&rt, *last, text.ends_with(last.as_bytes()), true);
        let rooms = [0, 1, 16, 17, 100, text.len().saturating_sub(1)];
        fill_devices(&rt, rt.alloc(), words, &rooms, &text, "")?;
        fits_device(&rt, rt.alloc(), words, &text);
    }
    Ok(())
}

/// Sets that ask for too much: what is printed of them, and the refusal.
static REASONS: [(&str, &[u8], &str); 2] = [
    (
        "overload",
        b"task 0 weight 8\ntask 1 weight 6\nbreach task 1 c 2 d 12 tick 12\n",
        "rt_sim: set: Overload total 14 hyper 12\n  rt_sim help Overload\n",
    ),
    (
        "crowded",
        b"task 0 weight 12\ntask 1 weight 1\nbreach task 1 c 1 d 12 tick 12\n",
        "rt_sim: set: Overload total 13 hyper 12\n  rt_sim help Overload\n",
    ),
];

/// A set is refused for its load whether the lines that say why find room or not.
#[test]
fn reasons_meet_full_devices(rt: HostRuntime) {
    for (set, printed, told) in &REASONS {
        for room in 0..=printed.len() {
            let words = ["rt_sim", "check", *set];
            let (status, record) = perform(rt.alloc(), &words, room);
            ends(&rt, status, &record, 1, told);
            same(&rt, room, record.printed.as_slice(), &printed[..room]);
        }
    }
}

/// Two tasks with 1 of 3 ticks and 2 of 4 take turns in the same way every 10 ticks, so task 0 has tick 1000, and task 1 the next.
/// The lines before it are 10 of 27 bytes, 90 of 28 and 900 of 29: 28,890 bytes. So the first 40,000 bytes end within tick 1370.
fn look_at_long_text(rt: &impl Abort, text: &[u8]) {
    let begin = b"0 0 80000000 0000006f next\n1 1 80000000 0000006f next\n";
    same(rt, "begin", text.starts_with(begin), true);
    let middle = b"1000 0 80000000 0000006f next\n1001 1 80000000 0000006f next\n".as_slice();
    same(rt, "middle", text.get(28_890..28_950), Some(middle));
    let end = b"1370 0 800".as_slice();
    same(rt, "end", text.get(39_990..40_000), Some(end));
}

#[test]
fn long_texts_meet_full_devices(rt: HostRuntime) -> Result<(), Fail> {
    // the device fails at the last flush, and before it
    for ticks in &["2000", "3000"] {
        let words = ["rt_sim", "run", "busy", "--ticks", *ticks];
        let text = text_of(&rt, rt.alloc(), &words);
        look_at_long_text(&rt, &text);
        fill_devices(&rt, rt.alloc(), &words, &[40_000, 32_768, 0], &text, FULL)?;
    }
    Ok(())
}

/// What prints a text of its own.
static PRINTING: [&[&str]; 5] = [
    &["rt_sim", "dis", "a"],
    &["rt_sim", "solo", "a", "--ticks", "3"],
    &["rt_sim", "report", "sleeper", "--ticks", "12"],
    &["rt_sim", "check", "shares"],
    &[
        "rt_sim", "certify", "busy", "--jobs", "5", "--except", "0,1",
    ],
];

#[test]
fn texts_meet_full_devices(rt: HostRuntime) -> Result<(), Fail> {
    for words in &PRINTING {
        let text = text_of(&rt, rt.alloc(), words);
        fill_devices(&rt, rt.alloc(), words, &[17, 0], &text, FULL)?;
    }
    Ok(())
}

/// A run of 2^40 busy ticks ends soon after its device is full, whose first bytes are those of a run of 12 ticks.
#[test]
fn runs_end_at_full_devices(rt: HostRuntime) -> Result<(), Fail> {
    let few = ["rt_sim", "run", "busy", "--ticks", "12"];
    let text = text_of(&rt, rt.alloc(), &few);
    let words = ["rt_sim", "run", "busy", "--ticks", "1099511627776"];
    fill_devices(&rt, rt.alloc(), &words, &[100, 0], &text, FULL)
}

/// A command line that meets a file that can't be read to its end, or can't be made, and what is told of it, before and behind the
/// reason.
struct FileFault {
    words: &'static [&'static str],
    before: &'static str,
    behind: &'static str,
}

static FILE_FAULTS: [FileFault; 7] = [
    FileFault {
        words: &["rt_sim", "dis", "torn"],
        before: "rt_sim: file torn\n  ",
        behind: "\n",
    },
    FileFault {
        words: &["rt_sim", "debug", "torn"],
        before: "rt_sim: file torn\n  ",
        behind: "\n",
    },
    FileFault {
        words: &["rt_sim", "gdb", "torn"],
        before: "rt_sim: file torn\n  ",
        behind: "\n",
    },
    FileFault {
        words: &["rt_sim", "pack", "torn", "out"],
        before: "rt_sim: file torn\n  ",
        behind: "\n",
    },
    FileFault {
        words: &["rt_sim", "pack", "torn-set", "out"],
        before: "rt_sim: file torn\n  torn-set:2: task 1 3 0 64 torn (",
        behind: ")\n",
    },
    FileFault {
        words: &["rt_sim", "asm", "source", "locked/out"],
        before: "rt_sim: file locked/out\n  ",
        behind: "\n",
    },
    FileFault {
        words: &["rt_sim", "pack", "set", "locked/out"],
        before: "rt_sim: file locked/out\n  ",
        behind: "\n",
    },
];

/// What is told of a file's fault: memory alone, or the file and a reason.
fn told_of(memory: Global, fault: &FileFault, reason: Option<&str>) -> Result<String, AllocError> {
    match reason {
        Some(reason) => format!(in memory; "{}{reason}{}", fault.before, fault.behind),
        None => String::from_str(memory, "rt_sim: memory\n"),
    }
}

/// Looks at a command line whose file's fault is of this kind.
fn meet_fault(rt: &impl Abort, memory: Global, fault: &FileFault, kind: ErrorKind, told: &str) {
    let setup = Setup {
        file_fault: kind,
        ..Setup::new(fault.words)
    };
    let (status, record) = perform_on(memory, setup);
    ends(rt, status, &record, 3, told);
    makes_nothing(rt, &record);
}

static FAULT_KINDS: [(ErrorKind, Option<&str>); 5] = [
    (ErrorKind::OutOfMemory, None),
    (ErrorKind::Other, Some("can't be read or made")),
    (ErrorKind::StorageFull, Some("no room on the device")),
    (
        ErrorKind::ReadOnlyFilesystem,
        Some("its device is read-only"),
    ),
    (ErrorKind::IsADirectory, Some("is a directory")),
];

#[test]
fn memory_is_told_apart_from_files(rt: HostRuntime) -> Result<(), Fail> {
    for (kind, reason) in &FAULT_KINDS {
        for fault in &FILE_FAULTS {
            let told = told_of(rt.alloc(), fault, *reason)?;
            meet_fault(&rt, rt.alloc(), fault, *kind, told.as_str());
        }
    }
    Ok(())
}

/// An object file is there whole or not at all: what a full device took of it is gone.
fn fill_file(rt: &impl Abort, memory: Global, room: usize) -> Result<(), Fail> {
    let words = ["rt_sim", "asm", "source", "out"];
    let (status, record) = perform(memory, &words, room);
    let told = format!(in memory;
        "rt_sim: device after {room} bytes\n  out: no room on the device\n"
    )?;
    ends(rt, status, &record, 3, told.as_str());
    let asked = b"read source\nwrite .rt_sim.part0\nremove .rt_sim.part0\n".as_slice();
    same(rt, room, record.asked.as_slice(), asked);
    same(rt, room, record.written.len(), 0);
    Ok(())
}

#[test]
fn files_meet_full_devices(rt: HostRuntime) -> Result<(), Fail> {
    for room in &[0, 1, 16, 42] {
        fill_file(&rt, rt.alloc(), *room)?;
    }
    Ok(())
}

/// Words behind `rt_sim dis` that aren't text.
static NO_TEXTS: [&[u8]; 4] = [b"\xff", b"a\x80", b"\xc3", b"\xed\xa0\x80"];

fn refuse_word(rt: &impl Abort, memory: Global, word: &[u8]) {
    let setup = Setup {
        last_word: Some(word),
        ..Setup::new(&["rt_sim", "dis"])
    };
    let (status, record) = perform_on(memory, setup);
    ends(
        rt,
        status,
        &record,
        2,
        "rt_sim: the command line cannot be read\n",
    );
    same(rt, word, record.asked.len(), 0);
    same(rt, word, record.printed.len(), 0);
}

#[test]
fn words_must_be_text(rt: HostRuntime) {
    for word in &NO_TEXTS {
        refuse_word(&rt, rt.alloc(), word);
    }
}

/// What is printed of a finished job waits neither for the next one nor for the end of a run of hours: the device that is full at its
/// line ends the run.
#[test]
fn finished_jobs_are_printed_while_a_run_goes_on(rt: HostRuntime) {
    let words = ["rt_sim", "jobs", "sleeper", "--ticks", "1099511627776"];
    let (status, record) = perform(rt.alloc(), &words, 70);
    ends(
        &rt,
        status,
        &record,
        3,
        "rt_sim: device after 70 bytes\n  standard output: no room on the device\n",
    );
    let want =
        b"task,job,release,finish,response,ticks,fresh,calm,hard,late\n0,0,0,3,4,".as_slice();
    same(&rt, "printed", record.printed.as_slice(), want);
}
