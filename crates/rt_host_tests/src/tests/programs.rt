//! Which files programs ask a host for, in which order, and what can't be read or made.

use super::files::{FILES, ONE_TASK};
use super::{ends, same};
use crate::host_in_memory::{Record, Setup, run_on};
use std::alloc::Global;
use std::process::{Abort, ExitCode};

/// Runs the program on a host with `FILES`, which adds to the record.
pub fn perform_with(memory: Global, setup: Setup, record: Record) -> (ExitCode, Record) {
    run_on(memory, setup, &FILES, record)
}

/// The same with a new record.
pub fn perform_on(memory: Global, setup: Setup) -> (ExitCode, Record) {
    perform_with(memory, setup, Record::new(memory, setup.room))
}

/// The same of these words on an empty input, with room for so many bytes.
pub fn perform(memory: Global, words: &[&str], room: usize) -> (ExitCode, Record) {
    let setup = Setup {
        room,
        ..Setup::new(words)
    };
    perform_on(memory, setup)
}

/// What a command line asks for, and what is told with its exit status.
#[derive(Clone, Copy)]
struct Asking {
    words: &'static [&'static str],
    asked: &'static str,
    status: u8,
    told: &'static str,
}

/// One that succeeds, and says nothing.
const fn does(words: &'static [&'static str], asked: &'static str) -> Asking {
    Asking {
        words,
        asked,
        status: 0,
        told: "",
    }
}

/// One that ends with status 3.
const fn fails(words: &'static [&'static str], asked: &'static str, told: &'static str) -> Asking {
    Asking {
        words,
        asked,
        status: 3,
        told,
    }
}

fn askings() -> [Asking; 17] {
    [
        does(&["rt_sim", "dis", "a"], "read a\n"),
        does(&["rt_sim", "run", "busy", "--ticks", "12"], "read busy\n"),
        // a file that is there is replaced
        does(
            &["rt_sim", "asm", "source", "a"],
            "read source\nopen a\nwrite .rt_sim.part0\nmode 644\nsync\nmove .rt_sim.part0 a\n",
        ),
        // a file that a killed run has left beside it is passed over
        does(
            &["rt_sim", "asm", "source", "left/out"],
            "read source\nwrite left/.rt_sim.part0\nwrite left/.rt_sim.part1\nsync\nmove left/.rt_sim.part1 left/out\n",
        ),
        does(
            &["rt_sim", "image", "flat", "out", "--symbols", "names"],
            "read flat\nread names\nwrite .rt_sim.part0\nsync\nmove .rt_sim.part0 out\n",
        ),
        does(
            &["rt_sim", "pack", "sets", "out"],
            "read sets\nread a\nread b\nwrite .rt_sim.part0\nsync\nmove .rt_sim.part0 out\n",
        ),
        // the first of two files
        fails(
            &["rt_sim", "image", "none", "out", "--symbols", "nowhere"],
            "read none\n",
            "rt_sim: file none\n  no such file\n",
        ),
        // the second file that a set file names, whose first is no object; a third isn't there either
        fails(
            &["rt_sim", "pack", "far-set", "out"],
            "read far-set\nread source\nread none\n",
            "rt_sim: file none\n  far-set:3: task 2 4 0 64 none (no such file)\n",
        ),
        // what is read can't be written over
        fails(
            &["rt_sim", "image", "flat", "names", "--symbols", "names"],
            "",
            "rt_sim: file names\n  also the input\n",
        ),
        fails(
            &["rt_sim", "convert", "one", "one"],
            "",
            "rt_sim: file one\n  also the input\n",
        ),
        fails(
            &["rt_sim", "pack", "set", "a"],
            "read set\n",
            "rt_sim: file a\n  set:2: task 1 3 0 64 a (also the input)\n",
        ),
        // a file whose reads fail, and one that cannot be made
        fails(
            &["rt_sim", "dis", "torn"],
            "read torn\n",
            "rt_sim: file torn\n  can't be read or made\n",
        ),
        fails(
            &["rt_sim", "asm", "source", "locked/out"],
            "read source\nwrite locked/.rt_sim.part0\n",
            "rt_sim: file locked/out\n  can't be read or made\n",
        ),
        fails(
            &["rt_sim", "convert", "one", "locked/out"],
            "read one\nwrite locked/.rt_sim.part0\n",
            "rt_sim: file locked/out\n  can't be read or made\n",
        ),
        // one that may not be written is refused, though it could be replaced, and one that can't be moved to stays as it was
        fails(
            &["rt_sim", "asm", "source", "locked-object"],
            "read source\nopen locked-object\n",
            "rt_sim: file locked-object\n  can't be read or made\n",
        ),
        fails(
            &["rt_sim", "asm", "source", "stuck"],
            "read source\nwrite .rt_sim.part0\nsync\nmove .rt_sim.part0 stuck\nremove .rt_sim.part0\n",
            "rt_sim: file stuck\n  can't be read or made\n",
        ),
        // contents that are refused, before the file of the result is opened, which couldn't be made
        Asking {
            words: &["rt_sim", "asm", "twice", "locked/out"],
            asked: "read twice\n",
            status: 1,
            told: "rt_sim: line 2: DuplicateLabel\n  twice:2:1: DuplicateLabel: x: defined in line 1\n    x: nop\n    ^\n  rt_sim help DuplicateLabel\n",
        },
    ]
}

#[test]
fn files_are_asked_for(rt: HostRuntime) {
    for asking in &askings() {
        let (status, record) = perform(rt.alloc(), asking.words, usize::MAX);
        ends(&rt, status, &record, asking.status, asking.told);
        same(
            &rt,
            asking.words,
            record.asked.as_slice(),
            asking.asked.as_bytes(),
        );
        let is_made = record.asked.windows(5).any(|it| it == b"sync\n".as_slice())
            && asking.status == 0;
        same(&rt, asking.words, record.written.is_empty(), !is_made);
    }
}

/// A file that is made on a device with room for 17 bytes.
#[test]
fn devices_of_files_are_told(rt: HostRuntime) {
    let words = ["rt_sim", "pack", "set", "out"];
    let (status, record) = perform(rt.alloc(), &words, 17);
    let told = "rt_sim: device after 17 bytes\n  out: no room on the device\n";
    ends(&rt, status, &record, 3, told);
    same(&rt, "front", ONE_TASK.starts_with(&record.written), true);
}
