//! The commands and their options: the table by which the command line is read and the help printed.

use crate::help_texts;
use rt_admit::MAX_HYPER;
use rt_drawing::MAX_SHOWN;
use rt_words::MAX_TICKS;

/// What an option takes.
#[derive(Clone, Copy)]
pub enum Takes {
    /// Nothing: it is there or not.
    Nothing,
    /// A word, which the help calls so.
    Word(&'static str),
    /// A word each time that it is there, which the help calls so.
    Words(&'static str),
    /// A number, which the help calls so, from the first to the last.
    Number(&'static str, u64, u64),
    /// A number of bytes, up to the last.
    Bytes(&'static str, u64),
    /// Some of these words, with commas between them.
    Some(&'static [&'static str]),
    /// A task, by its number or name, which the help calls so.
    Task(&'static str),
    /// Tasks, by their numbers or names, with commas between them.
    Tasks,
}

/// Whether an option has to be there.
#[derive(Clone, Copy)]
pub enum Wanted {
    /// It doesn't.
    No,
    /// It does.
    Yes,
    /// It doesn't: this is its value then.
    Else(&'static str),
    /// It must not be there beside this one.
    Without(&'static str),
    /// It must not be there beside one of these.
    WithoutAny(&'static [&'static str]),
    /// It must not be there but beside this one.
    With(&'static str),
}

/// An option: its name, what it takes, whether it is wanted, and what it is for.
#[derive(Clone, Copy)]
pub struct Choice(pub &'static str, pub Takes, pub Wanted, pub &'static str);

/// A command.
#[derive(Clone, Copy)]
pub struct Row {
    pub name: &'static str,
    pub program: Program,
    pub about: &'static str,
    /// The files that it names, in order, and what each is.
    pub files: &'static [(&'static str, &'static str)],
    pub options: &'static [Choice],
    /// What ends its help.
    pub help: &'static str,
}

/// What a command does.
#[derive(Clone, Copy)]
pub enum Program {
    Solo,
    Certify,
    Run,
    Asm,
    Elf,
    Image,
    Report,
    Jobs,
    Profile,
    Chart,
    Waves,
    Trace,
    Debug,
    Gdb,
    List,
    Show,
    Pack,
    Convert,
    Check,
}

/// The greatest number of 32 bits.
pub const MOST: u64 = u32::MAX as u64;

const TICKS: Choice = Choice(
    "ticks",
    Takes::Number("N", 0, MAX_TICKS),
    Wanted::Yes,
    "How many ticks to run, up to 2^40 = 1099511627776",
);

const SHOWN_TICKS: Choice = Choice(
    "ticks",
    Takes::Number("N", 1, MAX_TICKS),
    Wanted::Yes,
    "How many ticks, 1 to 2^40 = 1099511627776",
);

const DRAWN_TICKS: Choice = Choice(
    "ticks",
    Takes::Number("N", 1, MAX_SHOWN as u64),
    Wanted::Yes,
    "How many ticks to draw, 1 to 100000",
);

const FROM: Choice = Choice(
    "from",
    Takes::Number("T", 0, MAX_TICKS - 1),
    Wanted::Else("0"),
    "The first tick; the last is below 2^40",
);

const DRAWN_FROM: Choice = Choice(
    "from",
    Takes::Number("T", 0, MAX_TICKS - 1),
    Wanted::Else("0"),
    "The first tick to draw; the last is below 2^40",
);

const OVERLOADED: Choice = Choice(
    "overloaded",
    Takes::Nothing,
    Wanted::No,
    "Runs the set even if its weights sum to more than the hyperperiod",
);

const QUIET: Choice = Choice(
    "quiet",
    Takes::Nothing,
    Wanted::No,
    "How each task stands in the end, and no ticks",
);

const OWN_OUTPUT: Choice = Choice(
    "out",
    Takes::Nothing,
    Wanted::Without("quiet"),
    "The bytes that it has written in the end, and nothing else",
);

const OUTPUT: Choice = Choice(
    "out",
    Takes::Task("I"),
    Wanted::Without("quiet"),
    "What a task (its number or name) has written in the end, and nothing else",
);

const RAM: Choice = Choice(
    "ram",
    Takes::Bytes("B", MOST),
    Wanted::Else("65536"),
    "The bytes of RAM, a multiple of 4 from 4 to 1048576",
);

const SPLIT: Choice = Choice(
    "split",
    Takes::Nothing,
    Wanted::No,
    "Loads and stores may have any address",
);

const FAILURES: Choice = Choice(
    "fail-on",
    Takes::Some(&["fault", "over", "soft", "refused", "few", "lost"]),
    Wanted::No,
    "Status 4 if any",
);

const EXCEPT: Choice = Choice(
    "except",
    Takes::Tasks,
    Wanted::With("fail-on"),
    "But not of these tasks, by number or name",
);

const DRAWN_EXCEPT: Choice = Choice(
    "except",
    Takes::Tasks,
    Wanted::No,
    "No job of these tasks, by number or name, is over its period",
);

const WHERE: Choice = Choice(
    "where",
    Takes::Nothing,
    Wanted::No,
    "Also which job is the longest, and which has the least distance",
);

/// The options of `certify` that are of one object: a set's lines say the numbers of its tasks.
pub const OF_ONE_OBJECT: [&str; 7] = [
    "budget", "period", "periods", "start", "ram", "split", "where",
];

const UNCERTIFIED: Choice = Choice(
    "except",
    Takes::Tasks,
    Wanted::WithoutAny(&OF_ONE_OBJECT),
    "But not these tasks of a set, by number or name",
);

const OWN_FAILURES: Choice = Choice(
    "fail-on",
    Takes::Some(&["fault"]),
    Wanted::No,
    "Exit status 4 if it happened",
);

const NO_PROGRESS: Choice = Choice(
    "no-progress",
    Takes::Nothing,
    Wanted::No,
    "No line on a terminal that says how far it is",
);

const JOBS: Choice = Choice(
    "jobs",
    Takes::Number("N", 1, MAX_TICKS),
    Wanted::Yes,
    "How many jobs to certify, 1 to 2^40",
);

const BUDGET: Choice = Choice(
    "budget",
    Takes::Number("Q", 1, MAX_HYPER as u64),
    Wanted::Else("4194304"),
    "The most ticks of a job, for each of its periods",
);

const PERIOD: Choice = Choice(
    "period",
    Takes::Number("P", 1, MAX_HYPER as u64),
    Wanted::Else("1"),
    "The least distance of two releases, in ticks",
);

const PERIODS: Choice = Choice(
    "periods",
    Takes::Number("K", 1, 4_096),
    Wanted::Else("1"),
    "The most periods of a job",
);

const START: Choice = Choice(
    "start",
    Takes::Number("S", 0, MOST),
    Wanted::Else("0"),
    "The tick at which the first job is released",
);

const WIDE: Choice = Choice(
    "wide",
    Takes::Nothing,
    Wanted::No,
    "Tells more of each task, as how it stands, its longest job, its yields",
);

const CSV: Choice = Choice(
    "csv",
    Takes::Nothing,
    Wanted::Without("wide"),
    "That and its reserves, as comma-separated values",
);

const OPEN: Choice = Choice(
    "open",
    Takes::Nothing,
    Wanted::No,
    "Behind them a line for each task's job that isn't finished",
);

const WIDE_JOBS: Choice = Choice(
    "wide",
    Takes::Nothing,
    Wanted::No,
    "Tells more of each job, as when it began, and how long others ran",
);

const NEEDS: Choice = Choice(
    "needs",
    Takes::Nothing,
    Wanted::Without("callgrind"),
    "How many ticks jobs needed, in place of where they went",
);

const CALLGRIND: Choice = Choice(
    "callgrind",
    Takes::Nothing,
    Wanted::No,
    "By address, as callgrind_annotate and KCachegrind read it",
);

const WIDTH: Choice = Choice(
    "width",
    Takes::Number("W", 400, 16_000),
    Wanted::No,
    "Units of all ticks, 400 to 16000: 10 a tick if not given, 800 to 1600 in all",
);

const COMPACT: Choice = Choice(
    "compact",
    Takes::Nothing,
    Wanted::No,
    "Low rows, with marks as lines",
);

const TIMESCALE: Choice = Choice(
    "timescale",
    Takes::Word("U"),
    Wanted::Else("1ns"),
    "How long a tick is: 1, 10 or 100 of s, ms, us, ns, ps or fs",
);

const TASK: Choice = Choice(
    "task",
    Takes::Task("I"),
    Wanted::No,
    "The ticks of one task alone: its number or name",
);

const NAME: Choice = Choice(
    "name",
    Takes::Word("WORD"),
    Wanted::No,
    "A symbol at the entry, which names the task",
);

const DATA: Choice = Choice(
    "data",
    Takes::Words("S=FILE"),
    Wanted::No,
    "The bytes of FILE stand at the symbol S; once for each",
);

const ALL: Choice = Choice(
    "all",
    Takes::Nothing,
    Wanted::No,
    "Tells each faulty line, and not the first alone",
);

const ENTRY: Choice = Choice(
    "entry",
    Takes::Word("A"),
    Wanted::Else("0x80000000"),
    "The first instruction: its address, or its name in NM",
);

const SYMBOLS: Choice = Choice(
    "symbols",
    Takes::Word("NM"),
    Wanted::No,
    "A list of symbols, as nm prints it",
);

/// A system that is run.
const SYSTEM: (&str, &str) = ("SYS", "The system file (RTS1 or RTS2) or set file to run");

/// An object file that is made.
const OBJECT: (&str, &str) = ("OUT", "The object file (RTI1) to write");

/// In the order of the help.
const COMMANDS: [Row; 19] = [
    Row {
        name: "asm",
        program: Program::Asm,
        about: "Assembles a source into an object file",
        files: &[("IN", "The source"), OBJECT],
        options: &[NAME, ALL],
        help: help_texts::ASM,
    },
    Row {
        name: "elf",
        program: Program::Elf,
        about: "Makes an object file of an ELF file",
        files: &[("IN", "The ELF file, linked to 0x80000000"), OBJECT],
        options: &[NAME, DATA],
        help: help_texts::ELF,
    },
    Row {
        name: "image",
        program: Program::Image,
        about: "Makes an object file of a flat image",
        files: &[("BIN", "The flat image, linked to 0x80000000"), OBJECT],
        options: &[NAME, ENTRY, SYMBOLS, DATA],
        help: help_texts::IMAGE,
    },
    Row {
        name: "dis",
        program: Program::List,
        about: "Lists an object file",
        files: &[("OBJ", "The object file (RTI1)")],
        options: &[],
        help: help_texts::DIS,
    },
    Row {
        name: "show",
        program: Program::Show,
        about: "Shows what a system file or an object file holds",
        files: &[(
            "FILE",
            "The system file (RTS1 or RTS2), set file or object file (RTI1)",
        )],
        options: &[],
        help: help_texts::SHOW,
    },
    Row {
        name: "solo",
        program: Program::Solo,
        about: "Runs one object and prints each tick",
        files: &[("OBJ", "The object file (RTI1) to run")],
        options: &[
            TICKS,
            RAM,
            SPLIT,
            QUIET,
            OWN_OUTPUT,
            OWN_FAILURES,
            NO_PROGRESS,
        ],
        help: help_texts::SOLO,
    },
    Row {
        name: "certify",
        program: Program::Certify,
        about: "Runs programs alone, and certifies their jobs for every admitted set",
        files: &[(
            "FILE",
            "The object file, ELF file, system file or set file to certify",
        )],
        options: &[
            JOBS,
            BUDGET,
            PERIOD,
            PERIODS,
            START,
            RAM,
            SPLIT,
            WHERE,
            UNCERTIFIED,
            NO_PROGRESS,
        ],
        help: help_texts::CERTIFY,
    },
    Row {
        name: "pack",
        program: Program::Pack,
        about: "Makes a system file of a set file and the object files that it names",
        files: &[
            ("SET", "The set file"),
            (
                "OUT",
                "The system file to write: RTS2 where a line says task-split, else RTS1",
            ),
        ],
        options: &[],
        help: help_texts::PACK,
    },
    Row {
        name: "convert",
        program: Program::Convert,
        about: "Writes a system file in version Two",
        files: &[
            ("SYS", "The system file (RTS1 or RTS2) or set file"),
            ("OUT", "The system file (RTS2) to write"),
        ],
        options: &[],
        help: help_texts::CONVERT,
    },
    Row {
        name: "check",
        program: Program::Check,
        about: "Says whether the tasks of a system file are admitted",
        files: &[("SYS", "The system file (RTS1 or RTS2) or set file")],
        options: &[],
        help: help_texts::CHECK,
    },
    Row {
        name: "run",
        program: Program::Run,
        about: "Runs the tasks of a system and prints each tick",
        files: &[SYSTEM],
        options: &[
            TICKS,
            OVERLOADED,
            QUIET,
            OUTPUT,
            FAILURES,
            EXCEPT,
            NO_PROGRESS,
        ],
        help: help_texts::RUN,
    },
    Row {
        name: "report",
        program: Program::Report,
        about: "Runs the tasks of a system and prints what their jobs took",
        files: &[SYSTEM],
        options: &[TICKS, OVERLOADED, WIDE, CSV, FAILURES, EXCEPT, NO_PROGRESS],
        help: help_texts::REPORT,
    },
    Row {
        name: "jobs",
        program: Program::Jobs,
        about: "Runs the tasks of a system and prints a line for each finished job, as CSV",
        files: &[SYSTEM],
        options: &[
            TICKS,
            OVERLOADED,
            OPEN,
            WIDE_JOBS,
            FAILURES,
            EXCEPT,
            NO_PROGRESS,
        ],
        help: help_texts::JOBS,
    },
    Row {
        name: "profile",
        program: Program::Profile,
        about: "Runs the tasks of a system and prints where their ticks went, by symbol",
        files: &[SYSTEM],
        options: &[TICKS, OVERLOADED, NEEDS, CALLGRIND, NO_PROGRESS],
        help: help_texts::PROFILE,
    },
    Row {
        name: "chart",
        program: Program::Chart,
        about: "Runs the tasks of a system and draws when each ran, as SVG",
        files: &[SYSTEM],
        options: &[
            DRAWN_TICKS,
            DRAWN_FROM,
            WIDTH,
            COMPACT,
            OVERLOADED,
            DRAWN_EXCEPT,
            NO_PROGRESS,
        ],
        help: help_texts::CHART,
    },
    Row {
        name: "vcd",
        program: Program::Waves,
        about: "Runs the tasks of a system and writes a value change dump, as waveform viewers read it",
        files: &[SYSTEM],
        options: &[SHOWN_TICKS, FROM, OVERLOADED, TIMESCALE, NO_PROGRESS],
        help: help_texts::VCD,
    },
    Row {
        name: "trace",
        program: Program::Trace,
        about: "Runs the tasks of a system and prints what each tick did",
        files: &[SYSTEM],
        options: &[SHOWN_TICKS, FROM, OVERLOADED, TASK, NO_PROGRESS],
        help: help_texts::TRACE,
    },
    Row {
        name: "debug",
        program: Program::Debug,
        about: "Runs the tasks of a system by commands from standard input",
        files: &[SYSTEM],
        options: &[OVERLOADED],
        help: help_texts::DEBUG,
    },
    Row {
        name: "gdb",
        program: Program::Gdb,
        about: "Serves gdb on the tasks of a system, over standard input and output",
        files: &[SYSTEM],
        options: &[OVERLOADED],
        help: help_texts::GDB,
    },
];

/// The shells that complete commands.
pub const SHELLS: &[&str] = &["bash", "zsh", "fish"];

/// The commands beside those of the table, with what they do.
pub const OTHERS: [(&str, &str); 3] = [
    ("completions", "Prints what a shell completes"),
    ("man", "Prints the page of the manual, for man -l -"),
    ("help", "Explains a command, or a word that is printed"),
];

/// All commands, in the order of the help. A call, since each text that names the table itself takes room on the stack for it.
#[inline(never)]
pub fn commands() -> [Row; 19] {
    COMMANDS
}

/// The command of this name.
pub fn named(name: &str) -> Option<Row> {
    commands().iter().find(|row| row.name == name).copied()
}
