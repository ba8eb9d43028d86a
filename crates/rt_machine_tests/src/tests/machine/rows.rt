//! Runs of one task, worked out by hand.

use rt_exec::Fault;
use rt_history::AttemptOutcome;
use rt_history::AttemptOutcome::{End, Next, Sleep, Write, WriteRefused, Yield};
use rt_history::Mode::{self, Active, Asleep, Ended, Faulted};

/// How a task is to stand.
#[derive(Clone, Copy)]
pub struct Standing {
    pub mode: Mode,
    pub pc: u32,
    pub c: u32,
    pub d: u64,
    /// The registers that aren't 0.
    pub registers: &'static [(usize, u32)],
}

impl Standing {
    /// All registers.
    pub fn x(&self) -> [u32; 32] {
        let mut x = [0; 32];
        for (number, value) in self.registers {
            x[*number % 32] = *value;
        }
        x
    }
}

/// A run of one task from tick 0 on: busy ticks, of each its word and its outcome, and then idle ones.
#[derive(Clone, Copy)]
pub struct Row {
    pub name: &'static str,
    /// Budget, period and start.
    pub grant: (u32, u32, u32),
    pub words: &'static [u32],
    pub busy: &'static [(u32, AttemptOutcome)],
    pub idle: u64,
    pub standing: Standing,
    pub output: &'static [u8],
}

pub static SLEEPS: [Row; 6] = [
    Row {
        name: "sleep until 7",
        grant: (5, 10, 0),
        words: &[
            0x0020_0893,
            0x0070_0513,
            0x0000_0593,
            0x0000_0073,
            0x0000_006f,
        ],
        busy: &[
            (0x0020_0893, Next),
            (0x0070_0513, Next),
            (0x0000_0593, Next),
            (0x0000_0073, Sleep(7)),
        ],
        idle: 3,
        standing: Standing {
            mode: Active,
            pc: 0x8000_0010,
            c: 1,
            d: 10,
            registers: &[(10, 7), (17, 2)],
        },
        output: &[],
    },
    Row {
        name: "sleep until 8",
        grant: (5, 10, 0),
        words: &[
            0x0020_0893,
            0x0080_0513,
            0x0000_0593,
            0x0000_0073,
            0x0000_006f,
        ],
        busy: &[
            (0x0020_0893, Next),
            (0x0080_0513, Next),
            (0x0000_0593, Next),
            (0x0000_0073, Sleep(8)),
        ],
        idle: 4,
        standing: Standing {
            mode: Active,
            pc: 0x8000_0010,
            c: 5,
            d: 18,
            registers: &[(10, 8), (17, 2)],
        },
        output: &[],
    },
    // the sleep takes the last of the budget
    Row {
        name: "exhausted, asleep",
        grant: (4, 10, 0),
        words: &[
            0x0020_0893,
            0x0070_0513,
            0x0000_0593,
            0x0000_0073,
            0x0000_006f,
        ],
        busy: &[
            (0x0020_0893, Next),
            (0x0070_0513, Next),
            (0x0000_0593, Next),
            (0x0000_0073, Sleep(7)),
        ],
        idle: 0,
        standing: Standing {
            mode: Asleep(7),
            pc: 0x8000_0010,
            c: 4,
            d: 20,
            registers: &[(10, 7), (17, 2)],
        },
        output: &[],
    },
    Row {
        name: "exhausted, until 9",
        grant: (4, 10, 0),
        words: &[
            0x0020_0893,
            0x0090_0513,
            0x0000_0593,
            0x0000_0073,
            0x0000_006f,
        ],
        busy: &[
            (0x0020_0893, Next),
            (0x0090_0513, Next),
            (0x0000_0593, Next),
            (0x0000_0073, Sleep(9)),
        ],
        idle: 5,
        standing: Standing {
            mode: Active,
            pc: 0x8000_0010,
            c: 4,
            d: 20,
            registers: &[(10, 9), (17, 2)],
        },
        output: &[],
    },
    Row {
        name: "exhausted, until 11",
        grant: (4, 10, 0),
        words: &[
            0x0020_0893,
            0x00b0_0513,
            0x0000_0593,
            0x0000_0073,
            0x0000_006f,
        ],
        busy: &[
            (0x0020_0893, Next),
            (0x00b0_0513, Next),
            (0x0000_0593, Next),
            (0x0000_0073, Sleep(11)),
        ],
        idle: 7,
        standing: Standing {
            mode: Active,
            pc: 0x8000_0010,
            c: 4,
            d: 21,
            registers: &[(10, 11), (17, 2)],
        },
        output: &[],
    },
    Row {
        name: "sleep until 2^64 - 1",
        grant: (5, 10, 0),
        words: &[0x0020_0893, 0xfff0_0513, 0xfff0_0593, 0x0000_0073],
        busy: &[
            (0x0020_0893, Next),
            (0xfff0_0513, Next),
            (0xfff0_0593, Next),
            (0x0000_0073, Sleep(18_446_744_073_709_551_615)),
        ],
        idle: 8,
        standing: Standing {
            mode: Asleep(18_446_744_073_709_551_615),
            pc: 0x8000_0010,
            c: 1,
            d: 10,
            registers: &[(10, 0xffff_ffff), (11, 0xffff_ffff), (17, 2)],
        },
        output: &[],
    },
];

pub static OTHERS: [Row; 7] = [
    Row {
        name: "yield at 1 of 5",
        grant: (5, 10, 0),
        words: &[0x0030_0893, 0x0000_0073],
        busy: &[(0x0030_0893, Next), (0x0000_0073, Yield)],
        idle: 0,
        standing: Standing {
            mode: Active,
            pc: 0x8000_0008,
            c: 5,
            d: 20,
            registers: &[(17, 3)],
        },
        output: &[],
    },
    Row {
        name: "yield with one unit left",
        grant: (2, 10, 0),
        words: &[0x0030_0893, 0x0000_0073],
        busy: &[(0x0030_0893, Next), (0x0000_0073, Yield)],
        idle: 0,
        standing: Standing {
            mode: Active,
            pc: 0x8000_0008,
            c: 2,
            d: 20,
            registers: &[(17, 3)],
        },
        output: &[],
    },
    Row {
        name: "write of 4 bytes",
        grant: (1, 1, 0),
        words: &[0x0010_0893, 0x8000_0537, 0x0040_0593, 0x0000_0073],
        busy: &[
            (0x0010_0893, Next),
            (0x8000_0537, Next),
            (0x0040_0593, Next),
            (0x0000_0073, Write(4)),
        ],
        idle: 0,
        standing: Standing {
            mode: Active,
            pc: 0x8000_0010,
            c: 1,
            d: 5,
            registers: &[(10, 4), (11, 4), (17, 1)],
        },
        output: &[0x93, 0x08, 0x10, 0x00],
    },
    Row {
        name: "write of 257 bytes",
        grant: (1, 1, 0),
        words: &[0x0010_0893, 0x8000_0537, 0x1010_0593, 0x0000_0073],
        busy: &[
            (0x0010_0893, Next),
            (0x8000_0537, Next),
            (0x1010_0593, Next),
            (0x0000_0073, WriteRefused),
        ],
        idle: 0,
        standing: Standing {
            mode: Active,
            pc: 0x8000_0010,
            c: 1,
            d: 5,
            registers: &[(10, 0xffff_ffff), (11, 257), (17, 1)],
        },
        output: &[],
    },
    Row {
        name: "not yet started",
        grant: (5, 10, 3),
        words: &[0x0000_006f],
        busy: &[],
        idle: 0,
        standing: Standing {
            mode: Asleep(3),
            pc: 0x8000_0000,
            c: 0,
            d: 0,
            registers: &[],
        },
        output: &[],
    },
    Row {
        name: "end",
        grant: (1, 1, 0),
        words: &[0x0000_0073],
        busy: &[(0x0000_0073, End)],
        idle: 1,
        standing: Standing {
            mode: Ended,
            pc: 0x8000_0004,
            c: 1,
            d: 2,
            registers: &[],
        },
        output: &[],
    },
    Row {
        name: "an image of no bytes",
        grant: (1, 1, 0),
        words: &[],
        busy: &[(0x0000_0000, AttemptOutcome::Fault(Fault::Illegal))],
        idle: 0,
        standing: Standing {
            mode: Faulted(Fault::Illegal),
            pc: 0x8000_0000,
            c: 1,
            d: 2,
            registers: &[],
        },
        output: &[],
    },
];
