//! Histories, and what is to be told of them. They were worked out by hand.

use rt_admit::Params;
use rt_exec::Fault;
use rt_history::AttemptOutcome;
use rt_history::AttemptOutcome::{End, Next, Sleep, Yield};

/// A tick of a task, or idle ticks.
#[derive(Clone, Copy)]
pub enum Piece {
    Busy(u32, AttemptOutcome),
    Idle(u64),
}

use Piece::{Busy, Idle};

/// Jobs, ticks, least and greatest response, hard jobs, late ones.
pub type Counts = (u64, u64, Option<u64>, Option<u64>, u64, u64);

#[derive(Clone, Copy)]
pub struct Case {
    pub name: &'static str,
    pub hyper: u32,
    pub tasks: &'static [Params],
    pub pieces: &'static [Piece],
    pub rows: &'static [Counts],
    pub idle: u64,
}

/// 5 ticks of 10.
pub const HALF: Params = Params {
    budget: 5,
    period: 10,
    start: 0,
};

/// 1 tick of 2.
pub const SHORT: Params = Params {
    budget: 1,
    period: 2,
    start: 0,
};

/// 3 ticks of 10.
pub const THIRD: Params = Params {
    budget: 3,
    period: 10,
    start: 0,
};

pub const TWELVE_TICKS: Case = Case {
    name: "a sleep until 8",
    hyper: 10,
    tasks: &[HALF],
    pieces: &[
        Busy(0, Next),
        Busy(0, Next),
        Busy(0, Next),
        Busy(0, Sleep(8)),
        Idle(4),
        Busy(0, Next),
        Busy(0, Next),
        Busy(0, Next),
        Busy(0, Next),
    ],
    rows: &[(1, 8, Some(4), Some(4), 1, 0)],
    idle: 4,
};

pub const BUSY_TASKS: Case = Case {
    name: "two busy tasks",
    hyper: 12,
    tasks: &[
        Params {
            budget: 1,
            period: 3,
            start: 0,
        },
        Params {
            budget: 2,
            period: 4,
            start: 0,
        },
    ],
    pieces: &[
        Busy(0, Next),
        Busy(1, Next),
        Busy(1, Next),
        Busy(0, Next),
        Busy(1, Next),
        Busy(1, Next),
        Busy(0, Next),
        Busy(0, Next),
        Busy(1, Next),
        Busy(1, Next),
        Busy(0, Next),
        Busy(1, Next),
    ],
    rows: &[(0, 5, None, None, 0, 0), (0, 7, None, None, 0, 0)],
    idle: 0,
};

pub const LATER: Case = Case {
    name: "a sleep of the second task",
    hyper: 10,
    tasks: &[HALF, HALF],
    pieces: &[
        Busy(0, Next),
        Busy(0, Next),
        Busy(0, Next),
        Busy(0, Next),
        Busy(0, Next),
        Busy(1, Next),
        Busy(1, Next),
        Busy(1, Next),
        Busy(1, Sleep(9)),
    ],
    rows: &[(0, 5, None, None, 0, 0), (1, 4, Some(9), Some(9), 1, 0)],
    idle: 0,
};

pub static OTHERS: [Case; 8] = [
    // the second and the third job were pending already
    Case {
        name: "sleeps until 0",
        hyper: 10,
        tasks: &[HALF],
        pieces: &[
            Busy(0, Next),
            Busy(0, Sleep(0)),
            Busy(0, Next),
            Busy(0, Sleep(0)),
            Busy(0, Next),
            Busy(0, Sleep(0)),
        ],
        rows: &[(3, 6, Some(2), Some(6), 1, 0)],
        idle: 0,
    },
    Case {
        name: "a yield",
        hyper: 10,
        tasks: &[HALF],
        pieces: &[
            Busy(0, Next),
            Busy(0, Yield),
            Busy(0, Next),
            Busy(0, End),
            Idle(6),
        ],
        rows: &[(1, 4, Some(4), Some(4), 0, 0)],
        idle: 6,
    },
    Case {
        name: "a fault",
        hyper: 10,
        tasks: &[HALF],
        pieces: &[
            Busy(0, Next),
            Busy(0, AttemptOutcome::Fault(Fault::Break)),
            Idle(3),
        ],
        rows: &[(0, 2, None, None, 0, 0)],
        idle: 3,
    },
    // at 7 one tick is left before the deadline of 10, so the second job doesn't wake the server afresh
    Case {
        name: "a kept wake",
        hyper: 10,
        tasks: &[HALF],
        pieces: &[
            Busy(0, Next),
            Busy(0, Next),
            Busy(0, Next),
            Busy(0, Sleep(7)),
            Idle(1),
            Idle(2),
            Busy(0, End),
        ],
        rows: &[(2, 5, Some(1), Some(4), 1, 0)],
        idle: 3,
    },
    Case {
        name: "over the budget",
        hyper: 2,
        tasks: &[SHORT],
        pieces: &[Busy(0, Next), Busy(0, End)],
        rows: &[(1, 2, Some(2), Some(2), 0, 0)],
        idle: 0,
    },
    // of no machine: these tasks would have run at once
    Case {
        name: "at the period",
        hyper: 2,
        tasks: &[SHORT],
        pieces: &[Idle(1), Busy(0, End)],
        rows: &[(1, 1, Some(2), Some(2), 1, 0)],
        idle: 1,
    },
    Case {
        name: "late",
        hyper: 2,
        tasks: &[SHORT],
        pieces: &[Idle(5), Busy(0, End)],
        rows: &[(1, 1, Some(6), Some(6), 1, 1)],
        idle: 5,
    },
    Case {
        name: "a start at 3",
        hyper: 10,
        tasks: &[Params {
            budget: 5,
            period: 10,
            start: 3,
        }],
        pieces: &[Idle(1_099_511_627_775), Busy(0, Next)],
        rows: &[(0, 1, None, None, 0, 0)],
        idle: 1_099_511_627_775,
    },
];
