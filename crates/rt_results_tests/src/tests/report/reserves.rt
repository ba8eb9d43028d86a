//! Histories with reserves, and what is to be told of them. They were worked out by hand; behind some ticks stands the account
//! that they leave: the present budget Q, the current one c, the deadline d, and what is pending.

use super::cases::Case;
use super::cases::Piece::{Busy, Idle};
use rt_admit::Params;
use rt_history::AttemptOutcome::{End, Next, Reserve, ReserveRefused, Sleep};

/// 1 tick of 3.
pub const ONE: Params = Params {
    budget: 1,
    period: 3,
    start: 0,
};

/// 2 ticks of 6.
const TWO: Params = Params {
    budget: 2,
    period: 6,
    start: 0,
};

/// 9 * 1 <= 1 * 3 + 6 * 1, so the wake at 6 is fresh; the second and the fourth job have 2 ticks, the third has 3
pub const BUDGET_OF_TWO: Case = Case {
    name: "a budget of 2 from the second job on",
    hyper: 12,
    tasks: &[ONE],
    pieces: &[
        Busy(0, Reserve(2)), // Q 1, c 1, d 6, pending 2
        Busy(0, Sleep(6)), // d 9
        Idle(4),
        Busy(0, Next), // Q 2, c 1, d 9, nothing pending
        Busy(0, Sleep(12)),
        Idle(4),
        Busy(0, Next),
        Busy(0, Next),
        Busy(0, Sleep(18)),
        Idle(3),
        Busy(0, Next),
        Busy(0, End),
    ],
    rows: &[(4, 9, Some(2), Some(3), 2, 0)],
    idle: 11,
};

pub static RESERVES: [Case; 8] = [
    BUDGET_OF_TWO,
    // 24 * 1 <= 1 * 3 + 21 * 1: fresh
    Case {
        name: "a sleep until 21 after a reserve",
        hyper: 12,
        tasks: &[ONE],
        pieces: &[
            Busy(0, Next),
            Busy(0, Next),
            Busy(0, Reserve(2)),
            Busy(0, Next),
            Busy(0, Next),
            Busy(0, Next),
            Busy(0, Sleep(21)), // Q 1, c 1, d 24, pending 2
            Idle(14),
            Busy(0, Next),
            Busy(0, End),
        ],
        rows: &[(2, 9, Some(2), Some(7), 1, 0)],
        idle: 14,
    },
    // 24 * 1 > 1 * 3 + 20 * 1: kept, so the second job isn't hard; the third one takes the budget of 2
    Case {
        name: "a sleep until 20 after a reserve",
        hyper: 12,
        tasks: &[ONE],
        pieces: &[
            Busy(0, Next),
            Busy(0, Next),
            Busy(0, Reserve(2)),
            Busy(0, Next),
            Busy(0, Next),
            Busy(0, Next),
            Busy(0, Sleep(20)), // Q 1, c 1, d 24, pending 2
            Idle(13),
            Busy(0, Next), // d 27
            Busy(0, Sleep(30)), // Q 1, c 1, d 30, pending 2
            Idle(8),
            Busy(0, Next), // Q 2
            Busy(0, End),
        ],
        rows: &[(3, 11, Some(2), Some(7), 1, 0)],
        idle: 21,
    },
    // 12 * 2 > 2 * 6 + 3 * 2: kept at 3; 12 * 2 <= 1 * 6 + 9 * 2: fresh at 9, which 12 * 4 <= 1 * 6 + 9 * 4 would not be
    Case {
        name: "a kept wake, and a fresh one by the present budget",
        hyper: 12,
        tasks: &[TWO],
        pieces: &[
            Busy(0, Reserve(4)), // Q 2, c 1, d 6, pending 4
            Busy(0, Sleep(3)), // Q 2, c 2, d 12, pending 4
            Idle(1),
            Busy(0, Sleep(9)), // Q 2, c 1, d 12, pending 4
            Idle(5),
            Busy(0, Next), // Q 4, c 3, d 15
            Busy(0, Next),
            Busy(0, Next),
            Busy(0, End),
        ],
        rows: &[(3, 7, Some(1), Some(4), 2, 0)],
        idle: 6,
    },
    // the second job has 2 ticks, the first budget; the third has 1
    Case {
        name: "a smaller budget",
        hyper: 12,
        tasks: &[TWO],
        pieces: &[
            Busy(0, Reserve(1)),
            Busy(0, Sleep(12)), // Q 2, c 2, d 12, pending 1
            Idle(10),
            Busy(0, Next), // Q 1, c 1, d 24
            Busy(0, Sleep(24)), // Q 1, c 1, d 30
            Idle(10),
            Busy(0, End),
        ],
        rows: &[(3, 5, Some(1), Some(2), 2, 0)],
        idle: 20,
    },
    Case {
        name: "a budget of the whole period",
        hyper: 12,
        tasks: &[ONE],
        pieces: &[
            Busy(0, Reserve(3)),
            Busy(0, Sleep(6)),
            Idle(4),
            Busy(0, Next),
            Busy(0, Next),
            Busy(0, End),
        ],
        rows: &[(2, 5, Some(2), Some(3), 1, 0)],
        idle: 4,
    },
    // the second job has 3 ticks
    Case {
        name: "a reserve in place of an earlier one",
        hyper: 12,
        tasks: &[ONE],
        pieces: &[
            Busy(0, Reserve(3)),
            Busy(0, Reserve(2)),
            Busy(0, ReserveRefused),
            Busy(0, Sleep(12)), // Q 1, c 1, d 15, pending 2
            Idle(8),
            Busy(0, Next),
            Busy(0, Next),
            Busy(0, End),
        ],
        rows: &[(2, 7, Some(3), Some(4), 0, 0)],
        idle: 8,
    },
    // of no machine: 0, 4 and 4,294,967,295 are refused, so 2 stays pending; the second job has 2 ticks, the third has 3
    Case {
        name: "reserves that no server can take",
        hyper: 12,
        tasks: &[ONE],
        pieces: &[
            Busy(0, Reserve(2)),
            Busy(0, Reserve(0)),
            Busy(0, Reserve(4_294_967_295)),
            Busy(0, Reserve(4)),
            Busy(0, Sleep(15)), // Q 1, c 1, d 18, pending 2
            Idle(10),
            Busy(0, Next),
            Busy(0, Sleep(21)), // Q 2, c 2, d 21
            Idle(4),
            Busy(0, Next),
            Busy(0, Next),
            Busy(0, End),
        ],
        rows: &[(3, 10, Some(2), Some(5), 1, 0)],
        idle: 14,
    },
];
