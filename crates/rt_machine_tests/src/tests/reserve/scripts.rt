//! Runs of tasks that reserve budgets, worked out by hand from the rule, and by a model in another language.

use rt_exec::Fault;
use rt_history::AttemptOutcome::{self, End, Reserve, ReserveRefused, Sleep, Yield};
use rt_history::Mode::{self, Active, Asleep, Ended, Faulted};

/// Budget, period and words.
pub type Task = (u32, u32, &'static [u32]);

/// A call or a fault: task, pc and outcome.
pub type Call = (u32, u32, AttemptOutcome);

/// How a task stands: mode, a0, current budget, deadline, budget, and the budget that is pending.
pub type Served = (Mode, u32, u32, u64, u32, Option<u32>);

/// A run of tasks from tick 0 on.
pub struct Script {
    pub name: &'static str,
    pub hyper: u32,
    pub tasks: &'static [Task],
    /// All calls and faults, by tick.
    pub calls: &'static [(u64, Call)],
    /// How tasks stand when a tick begins.
    pub stands: &'static [(u64, u32, Served)],
    /// The tick at which the machine is copied, and the one that comes after the last.
    pub copied: u64,
    pub end: u64,
}

pub static SCRIPTS: [Script; 11] = [
    // 6 + 8 is over 12
    Script {
        name: "a second budget beside a busy task",
        hyper: 12,
        tasks: &[
            (1, 3, &[0x0050_0893, 0x0020_0513, 0x0000_0073, 0x0000_006f]),
            (2, 4, &[0x0000_006f]),
        ],
        calls: &[(6, (0, 0x8000_0008, ReserveRefused))],
        stands: &[
            (7, 0, (Active, 0xffff_ffff, 1, 12, 1, None)),
            (7, 1, (Active, 0, 2, 12, 2, None)),
        ],
        copied: 5,
        end: 8,
    },
    // 1 * 3 is (24 - 21) * 1, and below (24 - 21) * 2
    Script {
        name: "fresh at 21",
        hyper: 12,
        tasks: &[(
            1,
            3,
            &[
                0x0050_0893,
                0x0020_0513,
                0x0000_0073,
                0x0020_0893,
                0x0150_0513,
                0x0000_0593,
                0x0000_0073,
                0x0000_006f,
            ],
        )],
        calls: &[
            (2, (0, 0x8000_0008, Reserve(2))),
            (6, (0, 0x8000_0018, Sleep(21))),
        ],
        stands: &[
            (3, 0, (Active, 0, 1, 12, 1, Some(2))),
            (20, 0, (Asleep(21), 21, 1, 24, 1, Some(2))),
            (21, 0, (Active, 21, 2, 24, 2, None)),
            (23, 0, (Active, 21, 2, 27, 2, None)),
        ],
        copied: 12,
        end: 24,
    },
    Script {
        name: "kept at 20",
        hyper: 12,
        tasks: &[(
            1,
            3,
            &[
                0x0050_0893,
                0x0020_0513,
                0x0000_0073,
                0x0020_0893,
                0x0140_0513,
                0x0000_0593,
                0x0000_0073,
                0x0000_006f,
            ],
        )],
        calls: &[
            (2, (0, 0x8000_0008, Reserve(2))),
            (6, (0, 0x8000_0018, Sleep(20))),
        ],
        stands: &[
            (3, 0, (Active, 0, 1, 12, 1, Some(2))),
            (19, 0, (Asleep(20), 20, 1, 24, 1, Some(2))),
            (20, 0, (Active, 20, 1, 24, 1, Some(2))),
            (23, 0, (Active, 20, 1, 33, 1, Some(2))),
        ],
        copied: 20,
        end: 24,
    },
    // 1 * 3 is below (27 - 10) * 1, and is (33 - 30) * 1
    Script {
        name: "replaced, kept, and then taken",
        hyper: 12,
        tasks: &[(
            1,
            3,
            &[
                0x0050_0893,
                0x0030_0513,
                0x0000_0073,
                0x0020_0513,
                0x0000_0073,
                0x0020_0893,
                0x00a0_0513,
                0x0000_0073,
                0x01e0_0513,
                0x0000_0073,
                0x0000_006f,
            ],
        )],
        calls: &[
            (2, (0, 0x8000_0008, Reserve(3))),
            (4, (0, 0x8000_0010, Reserve(2))),
            (7, (0, 0x8000_001c, Sleep(10))),
            (11, (0, 0x8000_0024, Sleep(30))),
        ],
        stands: &[
            (3, 0, (Active, 0, 1, 12, 1, Some(3))),
            (5, 0, (Active, 0, 1, 18, 1, Some(2))),
            (10, 0, (Active, 10, 1, 27, 1, Some(2))),
            (29, 0, (Asleep(30), 30, 1, 33, 1, Some(2))),
            (30, 0, (Active, 30, 2, 33, 2, None)),
            (33, 0, (Active, 30, 1, 36, 2, None)),
        ],
        copied: 4,
        end: 34,
    },
    // 1 * 10 is below (10 - 8) * 7, and not below (10 - 8) * 5
    Script {
        name: "tested with the present budget",
        hyper: 10,
        tasks: &[(
            7,
            10,
            &[
                0x0050_0893,
                0x0050_0513,
                0x0000_0073,
                0x0020_0893,
                0x0080_0513,
                0x0000_0073,
                0x00c0_0513,
                0x0000_0073,
                0x0000_006f,
            ],
        )],
        calls: &[
            (2, (0, 0x8000_0008, Reserve(5))),
            (5, (0, 0x8000_0014, Sleep(8))),
            (9, (0, 0x8000_001c, Sleep(12))),
        ],
        stands: &[
            (6, 0, (Asleep(8), 8, 1, 10, 7, Some(5))),
            (8, 0, (Active, 8, 1, 10, 7, Some(5))),
            (11, 0, (Asleep(12), 12, 6, 20, 7, Some(5))),
            (12, 0, (Active, 12, 5, 22, 5, None)),
            (19, 0, (Active, 12, 3, 32, 5, None)),
        ],
        copied: 7,
        end: 20,
    },
    // a recharge and a yield refill to the present budget; 1 * 10 is (50 - 45) * 2
    Script {
        name: "refilled and yielded",
        hyper: 10,
        tasks: &[(
            2,
            10,
            &[
                0x0050_0893,
                0x0050_0513,
                0x0000_0073,
                0x0030_0893,
                0x0000_0073,
                0x0020_0893,
                0x02d0_0513,
                0x0000_0073,
                0x0000_006f,
            ],
        )],
        calls: &[
            (2, (0, 0x8000_0008, Reserve(5))),
            (4, (0, 0x8000_0010, Yield)),
            (7, (0, 0x8000_001c, Sleep(45))),
        ],
        stands: &[
            (3, 0, (Active, 0, 1, 20, 2, Some(5))),
            (4, 0, (Active, 0, 2, 30, 2, Some(5))),
            (5, 0, (Active, 0, 2, 40, 2, Some(5))),
            (44, 0, (Asleep(45), 45, 1, 50, 2, Some(5))),
            (45, 0, (Active, 45, 5, 55, 5, None)),
            (51, 0, (Active, 45, 4, 65, 5, None)),
        ],
        copied: 4,
        end: 52,
    },
    // 3 + 2 are held by the tasks that are gone
    Script {
        name: "ended and faulted tasks hold their weights",
        hyper: 6,
        tasks: &[
            (
                1,
                6,
                &[
                    0x0050_0893,
                    0x0030_0513,
                    0x0000_0073,
                    0x0000_0893,
                    0x0000_0073,
                ],
            ),
            (1, 6, &[0x0050_0893, 0x0020_0513, 0x0000_0073, 0x0010_0073]),
            (
                1,
                6,
                &[
                    0x0050_0893,
                    0x0020_0513,
                    0x0020_0513,
                    0x0020_0513,
                    0x0020_0513,
                    0x0000_0073,
                    0x0060_0513,
                    0x0000_0073,
                    0x0010_0513,
                    0x0000_0073,
                    0x0000_006f,
                ],
            ),
        ],
        calls: &[
            (6, (0, 0x8000_0008, Reserve(3))),
            (7, (1, 0x8000_0008, Reserve(2))),
            (10, (1, 0x8000_000c, AttemptOutcome::Fault(Fault::Break))),
            (12, (0, 0x8000_0010, End)),
            (14, (2, 0x8000_0014, ReserveRefused)),
            (16, (2, 0x8000_001c, ReserveRefused)),
            (18, (2, 0x8000_0024, Reserve(1))),
        ],
        stands: &[
            (19, 2, (Active, 0, 1, 66, 1, Some(1))),
            (29, 0, (Ended, 0, 1, 36, 1, Some(3))),
            (29, 1, (Faulted(Fault::Break), 0, 1, 30, 1, Some(2))),
        ],
        copied: 13,
        end: 30,
    },
    Script {
        name: "a lesser budget frees nothing before it is taken",
        hyper: 4,
        tasks: &[
            (
                2,
                4,
                &[
                    0x0050_0893,
                    0x0010_0513,
                    0x0000_0073,
                    0x0020_0893,
                    0x0140_0513,
                    0x0000_0073,
                    0x0000_006f,
                ],
            ),
            (2, 4, &[0x0050_0893, 0x0030_0513, 0x0000_0073, 0xff9f_f06f]),
        ],
        calls: &[
            (4, (0, 0x8000_0008, Reserve(1))),
            (6, (1, 0x8000_0008, ReserveRefused)),
            (9, (0, 0x8000_0014, Sleep(20))),
            (11, (1, 0x8000_0008, ReserveRefused)),
            (14, (1, 0x8000_0008, ReserveRefused)),
            (17, (1, 0x8000_0008, ReserveRefused)),
            (23, (1, 0x8000_0008, Reserve(3))),
        ],
        stands: &[
            (19, 0, (Asleep(20), 20, 2, 16, 2, Some(1))),
            (20, 0, (Active, 20, 1, 24, 1, None)),
            (24, 1, (Active, 0, 1, 32, 2, Some(3))),
        ],
        copied: 18,
        end: 25,
    },
    Script {
        name: "0, P, P + 1 and 2^32 - 1",
        hyper: 12,
        tasks: &[(
            1,
            3,
            &[
                0x0050_0893,
                0x0000_0513,
                0x0000_0073,
                0x0030_0513,
                0x0000_0073,
                0x0040_0513,
                0x0000_0073,
                0xfff0_0513,
                0x0000_0073,
                0x0020_0893,
                0x0280_0513,
                0x0000_0073,
                0x0000_006f,
            ],
        )],
        calls: &[
            (2, (0, 0x8000_0008, ReserveRefused)),
            (4, (0, 0x8000_0010, Reserve(3))),
            (6, (0, 0x8000_0018, ReserveRefused)),
            (8, (0, 0x8000_0020, ReserveRefused)),
            (11, (0, 0x8000_002c, Sleep(40))),
        ],
        stands: &[
            (3, 0, (Active, 0xffff_ffff, 1, 12, 1, None)),
            (5, 0, (Active, 0, 1, 18, 1, Some(3))),
            (7, 0, (Active, 0xffff_ffff, 1, 24, 1, Some(3))),
            (9, 0, (Active, 0xffff_ffff, 1, 30, 1, Some(3))),
            (40, 0, (Active, 40, 3, 43, 3, None)),
            (45, 0, (Active, 40, 1, 46, 3, None)),
        ],
        copied: 5,
        end: 46,
    },
    Script {
        name: "in place of an earlier one",
        hyper: 4,
        tasks: &[
            (
                1,
                4,
                &[
                    0x0050_0893,
                    0x0030_0513,
                    0x0000_0073,
                    0x0020_0513,
                    0x0000_0073,
                    0x0030_0513,
                    0x0000_0073,
                    0x0030_0513,
                    0x0000_0073,
                    0x0020_0893,
                    0x03c0_0513,
                    0x0000_0073,
                    0x0000_006f,
                ],
            ),
            (
                1,
                4,
                &[
                    0x0050_0893,
                    0x0020_0513,
                    0x0000_0073,
                    0x0020_0513,
                    0x0000_0073,
                    0x0010_0513,
                    0x0000_0073,
                    0x0020_0893,
                    0x03d0_0513,
                    0x0000_0073,
                    0x0000_006f,
                ],
            ),
        ],
        calls: &[
            (4, (0, 0x8000_0008, Reserve(3))),
            (5, (1, 0x8000_0008, ReserveRefused)),
            (8, (0, 0x8000_0010, Reserve(2))),
            (9, (1, 0x8000_0010, Reserve(2))),
            (12, (0, 0x8000_0018, ReserveRefused)),
            (13, (1, 0x8000_0018, Reserve(1))),
            (16, (0, 0x8000_0020, Reserve(3))),
            (19, (1, 0x8000_0024, Sleep(61))),
            (21, (0, 0x8000_002c, Sleep(60))),
        ],
        stands: &[
            (14, 1, (Active, 0, 1, 32, 1, Some(1))),
            (17, 0, (Active, 0, 1, 40, 1, Some(3))),
            (60, 0, (Active, 60, 3, 64, 3, None)),
            (61, 1, (Active, 61, 1, 65, 1, None)),
            (69, 0, (Active, 60, 2, 72, 3, None)),
            (69, 1, (Active, 61, 1, 73, 1, None)),
        ],
        copied: 10,
        end: 70,
    },
    Script {
        name: "the greatest period",
        hyper: 4_194_304,
        tasks: &[(
            1,
            4_194_304,
            &[
                0x0050_0893,
                0x0040_0537,
                0x0000_0073,
                0x0040_0537,
                0x0015_0513,
                0x0000_0073,
                0x0020_0893,
                0x0080_0537,
                0x0000_0073,
                0x0000_006f,
            ],
        )],
        calls: &[
            (2, (0, 0x8000_0008, Reserve(4_194_304))),
            (5, (0, 0x8000_0014, ReserveRefused)),
        ],
        stands: &[
            (3, 0, (Active, 0, 1, 16_777_216, 1, Some(4_194_304))),
            (
                6,
                0,
                (Active, 0xffff_ffff, 1, 29_360_128, 1, Some(4_194_304)),
            ),
        ],
        copied: 3,
        end: 7,
    },
];
