//! Ways back.

use super::*;
use std::test::Fail;

static CASES: [Case; 6] = [
    Case {
        name: "a way stops at the last breakpoint",
        set: Set::Pair,
        begin: 11,
        points: &[BREAK],
        ways: &[(BACK, (4, BROKEN, 0)), (BACK, (0, Stop::Begin, 0))],
    },
    Case {
        name: "the breakpoint of another task is passed",
        set: Set::Pair,
        begin: 11,
        points: &[BREAK],
        ways: &[(
            Way {
                goes: Goes::Back(SECOND),
                ..BACK
            },
            (0, Stop::Begin, 1),
        )],
    },
    Case {
        name: "a way stops behind an access",
        set: Set::Total,
        begin: 23,
        points: &[WATCH],
        ways: &[
            (BACK, (14, LOADED, 0)),
            (
                Way {
                    passes: true,
                    ..BACK
                },
                (0, Stop::Begin, 0),
            ),
        ],
    },
    Case {
        name: "one instruction is taken back",
        set: Set::Pair,
        begin: 13,
        points: &[BREAK],
        ways: &[
            (
                Way {
                    goes: Goes::OneBack(1),
                    ..BACK
                },
                (11, Stop::Plain, 1),
            ),
            (
                Way {
                    goes: Goes::OneBack(0),
                    ..BACK
                },
                (5, Stop::Plain, 0),
            ),
            (
                Way {
                    goes: Goes::OneBack(0),
                    ..BACK
                },
                (4, Stop::Plain, 0),
            ),
            (
                Way {
                    goes: Goes::OneBack(1),
                    ..BACK
                },
                (4, Stop::Begin, 1),
            ),
        ],
    },
    Case {
        name: "one access is told before it is taken back",
        set: Set::Total,
        begin: 14,
        points: &[WATCH],
        ways: &[
            (
                Way {
                    goes: Goes::OneBack(0),
                    ..BACK
                },
                (14, LOADED, 0),
            ),
            (
                Way {
                    goes: Goes::OneBack(0),
                    passes: true,
                    ..BACK
                },
                (13, Stop::Plain, 0),
            ),
        ],
    },
    // Positions are kept at each multiple of 65,536, of which the last is 983,040.
    Case {
        name: "a way is interrupted",
        set: Set::Pair,
        begin: 1_000_000,
        points: &[],
        ways: &[(
            Way {
                entries: 1000,
                ..BACK
            },
            (983_041, Stop::Interrupted, 1),
        )],
    },
];

#[test]
fn ways_back_end_where_they_must(rt: HostRuntime) -> Result<(), Fail> {
    take_cases(&rt, rt.alloc(), &CASES).ok_or("no memory")?;
    Ok(())
}
