//! Ways on.

use super::*;
use rt_exec::Fault;
use std::test::Fail;

/// A breakpoint of task 1 at its only instruction.
const JUMP: Point = Point {
    kind: PointKind::Break(BreakKind::Software),
    task: Some(1),
    address: 0x8000_0000,
    length: 4,
};

static CASES: [Case; 5] = [
    Case {
        name: "a way stops at a breakpoint",
        set: Set::Pair,
        begin: 0,
        points: &[BREAK],
        ways: &[
            (ON, (4, BROKEN, 0)),
            (ON, (4, BROKEN, 0)),
            (
                Way {
                    goes: Goes::On(STEP),
                    ..ON
                },
                (5, Stop::Plain, 0),
            ),
        ],
    },
    Case {
        name: "the told breakpoint is passed",
        set: Set::Pair,
        begin: 0,
        points: &[JUMP],
        ways: &[
            (ON, (6, BROKEN, 1)),
            (ON, (7, BROKEN, 1)),
            (
                Way {
                    goes: Goes::On(FIRST),
                    ..ON
                },
                (13, Stop::Ended, 0),
            ),
            (
                Way {
                    goes: Goes::On(FIRST),
                    ..ON
                },
                (13, Stop::End, 0),
            ),
        ],
    },
    Case {
        name: "a way stops before an access",
        set: Set::Total,
        begin: 0,
        points: &[WATCH],
        ways: &[
            (ON, (13, LOADED, 0)),
            (ON, (13, LOADED, 0)),
            (
                Way { passes: true, ..ON },
                (24, Stop::Faulted(Fault::LoadMisaligned), 0),
            ),
        ],
    },
    Case {
        name: "a step of a task that is over stays",
        set: Set::Pair,
        begin: 13,
        points: &[],
        ways: &[
            (
                Way {
                    goes: Goes::On((Some(Action::Step), Some(Action::Continue))),
                    ..ON
                },
                (13, Stop::EndedBefore, 0),
            ),
            (
                Way {
                    goes: Goes::On((Some(Action::Step), Some(Action::Step))),
                    ..ON
                },
                (14, Stop::Plain, 1),
            ),
        ],
    },
    Case {
        name: "a way is interrupted",
        set: Set::Pair,
        begin: 13,
        points: &[],
        ways: &[
            (Way { entries: 5, ..ON }, (18, Stop::Interrupted, 1)),
            (
                Way {
                    entries: 5,
                    tick_stop: Some(22),
                    ..ON
                },
                (22, Stop::AtTick, 1),
            ),
        ],
    },
];

#[test]
fn ways_on_end_where_they_must(rt: HostRuntime) -> Result<(), Fail> {
    take_cases(&rt, rt.alloc(), &CASES).ok_or("no memory")?;
    Ok(())
}
