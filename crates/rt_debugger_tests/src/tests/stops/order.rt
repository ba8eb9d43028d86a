//! What is told where several things hold at one tick.

use super::*;
use std::test::Fail;

/// A breakpoint of each task, at the load of TOTAL.
const LOAD: Point = Point {
    kind: PointKind::Break(BreakKind::Software),
    task: None,
    address: 0x8000_000c,
    length: 4,
};

/// A breakpoint of task 0, which it meets at tick 1 of PAIR.
const NEXT: Point = Point {
    kind: PointKind::Break(BreakKind::Software),
    task: Some(0),
    address: 0x8000_0004,
    length: 4,
};

static CASES: [Case; 4] = [
    Case {
        name: "what was done goes before the tick stop",
        set: Set::Pair,
        begin: 0,
        points: &[NEXT],
        ways: &[
            (
                Way {
                    goes: Goes::On(STEP),
                    tick_stop: Some(1),
                    ..ON
                },
                (1, Stop::Plain, 0),
            ),
            (
                Way {
                    goes: Goes::On(FIRST),
                    told: 0,
                    tick_stop: Some(13),
                    ..ON
                },
                (13, Stop::Ended, 0),
            ),
        ],
    },
    Case {
        name: "the tick stop goes before what is met",
        set: Set::Pair,
        begin: 0,
        points: &[NEXT],
        ways: &[(
            Way {
                tick_stop: Some(1),
                ..ON
            },
            (1, Stop::AtTick, 0),
        )],
    },
    Case {
        name: "the breakpoint goes before the watchpoint",
        set: Set::Total,
        begin: 9,
        points: &[WATCH, LOAD],
        ways: &[(
            Way {
                tick_stop: Some(20),
                ..ON
            },
            (13, BROKEN, 0),
        )],
    },
    Case {
        name: "the tick stop comes last on the way back",
        set: Set::Pair,
        begin: 9,
        points: &[BREAK],
        ways: &[
            (
                Way {
                    tick_stop: Some(4),
                    ..BACK
                },
                (4, BROKEN, 0),
            ),
            (
                Way {
                    tick_stop: Some(2),
                    ..BACK
                },
                (2, Stop::AtTick, 0),
            ),
            (
                Way {
                    tick_stop: Some(0),
                    ..BACK
                },
                (0, Stop::AtTick, 0),
            ),
        ],
    },
];

#[test]
fn one_of_several_is_told(rt: HostRuntime) -> Result<(), Fail> {
    take_cases(&rt, rt.alloc(), &CASES).ok_or("no memory")?;
    Ok(())
}
