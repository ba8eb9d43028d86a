//! Ways over two histories: where each task is named, and what it loads, was worked out by hand.

use rt_core::Machine;
use rt_exec::Predecoded;
use rt_image::{ReadFault, System, read_system};
use rt_packet::answer::Stop;
use rt_packet::request::Action;
use rt_points::{BreakKind, Events, Point, PointKind, Points, WatchKind, Watched};
use rt_queue::Tournament;
use rt_remote::stops::{
    Actions, Backward, MAX_TASKS, OneBack, Onward, Told, go_back, go_on, step_back,
};
use rt_walk::{Entries, Walk};
use std::alloc::Global;
use std::fmt::Debug;
use std::process::Abort;

mod back;
mod memory;
mod on;
mod order;

type Tried = Walk<Tournament, Predecoded>;

/// The set of examples/pair: task 0 runs the ticks 0 to 5 and 12, where it ends, task 1, which jumps to itself, all others.
static PAIR: &[u8] =
    b"RTS1\x0c\0\0\0\x02\0\0\0\x02\0\0\0\x04\0\0\0\0\0\0\0@\0\0\0E\0\0\0RTI1\0\0\0\x80\x1f\0\0\0\x02\0\0\0\x17\x05\0\0\x13\x05\xc5\x01\x93\x050\0\x93\x08\x10\0s\0\0\0\x93\x08\0\0s\0\0\0hi\n\x06\0_start\0\0\0\x80\x04\0word\x1c\0\0\x80\x06\0\0\0\x0c\0\0\0\0\0\0\0@\0\0\0 \0\0\0RTI1\0\0\0\x80\x04\0\0\0\x01\0\0\0o\0\0\0\x06\0_start\0\0\0\x80";

/// The task of examples/fault, alone: it loads from 8000002c, 80000030, 80000034 and 80000038 at the ticks 3, 8, 13 and 18, all at
/// pc 8000000c, and faults at tick 23.
static TOTAL: &[u8] =
    b"RTS1\x08\0\0\0\x01\0\0\0\x08\0\0\0\x08\0\0\0\0\0\0\0@\0\0\0m\0\0\0RTI1\0\0\0\x80<\0\0\0\x03\0\0\0\x17\x05\0\0\x13\x05\xc5\x02\x93\x05@\0\x03&\x05\0\xb3\x86\xc6\0\x13\x05E\0\x93\x85\xf5\xff\xe3\x98\x05\xfe\x03'%\0\x93\x08\0\0s\0\0\0\x03\0\0\0\x05\0\0\0\x07\0\0\0\x0b\0\0\0\x06\0_start\0\0\0\x80\x04\0next\x0c\0\0\x80\x05\0table,\0\0\x80";

/// One of both sets.
#[derive(Clone, Copy)]
enum Set {
    Pair,
    Total,
}

impl Set {
    fn file(self) -> &'static [u8] {
        match self {
            Set::Pair => PAIR,
            Set::Total => TOTAL,
        }
    }
}

/// How tasks 0 and 1 go on. One without an action is not looked at.
type Both = (Option<Action>, Option<Action>);

/// Each goes on up to a stop.
const BOTH: Both = (Some(Action::Continue), Some(Action::Continue));

/// Task 0 alone does.
const FIRST: Both = (Some(Action::Continue), None);

/// Task 1 alone does.
const SECOND: Both = (None, Some(Action::Continue));

/// Task 0 alone goes one tick on.
const STEP: Both = (Some(Action::Step), None);

/// Which way, and how the tasks go on, or which task takes an instruction back.
#[derive(Clone, Copy, Debug)]
enum Goes {
    On(Both),
    Back(Both),
    OneBack(u32),
}

/// A way of which task 0 is shown, where this task was told before, and that pauses behind so many entries.
#[derive(Clone, Copy, Debug)]
struct Way {
    goes: Goes,
    told: u32,
    passes: bool,
    tick_stop: Option<u64>,
    entries: u32,
}

/// On, up to what is met.
const ON: Way = Way {
    goes: Goes::On(BOTH),
    told: 1,
    passes: false,
    tick_stop: None,
    entries: u32::MAX,
};

/// Back, to what is met last.
const BACK: Way = Way {
    goes: Goes::Back(BOTH),
    told: 1,
    passes: false,
    tick_stop: None,
    entries: u32::MAX,
};

/// Where a way is to end: at which tick, by which stop, told of which task.
type End = (u64, Stop, u32);

/// Ways over a set, each from where the one before it ended, and the first from a tick.
#[derive(Clone, Copy)]
struct Case {
    name: &'static str,
    set: Set,
    begin: u64,
    points: &'static [Point],
    ways: &'static [(Way, End)],
}

/// A breakpoint of task 0, which it meets at tick 4 of PAIR.
const BREAK: Point = Point {
    kind: PointKind::Break(BreakKind::Software),
    task: Some(0),
    address: 0x8000_0010,
    length: 4,
};

/// A watchpoint of task 0 for loads from 80000034.
const WATCH: Point = Point {
    kind: PointKind::Watch(WatchKind::Read),
    task: Some(0),
    address: 0x8000_0034,
    length: 4,
};

/// What is told where that is met.
const LOADED: Stop = Stop::Watch(Watched {
    kind: WatchKind::Read,
    address: 0x8000_0034,
});

/// What is told where a breakpoint is met.
const BROKEN: Stop = Stop::Break(BreakKind::Software);

/// Fails where both differ, and says both, and in which case.
fn same<N: Copy + Debug, T: Copy + PartialEq>(rt: &impl Abort, case: N, found: T, expected: T) {
    assert!(rt; found == expected, "{case:?}");
}

/// The system of a file, whose tasks have sizes of RAM.
fn system_of(alloc: Global, file: &[u8]) -> Result<System<'_>, ReadFault> {
    Ok(read_system(alloc, file)?)
}

/// The way of a machine of a system, if there is memory for it.
fn walk_of(alloc: Global, system: &System) -> Option<Tried> {
    let machine = Machine::load(alloc, system).ok()?;
    Walk::begin(alloc, machine, &system.tasks).ok()
}

/// The way of a machine of the system of a file.
fn walk_on(alloc: Global, file: &[u8]) -> Option<Tried> {
    let system = system_of(alloc, file).ok()?;
    walk_of(alloc, &system)
}

/// The actions of tasks 0 and 1, and none of others.
fn actions_of(both: Both) -> Actions {
    let (first, second) = both;
    let mut actions: Actions = [None; MAX_TASKS];
    actions[0] = first;
    actions[1] = second;
    actions
}

fn points_of(alloc: Global, points: &[Point]) -> Option<Points> {
    let mut made = Points::new(alloc);
    for point in points {
        made.insert(*point).ok()?;
    }
    Some(made)
}

/// Takes a way, and returns what it told if there was memory.
fn take(walk: &mut Tried, points: &Points, way: &Way) -> Option<Told> {
    match way.goes {
        Goes::On(both) => {
            let onward = Onward {
                actions: &actions_of(both),
                points,
                events: &Events::none(),
                shown: 0,
                told: way.told,
                passes: way.passes,
                tick_stop: way.tick_stop,
            };
            Some(go_on(walk, onward, &mut Entries::new(way.entries)))
        }
        Goes::Back(both) => {
            let backward = Backward {
                actions: &actions_of(both),
                points,
                events: &Events::none(),
                shown: 0,
                passes: way.passes,
                tick_stop: way.tick_stop,
            };
            go_back(walk, backward, &mut Entries::new(way.entries)).ok()
        }
        Goes::OneBack(task) => {
            let one = OneBack {
                task,
                points,
                passes: way.passes,
            };
            step_back(walk, one).ok()
        }
    }
}

/// Takes each way, and fails unless it ends as it must.
fn take_all(rt: &impl Abort, case: &Case, walk: &mut Tried, points: &Points) {
    for (way, end) in case.ways {
        let (tick, stop, task) = *end;
        let told = take(walk, points, way);
        let wanted = Some(Told { stop, task });
        same(
            rt,
            (case.name, way),
            (walk.shown().now(), told),
            (tick, wanted),
        );
    }
}

/// The same over the set of a case, if there is memory for it.
fn take_case(rt: &impl Abort, alloc: Global, case: &Case) -> Option<()> {
    let mut walk = walk_on(alloc, case.set.file())?;
    let points = points_of(alloc, case.points)?;
    walk.step(case.begin);
    take_all(rt, case, &mut walk, &points);
    Some(())
}

/// The same of each case.
fn take_cases(rt: &impl Abort, alloc: Global, cases: &[Case]) -> Option<()> {
    for case in cases {
        take_case(rt, alloc, case)?;
    }
    Some(())
}
