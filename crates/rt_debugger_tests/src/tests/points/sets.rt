//! What is inserted and taken out.

use super::{ACCESS, HARDWARE, READ, SOFTWARE, WRITE, general, own};
use crate::tests::same;
use rt_points::*;
use std::process::Abort;
use std::test::Fail;

/// The kinds in their order.
static KINDS: [PointKind; 5] = [SOFTWARE, HARDWARE, WRITE, READ, ACCESS];

#[test]
fn numbers_of_kinds(rt: HostRuntime) {
    for (number, kind) in KINDS.iter().enumerate() {
        same(&rt, *kind, kind.number() as usize, number);
    }
}

const LOAD: Access = Access {
    is_store: false,
    address: 0x8000_0040,
    bytes: 1,
};

#[test]
fn a_point_that_is_there(rt: HostRuntime) -> Result<(), Fail> {
    let mut points = Points::new(rt.alloc());
    let point = own(READ, 0, 0x8000_0040, 1);
    same(&rt, "first", points.insert(point), Ok(()));
    same(&rt, "again", points.insert(point), Ok(()));
    points.remove(point);
    same(&rt, "watches", points.has_watches(), false);
    same(&rt, "no point", points.watch_at(0, LOAD), None);
    Ok(())
}

/// Points that differ from the first in one thing.
#[test]
fn a_point_that_is_not_there(rt: HostRuntime) -> Result<(), Fail> {
    let mut points = Points::new(rt.alloc());
    points.insert(own(READ, 0, 0x8000_0040, 1))?;
    points.remove(own(ACCESS, 0, 0x8000_0040, 1));
    points.remove(own(READ, 1, 0x8000_0040, 1));
    points.remove(own(READ, 0, 0x8000_0041, 1));
    points.remove(own(READ, 0, 0x8000_0040, 2));
    points.remove(general(READ, 0x8000_0040, 1));
    let watched = Watched {
        kind: WatchKind::Read,
        address: 0x8000_0040,
    };
    same(&rt, "there", points.watch_at(0, LOAD), Some(watched));
    Ok(())
}

/// The point of a number below 1024.
fn numbered(number: u32) -> Point {
    own(SOFTWARE, number % 64, 0x8000_0000 + number % 1024 * 4, 4)
}

/// Looks at whether all points but the one of this number are met.
fn look(rt: &impl Abort, points: &Points, other: u32) {
    for number in 0..1024u32 {
        let found = points.break_at(number % 64, 0x8000_0000 + number * 4);
        same(rt, number, found.is_some(), number != other);
    }
}

#[test]
fn the_most_points(rt: HostRuntime) -> Result<(), Fail> {
    let mut points = Points::new(rt.alloc());
    for number in 0..1024u32 {
        points.insert(numbered(number))?;
    }
    look(&rt, &points, 1024);
    let more = own(HARDWARE, 0, 0x8000_0000, 4);
    let full = Err(PointFault::TooMany);
    same(&rt, "one more", points.insert(more), full);
    same(
        &rt,
        "not there",
        points.break_at(0, 0x8000_0000),
        Some(BreakKind::Software),
    );
    same(
        &rt,
        "one that is there",
        points.insert(numbered(1023)),
        Ok(()),
    );
    points.remove(numbered(7));
    look(&rt, &points, 7);
    same(&rt, "one for one", points.insert(more), Ok(()));
    same(&rt, "the one that went", points.insert(numbered(7)), full);
    Ok(())
}

#[test]
fn points_of_one_task(rt: HostRuntime) -> Result<(), Fail> {
    let mut points = Points::new(rt.alloc());
    points.insert(own(SOFTWARE, 0, 0x8000_0000, 4))?;
    points.insert(own(SOFTWARE, 1, 0x8000_0000, 4))?;
    points.insert(own(READ, 0, 0x8000_0040, 1))?;
    points.insert(own(HARDWARE, 0, 0x8000_0004, 4))?;
    points.insert(general(READ, 0x8000_0040, 1))?;
    points.remove_task(0);
    same(&rt, "of 0", points.break_at(0, 0x8000_0000), None);
    same(&rt, "of 0", points.break_at(0, 0x8000_0004), None);
    same(
        &rt,
        "of 1",
        points.break_at(1, 0x8000_0000),
        Some(BreakKind::Software),
    );
    same(&rt, "of 0", points.may_break(0, 0x8000_0000), false);
    same(&rt, "of 0", points.may_break(0, 0x8000_0004), false);
    same(&rt, "of 1", points.may_break(1, 0x8000_0000), true);
    same(&rt, "of all", points.watch_at(0, LOAD).is_some(), true);
    points.remove(general(READ, 0x8000_0040, 1));
    same(&rt, "watches", points.has_watches(), false);
    Ok(())
}
