//! Watchpoints.

use super::{ACCESS, READ, SOFTWARE, WRITE, general, own};
use crate::tests::same;
use rt_points::*;
use std::alloc::Global;
use std::process::Abort;
use std::test::Fail;

/// A word at 80000034.
const LOAD: Access = Access {
    is_store: false,
    address: 0x8000_0034,
    bytes: 4,
};

const STORE: Access = Access {
    is_store: true,
    ..LOAD
};

/// A word at fffffffe, whose bytes are fffffffe, ffffffff, 0 and 1.
const WRAPS: Access = Access {
    is_store: false,
    address: 0xffff_fffe,
    bytes: 4,
};

/// A kind, the first byte and the length of a point of task 0, an access of task 0, and at which byte it is met.
static ROWS: [(WatchKind, u32, u64, Access, Option<u32>); 27] = [
    (WatchKind::Read, 0x8000_0033, 1, LOAD, None),
    (WatchKind::Read, 0x8000_0034, 1, LOAD, Some(0x8000_0034)),
    (WatchKind::Read, 0x8000_0037, 1, LOAD, Some(0x8000_0037)),
    (WatchKind::Read, 0x8000_0038, 1, LOAD, None),
    (WatchKind::Read, 0x8000_0033, 2, LOAD, Some(0x8000_0034)),
    (WatchKind::Read, 0x8000_0030, 4, LOAD, None),
    (WatchKind::Read, 0x8000_0030, 5, LOAD, Some(0x8000_0034)),
    (WatchKind::Read, 0x8000_0036, 4, LOAD, Some(0x8000_0036)),
    (WatchKind::Read, 0x8000_0000, 256, LOAD, Some(0x8000_0034)),
    (WatchKind::Read, 0x8000_0034, 0, LOAD, None),
    (WatchKind::Write, 0x8000_0034, 4, LOAD, None),
    (WatchKind::Access, 0x8000_0034, 4, LOAD, Some(0x8000_0034)),
    (WatchKind::Write, 0x8000_0033, 1, STORE, None),
    (WatchKind::Write, 0x8000_0034, 1, STORE, Some(0x8000_0034)),
    (WatchKind::Write, 0x8000_0037, 1, STORE, Some(0x8000_0037)),
    (WatchKind::Write, 0x8000_0038, 1, STORE, None),
    (WatchKind::Read, 0x8000_0034, 4, STORE, None),
    (WatchKind::Access, 0x8000_0035, 2, STORE, Some(0x8000_0035)),
    (WatchKind::Access, 0x8000_0038, 4, STORE, None),
    (WatchKind::Read, 0xffff_fffd, 1, WRAPS, None),
    (WatchKind::Read, 0xffff_ffff, 1, WRAPS, Some(0xffff_ffff)),
    (WatchKind::Read, 0, 1, WRAPS, Some(0)),
    (WatchKind::Read, 1, 1, WRAPS, Some(1)),
    (WatchKind::Read, 2, 1, WRAPS, None),
    (WatchKind::Read, 0, 0xffff_fffe, WRAPS, Some(0)),
    (WatchKind::Read, 0, 0x1_0000_0000, WRAPS, Some(0xffff_fffe)),
    (WatchKind::Read, 0xffff_fffd, 3, WRAPS, Some(0xffff_fffe)),
];

/// Looks at what an access of tasks 0 and 1 meets where this point of task 0, or of every task, is the only one.
fn look(
    rt: &impl Abort,
    alloc: Global,
    row: (WatchKind, u32, u64, Access, Option<u32>),
) -> Result<(), PointFault> {
    let (kind, first, length, access, byte) = row;
    let watched = match byte {
        Some(address) => Some(Watched { kind, address }),
        None => None,
    };
    let mut points = Points::new(alloc);
    points.insert(own(PointKind::Watch(kind), 0, first, length))?;
    same(rt, row, points.watch_at(0, access), watched);
    same(rt, row, points.watch_at(1, access), None);
    points.insert(general(PointKind::Watch(kind), first, length))?;
    same(rt, row, points.watch_at(0, access), watched);
    same(rt, row, points.watch_at(1, access), watched);
    Ok(())
}

#[test]
fn one_point(rt: HostRuntime) -> Result<(), Fail> {
    for row in &ROWS {
        look(&rt, rt.alloc(), *row)?;
    }
    Ok(())
}

/// What is told.
const fn met(kind: WatchKind, address: u32) -> Option<Watched> {
    Some(Watched { kind, address })
}

#[test]
fn the_least_kind_and_its_least_address(rt: HostRuntime) -> Result<(), Fail> {
    let mut points = Points::new(rt.alloc());
    points.insert(own(ACCESS, 0, 0x8000_0034, 4))?;
    points.insert(own(WRITE, 0, 0x8000_0036, 1))?;
    points.insert(own(WRITE, 0, 0x8000_0035, 1))?;
    points.insert(own(WRITE, 1, 0x8000_0034, 1))?;
    let least = met(WatchKind::Write, 0x8000_0035);
    same(&rt, "a store", points.watch_at(0, STORE), least);
    let least = met(WatchKind::Access, 0x8000_0034);
    same(&rt, "a load", points.watch_at(0, LOAD), least);
    points.insert(general(READ, 0x8000_0037, 1))?;
    let least = met(WatchKind::Read, 0x8000_0037);
    same(&rt, "a load", points.watch_at(0, LOAD), least);
    same(&rt, "a load of 2", points.watch_at(2, LOAD), least);
    same(&rt, "a store of 2", points.watch_at(2, STORE), None);
    Ok(())
}

/// Of two points the least address is told, of one the first byte in the order of the access.
#[test]
fn addresses_that_wrap(rt: HostRuntime) -> Result<(), Fail> {
    let mut points = Points::new(rt.alloc());
    points.insert(own(READ, 0, 0xffff_ffff, 1))?;
    points.insert(own(READ, 0, 0, 1))?;
    let least = met(WatchKind::Read, 0);
    same(&rt, "two points", points.watch_at(0, WRAPS), least);
    points.remove(own(READ, 0, 0, 1));
    let least = met(WatchKind::Read, 0xffff_ffff);
    same(&rt, "one point", points.watch_at(0, WRAPS), least);
    Ok(())
}

#[test]
fn breakpoints_watch_nothing(rt: HostRuntime) -> Result<(), Fail> {
    let mut points = Points::new(rt.alloc());
    points.insert(own(SOFTWARE, 0, 0x8000_0034, 4))?;
    same(&rt, "a load", points.watch_at(0, LOAD), None);
    same(&rt, "a store", points.watch_at(0, STORE), None);
    same(&rt, "a breakpoint", points.has_watches(), false);
    points.insert(own(WRITE, 0, 0x8000_0034, 4))?;
    same(&rt, "a watchpoint", points.has_watches(), true);
    points.remove(own(WRITE, 0, 0x8000_0034, 4));
    same(&rt, "none", points.has_watches(), false);
    Ok(())
}

#[test]
fn bytes_that_are_watched(rt: HostRuntime) -> Result<(), Fail> {
    let mut points = Points::new(rt.alloc());
    points.insert(own(SOFTWARE, 0, 0x8000_0034, 4))?;
    same(&rt, "a breakpoint", points.may_watch(LOAD), false);
    points.insert(own(READ, 0, 0x8000_0037, 1))?;
    same(&rt, "a load", points.may_watch(LOAD), true);
    same(&rt, "of any kind", points.may_watch(STORE), true);
    same(&rt, "elsewhere", points.may_watch(WRAPS), false);
    Ok(())
}
