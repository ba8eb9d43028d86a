//! What is met, and what a set holds: addresses and bytes that were counted by hand.

use crate::tests::same;
use rt_points::*;

mod accesses;
mod breaks;
mod events;
mod memory;
mod sets;
mod watches;

const SOFTWARE: PointKind = PointKind::Break(BreakKind::Software);

const HARDWARE: PointKind = PointKind::Break(BreakKind::Hardware);

const WRITE: PointKind = PointKind::Watch(WatchKind::Write);

const READ: PointKind = PointKind::Watch(WatchKind::Read);

const ACCESS: PointKind = PointKind::Watch(WatchKind::Access);

/// A point of one task.
fn own(kind: PointKind, task: u32, address: u32, length: u64) -> Point {
    Point {
        kind,
        task: Some(task),
        address,
        length,
    }
}

/// A point of every task.
fn general(kind: PointKind, address: u32, length: u64) -> Point {
    Point {
        kind,
        task: None,
        address,
        length,
    }
}
