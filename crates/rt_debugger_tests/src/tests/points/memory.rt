//! Requests for memory, of which one may be refused: with `rt try --test --fail-alloc N` the Nth.

use super::{SOFTWARE, WRITE, general, own};
use crate::tests::same;
use rt_points::*;
use std::test::Fail;

/// Inserts a point, and once more where there was no memory.
fn insert_again(points: &mut Points, point: Point) -> Result<(), PointFault> {
    match points.insert(point) {
        Err(PointFault::NoMemory) => points.insert(point),
        answer => answer,
    }
}

#[test]
fn points_are_inserted_again(rt: HostRuntime) -> Result<(), Fail> {
    let mut points = Points::new(rt.alloc());
    insert_again(&mut points, own(SOFTWARE, 5, 0x8000_0010, 4))?;
    insert_again(&mut points, own(SOFTWARE, 5, 0x8000_2010, 4))?;
    insert_again(&mut points, general(WRITE, 0x8000_0000, 1))?;
    let kind = Some(BreakKind::Software);
    same(&rt, "first", points.break_at(5, 0x8000_0010), kind);
    same(&rt, "second", points.break_at(5, 0x8000_2010), kind);
    same(&rt, "watches", points.has_watches(), true);
    Ok(())
}
