//! Breakpoints.

use super::{HARDWARE, SOFTWARE, WRITE, general, own};
use crate::tests::same;
use rt_points::*;
use std::test::Fail;

const SOFT: Option<BreakKind> = Some(BreakKind::Software);

const HARD: Option<BreakKind> = Some(BreakKind::Hardware);

#[test]
fn the_least_kind(rt: HostRuntime) -> Result<(), Fail> {
    let mut points = Points::new(rt.alloc());
    same(&rt, "none", points.break_at(1, 0x8000_0010), None);
    points.insert(own(HARDWARE, 1, 0x8000_0010, 4))?;
    same(&rt, "of 1", points.break_at(1, 0x8000_0010), HARD);
    same(&rt, "of 0", points.break_at(0, 0x8000_0010), None);
    same(&rt, "behind", points.break_at(1, 0x8000_0014), None);
    same(&rt, "within", points.break_at(1, 0x8000_0011), None);
    points.insert(own(SOFTWARE, 0, 0x8000_0010, 4))?;
    same(&rt, "of 0", points.break_at(0, 0x8000_0010), SOFT);
    same(&rt, "of 1 still", points.break_at(1, 0x8000_0010), HARD);
    points.insert(own(SOFTWARE, 1, 0x8000_0010, 4))?;
    same(&rt, "both kinds", points.break_at(1, 0x8000_0010), SOFT);
    Ok(())
}

#[test]
fn points_of_every_task(rt: HostRuntime) -> Result<(), Fail> {
    let mut points = Points::new(rt.alloc());
    points.insert(own(SOFTWARE, 3, 0x8000_0020, 4))?;
    points.insert(general(HARDWARE, 0x8000_0020, 4))?;
    same(&rt, "of 3", points.break_at(3, 0x8000_0020), SOFT);
    same(&rt, "of 0", points.break_at(0, 0x8000_0020), HARD);
    same(&rt, "of 63", points.break_at(63, 0x8000_0020), HARD);
    same(&rt, "elsewhere", points.break_at(0, 0x8000_0024), None);
    same(&rt, "may of 0", points.may_break(0, 0x8000_0020), true);
    same(&rt, "may of 3", points.may_break(3, 0x8000_0020), true);
    points.remove(general(HARDWARE, 0x8000_0020, 4));
    same(&rt, "of 0", points.break_at(0, 0x8000_0020), None);
    same(&rt, "not of 0", points.may_break(0, 0x8000_0020), false);
    same(&rt, "still of 3", points.may_break(3, 0x8000_0020), true);
    Ok(())
}

#[test]
fn watchpoints_break_nothing(rt: HostRuntime) -> Result<(), Fail> {
    let mut points = Points::new(rt.alloc());
    points.insert(own(WRITE, 0, 0x8000_0010, 4))?;
    points.insert(general(WRITE, 0x8000_0010, 4))?;
    same(&rt, "a watchpoint", points.break_at(0, 0x8000_0010), None);
    same(&rt, "may", points.may_break(0, 0x8000_0010), false);
    Ok(())
}

/// 80000000 and 80100000, 4 * 262144 further on, have one mark.
#[test]
fn two_points_with_one_mark(rt: HostRuntime) -> Result<(), Fail> {
    let mut points = Points::new(rt.alloc());
    points.insert(own(SOFTWARE, 1, 0x8000_0000, 4))?;
    points.insert(own(SOFTWARE, 1, 0x8010_0000, 4))?;
    points.remove(own(SOFTWARE, 1, 0x8000_0000, 4));
    same(&rt, "the first", points.break_at(1, 0x8000_0000), None);
    same(&rt, "the second", points.break_at(1, 0x8010_0000), SOFT);
    same(&rt, "may", points.may_break(1, 0x8010_0000), true);
    points.remove(own(SOFTWARE, 1, 0x8010_0000, 4));
    same(&rt, "the second", points.break_at(1, 0x8010_0000), None);
    same(&rt, "may", points.may_break(1, 0x8010_0000), false);
    same(&rt, "may", points.may_break(1, 0x8000_0000), false);
    Ok(())
}

/// Two kinds at one place have one mark.
#[test]
fn two_kinds_at_one_place(rt: HostRuntime) -> Result<(), Fail> {
    let mut points = Points::new(rt.alloc());
    points.insert(own(SOFTWARE, 1, 0x8000_0008, 4))?;
    points.insert(own(HARDWARE, 1, 0x8000_0008, 4))?;
    points.remove(own(SOFTWARE, 1, 0x8000_0008, 4));
    same(&rt, "hardware", points.break_at(1, 0x8000_0008), HARD);
    same(&rt, "of 1", points.may_break(1, 0x8000_0008), true);
    same(&rt, "of 0", points.may_break(0, 0x8000_0008), false);
    same(&rt, "behind", points.may_break(1, 0x8000_000c), false);
    Ok(())
}

#[test]
fn one_place(rt: HostRuntime) -> Result<(), Fail> {
    let mut points = Points::new(rt.alloc());
    let place = Place {
        task: 1,
        pc: 0x8000_0010,
    };
    same(&rt, "none", points.breaking(), Breaking::Nowhere);
    points.insert(own(SOFTWARE, 1, 0x8000_0010, 4))?;
    same(&rt, "one", points.breaking(), Breaking::At(place));
    points.insert(own(HARDWARE, 0, 0x8000_0010, 4))?;
    same(&rt, "two", points.breaking(), Breaking::Anywhere);
    Ok(())
}
