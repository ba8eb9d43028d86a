//! Walks that go on.

use super::halts::{Named, Ran};
use super::{BUSY, Tried, same, system_of, walk_of};
use rt_walk::{Endless, Entries, Sought};
use std::process::Abort;
use std::test::Fail;

/// Goes on to where task 0 is named.
fn to_named(rt: &impl Abort, walk: &mut Tried, tick: u64) {
    let sought = walk.seek(Named(0), &mut Endless, 1000);
    same(rt, tick, sought, Sought::Met(0));
    same(rt, "named", walk.shown().now(), tick);
}

/// Goes on to behind an attempt of task 0.
fn to_ran(rt: &impl Abort, walk: &mut Tried, tick: u64) {
    let sought = walk.seek(Ran(0), &mut Endless, 1000);
    same(rt, tick, sought, Sought::Met(0));
    same(rt, "ran", walk.shown().now(), tick);
}

#[test]
fn walks_halt_where_a_task_is_named(rt: HostRuntime) -> Result<(), Fail> {
    let system = system_of(rt.alloc(), BUSY)?;
    let mut walk = walk_of(rt.alloc(), &system).ok_or("no walk")?;
    for tick in &[3, 6, 7, 10, 13] {
        to_named(&rt, &mut walk, *tick);
    }
    Ok(())
}

#[test]
fn walks_halt_behind_an_attempt(rt: HostRuntime) -> Result<(), Fail> {
    let system = system_of(rt.alloc(), BUSY)?;
    let mut walk = walk_of(rt.alloc(), &system).ok_or("no walk")?;
    for tick in &[1, 4, 7, 8, 11] {
        to_ran(&rt, &mut walk, *tick);
    }
    Ok(())
}

#[test]
fn walks_end_where_nothing_is_met(rt: HostRuntime) -> Result<(), Fail> {
    let system = system_of(rt.alloc(), BUSY)?;
    let mut walk = walk_of(rt.alloc(), &system).ok_or("no walk")?;
    let sought = walk.seek(Named(2), &mut Endless, 200_000);
    same(&rt, "nothing", sought, Sought::Unmet);
    same(&rt, "end", walk.shown().now(), 200_000);
    Ok(())
}

#[test]
fn walks_pause(rt: HostRuntime) -> Result<(), Fail> {
    let system = system_of(rt.alloc(), BUSY)?;
    let mut walk = walk_of(rt.alloc(), &system).ok_or("no walk")?;
    let sought = walk.seek(Named(2), &mut Entries::new(50_000), 200_000);
    same(&rt, "pause", sought, Sought::Paused);
    same(&rt, "on the way", walk.shown().now(), 50_000);
    let sought = walk.seek(Named(2), &mut Entries::new(150_000), 150_000);
    same(&rt, "no pause", sought, Sought::Unmet);
    same(&rt, "end", walk.shown().now(), 200_000);
    Ok(())
}

/// Positions are kept at 65,536 and 131,072: there a walk asks too, but not at its own end.
#[test]
fn walks_pause_at_kept_positions(rt: HostRuntime) -> Result<(), Fail> {
    let system = system_of(rt.alloc(), BUSY)?;
    let mut walk = walk_of(rt.alloc(), &system).ok_or("no walk")?;
    let sought = walk.seek(Named(2), &mut Entries::new(65_536), 200_000);
    same(&rt, "at the first", sought, Sought::Paused);
    same(&rt, "first", walk.shown().now(), 65_536);
    let sought = walk.seek(Named(2), &mut Entries::new(70_000), 200_000);
    same(&rt, "behind the second", sought, Sought::Paused);
    same(&rt, "second", walk.shown().now(), 135_536);
    let sought = walk.seek(Named(2), &mut Entries::new(1), 1);
    same(&rt, "one tick", sought, Sought::Unmet);
    same(&rt, "third", walk.shown().now(), 135_537);
    Ok(())
}
