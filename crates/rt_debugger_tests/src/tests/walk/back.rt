//! Looks back.

use super::halts::{Named, Ran};
use super::{BUSY, Tried, same, system_of, walk_of};
use rt_command::Refusal;
use rt_walk::{Endless, Entries, HaltBack, Last, WayBack};
use std::process::Abort;
use std::test::Fail;

/// What is found from a tick on, down to another.
fn look<H: HaltBack<Found = u32>>(
    walk: &mut Tried,
    halt: H,
    low: u64,
    passes: bool,
) -> Result<Last<u32>, Refusal> {
    walk.last_met(halt, &mut Endless, WayBack { low, passes })
}

fn look_for_named(rt: &impl Abort, walk: &mut Tried, low: u64, last: Last<u32>) {
    same(rt, low, look(walk, Named(0), low, false), Ok(last));
}

fn look_for_ran(rt: &impl Abort, walk: &mut Tried, passes: bool, low: u64, last: Last<u32>) {
    same(rt, (low, passes), look(walk, Ran(0), low, passes), Ok(last));
}

#[test]
fn looks_halt_before_an_attempt(rt: HostRuntime) -> Result<(), Fail> {
    let system = system_of(rt.alloc(), BUSY)?;
    let mut walk = walk_of(rt.alloc(), &system).ok_or("no walk")?;
    look_for_named(&rt, &mut walk, 0, Last::Unmet);
    walk.step(3);
    look_for_named(&rt, &mut walk, 0, Last::Met(0, 0));
    walk.step(7);
    look_for_named(&rt, &mut walk, 0, Last::Met(7, 0));
    look_for_named(&rt, &mut walk, 7, Last::Met(7, 0));
    look_for_named(&rt, &mut walk, 8, Last::Unmet);
    look_for_named(&rt, &mut walk, 99, Last::Unmet);
    walk.step(2);
    look_for_named(&rt, &mut walk, 0, Last::Met(10, 0));
    same(&rt, "stays", walk.shown().now(), 12);
    Ok(())
}

#[test]
fn looks_halt_behind_an_attempt(rt: HostRuntime) -> Result<(), Fail> {
    let system = system_of(rt.alloc(), BUSY)?;
    let mut walk = walk_of(rt.alloc(), &system).ok_or("no walk")?;
    walk.step(10);
    look_for_ran(&rt, &mut walk, false, 0, Last::Met(8, 0));
    look_for_ran(&rt, &mut walk, true, 0, Last::Met(8, 0));
    look_for_ran(&rt, &mut walk, false, 8, Last::Met(8, 0));
    look_for_ran(&rt, &mut walk, false, 9, Last::Unmet);
    same(&rt, "back", walk.back(2), Ok(()));
    look_for_ran(&rt, &mut walk, false, 0, Last::Met(8, 0));
    look_for_ran(&rt, &mut walk, true, 0, Last::Met(7, 0));
    same(&rt, "back", walk.back(7), Ok(()));
    look_for_ran(&rt, &mut walk, false, 0, Last::Met(1, 0));
    look_for_ran(&rt, &mut walk, true, 0, Last::Unmet);
    Ok(())
}

#[test]
fn ways_back_lead_to_a_tick(rt: HostRuntime) -> Result<(), Fail> {
    let system = system_of(rt.alloc(), BUSY)?;
    let mut walk = walk_of(rt.alloc(), &system).ok_or("no walk")?;
    walk.step(10);
    same(
        &rt,
        "behind",
        (walk.back_to(7), walk.shown().now()),
        (Ok(()), 7),
    );
    same(
        &rt,
        "not on",
        (walk.back_to(9), walk.shown().now()),
        (Ok(()), 7),
    );
    same(
        &rt,
        "first",
        (walk.back_to(0), walk.shown().now()),
        (Ok(()), 0),
    );
    Ok(())
}

/// Over positions that are kept at each multiple of 65,536, of which the last is 983,040.
#[test]
fn looks_go_far(rt: HostRuntime) -> Result<(), Fail> {
    let system = system_of(rt.alloc(), BUSY)?;
    let mut walk = walk_of(rt.alloc(), &system).ok_or("no walk")?;
    walk.step(1_000_000);
    let all = WayBack {
        low: 0,
        passes: false,
    };
    let last = walk.last_met(Named(2), &mut Endless, all);
    same(&rt, "nothing", last, Ok(Last::Unmet));
    let last = walk.last_met(Named(2), &mut Entries::new(1000), all);
    same(&rt, "first piece", last, Ok(Last::Paused(983_041)));
    let last = walk.last_met(Named(2), &mut Entries::new(20_000), all);
    same(&rt, "second piece", last, Ok(Last::Paused(917_505)));
    Ok(())
}
