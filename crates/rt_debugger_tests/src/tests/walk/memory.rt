//! Requests for memory of a look back, of which one may be refused: with `rt try --test --fail-alloc N` the Nth.

use super::halts::Named;
use super::{BUSY, Tried, same, system_of, walk_of};
use rt_command::Refusal;
use rt_walk::{Endless, Last, WayBack};
use std::alloc::Global;
use std::process::Abort;
use std::test::Fail;

/// What was refused once has changed nothing, and is answered when it is asked for again.
fn look_again(walk: &mut Tried, back: WayBack) -> Result<Last<u32>, Refusal> {
    match walk.last_met(Named(0), &mut Endless, back) {
        Err(Refusal::NoMemory) => walk.last_met(Named(0), &mut Endless, back),
        last => last,
    }
}

fn looks(rt: &impl Abort, alloc: Global) -> Result<(), Fail> {
    let Ok(system) = system_of(alloc, BUSY) else {
        return Ok(());
    };
    let Some(mut walk) = walk_of(alloc, &system) else {
        return Ok(());
    };
    walk.step(200_000);
    let back = WayBack {
        low: 0,
        passes: false,
    };
    let last = look_again(&mut walk, back);
    same(rt, "looked", last.is_ok(), true);
    same(rt, "stays", walk.shown().now(), 200_000);
    Ok(())
}

#[test]
fn looks_are_refused_once(rt: HostRuntime) -> Result<(), Fail> {
    looks(&rt, rt.alloc())
}
