//! Requests for memory of ways back, of which one may be refused: with `rt try --test --fail-alloc N` the Nth.

use super::*;
use rt_command::Refusal;
use rt_walk::Endless;
use std::test::Fail;

/// What was refused once has changed nothing, and is answered when it is asked for again.
fn go_again(walk: &mut Tried, way: Backward<'_>) -> Result<Told, Refusal> {
    match go_back(walk, way, &mut Endless) {
        Err(Refusal::NoMemory) => go_back(walk, way, &mut Endless),
        told => told,
    }
}

fn step_again(walk: &mut Tried, way: OneBack<'_>) -> Result<Told, Refusal> {
    match step_back(walk, way) {
        Err(Refusal::NoMemory) => step_back(walk, way),
        told => told,
    }
}

fn ways(rt: &impl Abort, alloc: Global) -> Result<(), Fail> {
    let Ok(system) = system_of(alloc, PAIR) else {
        return Ok(());
    };
    let Some(mut walk) = walk_of(alloc, &system) else {
        return Ok(());
    };
    let Some(points) = points_of(alloc, &[BREAK]) else {
        return Ok(());
    };
    let actions = actions_of(BOTH);
    walk.step(200_000);
    let one = OneBack {
        task: 1,
        points: &points,
        passes: false,
    };
    let told = step_again(&mut walk, one);
    same(
        rt,
        "stepped",
        (told.is_ok(), walk.shown().now()),
        (true, 199_999),
    );
    let way = Backward {
        actions: &actions,
        points: &points,
        events: &Events::none(),
        shown: 0,
        passes: false,
        tick_stop: None,
    };
    let told = go_again(&mut walk, way);
    same(rt, "gone", (told.is_ok(), walk.shown().now()), (true, 4));
    Ok(())
}

#[test]
fn ways_back_are_refused_once(rt: HostRuntime) -> Result<(), Fail> {
    ways(&rt, rt.alloc())
}
