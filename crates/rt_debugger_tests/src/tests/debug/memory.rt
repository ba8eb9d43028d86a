//! Requests for memory of a session, of which one may be refused: with `rt try --test --fail-alloc N` the Nth.

use super::{BUSY, Tried, place_of, same, session_of, system_of, tick_of};
use rt_core::{Machine, Next};
use rt_debug::{
    Command, PlaceStop, Refusal, Reply, Session, Stop, Stopped, parse_command, write_reply,
};
use rt_exec::Predecoded;
use rt_queue::Tournament;
use rt_sink::{Limited, Sink};
use std::alloc::{AllocError, Global};
use std::process::Abort;
use std::test::Fail;

static COMMANDS: [&[u8]; 12] = [
    b"step 200000",
    b"trace 2",
    b"back 1",
    b"server 0",
    b"list 0 0x80000000 1",
    b"back 99999",
    b"mem 1 0x80000000 4",
    b"regs 1",
    b"out 0",
    b"continue 1",
    b"trace 1",
    b"back 65537",
];

/// What they answer. A model in another language gave the ticks, the tasks and the server.
static ANSWERS: &[u8] =
    b"tick 200000 next 0 80000000\n199998 1 80000000 0000006f next\n199999 1 80000000 0000006f next\ntick 199999 next 1 80000000\ntask 0 active c 1 d 240003 q 1 p 3\n80000000 0000006f jal x0,0x80000000\ntick 100000 next 0 80000000\nmem 80000000 6f000000\npc 80000000 regs\nout 0\nno stop tick 100001 next 1 80000000\n100000 0 80000000 0000006f next\ntick 34464 next 1 80000000\n";

fn exec(session: &mut Tried, line: &[u8]) -> Result<Reply, Refusal> {
    session.exec(parse_command(line).unwrap_or(Command::Quit))
}

/// What was refused once has changed nothing, and is answered when it is asked for again.
fn exec_again(session: &mut Tried, line: &[u8]) -> Result<Reply, Refusal> {
    match exec(session, line) {
        Err(Refusal::NoMemory) => exec(session, line),
        answer => answer,
    }
}

/// Writes the answer to a line.
fn answer(
    rt: &impl Abort,
    session: &mut Tried,
    line: &[u8],
    sink: &mut Limited,
) -> Result<(), Fail> {
    let Ok(reply) = exec_again(session, line) else {
        return Err(Fail::from("refused twice"));
    };
    assert!(rt; !sink.has_failed());
    same(rt, line, write_reply(sink, &reply).is_ok(), true);
    Ok(())
}

/// Looks at what is answered to lines.
fn answer_all(
    rt: &impl Abort,
    session: &mut Tried,
    sink: &mut Limited,
    commands: &[&[u8]],
    answers: &[u8],
) -> Result<(), Fail> {
    for line in commands {
        answer(rt, session, line, sink)?;
    }
    same(rt, "answers", sink.bytes(), answers);
    Ok(())
}

/// A session on this system file.
pub fn answers_once(
    rt: &impl Abort,
    alloc: Global,
    file: &[u8],
    commands: &[&[u8]],
    answers: &[u8],
) -> Result<(), Fail> {
    let Ok(mut sink) = Limited::new(alloc, 4096, 4096) else {
        return Ok(());
    };
    let Ok(system) = system_of(alloc, file) else {
        return Ok(());
    };
    match session_of(alloc, &system) {
        Some(mut session) => answer_all(rt, &mut session, &mut sink, commands, answers),
        None => Ok(()),
    }
}

#[test]
fn commands_are_refused_once(rt: HostRuntime) -> Result<(), Fail> {
    answers_once(&rt, rt.alloc(), BUSY, &COMMANDS, ANSWERS)
}

/// How far a session goes back, and at which tick it is then.
static WAYS_BACK: [(u64, u64); 5] = [
    (1, 299_999),
    (99_999, 200_000),
    (1, 199_999),
    (199_998, 1),
    (1, 0),
];

fn go_back(rt: &impl Abort, session: &mut Tried) {
    let reply = session.exec(Command::Step(300_000));
    same(rt, "on", tick_of(reply), Some((Stopped::Unasked, 300_000)));
    for (count, tick) in &WAYS_BACK {
        let reply = session.exec(Command::Back(*count));
        same(rt, *count, tick_of(reply), Some((Stopped::Unasked, *tick)));
    }
}

/// A way back for which there was no memory is gone from another position, once those that are kept are given up: it isn't refused.
#[test]
fn ways_back_are_answered(rt: HostRuntime) {
    if let Ok(system) = system_of(rt.alloc(), BUSY) {
        if let Some(mut session) = session_of(rt.alloc(), &system) {
            go_back(&rt, &mut session);
        }
    }
}

/// What is to be done at a tick.
fn next_of(reply: Result<Reply, Refusal>) -> Option<(u64, Next)> {
    match reply {
        Ok(Reply::Tick { t, next, .. }) => Some((t, next)),
        _ => None,
    }
}

/// The session goes on from tick 5.
fn go_on_from_5(rt: &impl Abort, session: &mut Tried) {
    let next = Next::Run {
        task: 0,
        pc: 0x8000_0000,
    };
    let reply = session.exec(Command::Step(2));
    same(rt, "a tick", next_of(reply), Some((7, next)));
}

/// A machine for whose session there was no memory is handed back as it was.
#[test]
fn machines_are_handed_back(rt: HostRuntime) -> Result<(), Fail> {
    let Ok(system) = system_of(rt.alloc(), BUSY) else {
        return Ok(());
    };
    let Ok(mut machine) = Machine::<Tournament, Predecoded>::load(rt.alloc(), &system) else {
        return Ok(());
    };
    machine.run(5);
    let Err(back) = Session::new(rt.alloc(), machine, &system) else {
        return Ok(());
    };
    same(&rt, "now", back.now(), 5);
    match Session::new(rt.alloc(), back, &system) {
        Ok(mut session) => go_on_from_5(&rt, &mut session),
        Err(_) => return Err(Fail::from("refused twice")),
    }
    Ok(())
}

/// Looks at the stops of the nineteen: numbers 1 to 9 are task 0's, and the others task 1's.
fn meet_stops(rt: &impl Abort, session: &mut Tried) {
    for (tick, number) in &[(1, 10), (2, 10), (3, 1)] {
        let reply = session.exec(Command::Continue(1));
        let met = Some((Stopped::At(*number), *tick));
        same(rt, *tick, tick_of(reply), met);
    }
}

/// A box, which is made once more where there was no memory.
fn boxed(alloc: Global, place: PlaceStop) -> Result<Box<PlaceStop>, AllocError> {
    match Box::new(alloc, place) {
        Ok(stop) => Ok(stop),
        Err(failed) => Ok(Box::new(alloc, failed.value)?),
    }
}

/// Adds a stop, which is handed back where it was refused once, and is given again.
fn add_stop_again(session: &mut Tried, stop: Box<dyn Stop>) -> Option<u32> {
    match session.add_stop(stop) {
        Ok(number) => Some(number),
        Err((stop, Refusal::NoMemory)) => session.add_stop(stop).ok(),
        Err(_) => None,
    }
}

fn add_stops(rt: &impl Abort, alloc: Global, session: &mut Tried) -> Result<(), Fail> {
    for number in 1..20 {
        let stop = boxed(alloc, place_of(number / 10))?;
        let added = add_stop_again(session, stop).ok_or("refused twice")?;
        same(rt, "a number", added, number);
    }
    Ok(())
}

#[test]
fn stops_are_refused_once(rt: HostRuntime) -> Result<(), Fail> {
    let Ok(system) = system_of(rt.alloc(), BUSY) else {
        return Ok(());
    };
    let Some(mut session) = session_of(rt.alloc(), &system) else {
        return Ok(());
    };
    add_stops(&rt, rt.alloc(), &mut session)?;
    meet_stops(&rt, &mut session);
    Ok(())
}

fn add_place_again(session: &mut Tried, place: PlaceStop) -> Option<u32> {
    match session.add_place(place) {
        Err(Refusal::NoMemory) => session.add_place(place).ok(),
        added => added.ok(),
    }
}

fn add_places(rt: &impl Abort, session: &mut Tried) -> Result<(), Fail> {
    for number in 1..20 {
        let added = add_place_again(session, place_of(number / 10)).ok_or("refused twice")?;
        same(rt, "a number", added, number);
    }
    Ok(())
}

/// So with stops for places, which need no box.
#[test]
fn places_are_refused_once(rt: HostRuntime) -> Result<(), Fail> {
    let Ok(system) = system_of(rt.alloc(), BUSY) else {
        return Ok(());
    };
    let Some(mut session) = session_of(rt.alloc(), &system) else {
        return Ok(());
    };
    add_places(&rt, &mut session)?;
    meet_stops(&rt, &mut session);
    Ok(())
}
