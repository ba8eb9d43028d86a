//! Sessions by calls, with stops of the tests' own.

use super::{BUSY, Tried, same, session_of, system_of, tick_of};
use rt_debug::{Command, PlaceStop, Refusal, Stop, Stopped};
use std::alloc::{AllocError, Global};
use std::process::Abort;
use std::test::Fail;

/// A stop for one task, wherever it is.
#[derive(Debug, Drop)]
struct TaskStop {
    task: u32,
}

impl Stop for TaskStop {
    ghost use Rattle.std.specs.Prelude.{◌==◌};

    ghost meets = { λ stop task pc. stop.task == task };

    fn hits(&self, task: u32, _pc: u32) -> bool {
        self.task == task
    }
}

/// Adds a stop for task 0.
fn add_stop(alloc: Global, session: &mut Tried) -> Result<u32, Refusal> {
    let Ok(stop) = Box::new(alloc, TaskStop { task: 0 }) else {
        return Err(Refusal::NoMemory);
    };
    match session.add_stop(stop) {
        Ok(number) => Ok(number),
        Err((_, refusal)) => Err(refusal),
    }
}

/// Goes on, and looks at the stop and the tick.
fn stops_at(rt: &impl Abort, session: &mut Tried, ticks: u64, number: u32, tick: u64) {
    let reply = session.exec(Command::Continue(ticks));
    let met = Some((Stopped::At(number), tick));
    same(rt, tick, tick_of(reply), met);
}

fn find_stops(rt: &impl Abort, alloc: Global, session: &mut Tried) {
    let reply = session.exec(Command::Step(3));
    same(rt, "on", tick_of(reply), Some((Stopped::Unasked, 3)));
    same(rt, "a stop", add_stop(alloc, session), Ok(1));
    for tick in &[6, 7, 10] {
        stops_at(rt, session, 1_000_000, 1, *tick);
    }
}

#[test]
fn stops_are_found_later(rt: HostRuntime) -> Result<(), Fail> {
    let system = system_of(rt.alloc(), BUSY)?;
    let mut session = session_of(rt.alloc(), &system).ok_or("no session")?;
    find_stops(&rt, rt.alloc(), &mut session);
    Ok(())
}

fn delete(rt: &impl Abort, session: &mut Tried, number: u32) {
    let deleted = session.exec(Command::Delete(number)).is_ok();
    same(rt, number, deleted, true);
}

fn use_numbers(rt: &impl Abort, alloc: Global, session: &mut Tried) {
    for number in 1..65_536 {
        same(rt, "a number", add_stop(alloc, session), Ok(number));
        delete(rt, session, number);
    }
    let refused = Err(Refusal::TooManyStops);
    same(rt, "no number", add_stop(alloc, session), refused);
}

#[test]
fn numbers_are_used_once(rt: HostRuntime) -> Result<(), Fail> {
    let system = system_of(rt.alloc(), BUSY)?;
    let mut session = session_of(rt.alloc(), &system).ok_or("no session")?;
    use_numbers(&rt, rt.alloc(), &mut session);
    Ok(())
}

/// A system file of one task that may execute at each tick, up to its image of 401 words: 400 that do nothing, and a jump back to the
/// first. So at tick t it is about to execute word t modulo 401.
static WALKER: &[u8] =
    b"RTS1\x01\0\0\0\x01\0\0\0\x01\0\0\0\x01\0\0\0\0\0\0\0\0\x08\0\0\x54\x06\0\0RTI1\0\0\0\x80\x44\x06\0\0\0\0\0\0";

fn walker(alloc: Global) -> Result<Vec<u8>, AllocError> {
    let mut file = Vec::new(alloc);
    file.extend_from_slice(WALKER)?;
    for _ in 0..400 {
        file.extend_from_slice(b"\x13\0\0\0")?;
    }
    file.extend_from_slice(b"\x6f\xf0\x1f\x9c")?;
    Ok(file)
}

/// Adds a stop at this word of the walker.
fn add_word(session: &mut Tried, word: u16) -> Result<u32, Refusal> {
    session.add_place(PlaceStop {
        task: 0,
        pc: 0x8000_0000 + u32::from(word) * 4,
    })
}

/// Stop k is at word 401 - k, and three more are at words that have one.
fn add_words(rt: &impl Abort, session: &mut Tried) {
    for word in (101..401).rev() {
        let number = 401 - u32::from(word);
        same(rt, word, add_word(session, word), Ok(number));
    }
    same(rt, 160, add_word(session, 160), Ok(301));
    same(rt, 170, add_word(session, 170), Ok(302));
    same(rt, 180, add_word(session, 180), Ok(303));
}

/// Of the words from 101 to 150 all stops are deleted, of 160 the first, of 170 the second, and of 180 none.
fn delete_some(rt: &impl Abort, session: &mut Tried) {
    for number in 251..301 {
        delete(rt, session, number);
    }
    delete(rt, session, 241);
    delete(rt, session, 302);
}

/// Looks at each stop that is left.
fn meet_words(rt: &impl Abort, session: &mut Tried) {
    for word in 151..401 {
        let number = if word == 160 { 301 } else { 401 - word };
        stops_at(rt, session, 1_000, number, u64::from(word));
    }
    let reply = session.exec(Command::Continue(100));
    same(rt, "on", tick_of(reply), Some((Stopped::NoStop, 500)));
}

#[test]
fn many_stops_are_met_in_turn(rt: HostRuntime) -> Result<(), Fail> {
    let file = walker(rt.alloc())?;
    let system = system_of(rt.alloc(), &file)?;
    let mut session = session_of(rt.alloc(), &system).ok_or("no session")?;
    add_words(&rt, &mut session);
    delete_some(&rt, &mut session);
    meet_words(&rt, &mut session);
    same(&rt, "a stop", add_stop(rt.alloc(), &mut session), Ok(304));
    stops_at(&rt, &mut session, 100, 304, 501);
    Ok(())
}
