//! A line that no session hears, and the lines of events.

use super::{BUSY, same, session_of, system_of};
use rt_debug::reply::{event_line, happened_line};
use rt_debug::{Command, Refusal, meant, parse_command};
use rt_points::Event;
use rt_walk::Happening;
use std::test::Fail;

#[test]
fn an_end_of_a_line_is_no_part_of_a_command(rt: HostRuntime) {
    let refused = parse_command(b"quit\n").err();
    same(&rt, "quit", refused, Some(Refusal::UnknownCommand));
}

#[test]
fn events_have_lines(rt: HostRuntime) {
    let event = Event::Wake;
    let one = event_line(event, Some(2), true);
    same(
        &rt,
        "of one",
        one.as_slice() == b"stop wake 2\n".as_slice(),
        true,
    );
    let every = event_line(event, None, false);
    same(
        &rt,
        "of every",
        every.as_slice() == b"unstop wake\n".as_slice(),
        true,
    );
    let job = None;
    let happened = happened_line(Happening {
        event,
        task: 2,
        job,
    });
    same(
        &rt,
        "happened",
        happened.as_slice() == b"wake: task 2\n".as_slice(),
        true,
    );
    let job = Some(9);
    let event = Event::Over;
    let over = happened_line(Happening {
        event,
        task: 2,
        job,
    });
    same(
        &rt,
        "over",
        over.as_slice() == b"over: task 2 job 9\n".as_slice(),
        true,
    );
}

#[test]
fn events_are_of_tasks(rt: HostRuntime) -> Result<(), Fail> {
    let system = system_of(rt.alloc(), BUSY)?;
    let session = session_of(rt.alloc(), &system).ok_or("no session")?;
    for (line, expected) in &[
        (b"stop wake".as_slice(), Ok(None)),
        (b"stop wake 1".as_slice(), Ok(Some(1))),
        (b"stop wake 2".as_slice(), Err(Refusal::UnknownTask)),
        (b"unstop wake task1".as_slice(), Ok(Some(1))),
        (b"unstop wake task2".as_slice(), Err(Refusal::UnknownTask)),
    ] {
        let Ok(Command::Events { whose, .. }) = parse_command(line) else {
            return Err(Fail::from("no event"));
        };
        same(
            &rt,
            *line,
            meant(&system.tasks, session.shown(), &whose),
            *expected,
        );
    }
    Ok(())
}
