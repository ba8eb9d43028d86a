//! The actions of `vCont`.

use super::*;

const GOES: Option<Action> = Some(Action::Continue);

const STEPS: Option<Action> = Some(Action::Step);

/// Payloads, each with a task and how it goes on.
static ACTIONS: [(&[u8], u32, Option<Action>); 24] = [
    (b"vCont;c", 0, GOES),
    (b"vCont;s", 7, STEPS),
    (b"vCont;c:p1.1", 0, GOES),
    (b"vCont;c:p1.1", 1, None),
    (b"vCont;s:p1.1;c", 0, STEPS),
    (b"vCont;s:p1.1;c", 1, GOES),
    (b"vCont;c;s:p1.1", 0, GOES),
    (b"vCont;C0b:p2.2;c", 1, GOES),
    (b"vCont;C0b:p2.2;s", 1, GOES),
    (b"vCont;C0b:p2.2;s", 0, STEPS),
    (b"vCont;SfF:p2.2;c", 1, STEPS),
    (b"vCont;S05", 3, STEPS),
    (b"vCont;c:p9.9", 8, GOES),
    (b"vCont;c:p9.9", 9, None),
    (b"vCont;c:p9.9", 0, None),
    (b"vCont;c:-1", 4294967295, GOES),
    (b"vCont;s:p-1.-1", 2, STEPS),
    (b"vCont;s:0", 2, STEPS),
    (b"vCont;s:p2", 1, STEPS),
    (b"vCont;s:p2.-1", 1, STEPS),
    (b"vCont;s:2;c:2", 1, STEPS),
    (b"vCont;s:1;c:2", 1, GOES),
    (b"vCont;s:1;s:2;c:3", 2, GOES),
    (b"vCont;s:1;s:2;c:3", 3, None),
];

/// Payloads that begin as actions and are none.
static OTHERS: [&[u8]; 19] = [
    b"vCont;",
    b"vCont;c;",
    b"vCont;;c",
    b"vCont;x",
    b"vCont;cc",
    b"vCont;C",
    b"vCont;C0",
    b"vCont;C0b0",
    b"vCont;C0g",
    b"vCont;c0b",
    b"vCont;r80000000,80000010",
    b"vCont;t",
    b"vCont;c:",
    b"vCont;c:p1.2",
    b"vCont;c:x",
    b"vCont;c:1:1",
    b"vCont;:1",
    b"vCont;c;s:p1.2",
    b"vCont;c:1,s",
];

/// How a task goes on. Nothing where the payload is no `vCont` with actions.
fn action_at(payload: &[u8], task: u32) -> Option<Option<Action>> {
    match parse_request(payload) {
        Request::Resume(resumed) => Some(resumed.action_of(task)),
        _ => None,
    }
}

#[test]
fn the_first_action_counts(rt: HostRuntime) {
    for (payload, task, action) in &ACTIONS {
        same(&rt, *payload, action_at(*payload, *task), Some(*action));
    }
}

#[test]
fn every_action_is_one(rt: HostRuntime) {
    for payload in &OTHERS {
        let is_malformed = matches!(parse_request(*payload), Request::Malformed);
        same(&rt, *payload, is_malformed, true);
    }
}
