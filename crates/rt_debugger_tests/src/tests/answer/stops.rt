//! Stops of task 0.

use super::same_payload;
use crate::tests::same;
use rt_exec::Fault;
use rt_packet::answer::{Ids, Stop, stop_answer};
use rt_packet::encode;
use rt_points::{BreakKind, WatchKind, Watched};

/// What is met at 0x80000034.
const WRITTEN: Watched = Watched {
    kind: WatchKind::Write,
    address: 0x8000_0034,
};

const READ: Watched = Watched {
    kind: WatchKind::Read,
    address: 0x8000_0034,
};

const ACCESSED: Watched = Watched {
    kind: WatchKind::Access,
    address: 0x8000_0034,
};

/// Stops, and how they are written.
static STOPS: [(Stop, &[u8]); 20] = [
    (Stop::Plain, b"T05thread:p1.1;"),
    (Stop::Ended, b"T0fthread:p1.1;"),
    (Stop::Faulted(Fault::Illegal), b"T04thread:p1.1;"),
    (Stop::Faulted(Fault::Break), b"T05thread:p1.1;"),
    (Stop::Faulted(Fault::JumpMisaligned), b"T0athread:p1.1;"),
    (Stop::Faulted(Fault::LoadMisaligned), b"T0athread:p1.1;"),
    (Stop::Faulted(Fault::StoreMisaligned), b"T0athread:p1.1;"),
    (Stop::Faulted(Fault::FetchAccess), b"T0bthread:p1.1;"),
    (Stop::Faulted(Fault::LoadAccess), b"T0bthread:p1.1;"),
    (Stop::Faulted(Fault::StoreAccess), b"T0bthread:p1.1;"),
    (Stop::Faulted(Fault::UnknownCall), b"T0cthread:p1.1;"),
    (Stop::AtTick, b"T00thread:p1.1;"),
    (Stop::Interrupted, b"T02thread:p1.1;"),
    (
        Stop::Break(BreakKind::Software),
        b"T05swbreak:;thread:p1.1;",
    ),
    (
        Stop::Break(BreakKind::Hardware),
        b"T05hwbreak:;thread:p1.1;",
    ),
    (Stop::Watch(WRITTEN), b"T05watch:80000034;thread:p1.1;"),
    (Stop::Watch(READ), b"T05rwatch:80000034;thread:p1.1;"),
    (Stop::Watch(ACCESSED), b"T05awatch:80000034;thread:p1.1;"),
    (Stop::Begin, b"T05replaylog:begin;thread:p1.1;"),
    (Stop::End, b"T05replaylog:end;thread:p1.1;"),
];

#[test]
fn each_stop(rt: HostRuntime) {
    for (stop, expected) in &STOPS {
        same_payload(
            &rt,
            *expected,
            &stop_answer(Ids::Processes, *stop, 0),
            *expected,
        );
    }
}

#[test]
fn stops_of_other_tasks(rt: HostRuntime) {
    let software = Stop::Break(BreakKind::Software);
    same_payload(
        &rt,
        "task 1",
        &stop_answer(Ids::Processes, software, 1),
        b"T05swbreak:;thread:p2.2;",
    );
    same_payload(
        &rt,
        "thread 16",
        &stop_answer(Ids::Threads, Stop::Ended, 15),
        b"T0fthread:10;",
    );
}

/// The address has eight digits, also where it begins with zeros.
#[test]
fn low_addresses(rt: HostRuntime) {
    let low = Stop::Watch(Watched {
        kind: WatchKind::Write,
        address: 0xb,
    });
    same_payload(
        &rt,
        "byte b",
        &stop_answer(Ids::Threads, low, 0),
        b"T05watch:0000000b;thread:1;",
    );
}

/// The sum of the payload's bytes is 0x4a6.
#[test]
fn a_stop_goes_out(rt: HostRuntime) {
    let payload = stop_answer(Ids::Processes, Stop::Plain, 0);
    let packet = encode(payload.as_slice());
    let expected = b"$T05thread:p1.1;#a6".as_slice();
    same(&rt, "a packet", packet.bytes(), expected);
}
