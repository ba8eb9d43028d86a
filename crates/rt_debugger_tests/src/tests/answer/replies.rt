//! Fixed answers.

use super::same_payload;
use rt_packet::answer::{Ids, Refused, Reply, fixed_answer, supported_answer};

/// Replies, and their payloads.
static REPLIES: [(Reply, &[u8]); 11] = [
    (Reply::Done, b"OK"),
    (Reply::NoMoreTasks, b"l"),
    (Reply::Unknown, b""),
    (Reply::Attached, b"1"),
    (Reply::Actions, b"vCont;c;C;s;S"),
    (Reply::Refused(Refused::Malformed), b"E01"),
    (Reply::Refused(Refused::NoMemory), b"E0c"),
    (Reply::Refused(Refused::NotInRam), b"E0e"),
    (Reply::Refused(Refused::TooManyPoints), b"E1c"),
    (Reply::Refused(Refused::ReadOnly), b"E1e"),
    (Reply::Refused(Refused::NoAnnex), b"E00"),
];

#[test]
fn each_reply(rt: HostRuntime) {
    for (reply, expected) in &REPLIES {
        same_payload(&rt, *expected, &fixed_answer(*reply), *expected);
    }
}

#[test]
fn features(rt: HostRuntime) {
    same_payload(
        &rt,
        "processes",
        &supported_answer(Ids::Processes),
        b"PacketSize=1000;multiprocess+;swbreak+;hwbreak+;vContSupported+;ReverseStep+;ReverseContinue+;qXfer:features:read+",
    );
    same_payload(
        &rt,
        "threads",
        &supported_answer(Ids::Threads),
        b"PacketSize=1000;swbreak+;hwbreak+;vContSupported+;ReverseStep+;ReverseContinue+;qXfer:features:read+",
    );
}
