//! Packets whose sums were added up by hand.

use crate::tests::same;
use rt_packet::{Decoder, Heard, MAX_PAYLOAD, encode};
use std::process::Abort;

/// Payloads, and their packets.
static SENT: [(&[u8], &[u8]); 5] = [
    (b"", b"$#00"),
    (b"l", b"$l#6c"),
    (b"OK", b"$OK#9a"),
    (b"qC", b"$qC#b4"),
    (b"T05thread:p1.1;", b"$T05thread:p1.1;#a6"),
];

/// Inputs of which only the last byte completes something, what it completes, and which payload is kept then.
static RECEIVED: [(&[u8], Heard, &[u8]); 31] = [
    (b"-", Heard::Again, b""),
    (b"+", Heard::Nothing, b""),
    (b"\x03", Heard::Interrupt, b""),
    (b"#", Heard::Nothing, b""),
    (b"+?#3f-", Heard::Again, b""),
    (b"$?#3f", Heard::Right, b"?"),
    (b"$?#3F", Heard::Right, b"?"),
    (b"$qC#b4", Heard::Right, b"qC"),
    (b"$qC#B4", Heard::Right, b"qC"),
    (b"$#00", Heard::Right, b""),
    (b"$+-\x03#5b", Heard::Right, b"+-\x03"),
    (b"$}\x03#80", Heard::Right, b"}\x03"),
    (b"$\xff\x02#01", Heard::Right, b"\xff\x02"),
    (b"+#$?#3f", Heard::Right, b"?"),
    (b"$p2$p21#d3", Heard::Right, b"p21"),
    (b"$$$p21#d3", Heard::Right, b"p21"),
    (b"$p21#00", Heard::Wrong, b"p21"),
    (b"$p2$p21#99", Heard::Wrong, b"p21"),
    (b"$qC#b5", Heard::Wrong, b"qC"),
    (b"$qC#a4", Heard::Wrong, b"qC"),
    (b"$qC#4b", Heard::Wrong, b"qC"),
    (b"$qC#$4", Heard::Wrong, b"qC"),
    (b"$qC#b$", Heard::Wrong, b"qC"),
    (b"$qC#b#", Heard::Wrong, b"qC"),
    (b"$qC#--", Heard::Wrong, b"qC"),
    (b"$qC##b", Heard::Wrong, b"qC"),
    (b"$?#3g", Heard::Wrong, b"?"),
    (b"$?#3G", Heard::Wrong, b"?"),
    (b"$@#4`", Heard::Wrong, b"@"),
    (b"$@#4/", Heard::Wrong, b"@"),
    (b"$#:0", Heard::Wrong, b""),
];

/// Feeds bytes, of which only the last completes something.
fn feed(rt: &impl Abort, decoder: &mut Decoder, bytes: &[u8], expected: Heard) {
    let mut last = Heard::Nothing;
    for byte in bytes {
        same(rt, bytes, last, Heard::Nothing);
        last = decoder.hear(*byte);
    }
    same(rt, bytes, last, expected);
}

#[test]
fn payloads_go_out(rt: HostRuntime) {
    for (payload, bytes) in &SENT {
        assert!(rt; payload.len() <= MAX_PAYLOAD);
        same(&rt, *payload, encode(payload).bytes(), *bytes);
    }
}

#[test]
fn inputs_are_heard(rt: HostRuntime) {
    for (bytes, heard, payload) in &RECEIVED {
        let mut decoder = Decoder::new();
        feed(&rt, &mut decoder, bytes, *heard);
        same(&rt, *bytes, decoder.payload(), *payload);
        // the decoder is outside of a packet
        feed(&rt, &mut decoder, b"-", Heard::Again);
        feed(&rt, &mut decoder, b"$OK#9a", Heard::Right);
    }
}

#[test]
fn packets_follow_each_other(rt: HostRuntime) {
    let mut decoder = Decoder::new();
    feed(&rt, &mut decoder, b"$?#3f", Heard::Right);
    feed(&rt, &mut decoder, b"+\x03", Heard::Interrupt);
    feed(&rt, &mut decoder, b"+?", Heard::Nothing);
    same(&rt, "after noise", decoder.payload(), b"?");
    feed(&rt, &mut decoder, b"$OK#9b", Heard::Wrong);
    feed(&rt, &mut decoder, b"-", Heard::Again);
    feed(&rt, &mut decoder, b"$OK#9a", Heard::Right);
    same(&rt, "after another", decoder.payload(), b"OK");
}

#[test]
fn a_packet_begins_without_its_dollar(rt: HostRuntime) {
    for before in [b"".as_slice(), b"+", b"$p2", b"$p2#", b"$p2#a"] {
        let mut decoder = Decoder::new();
        feed(&rt, &mut decoder, before, Heard::Nothing);
        decoder.begin();
        same(&rt, before, decoder.payload(), b"");
        feed(&rt, &mut decoder, b"?#3f", Heard::Right);
        same(&rt, before, decoder.payload(), b"?");
    }
}

/// Feeds a packet of `count` times `a` and these digits.
fn feed_long(rt: &impl Abort, count: u32, digits: &[u8], expected: Heard) {
    let mut decoder = Decoder::new();
    feed(rt, &mut decoder, b"$", Heard::Nothing);
    for _ in 0..count {
        feed(rt, &mut decoder, b"a", Heard::Nothing);
    }
    feed(rt, &mut decoder, b"#", Heard::Nothing);
    feed(rt, &mut decoder, digits, expected);
    same(rt, count, decoder.payload().len(), 4096.min(count as usize));
    let is_kept = decoder.payload().iter().all(|byte| *byte == b'a');
    same(rt, count, is_kept, true);
    feed(rt, &mut decoder, b"$OK#9a", Heard::Right);
}

/// `a` is 0x61, and 4096 times 0x61 is a multiple of 256.
#[test]
fn long_payloads(rt: HostRuntime) {
    feed_long(&rt, 4095, b"9f", Heard::Right);
    feed_long(&rt, 4096, b"00", Heard::Right);
    feed_long(&rt, 4096, b"61", Heard::Wrong);
    feed_long(&rt, 4097, b"61", Heard::TooLong);
    feed_long(&rt, 4097, b"00", Heard::Wrong);
    feed_long(&rt, 8192, b"00", Heard::TooLong);
}

#[test]
fn a_payload_of_4096_bytes_goes_out(rt: HostRuntime) {
    let bytes = [b'a'; 4096];
    let packet = encode(&bytes);
    same(&rt, "length", packet.bytes().len(), 4100);
    let mut decoder = Decoder::new();
    feed(&rt, &mut decoder, packet.bytes(), Heard::Right);
    same(&rt, "payload", decoder.payload(), bytes.as_slice());
}
