//! Packets that come in, byte by byte.

ghost use Rattle.std.specs.Prelude.{◌≡◌, ◌≤◌, [], length};
ghost use Rattle.rt_packet.specs.Packet.{payload_limit};
ghost use Rattle.rt_packet.specs.Frame.{Half, Outside, Payload, Within, begun, hears, kept_of, says, verdict, with_byte};

use crate::encoding::MAX_PAYLOAD;
use arrayvec::ArrayVec;
use std::marker::Model;

/// What gdb sends outside of a packet to interrupt a run.
pub const INTERRUPT: u8 = 3;

/// What a byte of the input completes.
#[derive(Clone, Copy, PartialEq, Eq)]
pub enum Heard {
    /// Nothing: the byte is dropped, or is part of a packet that goes on.
    Nothing,
    /// A packet whose digits say its sum, with a payload of at most 4096 bytes.
    Right,
    /// A packet whose digits say its sum, with a longer payload.
    TooLong,
    /// A packet whose digits don't say its sum.
    Wrong,
    /// A `-`, which asks for the last packet that went out again.
    Again,
    /// The byte that interrupts, outside of a packet.
    Interrupt,
}

/// The part of the input that the next byte belongs to.
#[derive(Clone, Copy)]
pub(crate) enum Place {
    /// No packet.
    Outside,
    /// A payload.
    Within,
    /// The first of the two bytes behind `#`.
    Ended,
    /// The second of them, behind this first one.
    Half(u8),
}

/// Reads packets byte by byte, and keeps the first 4096 bytes of a payload. Contracts see it as a `Frame`.
#[derive(Drop)]
pub struct Decoder {
    place: Place,
    kept: ArrayVec<u8, MAX_PAYLOAD>,
    is_long: bool,
    total: u8,
}

impl Model for Decoder {
    ghost use Rattle.rt_packet.specs.Frame.{Frame};

    ghost Value = { Frame };

    ghost use Rattle.rt_packet.specs.Working.Seen.{frame_of};

    ghost view = { λ d. frame_of d.place (record { kept = d.kept.items; is_long = d.is_long; total = d.total }) };
}

/// Whether two bytes are hexadecimal digits of either case and say this sum, the first the higher one.
fn says(first: u8, second: u8, total: u8) -> bool
    ensures { result ≡ says first second total }
{
    match ((first as char).to_digit(16), (second as char).to_digit(16)) {
        (Some(high), Some(low)) => 16 * high + low == total as u32,
        _ => false,
    }
}

impl Decoder {
    /// A decoder outside of a packet, with no payload.
    pub fn new() -> Decoder
        ensures { result ≡ Outside [] }
    {
        Decoder {
            place: Place::Outside,
            kept: ArrayVec::new(),
            is_long: false,
            total: 0,
        }
    }

    /// Begins a packet, as if `$` had just been read outside of one.
    pub fn begin(&mut self)
        ensures { self.new ≡ begun }
    {
        self.place = Place::Within;
        self.kept.clear();
        self.is_long = false;
        self.total = 0;
    }

    /// Reads one byte, and answers what it completes. Allocates nothing.
    pub fn hear(&mut self, byte: u8) -> Heard
        ensures { (self.new, result) ≡ hears self.old byte }
    {
        match (self.place, byte) {
            (Place::Outside | Place::Within, b'$') => self.begin(),
            (Place::Outside, b'-') => return Heard::Again,
            (Place::Outside, INTERRUPT) => return Heard::Interrupt,
            (Place::Outside, _) => {}
            (Place::Within, b'#') => self.place = Place::Ended,
            (Place::Within, _) => self.keep(byte),
            (Place::Ended, _) => self.place = Place::Half(byte),
            (Place::Half(first), _) => return self.finish(first, byte),
        }
        Heard::Nothing
    }

    /// Adds one byte to a payload.
    fn keep(&mut self, byte: u8)
        ensures { (payload : Payload) → self.old ≡ Within payload → self.new ≡ Within (with_byte payload byte) }
    {
        if self.kept.try_push(byte).is_err() {
            self.is_long = true;
        }
        self.total = self.total.wrapping_add(byte);
    }

    /// Finishes a packet, whose last two bytes are these.
    fn finish(&mut self, first: u8, second: u8) -> Heard
        ensures frame { self.new ≡ Outside (kept_of self.old) }
        ensures heard { (payload : Payload) → self.old ≡ Half payload first → result ≡ verdict payload first second }
    {
        self.place = Place::Outside;
        if !says(first, second, self.total) {
            return Heard::Wrong;
        }
        if self.is_long {
            Heard::TooLong
        } else {
            Heard::Right
        }
    }

    /// After a right packet, its payload. Else what is kept of the last payload, or of the one that is read: at most its first 4096
    /// bytes.
    pub fn payload(&self) -> &[u8]
        ensures value { result.now ≡ kept_of self.now }
        ensures bound { length result.now ≤ payload_limit }
    {
        self.kept.as_slice()
    }
}
