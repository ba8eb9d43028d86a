//! Points that come and go.

ghost use Rattle.std.specs.Prelude.{◌≡◌, ◌+◌, ◌^◌, ◌%◌, ◌==◌, ◌&&◌, nat_lt, nat_le, true};
ghost use Rattle.rt_exec.specs.mem.Access.{is_inside};
ghost use Rattle.rt_remote.specs.Said.{says_reply};
ghost use Rattle.rt_remote.specs.Places.{length_of, point_of, may_be, may_insert, InsertsPoint, removed};
ghost use Rattle.rt_packet.specs.declared.answer.replies.Reply.TheVariants.{Done};

use crate::said::Answered;
use crate::session::Session;
use rt_exec::Fetcher;
use rt_packet::answer::{Refused, Reply};
use rt_packet::request::Spot;
use rt_points::{Point, PointFault, PointKind};
use rt_queue::MinQueue;
use rt_words::RAM_BASE;

/// How many bytes a point of this kind has: a breakpoint has none.
fn length_of(kind: PointKind, length: u64) -> u64
    ensures { result ≡ length_of kind length }
{
    match kind {
        PointKind::Break(_) => 0,
        PointKind::Watch(_) => length,
    }
}

/// Whether a whole word of this RAM is at an address, which is a multiple of 4.
fn has_word(ram: &[u8], address: u32) -> bool
    ensures { result ≡ ((address % 4 == 0) && is_inside 4 ram.now address) }
{
    address.is_multiple_of(4)
        && RAM_BASE <= address
        && (address - RAM_BASE) as usize + 4 <= ram.len()
}

/// Whether there are bytes to watch, all of them below 2^32.
fn are_bytes(address: u32, length: u64) -> bool
    ensures { result ≡ (nat_lt 0 length && nat_le (address + length) (2 ^ 32)) }
{
    length > 0 && length <= (1 << 32) - u64::from(address)
}

impl<'s, 'd, Q: MinQueue, F: Fetcher> Session<'s, 'd, Q, F> {
    /// Whether a point may be there.
    fn may_be(&self, kind: PointKind, address: u32, length: u64) -> bool
        ensures { result ≡ may_be self.now kind address length }
    {
        match kind {
            PointKind::Break(_) => match self.view() {
                Some(view) => has_word(view.ram, address),
                None => false,
            },
            PointKind::Watch(_) => are_bytes(address, length),
        }
    }

    /// The point of a place at this address.
    fn point_at(&self, spot: Spot, address: u32) -> Point
        ensures { spot.address ≡ address → result ≡ point_of self.now spot }
    {
        Point {
            kind: spot.kind,
            task: self.selection.owner(),
            address,
            length: length_of(spot.kind, spot.length),
        }
    }

    /// Inserts a point that may be there.
    fn insert_point(&mut self, point: Point) -> Answered
        ensures { InsertsPoint true self.old point result self.new }
    {
        match self.points.insert(point) {
            Ok(()) => Answered::reply(Reply::Done),
            Err(PointFault::TooMany) => Answered::refusal(Refused::TooManyPoints),
            Err(PointFault::NoMemory) => Answered::refusal(Refused::NoMemory),
        }
    }

    /// Inserts a point, where it may be.
    #[inline(never)]
    pub(crate) fn insert(&mut self, spot: Spot) -> Answered
        ensures { InsertsPoint (may_insert self.old spot) self.old (point_of self.old spot) result self.new }
    {
        match u32::try_from(spot.address) {
            Ok(address) if self.may_be(spot.kind, address, spot.length) => {
                self.insert_point(self.point_at(spot, address))
            }
            _ => Answered::refusal(Refused::NotInRam),
        }
    }

    /// Removes a point, if it is there.
    #[inline(never)]
    pub(crate) fn remove(&mut self, spot: Spot) -> Answered
        ensures removes { self.new ≡ removed self.old spot }
        ensures said { result ≡ says_reply Done }
    {
        if let Ok(address) = u32::try_from(spot.address) {
            let point = self.point_at(spot, address);
            self.points.remove(point);
        }
        Answered::reply(Reply::Done)
    }
}
