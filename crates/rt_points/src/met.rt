//! Which of some points are met.

ghost use Rattle.std.specs.Prelude.{◌≡◌};
ghost use Rattle.std.specs.List.{list_any};
ghost use Rattle.rt_points.specs.Points.{is_in};
ghost use Rattle.rt_points.specs.Met.{breaks, is_met_by, first_byte, watched_byte, lesser, least_byte, watch_of, is_watch};
ghost use Rattle.rt_points.specs.Working.Marked.{is_general, shares};
ghost use Rattle.rt_points.specs.Working.Touched.{is_touched};

use crate::access::Access;
use crate::marks::{Marks, Place};
use crate::point::{BreakKind, Point, WatchKind};

/// A watchpoint that is met: its kind, and the byte at which it is.
#[derive(Clone, Copy, PartialEq, Eq)]
pub struct Watched {
    pub kind: WatchKind,
    pub address: u32,
}

/// Whether this point is among them.
pub(crate) fn contains(points: &[Point], point: &Point) -> bool
    ensures { result ≡ is_in points.now point.now }
{
    points.iter().any(|other| point.is_same(other))
}

/// Whether a breakpoint of this kind breaks a task at pc.
pub(crate) fn is_broken(points: &[Point], kind: BreakKind, task: u32, pc: u32) -> bool
    ensures { result ≡ list_any (breaks kind task pc) points.now }
{
    points.iter().any(|point| point.breaks(kind, task, pc))
}

/// Whether there is a watchpoint.
pub(crate) fn any_watch(points: &[Point]) -> bool
    ensures { result ≡ list_any is_watch points.now }
{
    points.iter().any(|point| point.is_watch())
}

/// Whether there is a breakpoint of every task.
pub(crate) fn any_general(points: &[Point]) -> bool
    ensures { result ≡ list_any is_general points.now }
{
    points.iter().any(|point| point.is_general())
}

/// Whether a point has the mark of this place.
fn shares(point: &Point, place: Place) -> bool
    ensures { result ≡ shares place point.now }
{
    match point.place() {
        Some(other) => Marks::share(place, other),
        None => false,
    }
}

/// Whether one of them has the mark of this place.
pub(crate) fn any_shares(points: &[Point], place: Place) -> bool
    ensures { result ≡ list_any (shares place) points.now }
{
    points.iter().any(|point| shares(point, place))
}

/// The first byte of an access that is one of a point's.
fn first_byte(access: Access, point: &Point) -> Option<u32>
    ensures { result ≡ first_byte access point.now }
{
    for place in 0..access.bytes {
        let address = access.address.wrapping_add(place);
        if point.covers(address) {
            return Some(address);
        }
    }
    None
}

/// Whether a byte of an access is one of a watchpoint's.
fn is_touched(point: &Point, access: Access) -> bool
    ensures { result ≡ is_touched access point.now }
{
    point.is_watch() && first_byte(access, point).is_some()
}

/// Whether a byte of an access is one of a watchpoint's, of any of these.
pub(crate) fn any_touched(points: &[Point], access: Access) -> bool
    ensures { result ≡ list_any (is_touched access) points.now }
{
    points.iter().any(|point| is_touched(point, access))
}

/// The first byte at which an access of a task meets a point, if the point watches the task and is of this kind.
fn watched_byte(kind: WatchKind, task: u32, access: Access, point: &Point) -> Option<u32>
    ensures { result ≡ watched_byte kind task access point.now }
{
    if point.watches(kind, task) {
        first_byte(access, point)
    } else {
        None
    }
}

/// The lesser address, as far as there are any.
fn lesser(first: Option<u32>, second: Option<u32>) -> Option<u32>
    ensures { result ≡ lesser first second }
{
    match (first, second) {
        (Some(a), Some(b)) => Some(a.min(b)),
        (Some(a), None) => Some(a),
        (None, b) => b,
    }
}

/// The least such byte of all these points.
fn least_byte(points: &[Point], kind: WatchKind, task: u32, access: Access) -> Option<u32>
    ensures { result ≡ least_byte kind task access points.now }
{
    let mut least = None;
    for point in points {
        least = lesser(least, watched_byte(kind, task, access, point));
    }
    least
}

/// Whether this kind is met by a store, or by a load.
fn is_met_by(kind: WatchKind, is_store: bool) -> bool
    ensures { result ≡ is_met_by kind is_store }
{
    match kind {
        WatchKind::Write => is_store,
        WatchKind::Read => !is_store,
        WatchKind::Access => true,
    }
}

/// What this kind of watchpoint is met with, if this access meets it.
pub(crate) fn watch_of(
    points: &[Point],
    kind: WatchKind,
    task: u32,
    access: Access,
) -> Option<Watched>
    ensures { result ≡ watch_of kind points.now task access }
{
    if !is_met_by(kind, access.is_store) {
        return None;
    }
    let address = least_byte(points, kind, task, access)?;
    Some(Watched { kind, address })
}
