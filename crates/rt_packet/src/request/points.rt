//! The points of a program where gdb wants a stop.

ghost use Rattle.std.specs.Prelude.{◌≡◌};
ghost use Rattle.rt_packet.specs.request.Points.{spot_of};

use crate::request::numbers::two_numbers;
use rt_points::PointKind;

/// A point: what it watches for, and from which address how many bytes.
#[derive(Clone, Copy, Debug, PartialEq, Eq)]
pub struct Spot {
    /// What it watches for.
    pub kind: PointKind,
    /// The address of its first byte.
    pub address: u64,
    /// Its bytes, or for a breakpoint the length of the instruction.
    pub length: u64,
}

/// The point of what stands behind its kind: `,ADDRESS,LENGTH`.
pub(crate) fn spot_of(kind: PointKind, text: &[u8]) -> Option<Spot>
    ensures { result ≡ spot_of kind text.now }
{
    match text.split_first() {
        Some((b',', numbers)) => {
            let (address, length) = two_numbers(numbers)?;
            Some(Spot {
                kind,
                address,
                length,
            })
        }
        _ => None,
    }
}
