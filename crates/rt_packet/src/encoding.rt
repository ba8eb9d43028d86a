//! Packets that go out.

ghost use Rattle.std.specs.Prelude.{◌≡◌, ◌+◌, ◌≤◌, length};
ghost use Rattle.rt_packet.specs.Packet.{checksum, packet_of, payload_limit};

use arrayvec::ArrayVec;
use rt_words::hex_byte;
use std::marker::Model;

/// The most bytes of a payload that goes out, and of one that is kept.
pub const MAX_PAYLOAD: usize = 4096;

/// The most bytes of a packet: those of a payload, `$`, `#` and two digits.
const MAX_PACKET: usize = 4100;

/// A packet that goes out. Contracts see its bytes.
#[derive(Drop)]
pub struct Packet {
    bytes: ArrayVec<u8, MAX_PACKET>,
}

impl Model for Packet {
    ghost use Rattle.std.specs.Prelude.{ℕ, List};

    ghost Value = { List ℕ };

    ghost view = { λ packet. packet.bytes.items };
}

impl Packet {
    /// Its bytes, at most 4100.
    pub fn bytes(&self) -> &[u8]
        ensures value { result.now ≡ self.now }
        ensures bound { length result.now ≤ payload_limit + 4 }
    {
        self.bytes.as_slice()
    }
}

/// The sum of bytes, modulo 256.
fn checksum(bytes: &[u8]) -> u8
    ensures { result ≡ checksum bytes.now }
{
    let mut total: u8 = 0;
    for byte in bytes {
        total = total.wrapping_add(*byte);
    }
    total
}

/// Encodes a payload of at most 4096 bytes as a packet: `$`, the payload, `#`, and the payload's sum modulo 256 in two lower-case
/// hexadecimal digits. Escapes nothing, so a payload with `$` or `#` is not read back. Allocates nothing.
pub fn encode(payload: &[u8]) -> Packet
    requires { length payload.now ≤ MAX_PAYLOAD }
    ensures { result ≡ packet_of payload.now }
{
    let mut bytes = ArrayVec::new();
    bytes.push(b'$');
    bytes.try_extend_from_slice(payload).unwrap();
    bytes.push(b'#');
    bytes
        .try_extend_from_slice(&hex_byte(checksum(payload)))
        .unwrap();
    Packet { bytes }
}
