//! Laws of whole inputs. Each function does nothing: its clause is the law, and a caller has it after the call.

ghost use Rattle.std.specs.Prelude.{◌≡◌, ℕ, ◌<◌, ◌≤◌, List, ◌∷◌, ◌++◌, [], length, replicate, take};
ghost use Rattle.rt_packet.specs.Packet.{dollar, packet_of, payload_limit};
ghost use Rattle.rt_packet.specs.Frame.{Frame, Outside, Payload, Within, begun, hears};
ghost use Rattle.rt_packet.specs.Framed.{Completes, EndWithPacket, IsNoise, IsPacket, IsPlain, and_then, heard_all};
ghost use Rattle.rt_packet.specs.declared.decoder.Heard.TheVariants.{Nothing, Right, TooLong};

/// The bytes of a packet, outside of another, complete one thing, by their last byte: a right packet of just this payload, or one
/// that is too long.
pub fn packets_are_heard()
    ensures right { (bytes payload : List ℕ) → IsPacket bytes payload → length payload ≤ payload_limit
        → Completes bytes Right payload }
    ensures too_long { (bytes payload : List ℕ) → IsPacket bytes payload → payload_limit < length payload
        → Completes bytes TooLong (take payload_limit payload) }
{}

/// A packet that goes out reads back, if no byte of its payload is `$` or `#`: as a right packet of just this payload, or as one
/// that is too long.
pub fn packets_read_back()
    ensures right { (payload : List ℕ) → IsPlain payload → length payload ≤ payload_limit
        → Completes (packet_of payload) Right payload }
    ensures too_long { (payload : List ℕ) → IsPlain payload → payload_limit < length payload
        → Completes (packet_of payload) TooLong (take payload_limit payload) }
{}

/// Where a byte completes a right packet, the bytes so far end with the bytes of one, of at most 4096 bytes of payload, and just
/// this payload is kept.
pub fn only_packets_are_right()
    ensures { (kept bytes : List ℕ) (b : ℕ) → let next = hears (heard_all (Outside kept) bytes).0 b in
        next.1 ≡ Right → (payload : List ℕ) × EndWithPacket (bytes ++ b ∷ []) payload
        × (length payload ≤ payload_limit) × (next.0 ≡ Outside payload) }
{}

/// Outside of a packet, bytes other than `$`, `-` and 0x03 change nothing and complete nothing.
pub fn noise_is_dropped()
    ensures { (kept noise : List ℕ) → IsNoise noise
        → heard_all (Outside kept) noise ≡ (Outside kept, replicate (length noise) Nothing) }
{}

/// Within a payload, `$` begins the packet anew, as it begins one outside: whatever was read of the payload before, the bytes from
/// `$` on are heard alike.
pub fn dollar_begins_anew()
    ensures outside { (kept : List ℕ) → hears (Outside kept) dollar ≡ (begun, Nothing) }
    ensures within { (payload : Payload) (kept : List ℕ) → hears (Within payload) dollar ≡ hears (Outside kept) dollar }
    ensures rest { (payload : Payload) (kept bytes : List ℕ)
        → heard_all (Within payload) (dollar ∷ bytes) ≡ heard_all (Outside kept) (dollar ∷ bytes) }
{}

/// An input may come in pieces: bytes, and then others, are heard as all of them together.
pub fn pieces_are_heard_alike()
    ensures { (frame : Frame) (first second : List ℕ) → heard_all frame (first ++ second) ≡ and_then (heard_all frame first) second }
{}
