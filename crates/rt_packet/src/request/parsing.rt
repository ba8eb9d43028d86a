//! How a payload is read.

ghost use Rattle.std.specs.Prelude.{◌≡◌};
ghost use Rattle.rt_packet.specs.declared.request.request.Request.{Request};
ghost use Rattle.rt_packet.specs.request.Requests.{request_of};
ghost use Rattle.rt_packet.specs.request.Spelled.{IsSpelled, IsKnown};

use crate::request::prefixes::request_by_prefix;
use crate::request::request::Request;
use crate::request::whole::whole_request;

/// Reads the payload of a packet as a request. `Malformed` where it begins as one and goes on otherwise, `Unknown` where it doesn't
/// begin as any. A payload has any length. Takes no memory.
pub fn parse_request(payload: &[u8]) -> Request<'_>
    ensures exact { result ≡ request_of payload.now }
    ensures spelled { (r : Request) → IsSpelled payload.now r → result ≡ r }
    ensures written { IsKnown result → IsSpelled payload.now result }
{
    match whole_request(payload) {
        Some(request) => request,
        None => request_by_prefix(payload),
    }
}
