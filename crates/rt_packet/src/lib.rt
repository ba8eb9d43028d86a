//! Packets of gdb's Remote Serial Protocol: one that goes out is a text, and bytes that come in are packets or none.
#![tactic(auto)]

pub mod answer;
mod decoder;
mod encoding;
mod laws;
pub mod request;

pub use decoder::{Decoder, Heard, INTERRUPT};
pub use encoding::{MAX_PAYLOAD, Packet, encode};
pub use laws::{
    dollar_begins_anew, noise_is_dropped, only_packets_are_right, packets_are_heard,
    packets_read_back, pieces_are_heard_alike,
};
