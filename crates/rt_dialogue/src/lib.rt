//! A debugging session from the bytes of a system file and of an input to the bytes that a sink takes.
#![tactic(auto)]

mod conversation;
mod fault;
mod line;
mod reading;
pub mod remote;
mod talk;

pub use conversation::{Responder, converse};
pub use fault::DebugFault;
pub use reading::next_byte;
pub use talk::debug;
