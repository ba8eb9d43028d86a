//! What ticks did: a line for each, of the attempt with what it wrote, loaded and stored, and of idle stretches.
#![tactic(auto)]

mod did;
mod instruction;
mod kept;
pub mod laws;
mod page;
mod scratch;
mod teller;
mod trace_line;
mod window;

pub use did::{DID_LEN, push_did};
pub use teller::Teller;
pub use trace_line::{TRACE_LINE_LEN, TraceLine, push_idle};
pub use window::write_ticks;
