//! The session of a debugger that speaks gdb's Remote Serial Protocol: what each request does, and what is said to it.
#![tactic(auto)]

mod chosen;
mod executing;
mod laws;
mod monitoring;
mod placing;
mod running;
mod said;
mod selection;
mod session;
mod showing;
pub mod stops;

pub use laws::remote_sessions_are_faithful;
pub use said::Answered;
pub use selection::{Direction, Selection};
pub use session::Session;
