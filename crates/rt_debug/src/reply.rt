//! What a debugging session answers: replies, what commands show, and the texts of both.

mod lines;
mod reply;
mod showing;
mod text;

pub use lines::{event_line, happened_line, refusal_line, tick_line};
pub use reply::{Reply, Stopped, write_break, write_refusal, write_reply};
pub use showing::{ServerLine, Shown, server_line, write_shown};
pub use text::Text;
