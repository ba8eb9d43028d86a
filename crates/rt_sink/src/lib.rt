//! Sinks, which take bytes until they fail, and lines of text that are built up without memory.
#![tactic(auto)]

mod buffered;
mod laws;
mod limited;
mod over_write;
mod sink;
mod text;
mod writer;

pub use buffered::Buffered;
pub use laws::gathered_text_arrives;
pub use limited::Limited;
pub use over_write::OverWrite;
pub use sink::{DeviceFault, Put, Sink, put_bytes};
pub use text::{LINE_LEN, LineBuffer, push_byte, push_decimal, push_hex, push_text};
pub use writer::Writer;
