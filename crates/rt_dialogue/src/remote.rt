//! A session of gdb from the bytes of a system file and of an input to the bytes that a sink takes.

mod beats;
mod saying;
mod serving;
mod talk;
mod wire;

pub use serving::serve;
