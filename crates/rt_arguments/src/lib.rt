//! The simulator from the words of its command line on.
#![tactic(auto)]

pub mod host;
mod misread;
mod near;
mod requests;
mod start;

pub use requests::{failings_of, request_of};
pub use rt_command_line::read_words;
pub use start::run;
