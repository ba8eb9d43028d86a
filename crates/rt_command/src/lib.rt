//! The commands of a debugging session: a line is a command or none, and why a command is refused.
#![tactic(auto)]

mod command;
mod parsing;
mod refusal;
mod verb;

pub use command::{Command, Name, Place, Whose};
pub use parsing::parse_command;
pub use refusal::Refusal;
