//! The words of the command line, as clap reads them.
#![tactic(auto)]

mod command_line;
mod help_texts;
mod numbers;
pub mod pages;
pub mod reasons;
mod table;
mod version;

pub use command_line::{program_named, read_words};
pub use help_texts::PROGRAM;
pub use numbers::{Misfit, bytes, number, number_of};
pub use table::{Choice, OF_ONE_OBJECT, OTHERS, Program, Row, SHELLS, Takes, commands};
pub use version::ABOUT;
