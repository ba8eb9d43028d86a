//! Every reason why the program ends early or refuses something, and what to do: as `help` prints it, and as docs/FAULTS.md has it.

mod named;
mod paragraph;
mod reason;
mod tables;

pub use named::Named;
pub use tables::TABLES;
