//! A host in memory, on which tests run the program: its command line, its files and its standard streams.

mod host;
mod run;

pub use host::{Host, Link, Pace, Record, Setup};
pub use run::run_on;
