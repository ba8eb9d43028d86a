//! What a run is: records, histories, and the one legal history of a set of tasks.
//!
//! The definitions are in `specs/`, and are read first: `Program`, `Calls`, `Serving`, `OwnPart`, `Named`, `Legal`.
//! The code has the types of what they speak of.
#![tactic(auto)]

mod mode;
mod params;
mod record;
pub mod ring;
mod task_server;

pub use mode::Mode;
pub use params::params_of;
pub use record::{Attempt, AttemptOutcome, Entry, Moment, Record};
pub use task_server::{TaskServer, taken_by};
