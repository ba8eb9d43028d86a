//! The way of a debugger over the legal history: where it began, what it shows, on, back, and to where something is met.
#![tactic(auto)]

mod back;
mod checkpoints;
mod events;
mod halt;
mod jobs;
mod laws;
mod pace;
mod position;
mod trail;
mod walk;

pub use back::{HaltBack, Last, WayBack};
pub use events::{Asks, Happening, Noted, happens_behind, happens_idle, note};
pub use halt::{Halt, Sought};
pub use jobs::{Jobs, OpenJob};
pub use laws::jobs_are_of_the_history;
pub use pace::{Endless, Entries, Pace};
pub use position::Position;
pub use walk::Walk;
