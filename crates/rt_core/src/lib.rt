//! The machine of many tasks: each in its own RAM and behind its own server, the servers under earliest deadline first.
#![tactic(auto)]

mod beat;
mod fault;
mod loading;
mod machine;
mod parked;
mod plain_ticks;
mod task;
mod view;
mod watcher;

pub use beat::{BEAT_TICKS, Beat, NoBeat};
pub use fault::LoadFault;
pub use machine::Machine;
pub use parked::Parked;
pub use plain_ticks::{PlainTicks, PlainTurns};
pub use view::{Next, View};
pub use watcher::Watcher;
