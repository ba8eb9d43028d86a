//! One way to follow a machine: a [`Listener`] receives a history from tick 0 on, and [`follow`] is the loop that hands it over.
//!
//! A listener takes plain ticks of one task at once, if it likes, and each other entry by itself, with the machine behind it. It may
//! stop: the machine then goes no further. Two listeners are one by [`Both`]. A [`Beat`] hears how far the run has come.
#![tactic(auto)]

mod both;
mod following;
mod listener;
mod report;

pub use both::Both;
pub use following::{follow, go_to, tell_plain};
pub use listener::Listener;
pub use rt_core::{BEAT_TICKS, Beat, NoBeat};
