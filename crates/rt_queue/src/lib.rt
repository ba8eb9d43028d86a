//! Queues that give the task with the least key: a map from task number to key, as the ready queue
//! (by deadline, in ticks) and the timers (by wake tick) of an earliest deadline first scheduler (Liu
//! and Layland 1973) want it. Ties go to the lesser task number.
#![tactic(auto)]

pub mod heap;
mod laws;
mod min_queue;
mod scan;
mod tournament;

pub use laws::{least_after_insert, least_from_is_least};
pub use min_queue::MinQueue;
pub use scan::Scan;
pub use tournament::Tournament;
