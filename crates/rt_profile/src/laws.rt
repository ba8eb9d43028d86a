//! Laws of what a profile tells: that its rows and its counts by address tell each tick once, and its needs each job.

mod laws;

pub use laws::{
    brackets_of_worked_needs, each_tick_is_told_once, most_is_between, needs_count_jobs,
    rows_are_of_parts_with_ticks, rows_are_sums_of_addresses,
};
