//! A picture of a schedule: when each task of a set ran, and what its server did, as one file of SVG 1.1.
#![tactic(auto)]

mod axis;
mod chart;
mod crowding;
mod digits;
mod element;
mod frame;
mod kept;
mod label;
mod laws;
mod legend;
mod look;
mod mark_text;
mod miss_text;
mod page;
mod row_text;
mod rows;
mod scale;
mod style;

pub use chart::Chart;
pub use laws::{names_are_plain, over_since_a_period_behind_the_release, places_rise};
pub use rt_drawing::{
    Event, Job, MAX_SHOWN, Mark, Miss, Stretch, Window, bars_are_longest, bars_tell_jobs,
    labels_tell_the_begin, marks_are_counted, runs_are_no_waits,
};
pub use style::{Style, Width};
