//! What a picture of a schedule shows of one task: when it ran and when it waited, and what its server did.
#![tactic(auto)]

mod job;
mod laws;
mod mark;
mod miss;
mod sketch;
mod stretch;
mod wait;
mod window;

pub use job::Job;
pub use laws::{
    bars_are_longest, bars_tell_jobs, excepted_is_never_over, labels_tell_the_begin,
    marks_are_counted, no_deadline_is_missed, over_is_by_the_response, runs_are_no_waits,
};
pub use mark::{Event, Mark, RecordMarks};
pub use miss::Miss;
pub use sketch::Sketch;
pub use stretch::Stretch;
pub use wait::Wait;
pub use window::{MAX_SHOWN, Window};
