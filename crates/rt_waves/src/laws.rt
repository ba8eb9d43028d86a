//! Laws of waves: that a reader of their text sees them, how the texts of windows join, and that they count what reports count.

mod laws;

pub use laws::{
    codes_differ, counts_agree, idle_is_one_step, lines_tell_their_values, one_runs_at_a_time,
    readers_see_the_waves, windows_meet,
};
