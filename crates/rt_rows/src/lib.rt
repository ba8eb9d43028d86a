//! Worked rows: sets of tasks with what their histories must be, worked out by hand. Each stands as a law beside the definitions
//! that it pins, whose names end its comment, and is proved by computing them. So a definition that is changed, alike in contract
//! and code, meets a row that still says what came out before.
#![tactic(auto, unfolding(crate::proofs::Computing::computing))]

mod admitting;
mod calling;
mod certifying;
mod executing;
mod faulting;
mod instructions;
mod listing;
mod one_history;
mod reporting;
mod reserving;
mod scheduling;
mod sleeping;

pub use admitting::limits_of_a_set;
pub use calling::{
    now_at_two, now_past_32_bits, write_call, write_of_nothing, write_to_a_full_output,
    yield_at_two,
};
pub use certifying::{
    beat_is_certified, beat_is_certified_in_three_periods, what_is_in_time, what_is_on_time,
    what_keeps_the_plan,
};
pub use executing::{accesses_at_odd_addresses, jumps, stores_into_code, two_word_loop};
pub use faulting::{
    access_faults, faults_of_calls, faults_of_fetches_and_jumps, split_accesses_outside,
};
pub use instructions::{what_is_computed, what_is_read_and_stored, where_control_goes};
pub use listing::{details_of_jobs, failures_of_tasks, reports_as_values};
pub use one_history::one_legal_history;
pub use reporting::{
    job_after_a_reserve, jobs_that_are_not_hard, jobs_that_reserve, late_job, least_and_greatest,
    lines_of_jobs, report_twelve_ticks, wide_reports, wide_reports_of_what_came_last,
};
pub use reserving::{
    lesser_budget_pending, pending_budget, reserve_call, reserve_limits, stopped_tasks_hold,
};
pub use scheduling::{end_at_once, not_yet_started, two_busy_tasks};
pub use sleeping::{exhausted_sleeper, sleep_now_and_later, sleep_past_32_bits, sleep_until_seven};
