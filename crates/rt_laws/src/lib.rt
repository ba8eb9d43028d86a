//! The laws of scheduling: what an admitted set keeps at every tick of its legal history, whatever its programs do.
//!
//! A task's jobs come in two forms: the readable one is `Job` of rt_history with `OpenJob` here, and `Work` goes one record after
//! the other, as a report does. A law says that they give the same.
//!
//! Certificates rest on two of these laws: a task's program depends on its image and on its answers alone, and no hard job is late. A
//! program that asks for nothing gets no answers, so its outcomes are those of its run alone.
//!
//! C. Liu and J. Layland, "Scheduling algorithms for multiprogramming in a hard-real-time environment", JACM 1973, and
//! L. Abeni and G. Buttazzo, "Integrating multimedia applications in hard real-time systems", RTSS 1998.
#![tactic(auto)]

pub mod breach;
mod certified;
mod laws;
mod several_periods;

pub use certified::{
    attempts_meet_their_deadlines, broken_plans_are_not_certified, certificates_hold_for_more,
    certified_jobs_are_in_time, jobs_are_those_alone, long_jobs_are_in_time,
    seen_jobs_are_certified,
};
pub use laws::{
    admitted_sets_fit_when_busy, always_fit, first_wake_is_fresh, jobs_are_worked,
    no_hard_job_is_late, one_task_has_its_history, open_job_is_finished, others_do_not_enter,
    overloaded_sets_miss_a_deadline, periodic_jobs_are_hard, reserves_always_fit, supply,
    task_is_as_alone,
};
pub use several_periods::{
    jobs_of_several_periods_are_in_time, one_period_is_a_certificate, several_periods_hold_for_more,
};
