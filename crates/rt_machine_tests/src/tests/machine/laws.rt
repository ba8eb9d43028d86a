//! The laws of scheduling stand for any caller.

use rt_laws::{
    admitted_sets_fit_when_busy, always_fit, attempts_meet_their_deadlines,
    broken_plans_are_not_certified, certificates_hold_for_more, certified_jobs_are_in_time,
    first_wake_is_fresh, jobs_are_those_alone, jobs_are_worked,
    jobs_of_several_periods_are_in_time, long_jobs_are_in_time, no_hard_job_is_late,
    one_period_is_a_certificate, one_task_has_its_history, open_job_is_finished,
    others_do_not_enter, overloaded_sets_miss_a_deadline, periodic_jobs_are_hard,
    reserves_always_fit, seen_jobs_are_certified, several_periods_hold_for_more, supply,
    task_is_as_alone,
};

#[test]
fn laws_can_be_called(_rt: HostRuntime) {
    always_fit();
    reserves_always_fit();
    first_wake_is_fresh();
    supply();
    no_hard_job_is_late();
    periodic_jobs_are_hard();
    one_task_has_its_history();
    jobs_are_worked();
    open_job_is_finished();
    task_is_as_alone();
    others_do_not_enter();
    admitted_sets_fit_when_busy();
    overloaded_sets_miss_a_deadline();
    certified_jobs_are_in_time();
    certificates_hold_for_more();
    seen_jobs_are_certified();
    broken_plans_are_not_certified();
    jobs_are_those_alone();
    attempts_meet_their_deadlines();
    long_jobs_are_in_time();
    one_period_is_a_certificate();
    several_periods_hold_for_more();
    jobs_of_several_periods_are_in_time();
}
