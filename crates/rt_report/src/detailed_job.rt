//! A job with its details, and a job that isn't finished, as they are reported.

use crate::finished_job::FinishedJob;

/// What is reported of a job beside its line. All times are in ticks.
#[derive(Clone, Copy, PartialEq, Eq)]
pub struct JobDetail {
    /// The tick of its first own record; none where it has none.
    pub start: Option<u64>,
    /// The budget of its server from its release on.
    pub budget: u32,
    /// The deadline of its server from its release on, after the wake. It is over 2^64 only where a task sleeps until then.
    pub deadline: u128,
    /// How many ticks between its first and its last own record were of other tasks or idle.
    pub interrupted: u64,
}

/// A finished job with its details.
#[derive(Clone, Copy, PartialEq, Eq)]
pub struct DetailedJob {
    pub job: FinishedJob,
    pub detail: JobDetail,
    /// The task's period.
    pub period: u32,
}

/// What is reported of a job that isn't finished. All times are in ticks.
#[derive(Clone, Copy, PartialEq, Eq)]
pub struct UnfinishedJob {
    /// The task's number, from 0.
    pub task: u32,
    /// The job's number among those of its task, from 0.
    pub number: u64,
    /// The tick from which it was asked for; it may be to come.
    pub release: u64,
    /// How many ticks it has taken.
    pub ticks: u64,
    /// Whether its release wakes its sleeping task afresh.
    pub fresh: bool,
    /// Whether none of its records is a yield.
    pub calm: bool,
    pub detail: JobDetail,
    /// The task's period.
    pub period: u32,
}
