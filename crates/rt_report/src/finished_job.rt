//! A finished job, as it is reported.

/// What is reported of a finished job. All times are in ticks.
#[derive(Clone, Copy, PartialEq, Eq)]
pub struct FinishedJob {
    /// The task's number, from 0.
    pub task: u32,
    /// The job's number among those of its task, from 0.
    pub number: u64,
    /// The tick from which it was asked for.
    pub release: u64,
    /// The tick of its last record.
    pub finish: u64,
    /// From its release to the end of its last tick.
    pub response: u64,
    /// How many ticks it took.
    pub ticks: u64,
    /// Whether its release woke its sleeping task afresh: with a full budget, and a deadline one period on.
    pub fresh: bool,
    /// Whether none of its records is a yield.
    pub calm: bool,
    /// Whether its server answers for it: it is fresh and calm, and took no more ticks than the budget that its wake took.
    pub hard: bool,
    /// Whether it is hard, and its response is over the period.
    pub late: bool,
}
