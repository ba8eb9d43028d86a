//! What is reported of one task beside its row.

ghost use Rattle.std.specs.Prelude.{◌≡◌, ◌+◌, ◌^◌, ◌<◌, max, cond};
ghost use Rattle.rt_report.specs.WideRows.{with_wake, is_yield, is_grant, is_refusal};
ghost use Rattle.rt_report.specs.Working.Tallied.{picked, no_counts, with_outcome, with_finished};

use crate::row::{Row, greatest_of};
use rt_history::{AttemptOutcome, Mode, TaskServer};

/// What a task's jobs and its server did, beside its row. Each count is at most 2^40, the sum of the responses at most 2^80.
#[derive(Clone, Copy, PartialEq, Eq)]
pub struct WideCounts {
    /// The most ticks of a finished job; none where no job has finished.
    pub most_ticks: Option<u64>,
    /// How many of its finished jobs, hard or not, had a response over the period.
    pub overtimes: u64,
    /// How often it woke afresh: with a full budget, and a deadline one period on.
    pub fresh_wakes: u64,
    /// How often it woke with the budget and the deadline that it had.
    pub kept_wakes: u64,
    /// How often its budget was used up or given up, so that its deadline moved on.
    pub postponements: u64,
    /// How often it gave up the rest of its budget.
    pub yields: u64,
    /// How many of its reserves were granted.
    pub granted: u64,
    /// How many of its reserves were refused.
    pub refused: u64,
    /// The sum of the responses of its finished jobs.
    pub response: u128,
}

/// What a wide report tells of one task.
#[derive(Clone, Copy, PartialEq, Eq)]
pub struct WideRow {
    pub row: Row,
    /// How it stands at the end, the wakes of the coming tick applied.
    pub stands: Mode,
    pub counts: WideCounts,
    /// The budget that its server has then, in ticks.
    pub budget: u32,
    /// The period of its server, in ticks.
    pub period: u32,
}

impl WideCounts {
    /// The counts of a task that has executed nothing.
    pub(crate) fn new() -> WideCounts
        ensures { result ≡ no_counts }
    {
        WideCounts {
            most_ticks: None,
            overtimes: 0,
            fresh_wakes: 0,
            kept_wakes: 0,
            postponements: 0,
            yields: 0,
            granted: 0,
            refused: 0,
            response: 0,
        }
    }

    /// Counts the wake that a task so standing has had by tick `t`, if it is asleep.
    pub(crate) fn add_wake(&mut self, t: u64, serving: &TaskServer)
        requires fresh { self.old.fresh_wakes + 1 < 2 ^ 64 }
        requires kept { self.old.kept_wakes + 1 < 2 ^ 64 }
        ensures { self.new ≡ with_wake t serving.now self.old }
    {
        match serving.mode() {
            Mode::Asleep(w) if w <= t => {
                let fresh = serving.server().is_fresh_at(w);
                self.fresh_wakes += u64::from(fresh);
                self.kept_wakes += u64::from(!fresh);
            }
            _ => {}
        }
    }

    /// Counts a charge that moved the deadline on, or one that left it.
    #[inline(always)]
    pub(crate) fn add_charge(&mut self, postponed: bool)
        requires { self.old.postponements + 1 < 2 ^ 64 }
        ensures { self.new ≡ record self.old { postponements = self.old.postponements + cond postponed 1 0 } }
    {
        if postponed {
            self.postponements += 1;
        }
    }

    /// Counts a record that is a yield or a reserve.
    #[inline(always)]
    pub(crate) fn add_outcome(&mut self, outcome: AttemptOutcome)
        requires yields { self.old.yields + 1 < 2 ^ 64 }
        requires granted { self.old.granted + 1 < 2 ^ 64 }
        requires refused { self.old.refused + 1 < 2 ^ 64 }
        ensures { self.new ≡ with_outcome outcome self.old }
    {
        match outcome {
            AttemptOutcome::Yield => self.yields += 1,
            AttemptOutcome::Reserve(_) => self.granted += 1,
            AttemptOutcome::ReserveRefused => self.refused += 1,
            _ => {}
        }
    }

    /// Counts a finished job of so many ticks and this response.
    pub(crate) fn add_job(&mut self, ticks: u64, response: u64, over: bool)
        requires over { self.old.overtimes + 1 < 2 ^ 64 }
        requires response { self.old.response + response < 2 ^ 128 }
        ensures { self.new ≡ with_finished ticks response over self.old }
    {
        self.most_ticks = Some(greatest_of(self.most_ticks, ticks));
        self.overtimes += u64::from(over);
        self.response += u128::from(response);
    }
}
