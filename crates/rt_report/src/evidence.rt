//! Where the failures of a task first happened, for what is said of them.

ghost use Rattle.std.specs.Prelude.{◌<◌};
ghost use Rattle.rt_words.specs.Limits.{tick_limit};
ghost use Rattle.rt_report.specs.Working.Tallied.{IsSound};

use crate::detailed_job::UnfinishedJob;
use crate::tally::Tally;
use rt_history::{AttemptOutcome, Moment};

/// A finished job that failed.
#[derive(Clone, Copy, PartialEq, Eq)]
pub struct FailedJob {
    /// The job's number among its task's own, from 0.
    pub number: u64,
    /// The tick of its release.
    pub release: u64,
    /// Its response, in ticks.
    pub response: u64,
}

/// Where a task first failed, of each kind.
#[derive(Clone, Copy)]
pub struct Firsts {
    /// The first finished job whose response was over the period.
    pub over: Option<FailedJob>,
    /// The first finished job that isn't hard.
    pub soft: Option<FailedJob>,
    /// The attempt at which it faulted.
    pub fault: Option<Moment>,
    /// The first reserve that was refused.
    pub refused: Option<Moment>,
}

/// What is known of a task's failures at a tick.
#[derive(Clone, Copy)]
pub struct Evidence {
    pub firsts: Firsts,
    /// The open job, unless the task has ended.
    pub open: Option<UnfinishedJob>,
    /// The period of its server, in ticks.
    pub period: u32,
    /// How many jobs it has finished.
    pub finished: u64,
    /// Of jobs that are released each period, how many have had a period.
    pub released: u64,
}

impl Firsts {
    /// Of a task that has executed nothing.
    pub(crate) fn none() -> Firsts {
        Firsts {
            over: None,
            soft: None,
            fault: None,
            refused: None,
        }
    }

    /// Notes the job that a record of tick `u` finishes.
    fn note_job(&mut self, u: u64, outcome: AttemptOutcome, tally: &Tally)
        requires limit { u < tick_limit }
        requires sound { IsSound u tally.now }
    {
        let job = tally.closing(u, outcome);
        let failed = Some(FailedJob {
            number: job.number,
            release: job.release,
            response: job.response,
        });
        if self.over.is_none() && job.response > u64::from(tally.period()) {
            self.over = failed;
        }
        if self.soft.is_none() && !job.hard {
            self.soft = failed;
        }
    }

    /// Notes a record of tick `u` that is rare.
    #[inline(never)]
    fn note_rare(&mut self, u: u64, pc: u32, outcome: AttemptOutcome, tally: &Tally)
        requires limit { u < tick_limit }
        requires sound { IsSound u tally.now }
    {
        let moment = Some(Moment { tick: u, pc });
        match outcome {
            AttemptOutcome::Sleep(_) | AttemptOutcome::End => self.note_job(u, outcome, tally),
            AttemptOutcome::Fault(_) => self.fault = self.fault.or(moment),
            AttemptOutcome::ReserveRefused => self.refused = self.refused.or(moment),
            _ => {}
        }
    }

    /// Notes a record of tick `u`, which the tally is still to take, of an instruction at this address.
    #[inline(always)]
    pub(crate) fn note(&mut self, u: u64, pc: u32, outcome: AttemptOutcome, tally: &Tally)
        requires limit { u < tick_limit }
        requires sound { IsSound u tally.now }
    {
        match outcome {
            AttemptOutcome::Next => {}
            _ => self.note_rare(u, pc, outcome, tally),
        }
    }
}
