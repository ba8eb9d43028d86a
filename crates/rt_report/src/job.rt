//! The job that a task has begun and not yet finished.

ghost use Rattle.std.specs.Prelude.{◌≡◌, ℕ, ◌+◌, ◌^◌, ◌<◌, if◌then◌else◌};
ghost use Rattle.rt_server.specs.Account.{coming};
ghost use Rattle.rt_history.specs.Job.{response, is_hard, is_late};
ghost use Rattle.rt_laws.specs.Work.{begun_at, gone_on, finished_at};
ghost use Rattle.rt_report.specs.JobLines.{finished_job};
ghost use Rattle.rt_report.specs.WideRows.{is_over};
ghost use Rattle.rt_report.specs.Working.Detailing.{detail_in};

use crate::detailed_job::JobDetail;
use crate::finished_job::FinishedJob;
use crate::span::Span;
use rt_history::AttemptOutcome;
use rt_server::Server;
use std::marker::Model;

/// A job that is open. Its budget, and whether its release wakes the task afresh, are fixed when the one before is finished: until
/// the release nothing changes the server.
#[derive(Clone, Copy)]
pub(crate) struct CurrentJob {
    release: u64,
    awaited: bool,
    ticks: u64,
    fresh: bool,
    budget: u32,
    calm: bool,
}

impl Model for CurrentJob {
    ghost use Rattle.rt_laws.specs.OpenJob.{OpenJob};

    ghost Value = { OpenJob };

    ghost view = { λ j. record {
      release = record { tick = j.release; awaited = j.awaited };
      ticks = j.ticks;
      fresh = j.fresh;
      budget = j.budget;
      calm = j.calm;
    } };

    ghost inverse = { λ j. record {
      release = j.release.tick;
      awaited = j.release.awaited;
      ticks = j.ticks;
      fresh = j.fresh;
      budget = j.budget;
      calm = j.calm;
    } };
}

/// The budget from a release on: a fresh wake takes the coming one.
fn budget_from(server: &Server, fresh: bool) -> u32
    ensures { result ≡ (if fresh then coming server.now else server.now.q) }
{
    match server.pending() {
        Some(q) if fresh => q,
        _ => server.q(),
    }
}

impl CurrentJob {
    /// A job released at tick `release`, behind a server that stands so until then. It is `awaited` where the task sleeps until
    /// its release.
    pub(crate) fn new(server: &Server, release: u64, awaited: bool) -> CurrentJob
        ensures { result ≡ begun_at server.now (record { tick = release; awaited = awaited }) }
    {
        let fresh = awaited && server.is_fresh_at(release);
        CurrentJob {
            release,
            awaited,
            ticks: 0,
            fresh,
            budget: budget_from(server, fresh),
            calm: true,
        }
    }

    /// The tick of its release.
    pub(crate) fn release(&self) -> u64
        ensures { result ≡ self.now.release.tick }
    {
        self.release
    }

    /// Whether its task sleeps until its release.
    pub(crate) fn is_awaited(&self) -> bool
        ensures { result ≡ self.now.release.awaited }
    {
        self.awaited
    }

    /// Whether its release wakes its sleeping task afresh.
    pub(crate) fn is_fresh(&self) -> bool
        ensures { result ≡ self.now.fresh }
    {
        self.fresh
    }

    /// Whether none of its records is a yield.
    pub(crate) fn is_calm(&self) -> bool
        ensures { result ≡ self.now.calm }
    {
        self.calm
    }

    /// The details of it, with this span.
    pub(crate) fn detail(&self, span: &Span) -> JobDetail
        ensures { result ≡ detail_in self.now span.now }
    {
        JobDetail {
            start: if self.ticks == 0 {
                None
            } else {
                Some(span.first())
            },
            budget: self.budget,
            deadline: span.deadline(),
            interrupted: span
                .end()
                .saturating_sub(span.first())
                .saturating_sub(self.ticks),
        }
    }

    /// How many ticks it has taken.
    pub(crate) fn ticks(&self) -> u64
        ensures { result ≡ self.now.ticks }
    {
        self.ticks
    }

    /// Counts a tick of this job.
    pub(crate) fn add_tick(&mut self, outcome: AttemptOutcome)
        requires { self.old.ticks + 1 < 2 ^ 64 }
        ensures { (u : ℕ) → self.new ≡ gone_on (u, outcome) self.old }
    {
        self.ticks += 1;
        if matches!(outcome, AttemptOutcome::Yield) {
            self.calm = false;
        }
    }

    /// Counts `n` ticks of this job, none of them a yield.
    #[inline(always)]
    pub(crate) fn add_ticks(&mut self, n: u64)
        requires { self.old.ticks + n < 2 ^ 64 }
        ensures { self.new ≡ record self.old { ticks = self.old.ticks + n } }
    {
        self.ticks += n;
    }

    /// This job with a tick more.
    pub(crate) fn with_tick(&self, outcome: AttemptOutcome) -> CurrentJob
        requires { self.now.ticks + 1 < 2 ^ 64 }
        ensures { (u : ℕ) → result ≡ gone_on (u, outcome) self.now }
    {
        CurrentJob {
            release: self.release,
            awaited: self.awaited,
            ticks: self.ticks + 1,
            fresh: self.fresh,
            budget: self.budget,
            calm: self.calm && !matches!(outcome, AttemptOutcome::Yield),
        }
    }

    /// The response where tick `u` finishes it: from its release to the end of that tick.
    pub(crate) fn response(&self, u: u64) -> u64
        requires { u + 1 < 2 ^ 64 }
        ensures { result ≡ response (finished_at u self.now) }
    {
        (u + 1).saturating_sub(self.release)
    }

    /// Whether it is hard, where it is finished now.
    pub(crate) fn is_hard(&self) -> bool
        ensures { (u : ℕ) → result ≡ is_hard (finished_at u self.now) }
    {
        self.fresh && self.calm && self.ticks <= u64::from(self.budget)
    }

    /// Whether its response is over this period, where tick `u` finishes it.
    pub(crate) fn is_over(&self, period: u32, u: u64) -> bool
        requires { u + 1 < 2 ^ 64 }
        ensures { result ≡ is_over period (finished_at u self.now) }
    {
        self.response(u) > u64::from(period)
    }

    /// Whether it is late for a server of this period, where tick `u` finishes it.
    pub(crate) fn is_late(&self, period: u32, u: u64) -> bool
        requires { u + 1 < 2 ^ 64 }
        ensures { result ≡ is_late period (finished_at u self.now) }
    {
        self.is_hard() && self.is_over(period, u)
    }

    /// What is reported of it as job `number` of this task, where tick `u` has finished it.
    pub(crate) fn told(&self, task: u32, period: u32, number: u64, u: u64) -> FinishedJob
        requires { u + 1 < 2 ^ 64 }
        ensures { result ≡ finished_job task period number (finished_at u self.now) }
    {
        FinishedJob {
            task,
            number,
            release: self.release,
            finish: u,
            response: self.response(u),
            ticks: self.ticks,
            fresh: self.fresh,
            calm: self.calm,
            hard: self.is_hard(),
            late: self.is_late(period, u),
        }
    }
}
