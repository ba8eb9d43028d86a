//! What a report keeps of one task, all its ticks counted.

ghost use Rattle.std.specs.Prelude.{◌≡◌, ◌+◌, ◌*◌, ◌^◌, ◌<◌, ◌≤◌, IsTrue};
ghost use Rattle.rt_history.specs.declared.mode.Mode.TheVariants.{Active};
ghost use Rattle.rt_history.specs.declared.record.AttemptOutcome.TheVariants.{End};
ghost use Rattle.std.specs.Option.{option_to_list};
ghost use Rattle.rt_words.specs.Limits.{tick_limit};
ghost use Rattle.rt_server.specs.Recharge.{used_up_for};
ghost use Rattle.rt_history.specs.Job.{Release, release_by};
ghost use Rattle.rt_history.specs.Working.Bounded.{taken};
ghost use Rattle.rt_report.specs.Working.Tallied.{first_report, closed, left, awoken, gone, tallied, IsSound};
ghost use Rattle.rt_report.specs.Working.Plainly.{plain_for, plainly};
ghost use Rattle.rt_report.specs.Working.Waiting.{counted, HasRoom};
ghost use Rattle.rt_report.specs.Working.Finishing.{closing, finishing};
ghost use Rattle.rt_report.specs.Working.Detailing.{detailing_one, detailing, unfinished_at};
ghost use Rattle.rt_report.specs.Working.Seen.{seen};
ghost use Rattle.rt_report.specs.Failures.{is_overdue, released_by};
ghost use Rattle.rt_report.specs.Standing.{wide_row_at};

use crate::detailed_job::{DetailedJob, UnfinishedJob};
use crate::failing::Failing;
use crate::finished_job::FinishedJob;
use crate::job::CurrentJob;
use crate::row::Row;
use crate::span::Span;
use crate::wide_row::{WideCounts, WideRow};
use rt_admit::Params;
use rt_history::{AttemptOutcome, Mode, TaskServer, taken_by};
use std::marker::Model;

/// How a task stands behind its server without the wakes since its last record, its open job with its span, its row, the counts of
/// its wide row, and its first release.
#[derive(Clone, Copy)]
pub(crate) struct Tally {
    serving: TaskServer,
    job: CurrentJob,
    span: Span,
    row: Row,
    counts: WideCounts,
    start: u32,
}

impl Model for Tally {
    ghost use Rattle.rt_report.specs.Standing.{TaskReport};

    ghost Value = { TaskReport };

    ghost view = { λ t. record { serving = t.serving; open_job = t.job; span = t.span; row = t.row; counts = t.counts; start = t.start } };

    ghost inverse = { λ t. record { serving = t.serving; job = t.open_job; span = t.span; row = t.row; counts = t.counts; start = t.start } };
}

impl Tally {
    /// What is kept of a task before its first record.
    pub(crate) fn new(task: u32, params: &Params) -> Tally
        requires positive { 1 ≤ params.now.budget }
        requires within { params.now.budget ≤ params.now.period }
        ensures { result ≡ first_report task params.now }
    {
        let serving = TaskServer::new(params.budget, params.period, params.start);
        let job = CurrentJob::new(serving.server(), u64::from(params.start), true);
        Tally {
            serving,
            job,
            span: Span::new(serving.server(), &job),
            row: Row::new(task),
            counts: WideCounts::new(),
            start: params.start,
        }
    }

    /// Its row.
    pub(crate) fn row(&self) -> Row
        ensures { result ≡ self.now.row }
    {
        self.row
    }

    /// Its wide row at tick `t`, the wakes up to then applied.
    pub(crate) fn wide_row(&self, t: u64) -> WideRow
        requires limit { t ≤ tick_limit }
        requires sound { IsSound t self.now }
        ensures { result ≡ wide_row_at t self.now }
    {
        let mut serving = self.serving;
        serving.wake_due(t);
        let mut counts = self.counts;
        counts.add_wake(t, &self.serving);
        WideRow {
            row: self.row,
            stands: serving.mode(),
            counts,
            budget: serving.server().q(),
            period: serving.server().p(),
        }
    }

    /// The open job, where this record of tick `u` is its last.
    pub(crate) fn closing(&self, u: u64, outcome: AttemptOutcome) -> FinishedJob
        requires limit { u < tick_limit }
        requires sound { IsSound u self.now }
        ensures { result ≡ closing u outcome self.now }
    {
        let job = self.job.with_tick(outcome);
        job.told(self.row.task, self.serving.server().p(), self.row.jobs, u)
    }

    /// The job that a record of tick `u` finishes, if it finishes one. Takes no memory.
    pub(crate) fn finishing(&self, u: u64, outcome: AttemptOutcome) -> Option<FinishedJob>
        requires limit { u < tick_limit }
        requires sound { IsSound u self.now }
        ensures { result ≡ finishing u outcome self.now }
    {
        match outcome {
            AttemptOutcome::Sleep(_) | AttemptOutcome::End => Some(self.closing(u, outcome)),
            _ => None,
        }
    }

    /// The open job with its details, where this record of tick `u` is its last.
    fn detailing_one(&self, u: u64, outcome: AttemptOutcome) -> DetailedJob
        requires limit { u < tick_limit }
        requires sound { IsSound u self.now }
        ensures { result ≡ detailing_one u outcome self.now }
    {
        let mut span = self.span;
        span.add_tick(u, self.job.ticks());
        DetailedJob {
            job: self.closing(u, outcome),
            detail: self.job.with_tick(outcome).detail(&span),
            period: self.serving.server().p(),
        }
    }

    /// The job that a record of tick `u` finishes with its details, if it finishes one. Takes no memory.
    pub(crate) fn detailing(&self, u: u64, outcome: AttemptOutcome) -> Option<DetailedJob>
        requires limit { u < tick_limit }
        requires sound { IsSound u self.now }
        ensures { result ≡ detailing u outcome self.now }
    {
        match outcome {
            AttemptOutcome::Sleep(_) | AttemptOutcome::End => Some(self.detailing_one(u, outcome)),
            _ => None,
        }
    }

    /// The open job, unless the task has ended. Takes no memory.
    pub(crate) fn unfinished(&self) -> Option<UnfinishedJob>
        ensures { option_to_list result ≡ unfinished_at self.now }
    {
        match self.serving.mode() {
            Mode::Ended => None,
            _ => Some(UnfinishedJob {
                task: self.row.task,
                number: self.row.jobs,
                release: self.job.release(),
                ticks: self.job.ticks(),
                fresh: self.job.is_fresh(),
                calm: self.job.is_calm(),
                detail: self.job.detail(&self.span),
                period: self.serving.server().p(),
            }),
        }
    }

    /// Whether there is an open job whose response is over the period by tick `t`.
    fn is_overdue(&self, t: u64) -> bool
        ensures { result ≡ is_overdue t self.now.serving.account.p self.now.serving.mode self.now.open_job.release.tick }
    {
        match self.serving.mode() {
            Mode::Ended => false,
            _ => t.saturating_sub(self.job.release()) > u64::from(self.serving.server().p()),
        }
    }

    /// The period of its server, in ticks.
    pub(crate) fn period(&self) -> u32 {
        self.serving.server().p()
    }

    /// Of jobs that are released each period from the first release on, how many have had a period by tick `t`.
    pub(crate) fn released_by(&self, t: u64) -> u64
        ensures { result ≡ released_by self.now.start self.now.serving.account.p t }
    {
        let period = u64::from(self.serving.server().p());
        t.saturating_sub(u64::from(self.start))
            .checked_div(period)
            .unwrap_or(0)
    }

    /// Whether the task has this failure at tick `t`, where its output was full for a write or for none. Takes no memory.
    pub(crate) fn has_failed(&self, t: u64, failing: Failing, full: bool) -> bool
        ensures { result ≡ seen failing t full self.now }
    {
        match failing {
            Failing::Fault => matches!(self.serving.mode(), Mode::Faulted(_)),
            Failing::Over => self.counts.overtimes > 0 || self.is_overdue(t),
            Failing::Soft => self.row.hard < self.row.jobs,
            Failing::Refused => self.counts.refused > 0,
            Failing::Few => self.row.jobs < self.released_by(t),
            Failing::Lost => full,
        }
    }

    /// Applies the wake of tick `u` or before, of a task that is asleep, and counts it.
    #[inline(always)]
    fn wake_due(&mut self, u: u64)
        requires limit { u < tick_limit }
        requires fresh { self.old.counts.fresh_wakes ≤ u }
        requires kept { self.old.counts.kept_wakes ≤ u }
        ensures { self.new ≡ awoken u self.old }
    {
        if let Mode::Asleep(_) = self.serving.mode() {
            self.counts.add_wake(u, &self.serving);
            self.serving.wake_due(u);
        }
    }

    /// Counts a record of tick `u`.
    #[inline(always)]
    fn go_on(&mut self, u: u64, outcome: AttemptOutcome)
        requires limit { u < tick_limit }
        requires sound { IsSound u self.old }
        ensures { self.new ≡ gone u outcome self.old }
    {
        self.wake_due(u);
        let taken = taken_by(self.serving.server(), outcome);
        let deadline = self.serving.server().d();
        self.serving.take(u, taken);
        self.counts.add_charge(self.serving.server().d() > deadline);
        self.counts.add_outcome(taken);
        self.span.add_tick(u, self.job.ticks());
        self.job.add_tick(outcome);
        self.row.add_tick();
    }

    /// Finishes the open job at tick `u`, and opens one of this release.
    #[inline(always)]
    fn close(&mut self, u: u64, release: u64, awaited: bool)
        requires limit { u < tick_limit }
        requires jobs { self.old.row.jobs + 1 < 2 ^ 64 }
        requires hard { self.old.row.hard + 1 < 2 ^ 64 }
        requires late { self.old.row.late + 1 < 2 ^ 64 }
        requires over { self.old.counts.overtimes + 1 < 2 ^ 64 }
        requires responses { self.old.counts.response ≤ u * u }
        ensures { self.new ≡ closed u (record { tick = release; awaited = awaited }) self.old }
    {
        let period = self.serving.server().p();
        let response = self.job.response(u);
        let hard = self.job.is_hard();
        let late = self.job.is_late(period, u);
        let over = self.job.is_over(period, u);
        self.row.add_job(response, hard, late);
        self.counts.add_job(self.job.ticks(), response, over);
        let job = CurrentJob::new(self.serving.server(), release, awaited);
        self.span = Span::new(self.serving.server(), &job);
        self.job = job;
    }

    /// Finishes the last job at tick `u`: no sleep releases another.
    fn close_last(&mut self, u: u64)
        requires limit { u < tick_limit }
        requires jobs { self.old.row.jobs + 1 < 2 ^ 64 }
        requires hard { self.old.row.hard + 1 < 2 ^ 64 }
        requires late { self.old.row.late + 1 < 2 ^ 64 }
        requires over { self.old.counts.overtimes + 1 < 2 ^ 64 }
        requires responses { self.old.counts.response ≤ u * u }
        ensures { self.new ≡ closed u self.old.open_job.release self.old }
    {
        let release = self.job.release();
        let awaited = self.job.is_awaited();
        self.close(u, release, awaited);
    }

    /// Takes the record of tick `u` with which the task ends.
    #[inline(never)]
    fn take_end(&mut self, u: u64)
        requires limit { u < tick_limit }
        requires sound { IsSound u self.old }
        ensures { self.new ≡ tallied u End self.old }
    {
        self.go_on(u, AttemptOutcome::End);
        self.close_last(u);
    }

    /// Takes a record of tick `u` that finishes no job and is rare.
    #[inline(never)]
    fn take_rare(&mut self, u: u64, outcome: AttemptOutcome)
        requires limit { u < tick_limit }
        requires sound { IsSound u self.old }
        ensures { self.new ≡ gone u outcome self.old }
    {
        self.go_on(u, outcome);
    }

    /// Takes a record of tick `u`. Takes no memory.
    #[inline(always)]
    pub(crate) fn take(&mut self, u: u64, outcome: AttemptOutcome)
        requires limit { u < tick_limit }
        requires sound { IsSound u self.old }
        ensures { self.new ≡ tallied u outcome self.old }
    {
        match outcome {
            AttemptOutcome::Next => self.go_on(u, AttemptOutcome::Next),
            AttemptOutcome::Sleep(w) => {
                self.go_on(u, AttemptOutcome::Sleep(w));
                self.close(u, w, w > u);
            }
            AttemptOutcome::End => self.take_end(u),
            _ => self.take_rare(u, outcome),
        }
    }

    /// Counts `n` plain records from tick `u` on, of a task that is active.
    #[inline(always)]
    fn go_on_plain(&mut self, u: u64, n: u64)
        requires limit { u + n ≤ tick_limit }
        requires room { self.old.serving.account.d + self.old.serving.account.p * n < 2 ^ 63 }
        requires postponements { self.old.counts.postponements + used_up_for n self.old.serving.account < 2 ^ 64 }
        requires job { self.old.open_job.ticks + n < 2 ^ 64 }
        requires ticks { self.old.row.ticks + n < 2 ^ 64 }
        ensures { self.new ≡ plainly u n self.old }
    {
        let postponed = self.serving.spend_for(n);
        self.counts.postponements += postponed;
        self.span.add_ticks(u, n, self.job.ticks());
        self.job.add_ticks(n);
        self.row.ticks += n;
    }

    /// Whether the task is active and its open job has begun.
    #[inline(always)]
    pub(crate) fn has_begun(&self) -> bool
        ensures { IsTrue result → (self.now.serving.mode ≡ Active) × (1 ≤ self.now.open_job.ticks) }
    {
        matches!(self.serving.mode(), Mode::Active) && self.job.ticks() > 0
    }

    /// Counts `n` plain records of a task that is active, behind others of its open job, whose span has them already.
    #[inline(always)]
    pub(crate) fn count(&mut self, n: u64)
        requires { 1 ≤ n → HasRoom n self.old }
        ensures { self.new ≡ counted n self.old }
    {
        if n > 0 {
            let postponed = self.serving.spend_for(n);
            self.counts.postponements += postponed;
            self.job.add_ticks(n);
            self.row.ticks += n;
        }
    }

    /// The last record of its open job ends at this tick.
    #[inline(always)]
    pub(crate) fn end_at(&mut self, end: u64)
        ensures { self.new ≡ record self.old { span = record self.old.span { end = end } } }
    {
        self.span.end_at(end);
    }

    /// Counts `n` plain records from tick `u` on, of a task in a mode in which no legal history has one.
    #[cold]
    #[inline(never)]
    fn revive(&mut self, u: u64, n: u64)
        requires some { 1 ≤ n }
        requires limit { u + n ≤ tick_limit }
        requires sound { IsSound u self.old }
        ensures { self.new ≡ plain_for u n self.old }
    {
        self.go_on(u, AttemptOutcome::Next);
        self.go_on_plain(u + 1, n - 1);
    }

    /// Counts `n` plain records from tick `u` on, of a task that wakes before the first of them.
    #[cold]
    #[inline(never)]
    fn begin_plain(&mut self, u: u64, n: u64)
        requires some { 1 ≤ n }
        requires limit { u + n ≤ tick_limit }
        requires sound { IsSound u self.old }
        ensures { self.new ≡ plain_for u n self.old }
    {
        match self.serving.mode() {
            Mode::Asleep(w) if w <= u => {
                self.wake_due(u);
                self.go_on_plain(u, n);
            }
            _ => self.revive(u, n),
        }
    }

    /// Takes `n` plain records, from tick `u` on. Takes no memory.
    #[inline(always)]
    pub(crate) fn take_plain(&mut self, u: u64, n: u64)
        requires some { 1 ≤ n }
        requires limit { u + n ≤ tick_limit }
        requires sound { IsSound u self.old }
        ensures { self.new ≡ plain_for u n self.old }
    {
        match self.serving.mode() {
            Mode::Active => self.go_on_plain(u, n),
            _ => self.begin_plain(u, n),
        }
    }
}
