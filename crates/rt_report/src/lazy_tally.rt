//! What a report keeps of one task, where plain ticks wait to be counted together.

ghost use Rattle.std.specs.Prelude.{◌≡◌, ◌+◌, ◌≤◌, ◌<◌, false, IsTrue};
ghost use Rattle.rt_history.specs.declared.mode.Mode.TheVariants.{Active};
ghost use Rattle.std.specs.Option.{option_to_list};
ghost use Rattle.rt_words.specs.Limits.{tick_limit};
ghost use Rattle.rt_report.specs.Working.Tallied.{first_report, tallied, IsSound};
ghost use Rattle.rt_report.specs.Working.Plainly.{plain_for};
ghost use Rattle.rt_report.specs.Working.Waiting.{MayWait};
ghost use Rattle.rt_report.specs.Working.Finishing.{finishing};
ghost use Rattle.rt_report.specs.Working.Detailing.{detailing, unfinished_at};
ghost use Rattle.rt_report.specs.Working.Seen.{seen};
ghost use Rattle.rt_report.specs.Standing.{wide_row_at};

use crate::detailed_job::{DetailedJob, UnfinishedJob};
use crate::evidence::{Evidence, Firsts};
use crate::failing::Failing;
use crate::finished_job::FinishedJob;
use crate::row::Row;
use crate::tally::Tally;
use crate::wide_row::WideRow;
use rt_admit::Params;
use rt_history::AttemptOutcome;
use std::marker::Model;

/// A tally, and how many plain ticks wait to be counted: none does where the task isn't active, or its open job hasn't begun. Beside
/// them, for what is said of failures, where they first happened. Contracts see the tally, with all ticks counted.
#[derive(Drop)]
pub(crate) struct LazyTally {
    tally: Tally,
    waiting: u64,
    firsts: Firsts,
}

impl Model for LazyTally {
    ghost use Rattle.std.specs.Prelude.{◌≤◌};
    ghost use Rattle.rt_report.specs.Standing.{TaskReport};
    ghost use Rattle.rt_report.specs.Working.Waiting.{counted, MayWait};

    ghost Value = { TaskReport };

    ghost view = { λ t. counted t.waiting t.tally };

    ghost invariant = { λ t. 1 ≤ t.waiting → MayWait t.waiting t.tally };
}

/// Whether a plain tick may wait behind so many others.
#[inline(always)]
fn may_wait(waiting: u64, tally: &Tally) -> bool
    requires { 1 ≤ waiting → MayWait waiting tally.now }
    ensures active { IsTrue result → tally.now.serving.mode ≡ Active }
    ensures begun { IsTrue result → 1 ≤ tally.now.open_job.ticks }
    ensures first { (result ≡ false) → waiting ≡ 0 }
{
    waiting > 0 || tally.has_begun()
}

impl LazyTally {
    /// What is kept of a task before its first record.
    pub(crate) fn new(task: u32, params: &Params) -> LazyTally
        requires positive { 1 ≤ params.now.budget }
        requires within { params.now.budget ≤ params.now.period }
        ensures { result ≡ first_report task params.now }
    {
        LazyTally {
            tally: Tally::new(task, params),
            waiting: 0,
            firsts: Firsts::none(),
        }
    }

    /// The tally with all ticks counted.
    fn settled(&self) -> Tally
        ensures { result ≡ self.now }
    {
        let mut tally = self.tally;
        tally.count(self.waiting);
        tally
    }

    /// Its row.
    pub(crate) fn row(&self) -> Row
        ensures { result ≡ self.now.row }
    {
        self.settled().row()
    }

    /// Its wide row at tick `t`, the wakes up to then applied.
    pub(crate) fn wide_row(&self, t: u64) -> WideRow
        requires limit { t ≤ tick_limit }
        requires sound { IsSound t self.now }
        ensures { result ≡ wide_row_at t self.now }
    {
        self.settled().wide_row(t)
    }

    /// The job that a record of tick `u` finishes, if it finishes one. Takes no memory.
    pub(crate) fn finishing(&self, u: u64, outcome: AttemptOutcome) -> Option<FinishedJob>
        requires limit { u < tick_limit }
        requires sound { IsSound u self.now }
        ensures { result ≡ finishing u outcome self.now }
    {
        self.settled().finishing(u, outcome)
    }

    /// The job that a record of tick `u` finishes with its details, if it finishes one. Takes no memory.
    pub(crate) fn detailing(&self, u: u64, outcome: AttemptOutcome) -> Option<DetailedJob>
        requires limit { u < tick_limit }
        requires sound { IsSound u self.now }
        ensures { result ≡ detailing u outcome self.now }
    {
        self.settled().detailing(u, outcome)
    }

    /// The open job, unless the task has ended. Takes no memory.
    pub(crate) fn unfinished(&self) -> Option<UnfinishedJob>
        ensures { option_to_list result ≡ unfinished_at self.now }
    {
        self.settled().unfinished()
    }

    /// Whether the task has this failure at tick `t`, where its output was full for a write or for none. Takes no memory.
    pub(crate) fn has_failed(&self, t: u64, failing: Failing, full: bool) -> bool
        ensures { result ≡ seen failing t full self.now }
    {
        self.settled().has_failed(t, failing, full)
    }

    /// What is known of its failures at tick `t`. Takes no memory.
    pub(crate) fn evidence(&self, t: u64) -> Evidence {
        let tally = self.settled();
        Evidence {
            firsts: self.firsts,
            open: tally.unfinished(),
            period: tally.period(),
            finished: tally.row().jobs,
            released: tally.released_by(t),
        }
    }

    /// Takes a record of tick `u`, of an instruction at this address. Takes no memory.
    #[inline(always)]
    pub(crate) fn take(&mut self, u: u64, pc: u32, outcome: AttemptOutcome)
        requires limit { u < tick_limit }
        requires sound { IsSound u self.old }
        ensures { self.new ≡ tallied u outcome self.old }
    {
        self.tally.count(self.waiting);
        self.waiting = 0;
        self.firsts.note(u, pc, outcome, &self.tally);
        self.tally.take(u, outcome);
    }

    /// Takes `n` plain records, from tick `u` on. Takes no memory.
    #[inline(always)]
    pub(crate) fn take_plain(&mut self, u: u64, n: u64)
        requires some { 1 ≤ n }
        requires limit { u + n ≤ tick_limit }
        requires sound { IsSound u self.old }
        ensures { self.new ≡ plain_for u n self.old }
    {
        if may_wait(self.waiting, &self.tally) {
            self.tally.end_at(u + n);
            self.waiting += n;
        } else {
            self.tally.take_plain(u, n);
        }
    }
}
