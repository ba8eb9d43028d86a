//! The jobs of a task, as its bars tell them.

ghost use Rattle.std.specs.Prelude.{◌≡◌, ◌+◌, ◌<◌, ◌^◌};
ghost use Rattle.rt_drawing.specs.Jobs as jobs;

use rt_history::AttemptOutcome;

/// A job, how far it has come.
#[derive(Clone, Copy, PartialEq, Eq)]
pub struct Job {
    /// Its number among the jobs of its task, from 0.
    pub number: u64,
    /// The tick of its release.
    pub release: u64,
    /// How many ticks it has taken.
    pub ticks: u64,
}

impl Job {
    /// The same job, `n` ticks of it later.
    #[inline(always)]
    pub(crate) fn ticked(&self, n: u64) -> Job
        requires { self.now.ticks + n < 2 ^ 64 }
        ensures { result ≡ jobs.ticked n self.now }
    {
        Job {
            number: self.number,
            release: self.release,
            ticks: self.ticks + n,
        }
    }

    /// The job that follows it, released at a tick.
    fn next(&self, release: u64) -> Job
        requires { self.now.number + 1 < 2 ^ 64 }
        ensures { result ≡ record { number = self.now.number + 1; release = release; ticks = 0 } }
    {
        Job {
            number: self.number + 1,
            release,
            ticks: 0,
        }
    }

    /// The job that is open behind a record of it.
    pub(crate) fn behind(&self, outcome: AttemptOutcome) -> Job
        requires number { self.now.number + 1 < 2 ^ 64 }
        requires ticks { self.now.ticks + 1 < 2 ^ 64 }
        ensures { result ≡ jobs.job_by self.now outcome }
    {
        match outcome {
            AttemptOutcome::Sleep(w) => self.next(w),
            AttemptOutcome::End => self.next(self.release),
            _ => self.ticked(1),
        }
    }
}
