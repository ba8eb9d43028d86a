//! The open jobs of tasks.

ghost use Rattle.std.specs.Prelude.{◌≡◌, IfOk, slice_get};
ghost use Rattle.std.specs.Option.{option_map};
ghost use Rattle.rt_history.specs.Job.{ends_job};
ghost use Rattle.rt_walk.specs.Jobs.{first_release, first_job, first_jobs, job_by, opened_at};
ghost use Rattle.rt_walk.specs.Working.Opened.{opened_in};

use rt_core::Machine;
use rt_exec::Fetcher;
use rt_history::{AttemptOutcome, Entry, Mode};
use rt_queue::MinQueue;
use std::alloc::{AllocError, Global};
use std::marker::Model;

/// A task's open job: its number, from 0, and its release.
#[derive(Clone, Copy, PartialEq, Eq)]
pub struct OpenJob {
    pub(crate) number: u64,
    pub(crate) release: u64,
}

/// The open jobs of all tasks.
#[derive(Drop)]
pub struct Jobs {
    jobs: Vec<OpenJob>,
}

impl Model for Jobs {
    ghost use Rattle.std.specs.Prelude.{List};
    ghost use Rattle.rt_walk.specs.declared.jobs.OpenJob.{OpenJob};

    ghost Value = { List OpenJob };

    ghost view = { λ j. j.jobs.items };
}

/// When the job of a task that has done nothing yet is released.
fn first_release(tick: u64, mode: Mode) -> u64
    ensures { result ≡ first_release tick mode }
{
    match mode {
        Mode::Asleep(wake) => wake,
        _ => tick,
    }
}

/// The first job of a task.
fn first_job<Q: MinQueue, F: Fetcher>(machine: &Machine<Q, F>, task: u32) -> Option<OpenJob>
    ensures { result ≡ option_map (first_job machine.now.tick) (slice_get machine.now.tasks task) }
{
    let view = machine.view(task)?;
    Some(OpenJob {
        number: 0,
        release: first_release(machine.now(), view.mode),
    })
}

/// Whether an outcome is the last of a job.
#[inline(always)]
pub(crate) fn ends_job(outcome: AttemptOutcome) -> bool
    ensures { result ≡ ends_job outcome }
{
    match outcome {
        AttemptOutcome::End | AttemptOutcome::Sleep(_) => true,
        _ => false,
    }
}

impl OpenJob {
    /// The open job after a record.
    fn after(self, outcome: AttemptOutcome) -> OpenJob
        ensures { result ≡ job_by self outcome }
    {
        match outcome {
            AttemptOutcome::Sleep(wake) => OpenJob {
                number: self.number.saturating_add(1),
                release: wake,
            },
            AttemptOutcome::End => OpenJob {
                number: self.number.saturating_add(1),
                release: self.release,
            },
            _ => self,
        }
    }
}

impl Jobs {
    /// The first jobs of a machine's tasks.
    ///
    /// # Errors
    ///
    /// There is no memory for them.
    pub(crate) fn begin<Q: MinQueue, F: Fetcher>(
        alloc: Global,
        machine: &Machine<Q, F>,
    ) -> Result<Jobs, AllocError>
        ensures { IfOk result (λ jobs. jobs ≡ first_jobs machine.now) }
    {
        let mut jobs = Vec::new(alloc);
        for task in 0..machine.count() {
            if let Some(job) = first_job(machine, task) {
                jobs.push(job)?;
            }
        }
        Ok(Jobs { jobs })
    }

    /// The same jobs.
    ///
    /// # Errors
    ///
    /// There is no memory for them.
    pub(crate) fn copy(&self) -> Result<Jobs, AllocError>
        ensures { IfOk result (λ jobs. jobs ≡ self.now) }
    {
        Ok(Jobs {
            jobs: Vec::from_slice(*self.jobs.allocator(), &self.jobs)?,
        })
    }

    /// The open job of a task.
    pub(crate) fn of(&self, task: u32) -> Option<OpenJob>
        ensures { result ≡ slice_get self.now task }
    {
        match self.jobs.get(task as usize) {
            Some(job) => Some(*job),
            None => None,
        }
    }

    /// Goes on by an attempt that ends a job.
    #[cold]
    #[inline(never)]
    fn end(&mut self, task: u32, outcome: AttemptOutcome)
        ensures { self.new ≡ opened_at self.old task outcome }
    {
        if let Some(job) = self.jobs.get_mut(task as usize) {
            *job = job.after(outcome);
        }
    }

    /// Goes on by an entry: by its value, so that it needn't be put in memory.
    #[inline(always)]
    pub(crate) fn pass(&mut self, entry: Entry)
        ensures { self.new ≡ opened_in self.old entry }
    {
        if let Entry::Busy { rec, .. } = entry {
            if ends_job(rec.outcome) {
                self.end(rec.task, rec.outcome);
            }
        }
    }
}
