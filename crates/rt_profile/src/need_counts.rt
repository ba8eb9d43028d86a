//! What is counted of the needs of one task's jobs.

ghost use Rattle.std.specs.Prelude.{◌≡◌, ◌+◌, ◌^◌, ◌<◌, ◌≤◌, length, All, IfOk};
ghost use Rattle.rt_words.specs.Limits.{tick_limit};
ghost use Rattle.rt_profile.specs.NeedCounts.{bracket_count, no_needs, ticked, job_done};

use crate::bracket::{BRACKETS, bracket_of};
use std::alloc::{AllocError, Global};
use std::marker::Model;

/// The ticks of the open job, and how many finished jobs have a need in each bracket.
#[derive(Drop)]
pub(crate) struct NeedCounts {
    current: u64,
    counts: Vec<u64>,
}

impl Model for NeedCounts {
    ghost use Rattle.std.specs.Prelude.{◌≡◌, length};
    ghost use Rattle.rt_profile.specs.NeedCounts.{NeedState, bracket_count};

    ghost Value = { NeedState };

    ghost view = { λ n. record { current = n.current; counts = n.counts.items } };

    ghost invariant = { λ n. length n.counts.items ≡ bracket_count };
}

impl NeedCounts {
    /// Those of a task without records. All room that they need is taken here.
    ///
    /// # Errors
    ///
    /// There is no memory for them.
    pub(crate) fn new(alloc: Global) -> Result<NeedCounts, AllocError>
        ensures { IfOk result (λ made. made ≡ no_needs) }
    {
        let counts = vec![in alloc; 0u64; BRACKETS]?;
        Ok(NeedCounts { current: 0, counts })
    }

    /// Counts a tick of the open job.
    #[inline(always)]
    pub(crate) fn add_tick(&mut self)
        requires { self.old.current + 1 < 2 ^ 64 }
        ensures { self.new ≡ ticked self.old }
    {
        self.current += 1;
    }

    /// Counts the open job by its need, and opens the next.
    pub(crate) fn finish_job(&mut self)
        requires need { self.old.current < 2 ^ 41 }
        requires room { All (λ n. n ≤ tick_limit) self.old.counts }
        ensures { self.new ≡ job_done self.old }
    {
        self.counts[bracket_of(self.current)] += 1;
        self.current = 0;
    }

    /// How many finished jobs have a need in each bracket, in rising order.
    pub(crate) fn counts(&self) -> &[u64]
        ensures value { result.now ≡ self.now.counts }
        ensures count { length result.now ≡ bracket_count }
    {
        &self.counts
    }
}
