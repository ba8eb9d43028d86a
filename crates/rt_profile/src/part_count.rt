//! What is counted of one part of a task's addresses.

ghost use Rattle.std.specs.Prelude.{◌≡◌, ◌+◌, ◌^◌, ◌<◌};
ghost use Rattle.rt_profile.specs.Counted.{no_ticks, most_of, turned, passed};

/// The ticks of one part.
#[derive(Clone, Copy, PartialEq, Eq)]
pub(crate) struct PartCount {
    /// All of them.
    pub(crate) ticks: u64,
    /// The number of the last job that has some, from 0.
    pub(crate) job: u64,
    /// Those of the jobs before it.
    pub(crate) begun: u64,
    /// The most that one of these has.
    pub(crate) most_before: u64,
}

impl PartCount {
    /// A part without ticks.
    pub(crate) fn new() -> PartCount
        ensures { result ≡ no_ticks }
    {
        PartCount {
            ticks: 0,
            job: 0,
            begun: 0,
            most_before: 0,
        }
    }

    /// The most that one job has.
    pub(crate) fn most(&self) -> u64
        ensures { result ≡ most_of self.now }
    {
        self.most_before.max(self.ticks.saturating_sub(self.begun))
    }

    /// Goes on to the job of this number, where another has the last tick.
    #[inline(always)]
    fn turn_to(&mut self, job: u64)
        ensures turned { self.new ≡ turned job self.old }
        ensures ticks { self.new.ticks ≡ self.old.ticks }
    {
        if self.job != job {
            self.most_before = self.most();
            self.begun = self.ticks;
            self.job = job;
        }
    }

    /// Counts a tick of the job of this number: with another job its count begins anew.
    #[inline(always)]
    pub(crate) fn pass(&mut self, job: u64)
        requires { self.old.ticks + 1 < 2 ^ 64 }
        ensures { self.new ≡ passed job self.old }
    {
        self.turn_to(job);
        self.ticks += 1;
    }
}
