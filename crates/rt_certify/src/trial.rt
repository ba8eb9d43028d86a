//! A program's run alone on trial: its jobs, one attempt after the other.
ghost use Rattle.std.specs.Prelude.{◌≡◌, ℕ, suc, ◌+◌, ◌-◌, ◌*◌, ◌^◌, ◌<◌, ◌≤◌, IfSome, IfNone, OnOk, IfErr};
ghost use Rattle.rt_history.specs.Program.{Program, Origin, loaded};
ghost use Rattle.rt_certify.specs.Opened.{most_ticks};
ghost use Rattle.rt_certify.specs.Working.Step.{IsStep};

use crate::certificate::{
    Certificate, Extremes, JobAt, Limits, NotCertified, PlacedCertificate, Reason,
};
use rt_history::AttemptOutcome;

/// How far a program has come, and what its finished jobs took.
#[derive(Clone, Copy)]
pub(crate) struct Trial {
    limits: Limits,
    /// How many jobs are finished.
    jobs: u64,
    /// The tick at which the open one was released.
    release: u64,
    /// How many attempts the open one has.
    ticks: u64,
    longest: u64,
    distance: Option<u64>,
    extremes: Extremes,
    ghost few: { ticks ≤ most_ticks limits },
    ghost small: { most_ticks limits + 1 < 2 ^ 64 },
}

/// Why a trial goes no further.
#[derive(Clone, Copy)]
pub(crate) enum Stop {
    /// The program has ended.
    Ended(PlacedCertificate),
    /// It isn't certified.
    Refused(NotCertified),
}

/// What an attempt is to its job.
#[derive(Clone, Copy)]
enum Step {
    /// The job goes on.
    Stays,
    /// It is finished by a sleep until this tick.
    Sleeps(u64),
    /// It is finished by an end.
    Ends,
    /// It is given up.
    Breaks(Reason),
}

/// What an attempt that comes out so is to its job.
fn step_of(outcome: AttemptOutcome) -> Step
    ensures { IsStep outcome result }
{
    match outcome {
        AttemptOutcome::Next | AttemptOutcome::Write(_) | AttemptOutcome::WriteRefused => {
            Step::Stays
        }
        AttemptOutcome::Sleep(tick) => Step::Sleeps(tick),
        AttemptOutcome::End => Step::Ends,
        AttemptOutcome::Yield => Step::Breaks(Reason::Yields),
        AttemptOutcome::Now(_) => Step::Breaks(Reason::Asks),
        AttemptOutcome::Reserve(_) | AttemptOutcome::ReserveRefused => Step::Breaks(Reason::Asks),
        AttemptOutcome::Fault(fault) => Step::Breaks(Reason::Faults(fault)),
    }
}

impl Trial {
    ghost use Rattle.rt_certify.specs.Extremes.{IsPlacedCertificate};
    ghost use Rattle.rt_certify.specs.Refused.{IsRefused};
    ghost use Rattle.rt_certify.specs.Working.Trying.{progress, done, slept, Stands, IsTold, ArePlainAttempts, IsStop, EndsBy, open_job};

    /// Before the first attempt of a program that starts at this tick.
    pub(crate) fn begin(start: u32, limits: Limits) -> Trial
        ensures limits { result.limits ≡ limits }
        ensures jobs { result.jobs ≡ 0 }
        ensures stands { (o : Origin) → Stands o start limits 0 (loaded o) (progress result) }
    {
        Trial {
            limits,
            jobs: 0,
            release: u64::from(start),
            ticks: 0,
            longest: 0,
            distance: None,
            extremes: Extremes {
                longest: None,
                distance: None,
            },
        }
    }

    /// How many jobs are finished.
    pub(crate) fn jobs(&self) -> u64
        ensures { result ≡ self.now.jobs }
    {
        self.jobs
    }

    /// How many attempts the open job may still have.
    pub(crate) fn left(&self) -> u64
        ensures { result ≡ most_ticks self.now.limits - self.now.ticks }
    {
        self.limits.most_ticks() - self.ticks
    }

    /// What is reported of the finished jobs where the next one is released at this tick, or where there is none.
    fn certificate(&self, next: Option<u64>) -> PlacedCertificate
        ensures { result ≡ record { certificate = record { jobs = self.now.jobs; longest = self.now.longest; distance = self.now.distance; next = next }; extremes = self.now.extremes } }
    {
        let certificate = Certificate {
            jobs: self.jobs,
            longest: self.longest,
            distance: self.distance,
            next,
        };
        PlacedCertificate {
            certificate,
            extremes: self.extremes,
        }
    }

    /// What is reported of the finished jobs while the next one is open.
    pub(crate) fn so_far(&self) -> PlacedCertificate
        ensures jobs { result.certificate.jobs ≡ self.now.jobs }
        ensures is { (o : Origin) (start k : ℕ) (x : Program) → Stands o start self.now.limits k x (progress self.now) →
            IsPlacedCertificate o start self.now.limits k result }
    {
        self.certificate(Some(self.release))
    }

    /// What is reported where the next attempt, at `pc`, is wrong.
    fn refused(&self, pc: u32, reason: Reason) -> NotCertified
        ensures { result ≡ record { job = self.now.jobs; pc = pc; reason = reason } }
    {
        NotCertified {
            job: self.jobs,
            pc,
            reason,
        }
    }

    /// What is reported where the budget is spent, and the next attempt, at `pc`, would be of the same job.
    pub(crate) fn over_budget(&self, pc: u32) -> NotCertified
        requires { most_ticks self.now.limits ≤ self.now.ticks }
        ensures { (o : Origin) (start k : ℕ) (x : Program) → Stands o start self.now.limits k x (progress self.now) → x.state.pc ≡ pc →
            IsRefused o start self.now.limits k result }
    {
        self.refused(
            pc,
            Reason::OverBudget {
                release: self.release,
                ticks: self.ticks + 1,
            },
        )
    }

    /// Adds `n` attempts that carry out an instruction and are no calls.
    pub(crate) fn add_plain(&mut self, n: u64)
        requires { self.old.ticks + n ≤ most_ticks self.old.limits }
        ensures limits { self.new.limits ≡ self.old.limits }
        ensures jobs { self.new.jobs ≡ self.old.jobs }
        ensures ticks { self.new.ticks ≡ self.old.ticks + n }
        ensures stands { (o : Origin) (start k : ℕ) (x y : Program) → Stands o start self.old.limits k x (progress self.old) → ArePlainAttempts n x y →
            Stands o start self.old.limits (k + n) y (progress self.new) }
    {
        self.ticks += n;
    }

    /// Adds the attempt at `pc` that comes out so.
    ///
    /// # Errors
    ///
    /// It is an end, or it is wrong: a yield, a fault, a call for an answer, or a sleep that is too soon.
    pub(crate) fn add(&mut self, pc: u32, outcome: AttemptOutcome) -> Result<(), Stop>
        requires some { self.old.ticks < most_ticks self.old.limits }
        requires room { self.old.jobs + 1 < 2 ^ 64 }
        ensures limits { self.new.limits ≡ self.old.limits }
        ensures jobs { self.new.jobs ≤ self.old.jobs + 1 }
        ensures stands { OnOk result ((o : Origin) (start k : ℕ) (x y : Program) → Stands o start self.old.limits k x (progress self.old) → IsTold x outcome y →
            Stands o start self.old.limits (suc k) y (progress self.new)) }
        ensures ended { IfErr result (EndsBy (self.old.jobs + 1)) }
        ensures stops { IfErr result (λ stop. (o : Origin) (start k : ℕ) (x y : Program) → Stands o start self.old.limits k x (progress self.old) → IsTold x outcome y →
            x.state.pc ≡ pc → IsStop o start self.old.limits k stop) }
    {
        match step_of(outcome) {
            Step::Stays => {
                self.ticks += 1;
                Ok(())
            }
            Step::Sleeps(tick) => self.sleep(pc, tick),
            Step::Ends => Err(Stop::Ended(self.end())),
            Step::Breaks(reason) => Err(Stop::Refused(self.refused(pc, reason))),
        }
    }

    /// The distance from the release of the open job to this tick; none where it is less than so many periods.
    fn distance_to(&self, tick: u64, periods: u64) -> Option<u64>
        requires { periods ≤ self.now.limits.periods }
        ensures far { IfSome result (λ d. (periods * self.now.limits.period ≤ d) × (self.now.release + d ≡ tick)) }
        ensures soon { IfNone result (tick < self.now.release + periods * self.now.limits.period) }
    {
        let distance = tick.checked_sub(self.release)?;
        if distance < self.limits.distance_of(periods) {
            None
        } else {
            Some(distance)
        }
    }

    /// The open job.
    fn open_job(&self) -> JobAt
        ensures { result ≡ open_job (progress self.now) }
    {
        let job = self.jobs;
        let release = self.release;
        JobAt { job, release }
    }

    /// The open job is finished by one attempt more.
    fn finish(&mut self)
        requires some { self.old.ticks < most_ticks self.old.limits }
        requires room { self.old.jobs + 1 < 2 ^ 64 }
        ensures limits { self.new.limits ≡ self.old.limits }
        ensures done { progress self.new ≡ done (progress self.old) }
    {
        let ticks = self.ticks + 1;
        if ticks > self.longest {
            self.longest = ticks;
            self.extremes.longest = Some(self.open_job());
        }
        self.jobs += 1;
        self.ticks = 0;
    }

    /// The open job is finished by a sleep until this tick, so far from its release, at which the next one is released.
    fn release_next(&mut self, tick: u64, distance: u64)
        requires some { self.old.ticks < most_ticks self.old.limits }
        requires room { self.old.jobs + 1 < 2 ^ 64 }
        ensures limits { self.new.limits ≡ self.old.limits }
        ensures slept { progress self.new ≡ slept tick distance (progress self.old) }
    {
        let is_closer = match self.distance {
            Some(least) => distance < least,
            None => true,
        };
        if is_closer {
            self.distance = Some(distance);
            self.extremes.distance = Some(self.open_job());
        }
        self.finish();
        self.release = tick;
    }

    /// The attempt at `pc` is a sleep until this tick.
    fn sleep(&mut self, pc: u32, tick: u64) -> Result<(), Stop>
        requires some { self.old.ticks < most_ticks self.old.limits }
        requires room { self.old.jobs + 1 < 2 ^ 64 }
        ensures limits { self.new.limits ≡ self.old.limits }
        ensures jobs { self.new.jobs ≤ self.old.jobs + 1 }
        ensures stands { OnOk result ((o : Origin) (start k : ℕ) (x y : Program) → Stands o start self.old.limits k x (progress self.old) →
            IsTold x (AttemptOutcome.Sleep tick) y → Stands o start self.old.limits (suc k) y (progress self.new)) }
        ensures ended { IfErr result (EndsBy (self.old.jobs + 1)) }
        ensures stops { IfErr result (λ stop. (o : Origin) (start k : ℕ) (x y : Program) → Stands o start self.old.limits k x (progress self.old) →
            IsTold x (AttemptOutcome.Sleep tick) y → x.state.pc ≡ pc → IsStop o start self.old.limits k stop) }
    {
        let periods = self.limits.periods_of(self.ticks + 1);
        match self.distance_to(tick, periods) {
            Some(distance) => {
                self.release_next(tick, distance);
                Ok(())
            }
            None => {
                let reason = Reason::TooSoon {
                    release: self.release,
                    sleep: tick,
                    periods: self.limits.reported_periods(periods),
                };
                Err(Stop::Refused(self.refused(pc, reason)))
            }
        }
    }

    /// The program ends with the open job. What is reported of its jobs.
    fn end(&mut self) -> PlacedCertificate
        requires some { self.old.ticks < most_ticks self.old.limits }
        requires room { self.old.jobs + 1 < 2 ^ 64 }
        ensures limits { self.new.limits ≡ self.old.limits }
        ensures jobs { self.new.jobs ≤ self.old.jobs + 1 }
        ensures ended { EndsBy (self.old.jobs + 1) (Stop.Ended result) }
        ensures is { (o : Origin) (start k : ℕ) (x y : Program) → Stands o start self.old.limits k x (progress self.old) → IsTold x AttemptOutcome.End y →
            IsPlacedCertificate o start self.old.limits k result }
    {
        self.finish();
        self.certificate(None)
    }
}
