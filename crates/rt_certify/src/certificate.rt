//! What is asked of a program, and what is reported of it.

use rt_exec::Fault;
use std::fmt;

/// What each job is compared with. A job has as many periods as it takes budgets.
#[derive(Clone, Copy, PartialEq, Eq)]
pub struct Limits {
    /// The most ticks of a job, for each period that it may have.
    pub budget: u32,
    /// The least number of ticks from a release to the tick until which its job sleeps, for each period that the job has.
    pub period: u32,
    /// The most periods of a job.
    pub periods: u32,
}

impl Limits {
    ghost use Rattle.std.specs.Prelude.{◌≡◌, ◌*◌, ◌<◌, ◌≤◌};
    ghost use Rattle.rt_certify.specs.Opened.{most_ticks};
    ghost use Rattle.rt_certify.specs.Refused.{Takes, reported_periods};

    /// The most ticks of a job.
    pub(crate) fn most_ticks(self) -> u64
        ensures { result ≡ most_ticks self }
    {
        u64::from(self.periods) * u64::from(self.budget)
    }

    /// How many periods a job of so many ticks has: as many as it takes budgets.
    pub(crate) fn periods_of(self, ticks: u64) -> u64
        requires { 0 < self.budget }
        ensures { Takes self.budget ticks result }
    {
        ticks.div_ceil(u64::from(self.budget))
    }

    /// The least number of ticks from the release of a job of so many periods to the tick until which it sleeps.
    pub(crate) fn distance_of(self, periods: u64) -> u64
        requires { periods ≤ self.periods }
        ensures { result ≡ periods * self.period }
    {
        periods * u64::from(self.period)
    }

    /// The number of a job's periods, reported where jobs may have several.
    pub(crate) fn reported_periods(self, periods: u64) -> Option<u64>
        ensures { result ≡ reported_periods self periods }
    {
        (self.periods > 1).then_some(periods)
    }
}

/// The jobs of a program that kept to the limits.
#[derive(Clone, Copy, PartialEq, Eq)]
pub struct Certificate {
    /// How many jobs were finished.
    pub jobs: u64,
    /// The most ticks of one of them, 0 where there are none.
    pub longest: u64,
    /// The least number of ticks from the release of one of them to the tick until which it slept; none where none slept.
    pub distance: Option<u64>,
    /// The tick at which the next job is released; none where the program has ended.
    pub next: Option<u64>,
}

/// A job of a program.
#[derive(Clone, Copy, Debug, PartialEq, Eq)]
pub struct JobAt {
    /// Its number, from 0.
    pub job: u64,
    /// The tick of its release.
    pub release: u64,
}

/// The jobs that have a certificate's numbers.
#[derive(Clone, Copy, Debug, PartialEq, Eq)]
pub struct Extremes {
    /// The first with the most ticks; none where no job was finished.
    pub longest: Option<JobAt>,
    /// The first with the least distance; none where none slept.
    pub distance: Option<JobAt>,
}

/// A certificate, and the jobs that have its numbers.
#[derive(Clone, Copy, PartialEq, Eq)]
pub struct PlacedCertificate {
    pub certificate: Certificate,
    pub extremes: Extremes,
}

/// The first attempt that breaks the limits, or after which nothing can be said.
#[derive(Clone, Copy, Debug, PartialEq, Eq)]
pub struct NotCertified {
    /// The number of its job, from 0.
    pub job: u64,
    /// The address of its instruction.
    pub pc: u32,
    pub reason: Reason,
}

/// What is wrong with an attempt.
#[derive(Clone, Copy, Debug, PartialEq, Eq)]
pub enum Reason {
    /// With it, the job that was released at tick `release` would have `ticks` ticks: one more than the most.
    OverBudget {
        release: u64,
        ticks: u64,
    },
    /// It is a yield.
    Yields,
    /// It asks for the tick or for a budget, whose answers depend on the set.
    Asks,
    /// It faults.
    Faults(Fault),
    /// It sleeps until tick `sleep`, less than a period after the tick `release` of its job; or, where jobs may have several, less than
    /// these `periods`.
    TooSoon {
        release: u64,
        sleep: u64,
        periods: Option<u64>,
    },
}

/// An address, as eight hexadecimal digits.
#[derive(Clone, Copy)]
struct Address(u32);

#[tactic(auto, using(crate::proofs::Hex::eight_digits))]
impl fmt::Display for Address {
    ghost use Rattle.std.specs.Prelude.{Some};
    ghost use Rattle.rt_words.specs.Hex.{hex};

    ghost output = { λ a. Some (hex 8 a.0) };

    fn fmt<W: fmt::Write>(&self, f: &mut fmt::Formatter<W>) -> fmt::Result {
        let address = self.0;
        write!(f, "{address:08x}")
    }
}

/// A fault, by its name.
#[derive(Clone, Copy)]
struct Name(Fault);

impl fmt::Display for Name {
    ghost use Rattle.std.specs.Prelude.{Some};
    ghost use Rattle.rt_exec.specs.Numbering.{fault_name};

    ghost output = { λ n. Some (fault_name n.0) };

    fn fmt<W: fmt::Write>(&self, f: &mut fmt::Formatter<W>) -> fmt::Result {
        match self.0 {
            Fault::Illegal => write!(f, "Illegal"),
            Fault::JumpMisaligned => write!(f, "JumpMisaligned"),
            Fault::FetchAccess => write!(f, "FetchAccess"),
            Fault::LoadMisaligned => write!(f, "LoadMisaligned"),
            Fault::LoadAccess => write!(f, "LoadAccess"),
            Fault::StoreMisaligned => write!(f, "StoreMisaligned"),
            Fault::StoreAccess => write!(f, "StoreAccess"),
            Fault::Break => write!(f, "Break"),
            Fault::UnknownCall => write!(f, "UnknownCall"),
        }
    }
}

/// A refusal is written as one line without its end.
impl fmt::Display for NotCertified {
    ghost use Rattle.std.specs.Prelude.{Some};
    ghost use Rattle.rt_certify.specs.RefusalText.{refusal_text};

    ghost output = { λ e. Some (refusal_text e) };

    fn fmt<W: fmt::Write>(&self, f: &mut fmt::Formatter<W>) -> fmt::Result {
        let NotCertified { job, pc, reason } = *self;
        let pc = Address(pc);
        match reason {
            Reason::OverBudget { release, ticks } => write!(
                f,
                "OverBudget job {job} pc {pc} release {release} ticks {ticks}"
            ),
            Reason::Yields => write!(f, "Yields job {job} pc {pc}"),
            Reason::Asks => write!(f, "Asks job {job} pc {pc}"),
            Reason::Faults(fault) => write!(f, "Faults job {job} pc {pc} {}", Name(fault)),
            Reason::TooSoon {
                release,
                sleep,
                periods: None,
            } => write!(
                f,
                "TooSoon job {job} pc {pc} release {release} sleep {sleep}"
            ),
            Reason::TooSoon {
                release,
                sleep,
                periods: Some(periods),
            } => write!(
                f,
                "TooSoon job {job} pc {pc} release {release} sleep {sleep} periods {periods}"
            ),
        }
    }
}
