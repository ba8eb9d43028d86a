//! Why a set is refused.
ghost use Rattle.std.specs.Prelude.{◌≡◌};
ghost use Rattle.rt_admit.specs.FaultNumber.{number_of};

use std::fmt;

/// Why a set isn't admitted. Tasks are counted from 0.
#[derive(Clone, Copy, Debug, PartialEq, Eq)]
pub enum AdmitFault {
    /// The set has no task.
    NoTasks,
    /// The set has more than 64 tasks.
    TooMany,
    /// The hyperperiod is 0, or above 4,194,304 ticks.
    BadHyper,
    /// The first task whose budget is 0.
    ZeroBudget(u32),
    /// The first task whose budget is above its period.
    BudgetOverPeriod(u32),
    /// The first task whose period doesn't divide the hyperperiod.
    NotDivisor(u32),
    /// The weights sum to `total` ticks, above the hyperperiod of `hyper` ticks.
    Overload { total: u32, hyper: u32 },
}

impl fmt::Display for AdmitFault {
    ghost use Rattle.std.specs.Prelude.{Some};
    ghost use Rattle.rt_admit.specs.FaultText.{admit_text};

    ghost output = { λ fault. Some (admit_text fault) };

    fn fmt<W: fmt::Write>(&self, f: &mut fmt::Formatter<W>) -> fmt::Result {
        match self {
            AdmitFault::NoTasks => f.write_str("set: NoTasks"),
            AdmitFault::TooMany => f.write_str("set: TooMany"),
            AdmitFault::BadHyper => f.write_str("set: BadHyper"),
            AdmitFault::ZeroBudget(task) => write!(f, "set: ZeroBudget task {task}"),
            AdmitFault::BudgetOverPeriod(task) => write!(f, "set: BudgetOverPeriod task {task}"),
            AdmitFault::NotDivisor(task) => write!(f, "set: NotDivisor task {task}"),
            AdmitFault::Overload { total, hyper } => write!(
                f,
                "set: Overload total {total} hyper {hyper}"
            ),
        }
    }
}

impl std::error::Error for AdmitFault {}

impl AdmitFault {
    /// The refusal's number, 1 to 7, in the order of the variants.
    pub fn number(&self) -> u8
        ensures { result ≡ number_of self.now }
    {
        match self {
            AdmitFault::NoTasks => 1,
            AdmitFault::TooMany => 2,
            AdmitFault::BadHyper => 3,
            AdmitFault::ZeroBudget(_) => 4,
            AdmitFault::BudgetOverPeriod(_) => 5,
            AdmitFault::NotDivisor(_) => 6,
            AdmitFault::Overload { .. } => 7,
        }
    }
}
