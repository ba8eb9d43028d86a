//! What a task asks for, and the limits of a set.

ghost use Rattle.std.specs.Prelude.{◌≡◌};
ghost use Rattle.rt_admit.specs.Admission.{IsEligible};
ghost use Rattle.rt_admit.specs.Weight.{weight_of};

/// The most tasks of a set that is admitted.
pub const MAX_TASKS: usize = 64;

/// The greatest hyperperiod, in ticks.
pub const MAX_HYPER: u32 = 4_194_304;

/// What a task asks for: `budget` ticks in each `period` ticks, from the tick `start` on.
#[derive(Clone, Copy, Debug, PartialEq, Eq)]
pub struct Params {
    /// Ticks that the task may execute in each period.
    pub budget: u32,
    /// Ticks from one deadline to the next.
    pub period: u32,
    /// The tick of the first wake. Admission doesn't depend on it.
    pub start: u32,
}

impl Params {
    /// The ticks that an eligible task asks for in a hyperperiod of so many ticks (Liu and Layland 1973).
    pub fn weight(&self, hyper: u32) -> u32
        requires { IsEligible hyper self.now }
        ensures { result ≡ weight_of hyper self.now }
    {
        self.budget * (hyper / self.period)
    }
}
