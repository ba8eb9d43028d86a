//! The sets that are admitted.
ghost use Rattle.std.specs.Prelude.{◌≡◌, ◌↔◌, IsOk, IfOk, MatchResult, Some, None};
ghost use Rattle.rt_admit.specs.Admission.{IsAdmitted};
ghost use Rattle.rt_admit.specs.AdmittedSet.{admitted_set};
ghost use Rattle.rt_admit.specs.Refusal.{refusal, refusal_under};
ghost use Rattle.rt_admit.specs.Weight.{total_weight};

use crate::fault::AdmitFault;
use crate::params::Params;
use crate::runnable::{Runnable, examine};
use std::marker::Model;

/// Whether a set has to be admitted to be run.
#[derive(Clone, Copy, PartialEq, Eq)]
pub enum Admission {
    /// It has to be.
    Required,
    /// It may be overloaded too. Then nothing is promised of its deadlines.
    Waived,
}

impl Admission {
    /// The set of these tasks over a hyperperiod of `hyper` ticks, as one that can be run.
    ///
    /// # Errors
    /// The fault of the least number, at the first task that has it: `Overload` only where admission is required.
    pub fn examine(self, hyper: u32, params: &[Params]) -> Result<Runnable<'_>, AdmitFault>
        ensures value { IfOk result (λ set. set ≡ admitted_set hyper params.now) }
        ensures refused { MatchResult result (λ _. refusal_under self hyper params.now ≡ None)
            (λ fault. refusal_under self hyper params.now ≡ Some fault) }
    {
        match self {
            Admission::Required => match admit(hyper, params) {
                Ok(admitted) => Ok(admitted.runnable()),
                Err(fault) => Err(fault),
            },
            Admission::Waived => examine(hyper, params),
        }
    }
}

/// A task set that was admitted. Only [`admit`] makes one. A contract sees it as an `AdmittedSet`.
#[derive(Drop)]
pub struct Admitted<'a> {
    hyper: u32,
    total: u32,
    params: &'a [Params],
}

impl<'a> Model for Admitted<'a> {
    ghost use Rattle.rt_admit.specs.AdmittedSet.{AdmittedSet, IsSound};

    ghost Value = { AdmittedSet };

    ghost view = { λ a. record { hyper = a.hyper; total = a.total; tasks = a.params.now } };

    ghost invariant = { λ a. IsSound (record { hyper = a.hyper; total = a.total; tasks = a.params.now }) };
}

impl<'a> Admitted<'a> {
    /// The hyperperiod, in ticks: 1 to 4,194,304.
    pub fn hyper(&self) -> u32
        ensures { result ≡ self.now.hyper }
    {
        self.hyper
    }

    /// The sum of the weights, in ticks: at most the hyperperiod.
    pub fn total(&self) -> u32
        ensures value { result ≡ self.now.total }
        ensures summed { self.now.total ≡ total_weight self.now.hyper self.now.tasks }
    {
        self.total
    }

    /// The tasks, as they were handed to [`admit`].
    pub fn params(&self) -> &'a [Params]
        ensures value { result.now ≡ self.now.tasks }
        ensures admitted { IsAdmitted self.now.hyper self.now.tasks }
    {
        self.params
    }

    /// The same set as one that can be run.
    pub fn runnable(&self) -> Runnable<'a>
        ensures { result ≡ self.now }
    {
        Runnable::of(self)
    }
}

/// Admits the set of these tasks over a hyperperiod of `hyper` ticks (Liu and Layland 1973).
///
/// # Errors
/// The fault of the least number, at the first task that has it.
pub fn admit(hyper: u32, params: &[Params]) -> Result<Admitted<'_>, AdmitFault>
    ensures admitted { IsOk result ↔ IsAdmitted hyper params.now }
    ensures value { IfOk result (λ set. set ≡ admitted_set hyper params.now) }
    ensures refused { MatchResult result (λ _. refusal hyper params.now ≡ None)
        (λ fault. refusal hyper params.now ≡ Some fault) }
{
    let set = examine(hyper, params)?;
    let total = set.total();
    if total > hyper {
        return Err(AdmitFault::Overload { total, hyper });
    }
    Ok(Admitted {
        hyper,
        total,
        params,
    })
}
