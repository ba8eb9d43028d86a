//! The sets that can be run, and the tests of one.
ghost use Rattle.std.specs.Prelude.{◌≡◌, ◌<◌, ◌≤◌, length, position, All, IfOk, IfSome, MatchResult, Some, None};
ghost use Rattle.rt_admit.specs.Admission.{IsEligible, IsRunnable};
ghost use Rattle.rt_admit.specs.AdmittedSet.{admitted_set};
ghost use Rattle.rt_admit.specs.Limits.{hyper_limit, task_limit};
ghost use Rattle.rt_admit.specs.Refusal.{has_no_budget, is_no_divisor, is_over_period, misfit};
ghost use Rattle.rt_admit.specs.Weight.{total_weight};

use crate::admission::Admitted;
use crate::fault::AdmitFault;
use crate::params::{MAX_HYPER, MAX_TASKS, Params};
use std::marker::Model;

/// A task set that can be run, whatever its load. Only [`examine`] makes one, and each admitted set is one. A contract sees it as an
/// `AdmittedSet`.
#[derive(Drop)]
pub struct Runnable<'a> {
    hyper: u32,
    total: u32,
    params: &'a [Params],
}

impl<'a> Model for Runnable<'a> {
    ghost use Rattle.rt_admit.specs.AdmittedSet.{AdmittedSet, CanRun};

    ghost Value = { AdmittedSet };

    ghost view = { λ a. record { hyper = a.hyper; total = a.total; tasks = a.params.now } };

    ghost invariant = { λ a. CanRun (record { hyper = a.hyper; total = a.total; tasks = a.params.now }) };
}

impl<'a> Runnable<'a> {
    /// An admitted set, as one that can be run.
    pub(crate) fn of(set: &Admitted<'a>) -> Runnable<'a>
        ensures { result ≡ set.now }
    {
        Runnable {
            hyper: set.hyper(),
            total: set.total(),
            params: set.params(),
        }
    }

    /// The hyperperiod, in ticks: 1 to 4,194,304.
    pub fn hyper(&self) -> u32
        ensures { result ≡ self.now.hyper }
    {
        self.hyper
    }

    /// The sum of the weights, in ticks: above the hyperperiod where the set is overloaded.
    pub fn total(&self) -> u32
        ensures value { result ≡ self.now.total }
        ensures summed { self.now.total ≡ total_weight self.now.hyper self.now.tasks }
    {
        self.total
    }

    /// The tasks, as they were handed to [`examine`].
    pub fn params(&self) -> &'a [Params]
        ensures value { result.now ≡ self.now.tasks }
        ensures runnable { IsRunnable self.now.hyper self.now.tasks }
    {
        self.params
    }
}

/// Examines the set of these tasks over a hyperperiod of `hyper` ticks by all tests but that of its load.
///
/// # Errors
/// The fault of the least number, at the first task that has it: none is `Overload`.
pub fn examine(hyper: u32, params: &[Params]) -> Result<Runnable<'_>, AdmitFault>
    ensures value { IfOk result (λ set. set ≡ admitted_set hyper params.now) }
    ensures refused { MatchResult result (λ _. misfit hyper params.now ≡ None)
        (λ fault. misfit hyper params.now ≡ Some fault) }
{
    if params.is_empty() {
        return Err(AdmitFault::NoTasks);
    }
    if params.len() > MAX_TASKS {
        return Err(AdmitFault::TooMany);
    }
    if hyper == 0 || hyper > MAX_HYPER {
        return Err(AdmitFault::BadHyper);
    }
    if let Some(task) = first_without_budget(params) {
        return Err(AdmitFault::ZeroBudget(task as u32));
    }
    if let Some(task) = first_over_period(params) {
        return Err(AdmitFault::BudgetOverPeriod(task as u32));
    }
    if let Some(task) = first_non_divisor(hyper, params) {
        return Err(AdmitFault::NotDivisor(task as u32));
    }
    let total = weight_sum(hyper, params);
    Ok(Runnable {
        hyper,
        total,
        params,
    })
}

/// The sum of the weights of eligible tasks, in ticks.
fn weight_sum(hyper: u32, params: &[Params]) -> u32
    requires hyper_bounded { hyper ≤ hyper_limit }
    requires few { length params.now ≤ task_limit }
    requires eligible { All (IsEligible hyper) params.now }
    ensures { result ≡ total_weight hyper params.now }
{
    let mut total = 0;
    for task in params {
        total += task.weight(hyper);
    }
    total
}

fn first_without_budget(params: &[Params]) -> Option<usize>
    ensures value { result ≡ position has_no_budget params.now }
    ensures within { IfSome result (λ task. task < length params.now) }
{
    params.iter().position(|task| task.budget == 0)
}

fn first_over_period(params: &[Params]) -> Option<usize>
    ensures value { result ≡ position is_over_period params.now }
    ensures within { IfSome result (λ task. task < length params.now) }
{
    params.iter().position(|task| task.period < task.budget)
}

fn first_non_divisor(hyper: u32, params: &[Params]) -> Option<usize>
    ensures value { result ≡ position (is_no_divisor hyper) params.now }
    ensures within { IfSome result (λ task. task < length params.now) }
{
    params
        .iter()
        .position(|task| !hyper.is_multiple_of(task.period))
}
