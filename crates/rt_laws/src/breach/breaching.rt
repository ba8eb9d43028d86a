//! The first task that misses its deadline in a set that is refused for its load.
ghost use Rattle.std.specs.Prelude.{◌≡◌, ◌≤◌, ◌<◌, ℕ, ◌↔◌, IsTrue, All, length, map, Some, IsSome, IfSome, IfNone};
ghost use Rattle.rt_admit.specs.Admission.{IsOverloaded};
ghost use Rattle.rt_admit.specs.Limits.{hyper_limit, task_limit};
ghost use Rattle.rt_admit.specs.Weight.{total_weight};
ghost use Rattle.rt_server.specs.Fit.{Fits};
ghost use Rattle.rt_image.specs.SystemFile.{TaskSet};
ghost use Rattle.rt_history.specs.Admitted.{task_params};
ghost use Rattle.rt_history.specs.Busy.{busy_at};
ghost use Rattle.rt_laws.specs.Working.BusyServers.{after_ticks, next_server};
ghost use Rattle.rt_laws.specs.breach.Breach.{IsFirstBreach};
ghost use Rattle.rt_laws.specs.breach.Working.Budget.{IsGranted, past};
ghost use Rattle.rt_laws.specs.breach.Working.Exceeding.{IsFirstExceeding};
ghost use Rattle.rt_laws.specs.breach.Working.Room.{HasRoom};

use crate::breach::busy_server::BusyServer;
use crate::breach::exceeding::Breach;
use rt_admit::{AdmitFault, MAX_TASKS, Params, admit, overload_is_else_admitted};

/// Of a set that is refused for its load, the first task whose budget no longer fits before its deadline after `hyper` ticks,
/// were all tasks always busy from tick 0 on, whatever their starts, and with its numbers then. None where the set isn't refused
/// for its load. Takes no memory.
pub fn breach(hyper: u32, params: &[Params]) -> Option<Breach>
    ensures refused { IsSome result ↔ IsOverloaded hyper params.now }
    ensures first { IfSome result (λ b. (set : TaskSet) → set.hyper ≡ hyper → task_params set.tasks ≡ params.now →
        IsFirstBreach (busy_at set hyper) b) }
{
    if !is_overloaded(hyper, params) {
        return None;
    }
    let passed = passed_tick(hyper, params);
    let mut row = [BusyServer::past(params[0], passed); MAX_TASKS];
    let servers = &mut row[..params.len()];
    place_all(servers, params, passed);
    run(servers, hyper - spent_up_to(passed, params));
    first_breach(servers, hyper)
}

/// Whether the set would be admitted but for its load.
fn is_overloaded(hyper: u32, params: &[Params]) -> bool
    ensures { IsTrue result ↔ IsOverloaded hyper params.now }
{
    overload_is_else_admitted();
    matches!(admit(hyper, params), Err(AdmitFault::Overload { .. }))
}

/// The ticks of all budgets with a deadline up to `tick`, which are spent before any other.
fn spent_up_to(tick: u32, params: &[Params]) -> u32
    requires bounded { tick ≤ hyper_limit }
    requires few { length params.now ≤ task_limit }
    requires granted { All IsGranted params.now }
    ensures { result ≡ total_weight tick params.now }
{
    let mut total = 0;
    for task in params {
        total += task.budget * (tick / task.period);
    }
    total
}

/// The last tick up to which the budgets with a deadline can all be spent within `hyper` ticks. That it is the last saves steps
/// behind it, and decides nothing.
fn passed_tick(hyper: u32, params: &[Params]) -> u32
    requires bounded { hyper ≤ hyper_limit }
    requires few { length params.now ≤ task_limit }
    requires granted { All IsGranted params.now }
    ensures within { result ≤ hyper }
    ensures spent { total_weight result params.now ≤ hyper }
{
    let mut passed = 0;
    let mut beyond = hyper;
    while beyond - passed > 1 {
        let middle = passed + (beyond - passed) / 2;
        if spent_up_to(middle, params) <= hyper {
            passed = middle;
        } else {
            beyond = middle;
        }
    }
    passed
}

/// Makes the servers of these tasks, at the moment when the budgets with a deadline up to `tick` are spent, and no other.
fn place_all(servers: &mut [BusyServer], params: &[Params], tick: u32)
    requires count { length servers.old ≡ length params.now }
    requires granted { All IsGranted params.now }
    ensures { servers.new ≡ map (past tick) params.now }
{
    for i in 0..params.len() {
        servers[i] = BusyServer::past(params[i], tick);
    }
}

/// Runs the servers for these ticks, a whole budget at a time.
fn run(servers: &mut [BusyServer], ticks: u32)
    requires some { 1 ≤ length servers.old }
    requires room { All (HasRoom ticks) servers.old }
    ensures { servers.new ≡ after_ticks ticks servers.old }
{
    let mut left = ticks;
    while left > 0 {
        let next = next_of(servers);
        let server = &mut servers[next];
        let spent = server.left().min(left);
        server.spend(spent);
        left -= spent;
    }
}

/// The number of the server that spends the next tick: the one of the least deadline, then number.
fn next_of(servers: &[BusyServer]) -> usize
    requires { 1 ≤ length servers.now }
    ensures below { result < length servers.now }
    ensures least { (key : ℕ) × (next_server servers.now ≡ Some (key, result)) }
{
    let mut next = 0;
    for i in 1..servers.len() {
        if servers[i].deadline() < servers[next].deadline() {
            next = i;
        }
    }
    next
}

/// The first server whose budget doesn't fit at this tick.
fn first_breach(servers: &[BusyServer], tick: u32) -> Option<Breach>
    requires { length servers.now ≤ task_limit }
    ensures first { IfSome result (λ b. IsFirstExceeding tick servers.now b) }
    ensures none { IfNone result (All (Fits tick) servers.now) }
{
    let task = servers.iter().position(|server| !server.fits(tick))?;
    let server = servers[task];
    Some(Breach {
        task: task as u32,
        c: server.left(),
        d: server.deadline(),
    })
}
