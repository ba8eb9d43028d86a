//! A task's server with the task's mode.

ghost use Rattle.std.specs.Prelude.{◌≡◌, ◌+◌, ◌*◌, ◌^◌, ◌<◌, ◌≤◌, ◌==◌, if◌then◌else◌};
ghost use Rattle.rt_words.specs.Limits.{tick_limit};
ghost use Rattle.rt_server.specs.Recharge.{spent, spent_for, used_up_for};
ghost use Rattle.rt_history.specs.Serving.{unwoken, due, mode_after, after};
ghost use Rattle.rt_history.specs.Working.Bounded.{IsTakeable, taken};

use crate::mode::Mode;
use crate::record::AttemptOutcome;
use rt_server::{Server, Spent};
use std::marker::Model;

/// The Constant Bandwidth Server of a task, and how the task stands. It goes from wake to record to wake, as the task's own
/// records say (Abeni and Buttazzo 1998).
#[derive(Clone, Copy)]
pub struct TaskServer {
    server: Server,
    mode: Mode,
}

impl Model for TaskServer {
    ghost use Rattle.rt_history.specs.Serving.{Serving};

    ghost Value = { Serving };

    ghost view = { λ s. record { account = s.server; mode = s.mode } };

    ghost inverse = { λ s. record { server = s.account; mode = s.mode } };
}

/// The mode that a record of tick `u` leaves: a sleep until a tick that isn't to come leaves the task active.
#[inline]
fn mode_left(u: u64, outcome: AttemptOutcome) -> Mode
    ensures { result ≡ mode_after u outcome }
{
    match outcome {
        AttemptOutcome::Sleep(w) if w > u => Mode::Asleep(w),
        AttemptOutcome::End => Mode::Ended,
        AttemptOutcome::Fault(fault) => Mode::Faulted(fault),
        _ => Mode::Active,
    }
}

/// The record as this server takes it: a reserve that it can't take, of 0 or of more than its period, counts as refused. Takes no memory.
#[inline(always)]
pub fn taken_by(server: &Server, outcome: AttemptOutcome) -> AttemptOutcome
    ensures { result ≡ taken outcome server.now }
{
    match outcome {
        AttemptOutcome::Reserve(q) if q == 0 || q > server.p() => AttemptOutcome::ReserveRefused,
        _ => outcome,
    }
}

impl TaskServer {
    /// A server of `budget` ticks for each `period`, before its first wake: its task is asleep until tick `start`.
    pub fn new(budget: u32, period: u32, start: u32) -> TaskServer
        requires positive { 1 ≤ budget }
        requires within { budget ≤ period }
        ensures { result ≡ unwoken budget period start }
    {
        TaskServer {
            server: Server::new(budget, period),
            mode: Mode::Asleep(u64::from(start)),
        }
    }

    /// How the task stands.
    #[inline(always)]
    pub fn mode(&self) -> Mode
        ensures { result ≡ self.now.mode }
    {
        self.mode
    }

    /// The server's account.
    #[inline(always)]
    pub fn server(&self) -> &Server
        ensures { result.now ≡ self.now.account }
    {
        &self.server
    }

    /// Applies the wake of a task that is asleep until tick `t` or before, 0 to 2^40.
    pub fn wake_due(&mut self, t: u64)
        requires { t ≤ tick_limit }
        ensures { self.new ≡ due t self.old }
    {
        match self.mode {
            Mode::Asleep(w) if w <= t => {
                self.server.wake(w);
                self.mode = Mode::Active;
            }
            _ => {}
        }
    }

    /// Takes one tick of the budget of a task that stays active.
    #[inline(always)]
    pub fn spend(&mut self) -> Spent
        requires budget { 1 ≤ self.old.account.c }
        requires room { self.old.account.d + self.old.account.p < 2 ^ 63 }
        ensures serving { self.new ≡ record self.old { account = spent self.old.account } }
        ensures answer { result ≡ (if self.old.account.c == 1 then Spent.Postponed else Spent.Same) }
    {
        self.server.spend()
    }

    /// Takes `n` ticks of the budget of a task that stays active, and answers how many of them used the budget up.
    #[inline(always)]
    pub fn spend_for(&mut self, n: u64) -> u64
        requires { self.old.account.d + self.old.account.p * n < 2 ^ 63 }
        ensures serving { self.new ≡ record self.old { account = spent_for n self.old.account } }
        ensures answer { result ≡ used_up_for n self.old.account }
    {
        self.server.spend_for(n)
    }

    /// Takes a record of tick `u`: one tick of the budget, or the rest of it for a yield, the budget of a reserve, and the mode
    /// that the record leaves.
    #[inline]
    pub fn take(&mut self, u: u64, outcome: AttemptOutcome)
        requires room { self.old.account.d + self.old.account.p < 2 ^ 63 }
        requires takeable { IsTakeable outcome self.old.account }
        ensures { self.new ≡ after u outcome self.old.account }
    {
        if matches!(outcome, AttemptOutcome::Yield) || self.server.c() == 0 {
            self.server.yield_rest();
        } else {
            self.server.spend();
        }
        if let AttemptOutcome::Reserve(q) = outcome {
            self.server.reserve(q);
        }
        self.mode = mode_left(u, outcome);
    }
}
