//! A server that is always busy.
ghost use Rattle.std.specs.Prelude.{◌≡◌, ◌+◌, ◌^◌, ◌<◌, ◌≤◌, ◌↔◌, IsTrue};
ghost use Rattle.rt_server.specs.Fit.{Fits};
ghost use Rattle.rt_laws.specs.breach.Working.Budget.{past, spent_times};

use rt_admit::Params;
use std::marker::Model;

/// A Constant Bandwidth Server (Abeni and Buttazzo 1998) whose task never sleeps, yields or ends. A contract sees it as an
/// `Account`.
#[derive(Clone, Copy)]
pub struct BusyServer {
    budget: u32,
    period: u32,
    left: u32,
    deadline: u64,
}

impl Model for BusyServer {
    ghost use Rattle.std.specs.Prelude.{None};
    ghost use Rattle.rt_server.specs.Account.{Account};

    ghost Value = { Account };

    ghost view = { λ s. record { q = s.budget; p = s.period; c = s.left; d = s.deadline; pending = None } };

    ghost inverse = { λ a. record { budget = a.q; period = a.p; left = a.c; deadline = a.d } };
}

impl BusyServer {
    /// The task's server, once each of its budgets with a deadline up to `tick` is spent, and nothing else.
    pub fn past(task: Params, tick: u32) -> BusyServer
        requires { 1 ≤ task.period }
        ensures { result ≡ past tick task }
    {
        let periods = u64::from(tick / task.period) + 1;
        BusyServer {
            budget: task.budget,
            period: task.period,
            left: task.budget,
            deadline: u64::from(task.period) * periods,
        }
    }

    /// What is left to spend before the deadline moves, in ticks.
    pub fn left(&self) -> u32
        ensures { result ≡ self.now.c }
    {
        self.left
    }

    /// The deadline, a tick.
    pub fn deadline(&self) -> u64
        ensures { result ≡ self.now.d }
    {
        self.deadline
    }

    /// Spends these ticks, at most what is left. Where none is left then, the budget is filled, and the deadline moves one period
    /// on.
    pub fn spend(&mut self, ticks: u32)
        requires some { 1 ≤ self.old.c }
        requires within { ticks ≤ self.old.c }
        requires room { self.old.d + self.old.p < 2 ^ 64 }
        ensures { self.new ≡ spent_times ticks self.old }
    {
        self.left -= ticks;
        if self.left == 0 {
            self.left = self.budget;
            self.deadline += u64::from(self.period);
        }
    }

    /// Whether all that is left can still be spent before the deadline at `tick`.
    pub fn fits(&self, tick: u32) -> bool
        ensures { IsTrue result ↔ Fits tick self.now }
    {
        u64::from(tick) + u64::from(self.left) <= self.deadline
    }
}
