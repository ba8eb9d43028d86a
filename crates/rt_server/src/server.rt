//! One server: its numbers, and the three rules that change them.
ghost use Rattle.std.specs.Prelude.{◌≡◌, ◌+◌, ◌*◌, ◌==◌, ◌^◌, ◌<◌, ◌≤◌, ◌↔◌, IsTrue, if◌then◌else◌};
ghost use Rattle.rt_server.specs.Account.{begun};
ghost use Rattle.rt_server.specs.Arrival.{wakes_fresh, woken};
ghost use Rattle.rt_server.specs.Recharge.{recharged, spent, spent_for, used_up_for, yielded};
ghost use Rattle.rt_server.specs.Reserve.{reserved};
ghost use Rattle.rt_server.specs.Fit.{Fits};

use std::marker::Model;

/// How a wake left the server (arrival rule of Abeni and Buttazzo 1998).
#[derive(Clone, Copy, Debug, PartialEq, Eq)]
pub enum Wake {
    /// The reserved budget was taken, if there was one; the current budget was filled and the deadline set one period ahead.
    Fresh,
    /// All stayed as it was.
    Kept,
}

/// How an executed tick left the server.
#[derive(Clone, Copy, Debug, PartialEq, Eq)]
pub enum Spent {
    /// Some current budget is left, at the same deadline.
    Same,
    /// The current budget fell to 0: it was filled, and the deadline moved one period on.
    Postponed,
}

/// How many whole budgets of `q` ticks `n` ticks are, and how many ticks are left over.
#[inline(always)]
fn whole_budgets(n: u64, q: u64) -> (u64, u64)
    requires { 1 ≤ q }
    ensures whole { n ≡ result.0 * q + result.1 }
    ensures rest { result.1 < q }
{
    // mostly there is none, and a division is slow
    if n < q { (0, n) } else { (n / q, n % q) }
}

/// A Constant Bandwidth Server (Abeni and Buttazzo 1998).
///
/// In ticks: a budget of 1 to the period, a period below 2^32, a current budget below 2^32, a
/// deadline below 2^64, and a budget that is reserved, or none. A contract sees it as an `Account`.
#[derive(Clone, Copy, PartialEq, Eq)]
pub struct Server {
    q: u32,
    p: u32,
    c: u32,
    d: u64,
    pending: Option<u32>,
}

impl Model for Server {
    ghost use Rattle.std.specs.Prelude.{◌≤◌, unwrap_or};
    ghost use Rattle.rt_server.specs.Account.{Account};

    ghost Value = { Account };

    ghost view = { λ s. record { q = s.q; p = s.p; c = s.c; d = s.d; pending = s.pending } };

    ghost invariant = { λ s. (1 ≤ s.q) × (s.q ≤ s.p) × (1 ≤ unwrap_or s.pending s.q) × (unwrap_or s.pending s.q ≤ s.p) };

    ghost inverse = { λ a. record { q = a.q; p = a.p; c = a.c; d = a.d; pending = a.pending } };
}

impl Server {
    /// A server of budget `q` and period `p`, in ticks, that has not been woken yet: its current
    /// budget and its deadline are 0.
    pub fn new(q: u32, p: u32) -> Server
        requires positive { 1 ≤ q }
        requires within { q ≤ p }
        ensures { result ≡ begun q p }
    {
        Server {
            q,
            p,
            c: 0,
            d: 0,
            pending: None,
        }
    }

    /// The budget, in ticks: 1 to the period.
    pub fn q(&self) -> u32
        ensures value { result ≡ self.now.q }
        ensures positive { 1 ≤ self.now.q }
        ensures within { self.now.q ≤ self.now.p }
    {
        self.q
    }

    /// The period, in ticks.
    pub fn p(&self) -> u32
        ensures { result ≡ self.now.p }
    {
        self.p
    }

    /// The current budget, in ticks: what is left to spend before the deadline moves.
    pub fn c(&self) -> u32
        ensures { result ≡ self.now.c }
    {
        self.c
    }

    /// The deadline, a tick.
    #[inline(always)]
    pub fn d(&self) -> u64
        ensures { result ≡ self.now.d }
    {
        self.d
    }

    /// The budget that was reserved and hasn't taken effect, in ticks: 1 to the period.
    pub fn pending(&self) -> Option<u32>
        ensures { result ≡ self.now.pending }
    {
        self.pending
    }

    /// Reserves a budget of `q` ticks, 1 to the period, in place of an earlier one. The next fresh wake takes it; until then
    /// no rule looks at it.
    pub fn reserve(&mut self, q: u32)
        requires positive { 1 ≤ q }
        requires within { q ≤ self.old.p }
        ensures { self.new ≡ reserved q self.old }
    {
        self.pending = Some(q);
    }

    /// Wakes the server at tick `t`, at most 2^40, by the arrival rule of Abeni and Buttazzo 1998. A fresh arrival takes the
    /// reserved budget, if there is one.
    pub fn wake(&mut self, t: u64) -> Wake
        requires { t ≤ 2 ^ 40 }
        ensures account { self.new ≡ woken t self.old }
        ensures answer { result ≡ (if wakes_fresh t self.old then Wake.Fresh else Wake.Kept) }
    {
        if !self.is_fresh_at(t) {
            return Wake::Kept;
        }
        let q = self.pending.unwrap_or(self.q);
        *self = Server {
            q,
            c: q,
            d: t + u64::from(self.p),
            pending: None,
            ..*self
        };
        Wake::Fresh
    }

    /// Whether a wake at `t` is a fresh arrival: c * P >= (d - t) * Q in exact whole numbers.
    pub fn is_fresh_at(&self, t: u64) -> bool
        ensures { result ≡ wakes_fresh t self.now }
    {
        let owed = u128::from(self.d.saturating_sub(t)) * u128::from(self.q);
        owed <= u128::from(self.c) * u128::from(self.p)
    }

    /// Takes one tick of the current budget, for a tick that executed without a yield. Where none
    /// is left it is filled, and the deadline moves one period on.
    #[inline(always)]
    pub fn spend(&mut self) -> Spent
        requires budget { 1 ≤ self.old.c }
        requires room { self.old.d + self.old.p < 2 ^ 63 }
        ensures account { self.new ≡ spent self.old }
        ensures answer { result ≡ (if self.old.c == 1 then Spent.Postponed else Spent.Same) }
        ensures left { 1 ≤ self.new.c }
    {
        self.c -= 1;
        if self.c > 0 {
            return Spent::Same;
        }
        self.recharge();
        Spent::Postponed
    }

    /// Takes `n` ticks that executed without a yield, as [`spend`] takes one, and answers how many of them used the current
    /// budget up. A current budget of 0 is used up by the first.
    ///
    /// [`spend`]: Server::spend
    #[inline(always)]
    pub fn spend_for(&mut self, n: u64) -> u64
        requires { self.old.d + self.old.p * n < 2 ^ 63 }
        ensures account { self.new ≡ spent_for n self.old }
        ensures answer { result ≡ used_up_for n self.old }
    {
        let left = u64::from(self.c);
        if n < left {
            self.c -= n as u32;
            return 0;
        }
        if n == left {
            if n == 0 {
                return 0;
            }
            self.begin_next_budget();
            return 1;
        }
        let (whole, rest) = whole_budgets(n - left.max(1), u64::from(self.q));
        let times = whole + 1;
        self.c = self.q - rest as u32;
        self.d += u64::from(self.p) * times;
        times
    }

    /// Gives up the rest of the current budget, for a tick that yields, in place of [`spend`]. The
    /// current budget is filled, and the deadline moves one period on, once.
    ///
    /// [`spend`]: Server::spend
    pub fn yield_rest(&mut self)
        requires { self.old.d + self.old.p < 2 ^ 63 }
        ensures account { self.new ≡ yielded self.old }
        ensures left { 1 ≤ self.new.c }
    {
        self.c = 0;
        self.recharge();
    }

    /// Postpones an empty server: fills its current budget, and moves its deadline one period on.
    #[inline(always)]
    fn recharge(&mut self)
        requires empty { self.old.c ≡ 0 }
        requires room { self.old.d + self.old.p < 2 ^ 64 }
        ensures { self.new ≡ recharged self.old }
    {
        self.begin_next_budget();
    }

    /// Fills the current budget, and moves the deadline one period on.
    #[inline(always)]
    fn begin_next_budget(&mut self)
        requires { self.old.d + self.old.p < 2 ^ 64 }
        ensures { self.new ≡ record self.old { c = self.old.q; d = self.old.d + self.old.p } }
    {
        self.refill(self.d + u64::from(self.p));
    }

    #[inline(always)]
    fn refill(&mut self, deadline: u64)
        ensures { self.new ≡ record self.old { c = self.old.q; d = deadline } }
    {
        self.c = self.q;
        self.d = deadline;
    }

    /// Whether the current budget can still be spent in full before the deadline at tick `t`, at
    /// most 2^40: `t + c <= d`.
    pub fn fits(&self, t: u64) -> bool
        requires { t ≤ 2 ^ 40 }
        ensures { IsTrue result ↔ Fits t self.now }
    {
        t + u64::from(self.c) <= self.d
    }
}
