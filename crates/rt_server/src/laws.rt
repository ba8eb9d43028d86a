//! Laws of one server, for every account and every number. Each function does nothing: its clause
//! is the law, and a caller has it after the call.
ghost use Rattle.std.specs.Prelude.{◌≡◌, ℕ, ◌+◌, ◌*◌, ◌≤◌, ◌↔◌, IsTrue, if◌then◌else◌, pos, ◌-ℤ◌, ◌*ℤ◌, ◌≤ℤ◌};
ghost use Rattle.rt_server.specs.Account.{Account, coming};
ghost use Rattle.rt_server.specs.Arrival.{refreshed, wakes_fresh, woken};
ghost use Rattle.rt_server.specs.Recharge.{spent, yielded};
ghost use Rattle.rt_server.specs.Reserve.{reserved};
ghost use Rattle.rt_server.specs.Fit.{Fits};

/// The arrival test is the paper's inequality over whole numbers with sign, (d - t) * Q <= c * P.
pub fn arrival_test_is_signed()
    ensures { (t : ℕ) (s : Account) →
        IsTrue (wakes_fresh t s) ↔ (((pos s.d -ℤ pos t) *ℤ pos s.q) ≤ℤ (pos s.c *ℤ pos s.p)) }
{}

/// After a fresh arrival the current budget fits before the deadline, whichever budget up to the
/// period was taken.
pub fn fresh_wake_fits()
    ensures { (t x : ℕ) (s : Account) → x ≤ s.p → Fits t (refreshed x t s) }
{}

/// After each wake, fresh or kept, the current budget fits before the deadline.
pub fn wake_fits()
    ensures { (t : ℕ) (s : Account) → s.q ≤ s.p → coming s ≤ s.p → Fits t (woken t s) }
{}

/// After each executed tick there is current budget to spend.
pub fn server_never_runs_dry()
    ensures spend { (s : Account) → 1 ≤ s.q → 1 ≤ (spent s).c }
    ensures yield_rest { (s : Account) → 1 ≤ s.q → 1 ≤ (yielded s).c }
{}

/// A tick moves the deadline by one period exactly where the current budget falls to 0, and else
/// not at all.
pub fn recharge_moves_one_period()
    ensures kept { (s : Account) → 2 ≤ s.c → (spent s).d ≡ s.d }
    ensures moved { (s : Account) → s.c ≤ 1 → (spent s).d ≡ s.d + s.p }
{}

/// A yield fills the current budget and moves the deadline by one period, however much was left.
pub fn yield_recharges_once()
    ensures filled { (s : Account) → (yielded s).c ≡ s.q }
    ensures moved { (s : Account) → (yielded s).d ≡ s.d + s.p }
{}

/// After each wake there is current budget to spend, where an empty server has never been woken.
pub fn wake_gives_budget()
    ensures { (t : ℕ) (s : Account) → 1 ≤ s.q → 1 ≤ coming s → (s.c ≡ 0 → s.d ≡ 0) → 1 ≤ (woken t s).c }
{}

/// The deadline stays within one period of each tick that has been executed: a wake at `t` keeps
/// the bound of tick `t`, and a tick moves it to that of the next.
pub fn deadline_is_bounded()
    ensures wake { (t : ℕ) (s : Account) → 1 ≤ s.p → s.d ≤ s.p * (t + 1) →
        (woken t s).d ≤ s.p * (t + 1) }
    ensures spend { (t : ℕ) (s : Account) → s.d ≤ s.p * (t + 1) → (spent s).d ≤ s.p * (t + 2) }
    ensures yield_rest { (t : ℕ) (s : Account) → s.d ≤ s.p * (t + 1) →
        (yielded s).d ≤ s.p * (t + 2) }
{}

/// The current budget stays within the budget.
pub fn budget_is_bounded()
    ensures wake { (t : ℕ) (s : Account) → s.c ≤ s.q → (woken t s).c ≤ (woken t s).q }
    ensures spend { (s : Account) → s.c ≤ s.q → (spent s).c ≤ (spent s).q }
    ensures yield_rest { (s : Account) → s.c ≤ s.q → (yielded s).c ≤ (yielded s).q }
{}

/// No rule changes the period, and only a fresh wake the budget: it takes the coming one.
pub fn grants_are_kept()
    ensures wake { (t : ℕ) (s : Account) →
        ((woken t s).q ≡ (if wakes_fresh t s then coming s else s.q)) × ((woken t s).p ≡ s.p) }
    ensures spend { (s : Account) → ((spent s).q ≡ s.q) × ((spent s).p ≡ s.p) }
    ensures yield_rest { (s : Account) → ((yielded s).q ≡ s.q) × ((yielded s).p ≡ s.p) }
    ensures reserve { (x : ℕ) (s : Account) → ((reserved x s).q ≡ s.q) × ((reserved x s).p ≡ s.p) }
{}
