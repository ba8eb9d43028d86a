//! One server by hand: wakes at equality, postponements, the greatest numbers.
use crate::tests::same;
use rt_server::{
    Server, Spent, Wake, arrival_test_is_signed, budget_is_bounded, deadline_is_bounded,
    fresh_wake_fits, grants_are_kept, recharge_moves_one_period, server_never_runs_dry, wake_fits,
    wake_gives_budget, yield_recharges_once,
};
use std::fmt::Debug;
use std::process::Abort;

/// A call of a server.
#[derive(Clone, Copy, Debug)]
enum Call {
    IsFreshAt(u64),
    Wake(u64),
    /// So many calls of `spend`, of which the last answers.
    Spend(u32),
    SpendFor(u64),
    Fits(u64),
    YieldRest,
    Reserve(u32),
}

/// What a call answers.
#[derive(Clone, Copy, Debug, PartialEq)]
enum Answer {
    Is(bool),
    Woken(Wake),
    Left(Spent),
    UsedUp(u64),
    Nothing,
}

use Answer::{Is, Left, Nothing, UsedUp, Woken};
use Call::{Fits, IsFreshAt, Reserve, Spend, SpendFor, YieldRest};
use Spent::{Postponed, Same};
use Wake::{Fresh, Kept};

/// Budget, current budget, deadline, and the budget that is pending.
type Standing = (u32, u32, u64, Option<u32>);

/// A call, what it answers, and how the server stands then.
type Step = (Call, Answer, Standing);

/// Calls of a new server of a budget and a period, worked out by hand.
#[derive(Clone, Copy)]
struct Run {
    q: u32,
    p: u32,
    steps: &'static [Step],
    then: &'static [Step],
}

fn standing(server: &Server) -> Standing {
    (server.q(), server.c(), server.d(), server.pending())
}

/// A wake at a tick up to 2^40.
fn wake(server: &mut Server, t: u64) -> Option<Answer> {
    if t > 1 << 40 {
        return None;
    }
    Some(Woken(server.wake(t)))
}

/// One tick after the other, where some budget is left and the deadline can move.
fn spend(server: &mut Server, ticks: u32) -> Option<Answer> {
    let mut last = Same;
    for _ in 0..ticks {
        if server.c() == 0 || server.d() > (1 << 62) - u64::from(server.p()) {
            return None;
        }
        last = server.spend();
    }
    Some(Left(last))
}

/// Many ticks at once, where the deadline can move.
fn spend_for(server: &mut Server, ticks: u64) -> Option<Answer> {
    if server.p() > 1000 || server.d() > 1000 || ticks > 1000 {
        return None;
    }
    Some(UsedUp(server.spend_for(ticks)))
}

/// Whether the budget fits at a tick up to 2^40.
fn fits(server: &Server, t: u64) -> Option<Answer> {
    if t > 1 << 40 {
        return None;
    }
    Some(Is(server.fits(t)))
}

/// A yield, where the deadline can move.
fn yield_rest(server: &mut Server) -> Option<Answer> {
    if server.d() > (1 << 62) - u64::from(server.p()) {
        return None;
    }
    server.yield_rest();
    Some(Nothing)
}

/// A reserve of a budget up to the period.
fn reserve(server: &mut Server, q: u32) -> Option<Answer> {
    if q < 1 || q > server.p() {
        return None;
    }
    server.reserve(q);
    Some(Nothing)
}

/// What a call answers, where it may be made.
fn ask(server: &mut Server, call: Call) -> Option<Answer> {
    match call {
        IsFreshAt(t) => Some(Is(server.is_fresh_at(t))),
        Call::Wake(t) => wake(server, t),
        Spend(ticks) => spend(server, ticks),
        SpendFor(ticks) => spend_for(server, ticks),
        Fits(t) => fits(server, t),
        YieldRest => yield_rest(server),
        Reserve(q) => reserve(server, q),
    }
}

/// Makes these calls.
fn follow(rt: &impl Abort, server: &mut Server, steps: &[Step]) {
    for (call, answered, stands) in steps {
        let found = (ask(server, *call), standing(server));
        same(rt, *call, found, (Some(*answered), *stands));
    }
}

fn try_run(rt: &impl Abort, run: &Run) {
    let (q, p) = (run.q, run.p);
    same(rt, "a budget up to the period", 1 <= q && q <= p, true);
    if 1 <= q && q <= p {
        let mut server = Server::new(q, p);
        same(rt, "a new one", standing(&server), (q, 0, 0, None));
        follow(rt, &mut server, run.steps);
        follow(rt, &mut server, run.then);
        same(rt, "the period", server.p(), p);
    }
}

/// The server of budget 5 and period 10 that was woken at 0 and spent 4 ticks.
const SPENT_4: [Step; 2] = [
    (Call::Wake(0), Woken(Fresh), (5, 5, 10, None)),
    (Spend(4), Left(Same), (5, 1, 10, None)),
];

static AT_EQUALITY: Run = Run {
    q: 5,
    p: 10,
    steps: &SPENT_4,
    then: &[
        (IsFreshAt(7), Is(false), (5, 1, 10, None)),
        (Call::Wake(7), Woken(Kept), (5, 1, 10, None)),
        (IsFreshAt(8), Is(true), (5, 1, 10, None)),
        (Call::Wake(8), Woken(Fresh), (5, 5, 18, None)),
    ],
};

#[test]
fn wake_at_equality_is_fresh(rt: HostRuntime) {
    try_run(&rt, &AT_EQUALITY);
}

static YIELDS: [Run; 2] = [
    Run {
        q: 5,
        p: 10,
        steps: &[
            (Call::Wake(0), Woken(Fresh), (5, 5, 10, None)),
            (Spend(1), Left(Same), (5, 4, 10, None)),
        ],
        then: &[(YieldRest, Nothing, (5, 5, 20, None))],
    },
    Run {
        q: 2,
        p: 10,
        steps: &[
            (Call::Wake(0), Woken(Fresh), (2, 2, 10, None)),
            (Spend(1), Left(Same), (2, 1, 10, None)),
        ],
        then: &[(YieldRest, Nothing, (2, 2, 20, None))],
    },
];

fn try_runs(rt: &impl Abort, runs: &[Run]) {
    for run in runs {
        try_run(rt, run);
    }
}

#[test]
fn yield_postpones_once(rt: HostRuntime) {
    try_runs(&rt, &YIELDS);
}

static EXHAUSTED: Run = Run {
    q: 4,
    p: 10,
    steps: &[
        (Call::Wake(0), Woken(Fresh), (4, 4, 10, None)),
        (Spend(3), Left(Same), (4, 1, 10, None)),
    ],
    then: &[
        (Spend(1), Left(Postponed), (4, 4, 20, None)),
        (Call::Wake(9), Woken(Kept), (4, 4, 20, None)),
        (Call::Wake(11), Woken(Fresh), (4, 4, 21, None)),
    ],
};

#[test]
fn exhausted_sleeper_is_postponed_before_it_sleeps(rt: HostRuntime) {
    try_run(&rt, &EXHAUSTED);
}

static FITTING: Run = Run {
    q: 5,
    p: 10,
    steps: &[
        (Call::Wake(0), Woken(Fresh), (5, 5, 10, None)),
        (Spend(3), Left(Same), (5, 2, 10, None)),
    ],
    then: &[
        (Spend(1), Left(Same), (5, 1, 10, None)),
        // 9 and 1 tick left are 10
        (Fits(9), Is(true), (5, 1, 10, None)),
        (Fits(10), Is(false), (5, 1, 10, None)),
    ],
};

#[test]
fn fits_up_to_the_deadline(rt: HostRuntime) {
    try_run(&rt, &FITTING);
}

const ALL: u32 = u32::MAX;

static GREATEST: Run = Run {
    q: ALL,
    p: ALL,
    steps: &[
        (Call::Wake(0), Woken(Fresh), (ALL, ALL, 4_294_967_295, None)),
        (YieldRest, Nothing, (ALL, ALL, 8_589_934_590, None)),
    ],
    // 2 * (2^32 - 1) * (2^32 - 1) is above 2^64
    then: &[
        (Call::Wake(0), Woken(Kept), (ALL, ALL, 8_589_934_590, None)),
        (
            Call::Wake(4_294_967_294),
            Woken(Kept),
            (ALL, ALL, 8_589_934_590, None),
        ),
        (
            Call::Wake(4_294_967_295),
            Woken(Fresh),
            (ALL, ALL, 8_589_934_590, None),
        ),
    ],
};

#[test]
fn greatest_budget_is_compared_exactly(rt: HostRuntime) {
    try_run(&rt, &GREATEST);
}

/// Budget 5 of 10 is fresh from tick 8 on, as 1 * 10 >= (10 - 8) * 5; budget 3 would be from 7 on, and 10 from 9 on.
static RESERVES: [Run; 5] = [
    Run {
        q: 5,
        p: 10,
        steps: &SPENT_4,
        then: &[
            (Reserve(2), Nothing, (5, 1, 10, Some(2))),
            (Reserve(3), Nothing, (5, 1, 10, Some(3))),
            (Call::Wake(7), Woken(Kept), (5, 1, 10, Some(3))),
            (Reserve(1), Nothing, (5, 1, 10, Some(1))),
            (Call::Wake(7), Woken(Kept), (5, 1, 10, Some(1))),
            (Call::Wake(8), Woken(Fresh), (1, 1, 18, None)),
        ],
    },
    Run {
        q: 5,
        p: 10,
        steps: &SPENT_4,
        then: &[
            (Reserve(2), Nothing, (5, 1, 10, Some(2))),
            (Reserve(3), Nothing, (5, 1, 10, Some(3))),
            (Call::Wake(7), Woken(Kept), (5, 1, 10, Some(3))),
            (Call::Wake(8), Woken(Fresh), (3, 3, 18, None)),
        ],
    },
    Run {
        q: 5,
        p: 10,
        steps: &SPENT_4,
        then: &[
            (Reserve(3), Nothing, (5, 1, 10, Some(3))),
            (Reserve(5), Nothing, (5, 1, 10, Some(5))),
            (Call::Wake(7), Woken(Kept), (5, 1, 10, Some(5))),
            (Call::Wake(8), Woken(Fresh), (5, 5, 18, None)),
        ],
    },
    Run {
        q: 5,
        p: 10,
        steps: &SPENT_4,
        then: &[
            (Reserve(3), Nothing, (5, 1, 10, Some(3))),
            (Reserve(10), Nothing, (5, 1, 10, Some(10))),
            (Call::Wake(7), Woken(Kept), (5, 1, 10, Some(10))),
            (Call::Wake(8), Woken(Fresh), (10, 10, 18, None)),
        ],
    },
    // the next wake but one has nothing to take
    Run {
        q: 5,
        p: 10,
        steps: &SPENT_4,
        then: &[
            (Reserve(2), Nothing, (5, 1, 10, Some(2))),
            (Call::Wake(8), Woken(Fresh), (2, 2, 18, None)),
            (Spend(1), Left(Same), (2, 1, 18, None)),
            (Spend(1), Left(Postponed), (2, 2, 28, None)),
            (Call::Wake(18), Woken(Fresh), (2, 2, 28, None)),
        ],
    },
];

#[test]
fn reserve_waits_for_a_fresh_wake(rt: HostRuntime) {
    try_runs(&rt, &RESERVES[..4]);
}

/// With a budget pending a used one is filled as ever: 5 * 10 >= (20 - t) * 5 from 10 on.
static REFILLED: [Run; 4] = [
    Run {
        q: 5,
        p: 10,
        steps: &SPENT_4,
        then: &[
            (Reserve(2), Nothing, (5, 1, 10, Some(2))),
            (Spend(1), Left(Postponed), (5, 5, 20, Some(2))),
        ],
    },
    Run {
        q: 5,
        p: 10,
        steps: &SPENT_4,
        then: &[
            (Reserve(9), Nothing, (5, 1, 10, Some(9))),
            (Spend(1), Left(Postponed), (5, 5, 20, Some(9))),
        ],
    },
    Run {
        q: 5,
        p: 10,
        steps: &SPENT_4,
        then: &[
            (Reserve(2), Nothing, (5, 1, 10, Some(2))),
            (YieldRest, Nothing, (5, 5, 20, Some(2))),
            (Call::Wake(9), Woken(Kept), (5, 5, 20, Some(2))),
            (Call::Wake(10), Woken(Fresh), (2, 2, 20, None)),
        ],
    },
    Run {
        q: 5,
        p: 10,
        steps: &SPENT_4,
        then: &[
            (Reserve(9), Nothing, (5, 1, 10, Some(9))),
            (YieldRest, Nothing, (5, 5, 20, Some(9))),
            (Call::Wake(9), Woken(Kept), (5, 5, 20, Some(9))),
            (Call::Wake(10), Woken(Fresh), (9, 9, 20, None)),
        ],
    },
];

#[test]
fn present_budget_is_refilled_while_another_is_pending(rt: HostRuntime) {
    try_runs(&rt, &REFILLED);
}

#[test]
fn budget_of_a_reserve_is_spent_after_its_wake(rt: HostRuntime) {
    try_runs(&rt, &RESERVES[4..]);
}

/// Budget 1 of 3 has run ticks 0 to 6, and reserved 2 in tick 2.
static SLEEPER: Run = Run {
    q: 1,
    p: 3,
    steps: &[
        (Call::Wake(0), Woken(Fresh), (1, 1, 3, None)),
        (Spend(3), Left(Postponed), (1, 1, 12, None)),
        (Reserve(2), Nothing, (1, 1, 12, Some(2))),
        (Spend(4), Left(Postponed), (1, 1, 24, Some(2))),
    ],
    then: &[
        (Call::Wake(20), Woken(Kept), (1, 1, 24, Some(2))),
        // 1 * 3 >= (24 - 21) * 1, but not times 2
        (Call::Wake(21), Woken(Fresh), (2, 2, 24, None)),
    ],
};

#[test]
fn sleeper_with_a_reserve_at_equality(rt: HostRuntime) {
    try_run(&rt, &SLEEPER);
}

static ALL_RESERVED: Run = Run {
    q: 1,
    p: ALL,
    steps: &[
        (Call::Wake(0), Woken(Fresh), (1, 1, 4_294_967_295, None)),
        (Reserve(ALL), Nothing, (1, 1, 4_294_967_295, Some(ALL))),
    ],
    then: &[(Call::Wake(0), Woken(Fresh), (ALL, ALL, 4_294_967_295, None))],
};

#[test]
fn greatest_budget_is_reserved(rt: HostRuntime) {
    try_run(&rt, &ALL_RESERVED);
}

#[test]
fn laws_can_be_called(_rt: HostRuntime) {
    arrival_test_is_signed();
    fresh_wake_fits();
    wake_fits();
    server_never_runs_dry();
    recharge_moves_one_period();
    yield_recharges_once();
    wake_gives_budget();
    deadline_is_bounded();
    budget_is_bounded();
    grants_are_kept();
}

static MANY_TICKS: [Run; 2] = [
    Run {
        q: 5,
        p: 10,
        steps: &[(Call::Wake(0), Woken(Fresh), (5, 5, 10, None))],
        then: &[
            (SpendFor(0), UsedUp(0), (5, 5, 10, None)),
            (SpendFor(3), UsedUp(0), (5, 2, 10, None)),
            (SpendFor(2), UsedUp(1), (5, 5, 20, None)),
            (SpendFor(12), UsedUp(2), (5, 3, 40, None)),
            (SpendFor(8), UsedUp(2), (5, 5, 60, None)),
        ],
    },
    Run {
        q: 3,
        p: 10,
        steps: &[],
        then: &[(SpendFor(2), UsedUp(1), (3, 2, 10, None))],
    },
];

#[test]
fn many_ticks_at_once(rt: HostRuntime) {
    try_runs(&rt, &MANY_TICKS);
}
