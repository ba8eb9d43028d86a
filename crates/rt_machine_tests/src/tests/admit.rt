//! Sets that are admitted and refused by hand.
use crate::tests::same;
use rt_admit::{
    AdmitFault, MAX_HYPER, MAX_TASKS, Params, Reserved, admit, admitted_iff_not_refused,
    eligible_task, load_is_utilisation, overload_is_else_admitted, trial,
    utilisation_is_at_most_one,
};
use std::process::Abort;
use std::test::Fail;

fn task(budget: u32, period: u32) -> Params {
    Params {
        budget,
        period,
        start: 0,
    }
}

/// The hyperperiod, the total and the number of tasks of the admitted set.
fn outcome(hyper: u32, params: &[Params]) -> Result<(u32, u32, usize), AdmitFault> {
    let set = admit(hyper, params)?;
    Ok((set.hyper(), set.total(), set.params().len()))
}

/// Fails unless a set of budgets and periods comes to this.
fn comes_to(
    rt: &impl Abort,
    hyper: u32,
    params: &[Params],
    expected: Result<(u32, u32, usize), AdmitFault>,
) {
    same(rt, (hyper, params.len()), outcome(hyper, params), expected);
}

#[test]
fn full_load_is_admitted(rt: HostRuntime) {
    let set = [task(1, 2), task(1, 3), task(1, 6)];
    comes_to(&rt, 12, &set, Ok((12, 12, 3)));
}

#[test]
fn refusals_name_the_first_task(rt: HostRuntime) {
    let fault = AdmitFault::Overload {
        total: 14,
        hyper: 12,
    };
    comes_to(&rt, 12, &[task(2, 3), task(2, 4)], Err(fault));
    comes_to(&rt, 12, &[], Err(AdmitFault::NoTasks));
    let set = [task(1, 2), task(1, 5), task(1, 6)];
    comes_to(&rt, 12, &set, Err(AdmitFault::NotDivisor(1)));
    name_the_first_budget(&rt);
}

fn name_the_first_budget(rt: &impl Abort) {
    let set = [task(1, 2), task(0, 3), task(0, 6)];
    comes_to(rt, 12, &set, Err(AdmitFault::ZeroBudget(1)));
    let set = [task(1, 2), task(4, 3), task(7, 6)];
    comes_to(rt, 12, &set, Err(AdmitFault::BudgetOverPeriod(1)));
}

#[test]
fn the_least_number_counts(rt: HostRuntime) {
    // task 0 has faults 5 and 6, task 1 has faults 4 and 6
    let set = [task(6, 5), task(0, 0)];
    comes_to(&rt, 12, &set, Err(AdmitFault::ZeroBudget(1)));
    comes_to(&rt, 0, &set, Err(AdmitFault::BadHyper));
    comes_to(&rt, 0, &[], Err(AdmitFault::NoTasks));
    let set = [task(6, 6), task(1, 5), task(6, 5)];
    comes_to(&rt, 12, &set, Err(AdmitFault::BudgetOverPeriod(2)));
}

fn limits_of_one(rt: &impl Abort) {
    let one = [task(4_194_304, 4_194_304)];
    comes_to(rt, 4_194_304, &one, Ok((4_194_304, 4_194_304, 1)));
    comes_to(rt, 0, &one, Err(AdmitFault::BadHyper));
    comes_to(rt, 4_194_305, &one, Err(AdmitFault::BadHyper));
}

#[test]
fn limits(rt: HostRuntime) {
    let set = [task(1, 64); 65];
    comes_to(&rt, 64, &set[..64], Ok((64, 64, 64)));
    comes_to(&rt, 64, &set, Err(AdmitFault::TooMany));
    comes_to(&rt, 0, &set, Err(AdmitFault::TooMany));
    limits_of_one(&rt);
}

/// A fault, its number and its text.
static TEXTS: [(AdmitFault, u8, &str); 7] = [
    (AdmitFault::NoTasks, 1, "set: NoTasks"),
    (AdmitFault::TooMany, 2, "set: TooMany"),
    (AdmitFault::BadHyper, 3, "set: BadHyper"),
    (AdmitFault::ZeroBudget(1), 4, "set: ZeroBudget task 1"),
    (
        AdmitFault::BudgetOverPeriod(1),
        5,
        "set: BudgetOverPeriod task 1",
    ),
    (AdmitFault::NotDivisor(63), 6, "set: NotDivisor task 63"),
    (
        AdmitFault::Overload {
            total: 14,
            hyper: 12,
        },
        7,
        "set: Overload total 14 hyper 12",
    ),
];

#[test]
fn numbers_and_texts(rt: HostRuntime) -> Result<(), Fail> {
    for (fault, number, text) in &TEXTS {
        same(&rt, *text, fault.number(), *number);
        let shown = format!(in rt.alloc(); "{fault}")?;
        same(&rt, "a text", shown.as_str(), *text);
    }
    Ok(())
}

#[test]
fn laws_can_be_called(_rt: HostRuntime) {
    admitted_iff_not_refused();
    utilisation_is_at_most_one();
    load_is_utilisation();
    overload_is_else_admitted();
    eligible_task();
}

fn reserved(budget: u32, pending: Option<u32>, period: u32) -> Reserved {
    Reserved {
        budget,
        pending,
        period,
    }
}

/// Each task, the budget that it asks for, and whether it gets it.
fn try_budgets(rt: &impl Abort, hyper: u32, tasks: &[Reserved], asked: &[(usize, u32, bool)]) {
    let timed = tasks.iter().all(|task| task.period >= 1);
    assert!(rt; timed && hyper <= MAX_HYPER && tasks.len() <= MAX_TASKS);
    for (task, budget, granted) in asked {
        assert!(rt; *task < tasks.len());
        let answer = trial(hyper, tasks, *task, *budget);
        same(rt, (*task, *budget), answer, *granted);
    }
}

#[test]
fn budgets_are_reserved_beside_the_others(rt: HostRuntime) {
    // weights 4 and 6 of 12
    let pair = [reserved(1, None, 3), reserved(2, None, 4)];
    let asked = [
        (0, 0, false),
        (0, 1, true),
        (0, 2, false),
        (0, 4, false),
        (1, 1, true),
        (1, 2, true),
        (1, 3, false),
        (1, u32::MAX, false),
    ];
    try_budgets(&rt, 12, &pair, &asked);
    let one = [reserved(1, None, 3)];
    let asked = [
        (0, 0, false),
        (0, 2, true),
        (0, 3, true),
        (0, 4, false),
        (0, u32::MAX, false),
    ];
    try_budgets(&rt, 12, &one, &asked);
    // over the period, though the weight of 8 ticks in 7 is 8 of 12, and that of 14 in 13 is 0
    try_budgets(
        &rt,
        12,
        &[reserved(1, None, 7)],
        &[(0, 7, true), (0, 8, false)],
    );
    try_budgets(
        &rt,
        12,
        &[reserved(1, None, 13)],
        &[(0, 13, true), (0, 14, false)],
    );
}

#[test]
fn no_budget_grows_at_full_load(rt: HostRuntime) {
    // 64 * 65,536 is the hyperperiod
    let tasks = [reserved(65_536, None, MAX_HYPER); 64];
    for i in 0..64 {
        let asked = [
            (i, 0, false),
            (i, 1, true),
            (i, 65_536, true),
            (i, 65_537, false),
            (i, MAX_HYPER, false),
            (i, MAX_HYPER + 1, false),
            (i, u32::MAX, false),
        ];
        try_budgets(&rt, MAX_HYPER, &tasks, &asked);
    }
    let alone = [reserved(1, None, MAX_HYPER)];
    let asked = [
        (0, MAX_HYPER, true),
        (0, MAX_HYPER + 1, false),
        (0, u32::MAX, false),
    ];
    try_budgets(&rt, MAX_HYPER, &alone, &asked);
}

#[test]
fn pending_budgets_count(rt: HostRuntime) {
    // a smaller pending budget frees nothing before it has taken effect: 6 and 4 of 12
    let less = [reserved(2, Some(1), 4), reserved(1, None, 3)];
    try_budgets(&rt, 12, &less, &[(1, 2, false), (1, 1, true), (0, 2, true)]);
    // a greater one is held already, and a new one stands in its place: 8 and 3 of 12
    let more = [reserved(1, Some(2), 3), reserved(1, None, 4)];
    let asked = [(1, 1, true), (1, 2, false), (0, 3, false), (0, 1, true)];
    try_budgets(&rt, 12, &more, &asked);
    // 6, 4 and 2 of 12. A task that has ended goes on holding them, also what would be pending for ever: nothing here says that it has.
    let full = [
        reserved(1, None, 2),
        reserved(1, None, 3),
        reserved(1, None, 6),
    ];
    try_budgets(
        &rt,
        12,
        &full,
        &[(1, 1, true), (1, 2, false), (2, 2, false)],
    );
    let held = [
        reserved(1, None, 4),
        reserved(1, Some(2), 3),
        reserved(1, None, 12),
    ];
    // 3, 8 and 1 of 12: an own reserve is replaced, and not added to
    let asked = [
        (0, 1, true),
        (0, 2, false),
        (2, 2, false),
        (1, 2, true),
        (1, 3, false),
    ];
    try_budgets(&rt, 12, &held, &asked);
}
