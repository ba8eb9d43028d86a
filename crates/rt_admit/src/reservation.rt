//! The test of a budget that a task asks for while the set runs.

ghost use Rattle.std.specs.Prelude.{◌≡◌, ◌<◌, ◌≤◌, ◌^◌, length, All};
ghost use Rattle.rt_admit.specs.Limits.{hyper_limit, task_limit};
ghost use Rattle.rt_admit.specs.Reservation.{held_weight, total_held, is_granted};

/// What a task has, in ticks.
#[derive(Clone, Copy, Default, PartialEq, Eq)]
pub struct Reserved {
    /// The present budget.
    pub budget: u32,
    /// The budget that was reserved and hasn't taken effect.
    pub pending: Option<u32>,
    /// Ticks from one deadline to the next, at least 1.
    pub period: u32,
}

/// The weight of the greater of the present budget and the pending one, in ticks of the hyperperiod.
fn held(hyper: u32, task: Reserved) -> u64
    requires period { 1 ≤ task.period }
    requires bounded { hyper ≤ hyper_limit }
    ensures value { result ≡ held_weight hyper task }
    ensures bound { result < 2 ^ 54 }
{
    let budget = task.budget.max(task.pending.unwrap_or(task.budget));
    u64::from(budget) * u64::from(hyper / task.period)
}

/// The weights that all tasks hold, in ticks of the hyperperiod.
fn held_sum(hyper: u32, tasks: &[Reserved]) -> u64
    requires bounded { hyper ≤ hyper_limit }
    requires few { length tasks.now ≤ task_limit }
    requires periods { All (λ task. 1 ≤ task.period) tasks.now }
    ensures value { result ≡ total_held hyper tasks.now }
    ensures bound { result ≤ 2 ^ 60 }
{
    let mut total = 0;
    for task in tasks {
        total += held(hyper, *task);
    }
    total
}

/// Whether task `i` may reserve a budget of `q` ticks beside the others: it is 1 to the period, and with `q` pending for the
/// task, in place of an earlier one, the weights of the greater of present and pending budget of all tasks sum to at most the
/// hyperperiod of `hyper` ticks. Takes no memory.
pub fn trial(hyper: u32, tasks: &[Reserved], i: usize, q: u32) -> bool
    requires within { i < length tasks.now }
    requires bounded { hyper ≤ hyper_limit }
    requires few { length tasks.now ≤ task_limit }
    requires periods { All (λ task. 1 ≤ task.period) tasks.now }
    ensures { result ≡ is_granted hyper tasks.now i q }
{
    let task = tasks[i];
    if q == 0 || q > task.period {
        return false;
    }
    let asking = Reserved {
        pending: Some(q),
        ..task
    };
    held_sum(hyper, tasks) - held(hyper, task) + held(hyper, asking) <= u64::from(hyper)
}
