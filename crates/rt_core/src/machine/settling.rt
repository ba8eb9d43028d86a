//! An attempt of the named task, and where the task is queued after it.

ghost use Rattle.std.specs.Prelude.{◌≡◌, ℕ, ◌+◌, ◌<◌, ◌≤◌, map, All, length, slice_get, slice_set, Option, Some, None, IsSome};
ghost use Rattle.rt_admit.specs.Limits.{hyper_limit, task_limit};
ghost use Rattle.rt_admit.specs.Reservation.{is_granted};
ghost use Rattle.rt_history.specs.Calls.{a0};
ghost use Rattle.rt_history.specs.OwnPart.{TaskState};
ghost use Rattle.rt_history.specs.MachineState.{MachineState};
ghost use Rattle.rt_history.specs.Reservations.{reserved_of};
ghost use Rattle.rt_queue.specs.Keys.{key_at};
ghost use Rattle.rt_queue.specs.Least.{IsLeast};
ghost use Rattle.rt_history.specs.Named.{deadline, deadline_in, named};
ghost use Rattle.rt_history.specs.Legal.{record_at};
ghost use Rattle.rt_history.specs.Working.Bounded.{IsBounded};
ghost use Rattle.rt_history.specs.Working.Step.{next_state};
ghost use Rattle.rt_core.specs.Working.Tied.{wake_in};
ghost use Rattle.rt_core.specs.Working.Ran.{Leaves, answered, IsAsking, Attempts};

use crate::machine::Machine;
use crate::task::{Ran, Task};
use arrayvec::ArrayVec;
use rt_admit::{MAX_TASKS, Reserved, trial};
use rt_exec::Fetcher;
use rt_history::{Mode, Record};
use rt_queue::MinQueue;
use rt_server::Spent;
use rt_words::MAX_TICKS;

/// Gives the least of the ready tasks this deadline.
#[inline(always)]
pub(super) fn rekey<Q: MinQueue>(ready: &mut Q, least: (u64, u32), deadline: u64)
    requires { IsLeast (Q.keys ready.old) (Some least) }
    ensures { Q.keys ready.new ≡ slice_set (Q.keys ready.old) least.1 (Some deadline) }
{
    if deadline != least.0 {
        ready.rekey_least(least, deadline);
    }
}

/// Moves a task that just ran, a ready one, to the timers: it sleeps until tick `w`. Cold: most ticks leave it active.
#[cold]
#[inline(never)]
fn fall_asleep<Q: MinQueue>(ready: &mut Q, timers: &mut Q, number: u32, w: u64)
    requires ready { IsSome (key_at (Q.keys ready.old) number) }
    requires below { number < length (Q.keys timers.old) }
    requires awake { key_at (Q.keys timers.old) number ≡ None }
    ensures ready { Q.keys ready.new ≡ slice_set (Q.keys ready.old) number None }
    ensures timers { Q.keys timers.new ≡ slice_set (Q.keys timers.old) number (Some w) }
{
    ready.remove(number);
    timers.insert(number, w);
}

/// Requeues the task that just ran, the least of the ready ones, by its new mode and deadline.
#[inline(always)]
fn settle<Q: MinQueue>(ready: &mut Q, timers: &mut Q, least: (u64, u32), mode: Mode, after: u64)
    requires least { IsLeast (Q.keys ready.old) (Some least) }
    requires below { least.1 < length (Q.keys timers.old) }
    requires awake { key_at (Q.keys timers.old) least.1 ≡ None }
    ensures ready { Q.keys ready.new ≡ slice_set (Q.keys ready.old) least.1 (deadline_in mode after) }
    ensures timers { Q.keys timers.new ≡ slice_set (Q.keys timers.old) least.1 (wake_in mode) }
{
    match mode {
        Mode::Active => rekey(ready, least, after),
        Mode::Asleep(w) => fall_asleep(ready, timers, least.1, w),
        Mode::Ended => ready.remove(least.1),
        Mode::Faulted(_) => ready.remove(least.1),
    }
}

/// Requeues the task that just ran, as `settle` does, but asks for its mode and deadline only if its server doesn't say enough.
#[inline(always)]
fn settle_ran<Q: MinQueue>(
    ready: &mut Q,
    timers: &mut Q,
    least: (u64, u32),
    ran: &Ran,
    mode: Mode,
    after: u64,
)
    requires least { IsLeast (Q.keys ready.old) (Some least) }
    requires below { least.1 < length (Q.keys timers.old) }
    requires awake { key_at (Q.keys timers.old) least.1 ≡ None }
    requires leaves { Leaves ran.now mode least.0 after }
    ensures ready { Q.keys ready.new ≡ slice_set (Q.keys ready.old) least.1 (deadline_in mode after) }
    ensures timers { Q.keys timers.new ≡ slice_set (Q.keys timers.old) least.1 (wake_in mode) }
{
    match ran {
        Ran::Next { spent, .. } => {
            if *spent == Spent::Postponed {
                ready.rekey_least(least, after);
            }
        }
        Ran::Other(_) => settle(ready, timers, least, mode, after),
        Ran::Asks { .. } => {}
    }
}

/// Whether task `i` may reserve a budget of `q` ticks beside what all tasks have.
fn may_reserve<F: Fetcher>(hyper: u32, tasks: &[Task<F>], i: usize, q: u32) -> bool
    requires within { i < length tasks.now }
    requires bounded { hyper ≤ hyper_limit }
    requires few { length tasks.now ≤ task_limit }
    requires periods { All (λ s. 1 ≤ s.serving.account.p) tasks.now }
    ensures { result ≡ is_granted hyper (map reserved_of tasks.now) i q }
{
    let mut reserved = ArrayVec::<Reserved, MAX_TASKS>::new();
    for task in tasks {
        reserved.push(task.reserved());
    }
    trial(hyper, &reserved, i, q)
}

impl<Q: MinQueue, F: Fetcher> Machine<Q, F> {
    /// The attempt of the task that is named, which is `least`. The wakes of the next tick are still to be applied, and a reserve
    /// is still to be answered.
    #[inline(always)]
    pub(super) fn attempt(&mut self, least: (u64, u32)) -> Ran
        requires limit { self.old.tick < MAX_TICKS }
        requires named { IsLeast (map deadline self.old.tasks) (Some least) }
        ensures { Attempts least.1 result self.old self.new }
    {
        let t = self.clock;
        self.clock = t + 1;
        let task = &mut self.tasks[least.1 as usize];
        let ran = task.attempt(t, least.1);
        let (mode, after) = (task.mode(), task.deadline());
        settle_ran(&mut self.ready, &mut self.timers, least, &ran, mode, after);
        ran
    }

    /// Answers the reserve of the task that is named, `least`, at tick `t`: whether it may have this budget from its next fresh
    /// wake on. Then the tick is paid for, and the wakes of the next are applied.
    #[cold]
    #[inline(never)]
    pub(super) fn answer(&mut self, t: u64, least: (u64, u32), budget: u32) -> bool
        requires begun { self.old.tick ≡ t + 1 }
        requires named { IsLeast (map deadline self.old.tasks) (Some least) }
        requires asked { (x : TaskState) → slice_get self.old.tasks least.1 ≡ Some x → (budget ≡ a0 x.program) × IsBounded t x.serving.account }
        ensures { (old : MachineState) (pc : ℕ) (word : Option ℕ) → IsAsking least.1 pc word budget old self.old →
            (Record.Busy (answered least.1 pc word budget result) ≡ record_at old) × (self.new ≡ next_state old) }
    {
        let number = least.1 as usize;
        let granted = may_reserve(self.hyper, &self.tasks, number, budget);
        let task = &mut self.tasks[number];
        task.answer(t, granted);
        let deadline = task.deadline();
        rekey(&mut self.ready, least, deadline);
        self.wake_all();
        granted
    }
}
