//! The tasks whose signals may change at a time.

ghost use Rattle.std.specs.Prelude.{◌≡◌, ◌≢◌, ℕ, ◌+◌, ◌*◌, ◌^◌, ◌<◌, ◌≤◌, ◌++◌, length, slice_get, All, Some, IfSome, false};
ghost use Rattle.rt_words.specs.Limits.{tick_limit};
ghost use Rattle.rt_admit.specs.Limits.{task_limit};
ghost use Rattle.rt_history.specs.Working.Bounded.{IsBounded};
ghost use Rattle.rt_report.specs.Rows.{is_idle};
ghost use Rattle.rt_waves.specs.declared.block.Telling.TheVariants as tellings;
ghost use Rattle.rt_waves.specs.Waves as waves;
ghost use Rattle.rt_waves.specs.Standing.{TaskStanding};
ghost use Rattle.rt_waves.specs.Working.Stepped.{lines_of, visited_all, lines_all, WakesFrom};
ghost use Rattle.rt_waves.specs.Working.Visiting.{runs, visited_at, lines_by, Stays};

use crate::block::Telling;
use crate::kept::PcLines;
use crate::lines::LINES_LEN;
use crate::page::{PAGE_LEN, Page};
use crate::track::Track;
use rt_history::{AttemptOutcome, Record};

/// A time, how much is written of it, and the record of its tick.
#[derive(Clone, Copy)]
pub(crate) struct Moment {
    pub(crate) tick: u64,
    pub(crate) telling: Telling,
    pub(crate) of: Record,
}

impl Moment {
    /// How the attempt came out, where the record is one of task `number`.
    #[inline(always)]
    fn outcome_of(&self, number: u32) -> Option<AttemptOutcome>
        ensures { result ≡ waves.outcome_of number self.now.of }
    {
        match self.of {
            Record::Busy(attempt) if attempt.task == number => Some(attempt.outcome),
            _ => None,
        }
    }

    /// Whether the tick is idle.
    #[inline(always)]
    pub(crate) fn is_idle(&self) -> bool
        ensures { result ≡ is_idle self.now.of }
    {
        matches!(self.of, Record::Idle)
    }

    /// The task whose record it is.
    #[inline(always)]
    pub(crate) fn running(&self) -> Option<u32>
        ensures { result ≡ runs self.now.of }
    {
        match self.of {
            Record::Busy(attempt) => Some(attempt.task),
            Record::Idle => None,
        }
    }
}

/// Visits task `number`: applies its wake, and appends what is written of it.
#[inline(always)]
fn visit(
    tasks: &mut [Track<'_, '_>],
    number: u32,
    moment: &Moment,
    kept: &mut PcLines,
    page: &mut Page<'_>,
)
    requires there { number < length tasks.old }
    requires limit { moment.now.tick < tick_limit }
    requires sound { All (λ x. IsBounded moment.now.tick x.serving.account) tasks.old }
    requires count { length tasks.old ≤ task_limit }
    requires room { length page.old + LINES_LEN ≤ PAGE_LEN }
    ensures visited { tasks.new ≡ visited_at moment.now.tick moment.now.of number tasks.old }
    ensures short { length page.new ≤ length page.old + LINES_LEN }
    ensures text { page.new ≡ page.old ++ lines_by moment.now.telling moment.now.tick moment.now.of number tasks.old }
{
    tasks[number as usize].visit(
        moment.tick,
        moment.telling,
        number,
        moment.outcome_of(number),
        kept,
        page,
    );
}

/// Visits all tasks in order.
#[inline(never)]
fn visit_all(tasks: &mut [Track<'_, '_>], moment: &Moment, kept: &mut PcLines, page: &mut Page<'_>)
    requires count { length tasks.old ≤ task_limit }
    requires limit { moment.now.tick < tick_limit }
    requires sound { All (λ x. IsBounded moment.now.tick x.serving.account) tasks.old }
    requires room { length page.old + LINES_LEN * 64 ≤ PAGE_LEN }
    ensures visited { tasks.new ≡ visited_all moment.now.tick moment.now.of tasks.old }
    ensures short { length page.new ≤ length page.old + LINES_LEN * 64 }
    ensures text { page.new ≡ page.old ++ lines_all moment.now.telling moment.now.tick moment.now.of tasks.old }
{
    for number in 0..tasks.len() {
        visit(tasks, number as u32, moment, kept, page);
    }
}

/// The least tick at which a task that is asleep wakes, or more than all ticks.
fn least_wake(tasks: &[Track<'_, '_>]) -> u64
    ensures { All (WakesFrom result) tasks.now }
{
    let mut least = u64::MAX;
    for task in tasks {
        least = least.min(task.wake_tick());
    }
    least
}

/// Visits task `number`, where no other task's signals change.
#[inline(always)]
fn visit_one(
    tasks: &mut [Track<'_, '_>],
    number: u32,
    moment: &Moment,
    kept: &mut PcLines,
    page: &mut Page<'_>,
)
    requires there { number < length tasks.old }
    requires count { length tasks.old ≤ task_limit }
    requires limit { moment.now.tick < tick_limit }
    requires sound { All (λ x. IsBounded moment.now.tick x.serving.account) tasks.old }
    requires room { length page.old + LINES_LEN * 64 ≤ PAGE_LEN }
    requires part { moment.now.telling ≢ tellings.All }
    requires quiet { (i : ℕ) (x : TaskStanding) → slice_get tasks.old i ≡ Some x → (i ≡ number → ⊥) → Stays moment.now.tick moment.now.of i x }
    ensures visited { tasks.new ≡ visited_all moment.now.tick moment.now.of tasks.old }
    ensures short { length page.new ≤ length page.old + LINES_LEN * 64 }
    ensures text { page.new ≡ page.old ++ lines_all moment.now.telling moment.now.tick moment.now.of tasks.old }
{
    visit(tasks, number, moment, kept, page);
}

/// Visits two tasks in order, where no other task's signals change.
#[inline(always)]
fn visit_two(
    tasks: &mut [Track<'_, '_>],
    first: u32,
    second: u32,
    moment: &Moment,
    kept: &mut PcLines,
    page: &mut Page<'_>,
)
    requires order { first < second }
    requires there { second < length tasks.old }
    requires count { length tasks.old ≤ task_limit }
    requires limit { moment.now.tick < tick_limit }
    requires sound { All (λ x. IsBounded moment.now.tick x.serving.account) tasks.old }
    requires room { length page.old + LINES_LEN * 64 ≤ PAGE_LEN }
    requires part { moment.now.telling ≢ tellings.All }
    requires quiet { (i : ℕ) (x : TaskStanding) → slice_get tasks.old i ≡ Some x → (i ≡ first → ⊥) → (i ≡ second → ⊥) → Stays moment.now.tick moment.now.of i x }
    ensures visited { tasks.new ≡ visited_all moment.now.tick moment.now.of tasks.old }
    ensures short { length page.new ≤ length page.old + LINES_LEN * 64 }
    ensures text { page.new ≡ page.old ++ lines_all moment.now.telling moment.now.tick moment.now.of tasks.old }
{
    visit(tasks, first, moment, kept, page);
    visit(tasks, second, moment, kept, page);
}

/// Visits two tasks, which may be the same, where no other task's signals change.
#[inline(always)]
fn visit_both(
    tasks: &mut [Track<'_, '_>],
    one: u32,
    other: u32,
    moment: &Moment,
    kept: &mut PcLines,
    page: &mut Page<'_>,
)
    requires there { one < length tasks.old }
    requires other_there { other < length tasks.old }
    requires count { length tasks.old ≤ task_limit }
    requires limit { moment.now.tick < tick_limit }
    requires sound { All (λ x. IsBounded moment.now.tick x.serving.account) tasks.old }
    requires room { length page.old + LINES_LEN * 64 ≤ PAGE_LEN }
    requires part { moment.now.telling ≢ tellings.All }
    requires quiet { (i : ℕ) (x : TaskStanding) → slice_get tasks.old i ≡ Some x → (i ≡ one → ⊥) → (i ≡ other → ⊥) → Stays moment.now.tick moment.now.of i x }
    ensures visited { tasks.new ≡ visited_all moment.now.tick moment.now.of tasks.old }
    ensures short { length page.new ≤ length page.old + LINES_LEN * 64 }
    ensures text { page.new ≡ page.old ++ lines_all moment.now.telling moment.now.tick moment.now.of tasks.old }
{
    if one < other {
        visit_two(tasks, one, other, moment, kept, page);
    } else if other < one {
        visit_two(tasks, other, one, moment, kept, page);
    } else {
        visit_one(tasks, one, moment, kept, page);
    }
}

/// Visits the task that ran last and the one that runs now, in order, where no other task's signals change.
#[inline(always)]
fn visit_changed(
    tasks: &mut [Track<'_, '_>],
    last: Option<u32>,
    moment: &Moment,
    kept: &mut PcLines,
    page: &mut Page<'_>,
)
    requires count { length tasks.old ≤ task_limit }
    requires limit { moment.now.tick < tick_limit }
    requires sound { All (λ x. IsBounded moment.now.tick x.serving.account) tasks.old }
    requires room { length page.old + LINES_LEN * 64 ≤ PAGE_LEN }
    requires part { moment.now.telling ≢ tellings.All }
    requires last { IfSome last (λ i. i < length tasks.old) }
    requires runs { IfSome (runs moment.now.of) (λ i. i < length tasks.old) }
    requires quiet { (i : ℕ) (x : TaskStanding) → slice_get tasks.old i ≡ Some x → (last ≡ Some i → ⊥) → (runs moment.now.of ≡ Some i → ⊥) → Stays moment.now.tick moment.now.of i x }
    ensures visited { tasks.new ≡ visited_all moment.now.tick moment.now.of tasks.old }
    ensures short { length page.new ≤ length page.old + LINES_LEN * 64 }
    ensures text { page.new ≡ page.old ++ lines_all moment.now.telling moment.now.tick moment.now.of tasks.old }
{
    match (last, moment.running()) {
        (Some(one), Some(other)) => visit_both(tasks, one, other, moment, kept, page),
        (Some(number), None) => visit_one(tasks, number, moment, kept, page),
        (None, Some(number)) => visit_one(tasks, number, moment, kept, page),
        (None, None) => {}
    }
}

/// Visits the tasks whose signals may change, of which none wakes before tick `next_wake`: all of them, or the task that ran last
/// and the one that runs now. The answer is a tick before which none wakes then.
#[inline(always)]
pub(crate) fn visit_due(
    tasks: &mut [Track<'_, '_>],
    last: Option<u32>,
    is_all: bool,
    next_wake: u64,
    moment: &Moment,
    kept: &mut PcLines,
    page: &mut Page<'_>,
) -> u64
    requires count { length tasks.old ≤ task_limit }
    requires limit { moment.now.tick < tick_limit }
    requires sound { All (λ x. IsBounded moment.now.tick x.serving.account) tasks.old }
    requires room { length page.old + LINES_LEN * 64 ≤ PAGE_LEN }
    requires wakes { All (WakesFrom next_wake) tasks.old }
    requires last { IfSome last (λ i. i < length tasks.old) }
    requires runs { IfSome (runs moment.now.of) (λ i. i < length tasks.old) }
    requires part { is_all ≡ false → moment.now.telling ≢ tellings.All }
    requires quiet { is_all ≡ false → (i : ℕ) (x : TaskStanding) → slice_get tasks.old i ≡ Some x → (last ≡ Some i → ⊥) → (runs moment.now.of ≡ Some i → ⊥) → Stays moment.now.tick moment.now.of i x }
    ensures visited { tasks.new ≡ visited_all moment.now.tick moment.now.of tasks.old }
    ensures wakes { All (WakesFrom result) tasks.new }
    ensures short { length page.new ≤ length page.old + LINES_LEN * 64 }
    ensures text { page.new ≡ page.old ++ lines_all moment.now.telling moment.now.tick moment.now.of tasks.old }
{
    if is_all {
        visit_all(tasks, moment, kept, page);
        return least_wake(tasks);
    }
    visit_changed(tasks, last, moment, kept, page);
    next_wake
}
