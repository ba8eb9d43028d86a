//! What the definitions of what is drawn say, in other words. Each function does nothing: its clause is the law.

ghost use Rattle.std.specs.Prelude.{ℕ, ◌+◌, ◌-◌, ◌≡◌, ◌<◌, ◌≤◌, nat_le, nat_lt, Bool, false, List, [], ◌∷◌, ◌++◌, length, take, map, filter, count_by, All, Contains, slice_get, Some, None};
ghost use Rattle.std.specs.List.{flat_map, AllAdjacentBelow};
ghost use Rattle.std.specs.List.Sorted.{IsStrictlyIncreasing};
ghost use Rattle.rt_image.specs.SystemFile.{SetTask, TaskSet};
ghost use Rattle.rt_history.specs.Admitted.{IsAdmittedSet};
ghost use Rattle.rt_history.specs.declared.record.AttemptOutcome.{AttemptOutcome};
ghost use Rattle.rt_history.specs.declared.record.Record.{Record};
ghost use Rattle.rt_history.specs.Legal.{legal};
ghost use Rattle.rt_history.specs.OwnPart.{own, task_state};
ghost use Rattle.rt_words.specs.Limits.{tick_limit};
ghost use Rattle.rt_drawing.specs.declared.job.Job.{Job};
ghost use Rattle.rt_drawing.specs.declared.window.Window.{Window};
ghost use Rattle.rt_drawing.specs.Counted.{is_fresh_wake, is_kept_wake, is_postponement, is_yield_mark, is_grant_mark, is_refusal_mark, counts_by};
ghost use Rattle.rt_drawing.specs.Drawing.{drawing_of};
ghost use Rattle.rt_drawing.specs.Listed.{listed_job};
ghost use Rattle.rt_drawing.specs.Marks.{marks_by};
ghost use Rattle.rt_drawing.specs.Misses.{first_miss};
ghost use Rattle.rt_drawing.specs.Waits.{behind, turn, turns, waits, IsOutside};
ghost use Rattle.rt_drawing.specs.Stretches.{stretches, stretch_ticks, AreApart, shown_ticks};

/// The ticks of bars, one bar after the other, are those that are drawn, each once, over the period as it is and of its job, and a bar
/// has some. The ticks that are drawn of a task are its own, and rise, so its bars are the longest: each ends before the next begins,
/// with a tick or more between them, or where it begins, one of both being over the period, or both of two jobs.
pub fn bars_are_longest()
    ensures ticks { (us : List (ℕ × Bool × Job)) → flat_map stretch_ticks (stretches us) ≡ map (λ e. (e.0, e.1, e.2.number)) us }
    ensures some { (us : List (ℕ × Bool × Job)) → All (λ s. s.from < s.to) (stretches us) }
    ensures apart { (us : List (ℕ × Bool × Job)) → IsStrictlyIncreasing (map (λ e. e.0) us) → AllAdjacentBelow AreApart (stretches us) (length (stretches us)) }
    ensures own { (w : Window) (allowed : ℕ) (s : SetTask) (own : List (ℕ × AttemptOutcome)) →
        map (λ e. e.0) (shown_ticks w (turns allowed s own)) ≡ filter (nat_le w.from) (map (λ e. e.0) own) }
    ensures rising { (w : Window) (allowed : ℕ) (s : SetTask) (history : List Record) (i : ℕ) → IsStrictlyIncreasing (map (λ e. e.0) (shown_ticks w (turns allowed s (own i history)))) }
{}

/// A bar tells of its job what its last tick does. At a tick of a task that is the job that its list of jobs numbers so: it is released as
/// there, and has taken the ticks since the last sleep or end.
pub fn bars_tell_jobs()
    ensures last { (us : List (ℕ × Bool × Job)) → All (λ s. Contains us (s.to - 1, s.over, s.job)) (stretches us) }
    ensures listed { (allowed : ℕ) (s : SetTask) (own : List (ℕ × AttemptOutcome)) (e : ℕ × AttemptOutcome) →
        turns allowed s (own ++ e ∷ []) ≡ turns allowed s own ++ turn allowed (listed_job s own) (behind 0 own) e.0 ∷ [] }
{}

/// A bar or a wait is over exactly where, by its end, its job's response has taken more ticks than are allowed.
pub fn over_is_by_the_response()
    ensures runs { (w : Window) (allowed : ℕ) (s : SetTask) (own : List (ℕ × AttemptOutcome)) →
        All (λ b. b.over ≡ nat_lt (b.job.release + allowed) b.to) (stretches (shown_ticks w (turns allowed s own))) }
    ensures waits { (w : Window) (allowed : ℕ) (s : SetTask) (own : List (ℕ × AttemptOutcome)) →
        All (λ b. b.over ≡ nat_lt (b.job.release + allowed) b.to) (waits w allowed s own) }
{}

/// In the picture of a task that is excepted, nothing is over the period.
pub fn excepted_is_never_over()
    ensures runs { (w : Window) (s : SetTask) (history : List Record) (i : ℕ) → length history ≤ tick_limit →
        All (λ b. b.over ≡ false) (stretches (shown_ticks w (turns tick_limit s (own i history)))) }
    ensures waits { (w : Window) (s : SetTask) (history : List Record) (i : ℕ) → length history ≤ tick_limit →
        All (λ b. b.over ≡ false) (waits w tick_limit s (own i history)) }
{}

/// A task runs in none of the ticks in which it waits.
pub fn runs_are_no_waits()
    ensures { (w : Window) (allowed : ℕ) (s : SetTask) (history : List Record) (i : ℕ) → All (λ e. All (IsOutside e.0) (waits w allowed s (own i history))) (own i history) }
{}

/// A wide report counts the marks of a task: its wakes, afresh and kept, how often its deadline moved on, its yields, and
/// its reserves that were granted and refused.
pub fn marks_are_counted()
    ensures fresh { (t : ℕ) (s : SetTask) (own : List (ℕ × AttemptOutcome)) →
        count_by (λ m. is_fresh_wake m.event) (marks_by t s own) ≡ (counts_by t s own).fresh_wakes }
    ensures kept { (t : ℕ) (s : SetTask) (own : List (ℕ × AttemptOutcome)) →
        count_by (λ m. is_kept_wake m.event) (marks_by t s own) ≡ (counts_by t s own).kept_wakes }
    ensures postponed { (t : ℕ) (s : SetTask) (own : List (ℕ × AttemptOutcome)) →
        count_by (λ m. is_postponement m.event) (marks_by t s own) ≡ (counts_by t s own).postponements }
    ensures yields { (t : ℕ) (s : SetTask) (own : List (ℕ × AttemptOutcome)) →
        count_by (λ m. is_yield_mark m.event) (marks_by t s own) ≡ (counts_by t s own).yields }
    ensures granted { (t : ℕ) (s : SetTask) (own : List (ℕ × AttemptOutcome)) →
        count_by (λ m. is_grant_mark m.event) (marks_by t s own) ≡ (counts_by t s own).granted }
    ensures refused { (t : ℕ) (s : SetTask) (own : List (ℕ × AttemptOutcome)) →
        count_by (λ m. is_refusal_mark m.event) (marks_by t s own) ≡ (counts_by t s own).refused }
{}

/// The label of a row tells the budget that its task's server has at the first tick of the picture, the wakes of that tick applied.
pub fn labels_tell_the_begin()
    ensures { (w : Window) (allowed : ℕ) (history : List Record) (i : ℕ) (s : SetTask) →
        (drawing_of w allowed history i s).budget ≡ (task_state w.from (take w.from history) i s).serving.account.q }
{}

/// In an admitted set no task misses a deadline, at any tick that its history has come to.
pub fn no_deadline_is_missed()
    ensures { (set : TaskSet) (t i to : ℕ) (s : SetTask) → IsAdmittedSet set → slice_get set.tasks i ≡ Some s → to ≤ t + 1 →
        first_miss to s (own i (legal set t)) ≡ None }
{}
