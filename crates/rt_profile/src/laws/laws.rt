//! The laws. Each function does nothing: its clauses are the law, and a caller has them after the call.

ghost use Rattle.std.specs.Prelude.{◌≡◌, ℕ, ◌+◌, ◌≤◌, ◌==◌, min, List, [], ◌∷◌, length, map, All, sum, sum_by, count_by, None};
ghost use Rattle.std.specs.List.{filter};
ghost use Rattle.rt_words.specs.Limits.{tick_limit};
ghost use Rattle.rt_image.specs.SystemFile.{SetTask, TaskSet};
ghost use Rattle.rt_history.specs.declared.record.Record.{Record};
ghost use Rattle.rt_history.specs.Legal.{legal};
ghost use Rattle.rt_history.specs.OwnPart.{own};
ghost use Rattle.rt_report.specs.Rows.{row_of, idle_ticks};
ghost use Rattle.rt_profile.specs.Attempts.{attempts, pieces};
ghost use Rattle.rt_names.specs.Parts.{part};
ghost use Rattle.rt_profile.specs.Rows.{pcs, ticks_at, ticks_in, greatest, row_at, firsts, task_rows, rows};
ghost use Rattle.rt_profile.specs.CallgrindText.{busy_ticks};
ghost use Rattle.rt_profile.specs.Brackets.{bracket_from, bracket_to};
ghost use Rattle.rt_profile.specs.Needs.{task_needs};
ghost use Rattle.rt_profile.specs.laws.Sums.{address_counts, last_of};

/// The ticks of all rows and the idle ones are all ticks, and the counts of all addresses are all busy ticks.
pub fn each_tick_is_told_once()
    ensures rows { (set : TaskSet) (t : ℕ) → sum_by (λ r. r.ticks) (rows set (legal set t)) + idle_ticks (legal set t) ≡ t }
    ensures addresses { (set : TaskSet) (t : ℕ) → sum (address_counts set (legal set t)) ≡ busy_ticks (legal set t) }
{}

/// The ticks of a part are the sum of the counts of the addresses in it.
pub fn rows_are_sums_of_addresses()
    ensures { (i : ℕ) (s : SetTask) (history : List Record) (a : ℕ) →
        (row_at i s.object.labels (attempts i history) a).ticks ≡ sum_by (ticks_at (attempts i history)) (filter (λ b. part s.object.labels b == part s.object.labels a) (pcs (attempts i history))) }
{}

/// The most of one job is between 1 and the ticks of the row, and the most of all parts of a task sum to at least the ticks of
/// its longest job.
pub fn most_is_between()
    ensures each { (i : ℕ) (s : SetTask) (history : List Record) → All (λ r. (1 ≤ r.most) × (r.most ≤ r.ticks)) (task_rows i s history) }
    ensures all { (i : ℕ) (s : SetTask) (history : List Record) → greatest (map length (pieces (attempts i history))) ≤ sum_by (λ r. r.most) (task_rows i s history) }
{}

/// The jobs of the brackets sum to those of the report, and so many are within the last bracket.
pub fn needs_count_jobs()
    ensures sum { (i : ℕ) (s : SetTask) (history : List Record) → length history ≤ tick_limit →
        sum_by (λ r. r.jobs) (task_needs i s history) ≡ (row_of i s (own i history)).jobs }
    ensures last { (i : ℕ) (s : SetTask) (history : List Record) → length history ≤ tick_limit →
        last_of 0 (map (λ r. r.within) (task_needs i s history)) ≡ (row_of i s (own i history)).jobs }
{}

/// A part has one row where a record has a pc in it, and else none.
pub fn rows_are_of_parts_with_ticks()
    ensures { (i : ℕ) (s : SetTask) (history : List Record) (k : ℕ) →
        count_by (λ a. k == part s.object.labels a) (firsts s.object.labels None (pcs (attempts i history))) ≡ min 1 (ticks_in s.object.labels k (attempts i history)) }
{}

/// The brackets of some needs, as they were worked out by hand. They pin `bracket_from` and `bracket_to`.
pub fn brackets_of_worked_needs()
    ensures from { map bracket_from (31 ∷ 32 ∷ 33 ∷ 63 ∷ 64 ∷ 100 ∷ 272 ∷ 1000 ∷ 1099511627776 ∷ []) ≡
        31 ∷ 32 ∷ 32 ∷ 62 ∷ 64 ∷ 100 ∷ 272 ∷ 992 ∷ 1099511627776 ∷ [] }
    ensures to { map bracket_to (31 ∷ 32 ∷ 33 ∷ 63 ∷ 64 ∷ 100 ∷ 272 ∷ 1000 ∷ 1099511627776 ∷ []) ≡
        31 ∷ 33 ∷ 33 ∷ 63 ∷ 67 ∷ 103 ∷ 287 ∷ 1023 ∷ 1168231104511 ∷ [] }
{}
