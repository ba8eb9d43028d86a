//! The laws. Each function does nothing: its clauses are the law, and a caller has them after the call.

ghost use Rattle.std.specs.Prelude.{◌≡◌, ◌≢◌, true, false, ℕ, ◌+◌, ◌^◌, ◌<◌, ◌≤◌, cond, List, [], ◌++◌, length, take, drop, map, replicate, All, count_by, Some};
ghost use Rattle.std.specs.List.{flat_map, range_with_len, AllZip, IsDistinct};
ghost use Rattle.std.specs.Str.{bytes_eq};
ghost use Rattle.rt_image.specs.SystemFile.{SetTask, TaskSet};
ghost use Rattle.rt_history.specs.declared.record.Record.TheVariants.{Idle};
ghost use Rattle.rt_history.specs.OwnPart.{own};
ghost use Rattle.rt_history.specs.Job.{jobs};
ghost use Rattle.rt_history.specs.Legal.{legal};
ghost use Rattle.rt_names.specs.TaskNames.{task_names};
ghost use Rattle.rt_report.specs.WideRows.{wide_row_of};
ghost use Rattle.rt_waves.specs.declared.scale.Scale.{Scale};
ghost use Rattle.rt_waves.specs.declared.signals.TaskWaves.{TaskWaves};
ghost use Rattle.rt_waves.specs.Waves.{task_waves, waves};
ghost use Rattle.rt_waves.specs.WavesText.{Wave, task_values, values, value_text, line, time_line, first_block, block, head_text, waves_text};
ghost use Rattle.rt_waves.specs.laws.Lines.{numbers, HasWords, IsSignal, IsBinary};
ghost use Rattle.rt_waves.specs.laws.Reader.{reported, block_reporting, known};
ghost use Rattle.rt_waves.specs.laws.Windows.{up_to_end, behind_first};

/// At each time exactly one of `idle` and all `running` is 1.
pub fn one_runs_at_a_time()
    ensures { (set : TaskSet) (u : ℕ) → cond (waves set u).idle 1 0 + count_by (λ w. w.running) (waves set u).tasks ≡ 1 }
{}

/// The text of a window is that of its first ticks without its last line, then the block of the time at which those end, and then
/// what stands behind the first block in the text of the others.
pub fn windows_meet()
    ensures ends { (scale : Scale) (set : TaskSet) (from n : ℕ) → waves_text scale set from n ≡ up_to_end scale set from n ++ time_line (from + n) }
    ensures begins { (scale : Scale) (set : TaskSet) (from n : ℕ) → 1 ≤ n →
        waves_text scale set from n ≡ head_text scale (task_names set) (length set.tasks) ++ first_block from (values (waves set from)) ++ behind_first set from n }
    ensures meet { (scale : Scale) (set : TaskSet) (from n m : ℕ) → 1 ≤ n → 1 ≤ m →
        waves_text scale set from (n + m) ≡ up_to_end scale set from n ++ block set from (from + n) ++ behind_first set (from + n) m }
{}

/// No two signals have one code.
pub fn codes_differ()
    ensures { (set : TaskSet) (u : ℕ) → length set.tasks ≤ 2 ^ 64 → IsDistinct bytes_eq (map (λ w. w.code) (values (waves set u))) }
{}

/// A line tells its signal and its value, and lines tell theirs: no two lists of signals have one text, where numbers are below 2^64.
/// What is reported of a time are signals, and the numbers of a task are written in binary.
pub fn lines_tell_their_values()
    ensures line { (v w : Wave) → IsSignal v → IsSignal w → line v ≡ line w → v ≡ w }
    ensures lines { (vs ws : List Wave) → All IsSignal vs → All IsSignal ws → flat_map line vs ≡ flat_map line ws → vs ≡ ws }
    ensures signals { (set : TaskSet) (from u : ℕ) → All HasWords (waves set u).tasks → All IsSignal (reported set from u) }
    ensures numbers { (i : ℕ) (w : TaskWaves) → HasWords w →
        AllZip (λ n s. IsBinary n (value_text s.value)) (numbers w) (take 5 (drop 2 (task_values i w))) }
{}

/// The last value that is reported of a signal, from the beginning of the window up to a time, is the signal's value at that time; and
/// the text of a time is that of the values that are reported of it.
pub fn readers_see_the_waves()
    ensures values { (set : TaskSet) (from k : ℕ) → length set.tasks ≤ 2 ^ 64 → All (λ w. known set from (from + k) w.code ≡ Some w) (values (waves set (from + k))) }
    ensures text { (set : TaskSet) (from u : ℕ) → block set from u ≡ block_reporting from u (reported set from u) }
{}

/// An idle stretch has a block at its first tick, and no other but that of the first time of the window.
pub fn idle_is_one_step()
    ensures first { (set : TaskSet) (from u : ℕ) → from ≤ u → (waves set u).idle ≡ false → (waves set (u + 1)).idle ≡ true → block set from (u + 1) ≢ [] }
    ensures others { (set : TaskSet) (from a n u : ℕ) → legal set (a + n) ≡ legal set a ++ replicate n Idle → a < u → u < a + n → from < u → block set from u ≡ [] }
{}

/// So many times before t a task finishes a job, is postponed, and wakes afresh or with its account kept, as the report after t ticks
/// counts. It counts a wake at t too, which a window that ends there doesn't show.
pub fn counts_agree()
    ensures finish { (set : TaskSet) (t i : ℕ) (s : SetTask) →
        count_by (λ u. (task_waves set u i s).finish) (range_with_len 0 t) ≡ length (jobs s (own i (legal set t))) }
    ensures postponed { (set : TaskSet) (t i : ℕ) (s : SetTask) →
        count_by (λ u. (task_waves set u i s).postponed) (range_with_len 0 t) ≡ (wide_row_of t (legal set t) i s).counts.postponements }
    ensures fresh { (set : TaskSet) (t i : ℕ) (s : SetTask) →
        count_by (λ u. (task_waves set u i s).fresh) (range_with_len 0 t) + cond (task_waves set t i s).fresh 1 0 ≡ (wide_row_of t (legal set t) i s).counts.fresh_wakes }
    ensures kept { (set : TaskSet) (t i : ℕ) (s : SetTask) →
        count_by (λ u. (task_waves set u i s).kept) (range_with_len 0 t) + cond (task_waves set t i s).kept 1 0 ≡ (wide_row_of t (legal set t) i s).counts.kept_wakes }
{}
