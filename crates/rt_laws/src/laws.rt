//! The laws, for every admitted set, every tick and every program. Each function does nothing: its clause is the law, and a
//! caller has it after the call.
ghost use Rattle.std.specs.Prelude.{◌≡◌, ℕ, true, false, List, [], ◌∷◌, ◌++◌, ◌≤◌, length, slice_get, Some, All};
ghost use Rattle.rt_image.specs.SystemFile.{SetTask, TaskSet};
ghost use Rattle.rt_admit.specs.Admission.{IsOverloaded};
ghost use Rattle.rt_history.specs.Admitted.{task_params, IsAdmittedSet};
ghost use Rattle.rt_history.specs.Busy.{busy_at};
ghost use Rattle.rt_history.specs.Fit.{AllFit};
ghost use Rattle.rt_history.specs.declared.record.AttemptOutcome.{AttemptOutcome};
ghost use Rattle.rt_history.specs.Job.{is_hard, is_late, ends_job, jobs};
ghost use Rattle.rt_history.specs.Legal.{legal, state_at};
ghost use Rattle.rt_history.specs.OwnPart.{own, serving_after, task_state};
ghost use Rattle.rt_history.specs.Reservations.{ReservesFit};
ghost use Rattle.rt_history.specs.Serving.{first_serving};
ghost use Rattle.rt_history.specs.Program.{origin};
ghost use Rattle.rt_laws.specs.Alone.{alone_in, answers_told};
ghost use Rattle.rt_laws.specs.OneTask.{lone_history};
ghost use Rattle.rt_laws.specs.OpenJob.{open_job};
ghost use Rattle.rt_laws.specs.Periodic.{ArePeriodic, first_jobs};
ghost use Rattle.rt_laws.specs.Supply.{CompetesFor, IsSupplied, WakesFresh};
ghost use Rattle.rt_laws.specs.Work.{gone_on, finished_at, first_work, work_after};

/// At every tick each active task's unspent budget fits before its deadline.
pub fn always_fit()
    ensures { (set : TaskSet) (t : ℕ) → IsAdmittedSet set → AllFit (state_at set t) }
{}

/// At every tick what all tasks have reserved fits the hyperperiod together, the greater of present and pending budget of each: so
/// no reserve of one task takes another's time.
pub fn reserves_always_fit()
    ensures { (set : TaskSet) (t : ℕ) → IsAdmittedSet set → ReservesFit (state_at set t) }
{}

/// Exact admission: a set that all else would admit is admitted exactly where no task would miss its deadline, were all tasks
/// busy from tick 0 on, whatever their starts. Of an admitted set no task would, at any tick.
pub fn admitted_sets_fit_when_busy()
    ensures { (set : TaskSet) (t : ℕ) → IsAdmittedSet set → AllFit (busy_at set t) }
{}

/// And of a set that is refused for its load alone, after a hyperperiod the budget of a task would no longer fit before its
/// deadline.
pub fn overloaded_sets_miss_a_deadline()
    ensures { (set : TaskSet) → IsOverloaded set.hyper (task_params set.tasks) → AllFit (busy_at set set.hyper) → ⊥ }
{}

/// A task's first wake, at its start tick, is a fresh arrival.
pub fn first_wake_is_fresh()
    ensures { (set : TaskSet) (i : ℕ) (s : SetTask) → IsAdmittedSet set → slice_get set.tasks i ≡ Some s →
        WakesFresh set i s s.start }
{}

/// A task that woke afresh, and neither sleeps nor stops nor yields for `k` periods from then on, has its budget `k` times in
/// them, whatever the other tasks do: the one that the wake took.
pub fn supply()
    ensures { (set : TaskSet) (t i r k : ℕ) (s : SetTask) → IsAdmittedSet set → slice_get set.tasks i ≡ Some s →
        CompetesFor k set t i s r → IsSupplied k set t i s r }
{}

/// No hard job is late: its response is at most the period.
pub fn no_hard_job_is_late()
    ensures { (set : TaskSet) (t i : ℕ) (s : SetTask) → IsAdmittedSet set → slice_get set.tasks i ≡ Some s →
        All (λ j. is_late s.period j ≡ false) (jobs s (own i (legal set t))) }
{}

/// As long as a task is periodic, each of its finished jobs is hard: the first `n` of them, where none of these has more ticks
/// than its budget or a yield, and each release after the first is at least a period after the one before.
pub fn periodic_jobs_are_hard()
    ensures { (set : TaskSet) (t i n : ℕ) (s : SetTask) → IsAdmittedSet set → slice_get set.tasks i ≡ Some s →
        ArePeriodic s.period (first_jobs n set t i s) →
        All (λ j. is_hard j ≡ true) (first_jobs n set t i s) }
{}

/// A set of one task, whatever its budget up to the period is, has the history of that task alone: no server, no deadline and no
/// other task enters, and each budget up to the period is granted to a reserve.
pub fn one_task_has_its_history()
    ensures { (set : TaskSet) (s : SetTask) (t : ℕ) → set.tasks ≡ s ∷ [] → s.budget ≤ s.period → legal set t ≡ lone_history s t }
{}

/// What is kept from record to record is what the whole own part says: the finished jobs, the open one, and how the task's
/// server stands without the wakes since the last record.
pub fn jobs_are_worked()
    ensures jobs { (s : SetTask) (own : List (ℕ × AttemptOutcome)) → (work_after (first_work s) own).jobs ≡ jobs s own }
    ensures open_job { (s : SetTask) (own : List (ℕ × AttemptOutcome)) → (work_after (first_work s) own).open_job ≡ open_job s own }
    ensures serving { (s : SetTask) (own : List (ℕ × AttemptOutcome)) →
        (work_after (first_work s) own).serving ≡ serving_after (first_serving s) own }
{}

/// A sleep or an end finishes the open job, with itself as the last record; no other record finishes one.
pub fn open_job_is_finished()
    ensures finished { (s : SetTask) (own : List (ℕ × AttemptOutcome)) (u : ℕ) (o : AttemptOutcome) → ends_job o ≡ true →
        jobs s (own ++ (u, o) ∷ []) ≡ jobs s own ++ finished_at u (gone_on (u, o) (open_job s own)) ∷ [] }
    ensures unfinished { (s : SetTask) (own : List (ℕ × AttemptOutcome)) (u : ℕ) (o : AttemptOutcome) → ends_job o ≡ false →
        jobs s (own ++ (u, o) ∷ []) ≡ jobs s own }
{}

/// Isolation: a task's pc, registers, RAM and output are those of its program alone, of its image, of how many records it has and
/// of the answers that its calls were given. The set need not be admitted.
pub fn task_is_as_alone()
    ensures { (set : TaskSet) (t i : ℕ) (s : SetTask) → slice_get set.tasks i ≡ Some s →
        (task_state t (legal set t) i s).program ≡ alone_in set t i s }
{}

/// So two tasks of any two sets that agree on these three have the same pc, registers, RAM and output, whatever the other tasks
/// are.
pub fn others_do_not_enter()
    ensures { (first second : TaskSet) (t u i j : ℕ) (s r : SetTask) →
        slice_get first.tasks i ≡ Some s → slice_get second.tasks j ≡ Some r → origin s ≡ origin r →
        length (own i (legal first t)) ≡ length (own j (legal second u)) →
        answers_told (own i (legal first t)) ≡ answers_told (own j (legal second u)) →
        (task_state t (legal first t) i s).program ≡ (task_state u (legal second u) j r).program }
{}
