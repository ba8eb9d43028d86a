//! The laws of certificates, for every admitted set and tick. Each function does nothing: its clause is the law, and a caller has it after
//! the call.
ghost use Rattle.std.specs.Prelude.{◌≡◌, ℕ, ◌*◌, ◌<◌, ◌≤◌, true, List, length, map, take, slice_get, Some, All};
ghost use Rattle.rt_image.specs.SystemFile.{SetTask, TaskSet};
ghost use Rattle.rt_history.specs.Admitted.{IsAdmittedSet};
ghost use Rattle.rt_history.specs.Job.{response, is_hard, jobs};
ghost use Rattle.rt_history.specs.Legal.{legal};
ghost use Rattle.rt_history.specs.OwnPart.{own, task_state};
ghost use Rattle.rt_history.specs.Program.{Origin, loaded, origin};
ghost use Rattle.rt_laws.specs.OpenJob.{open_job};
ghost use Rattle.rt_laws.specs.Periodic.{first_jobs};
ghost use Rattle.rt_laws.specs.Certified.{IsCertified, IsInTime, Keeps};
ghost use Rattle.rt_laws.specs.Planned.{planned};
ghost use Rattle.rt_laws.specs.Seen.{KeepsSeen, BreaksSeen};
ghost use Rattle.rt_laws.specs.Long.{granted_at, KeepsLong, AreOnTime, IsWithin};

/// The first `n` jobs of a program that is certified for `n` jobs are in time, in each admitted set: those that are finished are hard,
/// with a response of at most a period, and the open one is less than a period old.
pub fn certified_jobs_are_in_time()
    ensures finished { (set : TaskSet) (t i n : ℕ) (s : SetTask) → IsAdmittedSet set → slice_get set.tasks i ≡ Some s →
        IsCertified (origin s) s.budget s.period s.start n →
        All (λ j. (is_hard j ≡ true) × (response j ≤ s.period)) (first_jobs n set t i s) }
    ensures open_job { (set : TaskSet) (t i n : ℕ) (s : SetTask) → IsAdmittedSet set → slice_get set.tasks i ≡ Some s →
        IsCertified (origin s) s.budget s.period s.start n →
        length (jobs s (own i (legal set t))) < n →
        IsInTime s.period t (open_job s (own i (legal set t))).release.tick (task_state t (legal set t) i s).serving.mode }
{}

/// What was seen of a task in the history of any set, admitted or not, certifies its program: so a run of the task alone does.
pub fn seen_jobs_are_certified()
    ensures { (set : TaskSet) (t i n budget period : ℕ) (s : SetTask) → slice_get set.tasks i ≡ Some s →
        KeepsSeen budget period n s.start 0 (map (λ e. e.1) (own i (legal set t))) → IsCertified (origin s) budget period s.start n }
{}

/// A certificate holds for a greater budget, a lesser period, an earlier start and fewer jobs too.
pub fn certificates_hold_for_more()
    ensures { (o : Origin) (q p s n b d v l : ℕ) → q ≤ b → d ≤ p → v ≤ s → l ≤ n → IsCertified o q p s n → IsCertified o b d v l }
{}

/// The release and the ticks of each finished job of a certified task are those of its program alone.
pub fn jobs_are_those_alone()
    ensures { (set : TaskSet) (t i n k : ℕ) (s : SetTask) → IsAdmittedSet set → slice_get set.tasks i ≡ Some s →
        Keeps s.budget s.period k n s.start 0 (loaded (origin s)) →
        map (λ j. (j.release, j.ticks)) (first_jobs n set t i s) ≡ take (length (first_jobs n set t i s)) (planned k s.start 0 (loaded (origin s))) }
{}

/// Jobs longer than the budget: where a program keeps to a server of its own, each of its attempts is made before the deadline that it
/// has there, in every admitted set; and the deadline of the next one is to come.
pub fn attempts_meet_their_deadlines()
    ensures { (set : TaskSet) (t i n k : ℕ) (s : SetTask) → IsAdmittedSet set → slice_get set.tasks i ≡ Some s →
        KeepsLong k n (granted_at s.budget s.period s.start) (loaded (origin s)) →
        AreOnTime t n (granted_at s.budget s.period s.start) (own i (legal set t)) }
{}

/// So each of these jobs is answered within as many periods as it takes budgets; and the open one, where it has made less attempts than
/// `k` budgets have ticks, is less than `k` periods old.
pub fn long_jobs_are_in_time()
    ensures finished { (set : TaskSet) (t i n k : ℕ) (s : SetTask) → IsAdmittedSet set → slice_get set.tasks i ≡ Some s →
        KeepsLong k n (granted_at s.budget s.period s.start) (loaded (origin s)) →
        All (IsWithin s.budget s.period) (first_jobs n set t i s) }
    ensures open_job { (set : TaskSet) (t i n j k : ℕ) (s : SetTask) → IsAdmittedSet set → slice_get set.tasks i ≡ Some s →
        KeepsLong j n (granted_at s.budget s.period s.start) (loaded (origin s)) →
        length (jobs s (own i (legal set t))) < n → (open_job s (own i (legal set t))).ticks < k * s.budget →
        IsInTime (k * s.period) t (open_job s (own i (legal set t))).release.tick (task_state t (legal set t) i s).serving.mode }
{}

/// And where what was seen breaks the plan before `n` jobs are finished, the program isn't certified for them.
pub fn broken_plans_are_not_certified()
    ensures { (set : TaskSet) (t i n budget period : ℕ) (s : SetTask) → slice_get set.tasks i ≡ Some s →
        BreaksSeen budget period n s.start 0 (map (λ e. e.1) (own i (legal set t))) → IsCertified (origin s) budget period s.start n → ⊥ }
{}
