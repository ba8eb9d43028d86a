//! The laws of certificates for jobs that may have several periods. Each function does nothing: its clause is the law.
ghost use Rattle.std.specs.Prelude.{◌≡◌, ℕ, ◌*◌, ◌<◌, ◌≤◌, ◌↔◌, length, slice_get, Some, All};
ghost use Rattle.rt_image.specs.SystemFile.{SetTask, TaskSet};
ghost use Rattle.rt_history.specs.Admitted.{IsAdmittedSet};
ghost use Rattle.rt_history.specs.Job.{jobs};
ghost use Rattle.rt_history.specs.Legal.{legal};
ghost use Rattle.rt_history.specs.OwnPart.{own, task_state};
ghost use Rattle.rt_history.specs.Program.{Origin, loaded, origin};
ghost use Rattle.rt_laws.specs.OpenJob.{open_job};
ghost use Rattle.rt_laws.specs.Periodic.{first_jobs};
ghost use Rattle.rt_laws.specs.Certified.{IsCertified, IsInTime};
ghost use Rattle.rt_laws.specs.Long.{granted_at, KeepsLong, IsWithin};
ghost use Rattle.rt_laws.specs.SeveralPeriods.{IsCertifiedIn};

/// A program is certified for jobs of one period exactly where it is certified.
pub fn one_period_is_a_certificate()
    ensures { (o : Origin) (budget period start n : ℕ) → IsCertified o budget period start n ↔ IsCertifiedIn o 1 budget period start n }
{}

/// A certificate for several periods holds for more periods, a greater budget, a lesser period, an earlier start and fewer jobs too.
pub fn several_periods_hold_for_more()
    ensures { (o : Origin) (k q p s n j b d v l : ℕ) → k ≤ j → q ≤ b → d ≤ p → v ≤ s → l ≤ n → IsCertifiedIn o k q p s n → IsCertifiedIn o j b d v l }
{}

/// The first `n` jobs of a program that is certified for `n` jobs of several periods are in time, in each admitted set: it keeps to a
/// server of its own, so those that are finished are answered within as many periods as they take budgets; and the open one is less than
/// all these periods old.
pub fn jobs_of_several_periods_are_in_time()
    ensures long { (o : Origin) (periods budget period start n : ℕ) → IsCertifiedIn o periods budget period start n →
        (k : ℕ) × KeepsLong k n (granted_at budget period start) (loaded o) }
    ensures finished { (set : TaskSet) (t i n periods : ℕ) (s : SetTask) → IsAdmittedSet set → slice_get set.tasks i ≡ Some s →
        IsCertifiedIn (origin s) periods s.budget s.period s.start n → All (IsWithin s.budget s.period) (first_jobs n set t i s) }
    ensures open_job { (set : TaskSet) (t i n periods : ℕ) (s : SetTask) → IsAdmittedSet set → slice_get set.tasks i ≡ Some s →
        IsCertifiedIn (origin s) periods s.budget s.period s.start n →
        length (jobs s (own i (legal set t))) < n →
        IsInTime (periods * s.period) t (open_job s (own i (legal set t))).release.tick (task_state t (legal set t) i s).serving.mode }
{}
