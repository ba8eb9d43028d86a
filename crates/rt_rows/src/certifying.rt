//! Rows of certificates.
ghost use Rattle.std.specs.Prelude.{[], ◌∷◌};
ghost use Rattle.rt_history.specs.declared.mode.Mode.TheVariants.{Active, Ended};
ghost use Rattle.rt_history.specs.declared.record.AttemptOutcome.TheVariants.{Next};
ghost use Rattle.rt_laws.specs.Certified.{IsCertified, IsInTime};
ghost use Rattle.rt_laws.specs.Long.{granted_at, AreOnTime, IsWithin};
ghost use Rattle.rt_laws.specs.SeveralPeriods.{IsCertifiedIn};
ghost use Rattle.rt_rows.specs.Certifying.{beat, ending, writing_then_ending, refused_then_ending, yielding, job_of_four};

/// A program that sleeps until 10 and until 20 is certified for two jobs with a budget of 3 ticks, a period of 10 and the start tick 0;
/// not with a tick less, nor with a longer period, nor with a later start: `Keeps`.
pub fn beat_is_certified()
    ensures certified { IsCertified beat 3 10 0 2 }
    ensures budget { IsCertified beat 2 10 0 1 → ⊥ }
    ensures period { IsCertified beat 3 11 0 1 → ⊥ }
    ensures start { IsCertified beat 3 10 1 1 → ⊥ }
{}

/// It is certified for two jobs of three periods, of a tick in 3; not of a tick in 4, nor of two periods: `KeepsIn`.
pub fn beat_is_certified_in_three_periods()
    ensures certified { IsCertifiedIn beat 3 1 3 0 2 }
    ensures period { IsCertifiedIn beat 3 1 4 0 1 → ⊥ }
    ensures periods { IsCertifiedIn beat 2 1 3 0 1 → ⊥ }
{}

/// An end keeps the plan for any number of jobs; a write goes on, also one that is refused; a yield breaks it: `GoesOn`.
pub fn what_keeps_the_plan()
    ensures end { IsCertified ending 2 10 0 5 }
    ensures write { IsCertified writing_then_ending 5 10 0 5 }
    ensures refused { IsCertified refused_then_ending 5 10 0 5 }
    ensures yielded { IsCertified yielding 5 10 0 1 → ⊥ }
{}

/// A job that is released at 0 with a period of 10 is in time at tick 9, and at 10 no more, unless its task has ended: `IsInTime`.
pub fn what_is_in_time()
    ensures before { IsInTime 10 9 0 Active }
    ensures at { IsInTime 10 10 0 Active → ⊥ }
    ensures ended { IsInTime 10 10 0 Ended }
{}

/// A record before its deadline is on time, and one at its deadline is not, nor an open job in a history that ends there: `AreOnTime`.
/// A job of two budgets is answered within two periods, and not a tick later: `IsWithin`.
pub fn what_is_on_time()
    ensures before { AreOnTime 9 1 (granted_at 2 10 0) ((9, Next) ∷ []) }
    ensures at { AreOnTime 9 1 (granted_at 2 10 0) ((10, Next) ∷ []) → ⊥ }
    ensures open { AreOnTime 10 1 (granted_at 2 10 0) [] → ⊥ }
    ensures within { IsWithin 2 10 (job_of_four 20) }
    ensures later { IsWithin 2 10 (job_of_four 21) → ⊥ }
{}
