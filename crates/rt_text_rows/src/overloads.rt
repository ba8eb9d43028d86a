//! Rows of sets that ask for too much, and of one that asks for all there is.
ghost use Rattle.std.specs.Prelude.{◌≡◌};
ghost use Rattle.rt_admit.specs.declared.fault.AdmitFault.TheVariants.{Overload};
ghost use Rattle.rt_history.specs.Busy.{busy_at};
ghost use Rattle.rt_laws.specs.breach.Breach.{IsFirstBreach};
ghost use Rattle.rt_programs.specs.Check.{check_text, IsReason};
ghost use Rattle.rt_text_rows.specs.Overloads.{told, two_thirds_and_half, half_misses, half_misses_text, all_and_one, one_misses, one_misses_text, full, full_text};

/// Two of three and two of four ticks. A tick later the task would have but one left to spend: `busy_at`, `IsFirstBreach`,
/// `weight_line`, `breach_line`, `IsReason`.
pub fn breach_of_a_half()
    ensures first { IsFirstBreach (busy_at two_thirds_and_half 12) half_misses }
    ensures text { told two_thirds_and_half half_misses ≡ half_misses_text }
    ensures reason { IsReason two_thirds_and_half (Overload 14 12) half_misses_text }
{}

/// All ticks, and one of twelve beside them: the same.
pub fn breach_of_one()
    ensures first { IsFirstBreach (busy_at all_and_one 12) one_misses }
    ensures text { told all_and_one one_misses ≡ one_misses_text }
{}

/// One of two, one of three and one of six ticks are all ticks, and admitted: `admitted_text`.
pub fn admitted_in_full()
    ensures { check_text full ≡ full_text }
{}
