//! Rows of admission.
ghost use Rattle.std.specs.Prelude.{◌≡◌, None, Some};
ghost use Rattle.rt_admit.specs.Refusal.{refusal};
ghost use Rattle.rt_admit.specs.declared.fault.AdmitFault.TheVariants.{TooMany, BadHyper};
ghost use Rattle.rt_rows.specs.Admitting.{ticks_of};

/// 64 tasks are admitted, and 65 are not; a hyperperiod of 2^22 ticks is, and one of a tick more is not: `task_limit`, `hyper_limit`.
pub fn limits_of_a_set()
    ensures tasks { refusal 130 (ticks_of 64 130) ≡ None }
    ensures too_many { refusal 130 (ticks_of 65 130) ≡ Some TooMany }
    ensures hyper { refusal 4194304 (ticks_of 1 4194304) ≡ None }
    ensures too_long { refusal 4194305 (ticks_of 1 4194305) ≡ Some BadHyper }
{}
