//! The law of a set whose tasks have certificates. The function does nothing: its clause is the law, and a caller has it after the call.
ghost use Rattle.std.specs.Prelude.{◌≡◌, ℕ, slice_get, Some};
ghost use Rattle.rt_image.specs.SystemFile.{SetTask, TaskSet};
ghost use Rattle.rt_history.specs.Admitted.{IsAdmittedSet};
ghost use Rattle.rt_certify.specs.declared.certificate.Certificate.{Certificate};
ghost use Rattle.rt_certify.specs.CertifiedSet.{HasCertificate, Counts, AreInTime};

/// In an admitted set the jobs that a certificate of a task counts are in time, whatever the other tasks do: no certificate of another is
/// needed.
pub fn certified_set_is_in_time()
    ensures { (set : TaskSet) (i : ℕ) (s : SetTask) (c : Certificate) (n : ℕ) → IsAdmittedSet set → slice_get set.tasks i ≡ Some s →
        HasCertificate s c → Counts c n → AreInTime set i s n }
{}
