//! Rows of what the programs print of a run, of a file and of a certificate.
ghost use Rattle.std.specs.Prelude.{◌≡◌, true, false, [], ◌∷◌, codes, map, replicate, None, Some};
ghost use Rattle.std.specs.Option.{option_map};
ghost use Rattle.rt_report.specs.declared.failing.Failing.TheVariants.{Over, Soft, Refused};
ghost use Rattle.rt_accounts.specs.Failures.{failure, first_failure};
ghost use Rattle.rt_effects.specs.Did.{target};
ghost use Rattle.rt_effects.specs.TraceText.{trace_text};
ghost use Rattle.rt_profile.specs.declared.form.ProfileForm.TheVariants.{Rows, Needs, Callgrind};
ghost use Rattle.rt_waves.specs.WavesText.{waves_text};
ghost use Rattle.rt_show.specs.SetShown.{set_shown, whole_weight};
ghost use Rattle.rt_show.specs.ObjectShown.{object_shown, stands_before};
ghost use Rattle.rt_certify.specs.RefusalText.{refusal_text};
ghost use Rattle.rt_certify.specs.Extremes.{first_longest, first_closest, job_at};
ghost use Rattle.rt_programs.specs.Certify.{certificate_text, placed_text};
ghost use Rattle.rt_programs.specs.CertifySet.{outcomes_text, uncertified_text};
ghost use Rattle.rt_programs.specs.declared.outcome.Outcome.TheVariants as outcomes;
ghost use Rattle.rt_certify.specs.declared.certificate.Reason.TheVariants.{Yields};
ghost use Rattle.rt_opening.specs.Overloaded.{overload_note};
ghost use Rattle.rt_rows.specs.Sets.{task};
ghost use Rattle.rt_rows.specs.Reporting.{soft_set, overload};
ghost use Rattle.rt_text_rows.specs.Names.{named};
ghost use Rattle.rt_text_rows.specs.Texts.{motor, motor_and_spin, motor_trace, soft_trace, without_target, profiled, motor_rows, motor_callgrind, soft_rows, soft_needs, motor_shown, object_text, of_jobs, job_of, worker_jobs, nears_jobs, asking, placed_at, for_reason, reasons, reason_texts, pid_and_logger, of_three_jobs, of_five_jobs};
ghost use Rattle.rt_text_rows.specs.Waves.{writer, of_ten_microseconds, writer_waves};

/// Registers, loads and stores, calls and a fault, with the places and the idle stretches: `did`, `busy_line`, `idle_line`.
pub fn what_ticks_did()
    ensures calls { trace_text soft_set 0 30 None ≡ soft_trace }
    ensures accesses { trace_text motor_and_spin 0 12 None ≡ motor_trace }
    ensures of_one { trace_text motor_and_spin 9 2 (Some 0) ≡ codes "9\t0\t00000000\tmotor:-\t-\tfault FetchAccess\n" }
    ensures no_target { map target without_target ≡ replicate 12 None }
{}

/// The ticks of parts, those outside of all, and the jobs by their ticks: `row_text`, `callgrind_text`, `need_text`.
pub fn where_ticks_went()
    ensures rows { profiled Rows motor_and_spin 12 ≡ motor_rows }
    ensures most { profiled Rows soft_set 30 ≡ soft_rows }
    ensures callgrind { profiled Callgrind motor_and_spin 12 ≡ motor_callgrind }
    ensures needs { profiled Needs soft_set 30 ≡ soft_needs }
{}

/// Each value at its first time, and then where it changes; the output by its length: `waves_text`, `variable`, `mode_number`,
/// `part_begin`, `value_text`.
pub fn waves_of_a_write()
    ensures { waves_text of_ten_microseconds writer 0 7 ≡ writer_waves }
{}

/// A set as the lines of a set file, and an object with its symbols by address: `image_remark`, `whole_weight`, `stands_before`.
pub fn contents_of_files()
    ensures set { set_shown motor_and_spin ≡ motor_shown }
    ensures object { object_shown motor (named 0x80000000 (codes "motor") ∷ named 0x80000008 (codes "keep") ∷ []) ≡ object_text }
    ensures no_weight { whole_weight 10 (task 3 6 []) ≡ None }
    ensures by_address { stands_before (named 4 (codes "b")) (named 8 (codes "a")) ≡ true }
    ensures by_name { stands_before (named 4 (codes "b")) (named 4 (codes "a")) ≡ false }
{}

/// `certificate_text`, `reason_end`.
pub fn lines_of_certificates()
    ensures more { certificate_text (of_jobs 3 (Some 9) (Some 21)) ≡ codes "certified 3 longest 4 distance 9 next 21\n" }
    ensures ended { certificate_text (of_jobs 1 None None) ≡ codes "certified 1 longest 4 distance - ended\n" }
    ensures refused { map (λ reason. refusal_text (for_reason reason)) reasons ≡ reason_texts }
{}

/// The first of several jobs with as many ticks or as little distance, and one without a distance; where they are asked for:
/// `first_longest`, `first_closest`, `placed_text`.
pub fn jobs_of_certificates()
    ensures longest { option_map job_at (first_longest worker_jobs) ≡ Some (job_of 3 60) }
    ensures closest { option_map job_at (first_closest worker_jobs) ≡ Some (job_of 0 0) }
    ensures last { option_map job_at (first_longest nears_jobs) ≡ Some (job_of 3 30) }
    ensures nearer { option_map job_at (first_closest nears_jobs) ≡ Some (job_of 1 20) }
    ensures none { first_closest [] ≡ None }
    ensures asked { placed_text (asking true) (placed_at (Some (job_of 0 7))) ≡ codes "certified 3 longest 4 distance 9 next 21\nlongest job 2 release 12\ndistance job 0 release 7\n" }
    ensures alone { placed_text (asking true) (placed_at None) ≡ codes "certified 3 longest 4 distance 9 next 21\nlongest job 2 release 12\n" }
    ensures unasked { placed_text (asking false) (placed_at (Some (job_of 0 7))) ≡ codes "certified 3 longest 4 distance 9 next 21\n" }
{}

/// The lines of a set's tasks, and for how many jobs they are promised: as many as are asked for, or as a certificate counts; none where a
/// task is refused: `outcome_line`, `promised`, `uncertified_text`.
pub fn lines_of_a_certified_set()
    ensures fewer { outcomes_text pid_and_logger 5 (outcomes.Certified (of_jobs 3 (Some 9) (Some 21)) ∷ outcomes.Excepted ∷ []) ≡ of_three_jobs }
    ensures all { outcomes_text pid_and_logger 5 (outcomes.Excepted ∷ outcomes.Certified (of_jobs 1 None None) ∷ []) ≡ of_five_jobs }
    ensures refused { outcomes_text pid_and_logger 1 (outcomes.Certified (of_jobs 1 None None) ∷ outcomes.Refused (for_reason Yields) ∷ []) ≡ codes "0 pid certified 1 longest 4 distance - ended\n" }
    ensures reason { uncertified_text (record { task = 1; symbol = None; refusal = for_reason Yields }) ≡ codes "task 1 task1: certify: Yields job 2 pc 8000000c" }
{}

/// The first failure of a list that happened, and the least task to which it did, of those that aren't excepted: `first_failure`.
pub fn first_failures()
    ensures second { first_failure (Refused ∷ Soft ∷ Over ∷ []) [] soft_set 30 ≡ failure Soft 0 }
    ensures least { first_failure (Soft ∷ Over ∷ []) [] overload 3 ≡ failure Over 0 }
    ensures excepted { first_failure (Soft ∷ Over ∷ []) (0 ∷ []) overload 3 ≡ failure Over 1 }
    ensures none { first_failure (Refused ∷ []) [] soft_set 30 ≡ None }
{}

/// The line before the text of a set that asks for too much: `overload_note`.
pub fn note_of_an_overload()
    ensures { overload_note (record { total = 14; hyper = 12 }) ≡ codes "not admitted: total 14 of 12; nothing is promised" }
{}
