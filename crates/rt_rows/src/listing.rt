//! Rows of lists of jobs with their details, of reports as comma-separated values, and of failures.
ghost use Rattle.std.specs.Prelude.{◌≡◌, true, false};
ghost use Rattle.rt_report.specs.declared.failing.Failing.TheVariants as failing;
ghost use Rattle.rt_rows.specs.Sets.{one, busy};
ghost use Rattle.rt_rows.specs.Faulting.{breaking};
ghost use Rattle.rt_rows.specs.Reporting.{soft_set, one_reserve_set};
ghost use Rattle.rt_rows.specs.Listing.{detailed, unfinished, separated, fails, writes, interrupting, interrupted_lines, interrupted_line, soft_details, soft_unfinished, soft_csv, granted_csv, fault_csv};

/// When a job begins, the budget and the deadline that its release has, and how many ticks between its own are others':
/// `detail_of`, `interrupted`, `detailed_line`, `unfinished_line`.
pub fn details_of_jobs()
    ensures interrupted { detailed interrupting 12 ≡ interrupted_lines }
    ensures unfinished { unfinished interrupting 10 ≡ interrupted_line }
    ensures soft { detailed soft_set 30 ≡ soft_details }
    ensures asleep { unfinished soft_set 24 ≡ soft_unfinished }
{}

/// The columns of a report in their order, reserves that are granted before those that are refused: `csv_line`.
pub fn reports_as_values()
    ensures soft { separated soft_set 30 ≡ soft_csv }
    ensures granted { separated (one_reserve_set 0x00A00513) 6 ≡ granted_csv }
    ensures faulted { separated breaking 1 ≡ fault_csv }
{}

/// An open job fails once it is more than a period old, too few of them once the first has had a period, a job that isn't hard, a fault and a
/// refused reserve at once, a write of bytes that aren't in RAM never: `fails_by`.
pub fn failures_of_tasks()
    ensures at_the_period { fails failing.Over (one 1 2 busy) 2 ≡ false }
    ensures over { fails failing.Over (one 1 2 busy) 3 ≡ true }
    ensures soft { fails failing.Soft soft_set 8 ≡ true }
    ensures hard { fails failing.Soft soft_set 7 ≡ false }
    ensures faulted { fails failing.Fault breaking 1 ≡ true }
    ensures granted { fails failing.Refused (one_reserve_set 0x00A00513) 6 ≡ false }
    ensures refused { fails failing.Refused (one_reserve_set 0x01500513) 6 ≡ true }
    ensures before_a_period { fails failing.Few (one 1 2 busy) 1 ≡ false }
    ensures few { fails failing.Few (one 1 2 busy) 2 ≡ true }
    ensures enough { fails failing.Few soft_set 30 ≡ false }
    ensures written { fails failing.Lost (writes 0x00000593) 3 ≡ false }
    ensures outside { fails failing.Lost (writes 0x00100593) 3 ≡ false }
{}
