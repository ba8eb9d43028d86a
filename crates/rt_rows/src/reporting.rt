//! Rows of jobs and reports.
ghost use Rattle.std.specs.Prelude.{◌≡◌};
ghost use Rattle.rt_history.specs.Legal.{legal};
ghost use Rattle.rt_history.specs.OwnPart.{own};
ghost use Rattle.rt_history.specs.Job.{jobs};
ghost use Rattle.rt_rows.specs.Faulting.{breaking};
ghost use Rattle.rt_rows.specs.Scheduling.{two_busy};
ghost use Rattle.rt_rows.specs.Sleeping.{until_seven, until_eight};
ghost use Rattle.rt_rows.specs.Reporting.{reported, one_job_text, busy_tasks_text, worker, working, three_jobs, three_jobs_text, scarce_text, overload, late_text, whole_period, whole_period_text, pending, pending_set, pending_jobs, reserving, reserving_text, soft, soft_set, soft_jobs, soft_text, one_reserve, one_reserve_set, one_reserve_jobs, one_reserve_text, listed, widely_reported, soft_lines, soft_wide_text, late_lines, late_wide_text, at_the_period, at_the_period_text, asleep_wide_text, fresh_wide_text, kept_wide_text, fault_wide_text};

/// A job of 4 ticks takes 4, and one that isn't finished isn't counted: `response`, and the text of a report.
pub fn report_twelve_ticks()
    ensures one_job { reported until_eight 12 ≡ one_job_text }
    ensures no_job { reported two_busy 12 ≡ busy_tasks_text }
{}

/// The least and the greatest of three responses, and which jobs have no more ticks than the budget: `jobs`, `row_with`,
/// `is_hard`.
pub fn least_and_greatest()
    ensures jobs { jobs (worker 5) (own 0 (legal (working 5) 25)) ≡ three_jobs }
    ensures report { reported (working 5) 25 ≡ three_jobs_text }
    ensures scarce { reported (working 3) 25 ≡ scarce_text }
{}

/// In a set that isn't admitted a hard job can be late; one that takes its whole period is not: `is_late`.
pub fn late_job()
    ensures late { reported overload 3 ≡ late_text }
    ensures in_time { reported whole_period 2 ≡ whole_period_text }
{}

/// Jobs that aren't hard: of a release to an active task, of a kept wake, with a yield: `release_by`, `is_fresh`, `is_calm`.
pub fn jobs_that_are_not_hard()
    ensures pending { jobs pending (own 1 (legal pending_set 10)) ≡ pending_jobs }
    ensures jobs { jobs soft (own 0 (legal soft_set 30)) ≡ soft_jobs }
    ensures report { reported soft_set 30 ≡ soft_text }
{}

/// The budget of a job is the one that its wake took: `budget_of`.
pub fn job_after_a_reserve()
    ensures { reported reserving 23 ≡ reserving_text }
{}

/// A job that reserves is calm and hard, whether its reserve is granted or refused: `is_calm`.
pub fn jobs_that_reserve()
    ensures granted { jobs (one_reserve 0x00A00513) (own 0 (legal (one_reserve_set 0x00A00513) 6)) ≡ one_reserve_jobs }
    ensures granted_report { reported (one_reserve_set 0x00A00513) 6 ≡ one_reserve_text }
    ensures refused { jobs (one_reserve 0x01500513) (own 0 (legal (one_reserve_set 0x01500513) 6)) ≡ one_reserve_jobs }
    ensures refused_report { reported (one_reserve_set 0x01500513) 6 ≡ one_reserve_text }
{}

/// The line of each finished job, numbered from 0, whatever it is: `finished_job`, `job_line`.
pub fn lines_of_jobs()
    ensures soft { listed soft_set 30 ≡ soft_lines }
    ensures late { listed overload 3 ≡ late_lines }
{}

/// What a wide report tells of wakes, of deadlines that move on, of yields, and of responses over the period: `counts_with`,
/// `wide_row_text`.
pub fn wide_reports()
    ensures soft { widely_reported soft_set 30 ≡ soft_wide_text }
    ensures over { widely_reported overload 3 ≡ late_wide_text }
    ensures at_the_period { widely_reported at_the_period 2 ≡ at_the_period_text }
{}

/// A wide report tells the wake that has come since the last record, and how each task stands: `with_wake`, `stands_text`.
pub fn wide_reports_of_what_came_last()
    ensures asleep { widely_reported until_eight 5 ≡ asleep_wide_text }
    ensures fresh { widely_reported until_eight 8 ≡ fresh_wide_text }
    ensures kept { widely_reported until_seven 7 ≡ kept_wide_text }
    ensures faulted { widely_reported breaking 1 ≡ fault_wide_text }
{}
