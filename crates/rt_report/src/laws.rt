//! Laws of what a report keeps, for every history. Each function does nothing: its clause is the law, and a caller has it after
//! the call.

ghost use Rattle.std.specs.Prelude.{◌≡◌, ℕ, List, map};
ghost use Rattle.rt_image.specs.SystemFile.{SetTask, TaskSet};
ghost use Rattle.rt_history.specs.declared.record.Record.{Record};
ghost use Rattle.rt_history.specs.Legal.{legal};
ghost use Rattle.rt_history.specs.OwnPart.{task_state};
ghost use Rattle.rt_history.specs.Serving.{due};
ghost use Rattle.rt_report.specs.JobDetails.{detailed_jobs};
ghost use Rattle.rt_report.specs.JobLines.{finished_jobs};
ghost use Rattle.rt_report.specs.Rows.{rows};
ghost use Rattle.rt_report.specs.RowsOfLines.{rows_of_lines};
ghost use Rattle.rt_report.specs.Standing.{task_report};

/// The account and the mode that a report keeps of a task are those of the task after the history, once the wakes up to then are
/// applied.
pub fn kept_servers_are_due()
    ensures { (t i : ℕ) (history : List Record) (s : SetTask) → due t (task_report history i s).serving ≡ (task_state t history i s).serving }
{}

/// The rows of a report are those that are counted from the lines of the finished jobs, and from each task's executed ticks.
pub fn rows_count_jobs()
    ensures { (set : TaskSet) (t : ℕ) → rows set (legal set t) ≡ rows_of_lines set (legal set t) }
{}

/// Without its details the detailed list tells the finished jobs, in their order.
pub fn details_are_of_finished_jobs()
    ensures { (set : TaskSet) (t : ℕ) → map (λ d. d.job) (detailed_jobs set (legal set t)) ≡ finished_jobs set (legal set t) }
{}
