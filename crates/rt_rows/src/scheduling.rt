//! Rows of scheduling: which task runs, and what its ticks cost.
ghost use Rattle.std.specs.Prelude.{◌≡◌};
ghost use Rattle.rt_trace.specs.RunText.{run_text};
ghost use Rattle.rt_trace.specs.declared.telling.Telling.TheVariants.{WithServers};
ghost use Rattle.rt_rows.specs.Scheduling.{two_busy, two_busy_text, two_tied, two_tied_text, starting, not_yet_started_text, started_text, ending, ended_text, ended_at_last_text};

/// Two busy tasks share the hart by deadline and then number: `named`, `recharged`, `spent`, and the text of a run.
pub fn two_busy_tasks()
    ensures busy { run_text WithServers two_busy 12 ≡ two_busy_text }
    ensures tied { run_text WithServers two_tied 2 ≡ two_tied_text }
{}

/// A task is asleep until its start tick, with nothing to spend; its first wake there is fresh: `unwoken`, `due`.
pub fn not_yet_started()
    ensures not_yet { run_text WithServers starting 0 ≡ not_yet_started_text }
    ensures started { run_text WithServers starting 4 ≡ started_text }
{}

/// An end costs its tick, and the task is never named again: `charged` and `mode_after` of an end.
pub fn end_at_once()
    ensures charged { run_text WithServers (ending 5) 2 ≡ ended_text }
    ensures postponed { run_text WithServers (ending 1) 2 ≡ ended_at_last_text }
{}
