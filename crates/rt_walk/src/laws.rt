//! The law of jobs. The function does nothing: its clause is the law, and a caller has it after the call.

ghost use Rattle.std.specs.Prelude.{◌≡◌, ◌≤◌, ℕ};
ghost use Rattle.rt_words.specs.Limits.{tick_limit};
ghost use Rattle.rt_image.specs.SystemFile.{TaskSet};
ghost use Rattle.rt_history.specs.Legal.{state_at};
ghost use Rattle.rt_walk.specs.Jobs.{Stand, first_jobs, jobs_at, jobs_since};
ghost use Rattle.rt_walk.specs.Position.{PositionState, IsReached, IsAt, stand_of};

/// Wherever a machine stands in the legal history, jobs may be counted from there. In a session that began at tick 0, those since any
/// tick that it shows are those of the legal history.
pub fn jobs_are_of_the_history()
    ensures begins { (set : TaskSet) (s : Stand) → s.machine ≡ state_at set s.machine.tick → IsAt s set s }
    ensures legal { (set : TaskSet) (first now : PositionState) (t : ℕ) → first.machine ≡ state_at set 0 → first.jobs ≡ first_jobs first.machine
        → IsReached first now → now.machine.tick ≤ t → t ≤ tick_limit → jobs_since (stand_of now) set t ≡ jobs_at set t }
{}
