//! What the history of busy tasks has to do with a machine's own.
ghost use Rattle.std.specs.Prelude.{◌≡◌, ℕ, map};
ghost use Rattle.rt_image.specs.SystemFile.{TaskSet};
ghost use Rattle.rt_admit.specs.Admission.{IsOverloaded};
ghost use Rattle.rt_history.specs.Admitted.{task_params};
ghost use Rattle.rt_history.specs.Busy.{all_at_once, busy_at};
ghost use Rattle.rt_history.specs.Fit.{AllFit};
ghost use Rattle.rt_history.specs.Legal.{state_at};
ghost use Rattle.rt_history.specs.Plain.{AreTurns};

/// Where all tasks start at tick 0, and the first `t` ticks of the legal history are plain instructions, its servers are those of
/// the history in which each task is busy, whether the set is admitted or not. So of a set that is refused for its load alone, a
/// machine whose tasks are all busy really misses a deadline: after a hyperperiod the budget of a task no longer fits before it.
pub fn legal_servers_are_busy_ones()
    ensures servers { (set : TaskSet) (t : ℕ) → AreTurns (all_at_once set) 0 t →
        map (λ x. x.serving) (state_at (all_at_once set) t).tasks ≡ map (λ x. x.serving) (busy_at set t).tasks }
    ensures misses { (set : TaskSet) → IsOverloaded set.hyper (task_params set.tasks) → AreTurns (all_at_once set) 0 set.hyper →
        AllFit (state_at (all_at_once set) set.hyper) → ⊥ }
{}
