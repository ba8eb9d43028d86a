//! Laws of sessions. The functions do nothing: each clause is a law, and a caller has it after the call.

ghost use Rattle.std.specs.Prelude.{◌≡◌, ◌↔◌, ℕ, Bool, List, Some, Ok};
ghost use Rattle.std.specs.Borrow.{Bor};
ghost use Rattle.rt_image.specs.SystemFile.{TaskSet};
ghost use Rattle.rt_history.specs.MachineState.{MachineState};
ghost use Rattle.rt_history.specs.Legal.{state_at};
ghost use Rattle.rt_names.specs.TaskWords.{task_of};
ghost use Rattle.rt_names.specs.declared.task_word.TaskWord.TheVariants.{Name};
ghost use Rattle.rt_walk.specs.Position.{WalkState};
ghost use Rattle.rt_debug.specs.Stopping.{Stopping, no_stopping};
ghost use Rattle.rt_debug.specs.Whose.{named};
ghost use Rattle.rt_debug.specs.Talk.{Act, Talks, fresh, IsFaithful};

/// After any commands and added stops, what a session shows is the legal history's own: the machine of the shown tick, and the last
/// entries of the ticks since the session began.
pub fn sessions_are_faithful<B>()
    ensures { (meets : B → ℕ → ℕ → Bool) (set : TaskSet) (machine : MachineState) (acts : List (Act B)) (new : WalkState) (later : Stopping B)
        → machine ≡ state_at set machine.tick → Talks meets set (fresh machine) no_stopping acts new later → IsFaithful set machine new.shown }
{}

/// A name means a task in a session exactly where it means this task as a word of an option.
pub fn names_mean_what_options_mean()
    ensures { (names : List (List ℕ)) (name : Bor (List ℕ)) (i : ℕ) → (named names name.now ≡ Some i) ↔ (task_of names (Name name) ≡ Ok i) }
{}
