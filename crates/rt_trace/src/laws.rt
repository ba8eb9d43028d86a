//! A law of the text of a run, for every set, every tick and every program. Its function does nothing: its clause is the law, and a
//! caller has it after the call.
ghost use Rattle.std.specs.Prelude.{◌≡◌, ℕ, slice_get, Some};
ghost use Rattle.rt_image.specs.SystemFile.{SetTask, TaskSet};
ghost use Rattle.rt_history.specs.OwnPart.{TaskState};
ghost use Rattle.rt_history.specs.Legal.{state_at};
ghost use Rattle.rt_laws.specs.Alone.{alone_in};
ghost use Rattle.rt_core.specs.View.{shown};
ghost use Rattle.rt_trace.specs.TaskText.{task_text};
ghost use Rattle.rt_trace.specs.declared.telling.Telling.{Telling};

/// What a run tells of a task's program in the end, its pc, registers and output, is what that program would tell alone: a
/// function of its image, of how many records it has and of the answers that its calls were given.
pub fn tasks_are_told_as_alone()
    ensures { (telling : Telling) (set : TaskSet) (t i : ℕ) (s : SetTask) (x : TaskState) → slice_get set.tasks i ≡ Some s →
        slice_get (state_at set t).tasks i ≡ Some x →
        task_text telling i (shown x) x.program.output
        ≡ task_text telling i (record (shown x) { state = (alone_in set t i s).state }) (alone_in set t i s).output }
{}
