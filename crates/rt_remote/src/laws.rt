//! The law of whole sessions. The function does nothing: its clause is the law, and a caller has it after the call.

ghost use Rattle.std.specs.Prelude.{◌≡◌, ℕ, List};
ghost use Rattle.rt_image.specs.SystemFile.{TaskSet};
ghost use Rattle.rt_history.specs.MachineState.{MachineState};
ghost use Rattle.rt_history.specs.Legal.{state_at};
ghost use Rattle.rt_debug.specs.Talk.{IsFaithful};
ghost use Rattle.rt_packet.specs.declared.request.request.Request.{Request};
ghost use Rattle.rt_remote.specs.Remote.{RemoteState, opening};
ghost use Rattle.rt_remote.specs.Talk.{Talks};

/// After any requests, what gdb is shown is the legal history's own: the machine of the shown tick, and the last entries of the ticks
/// since the session began.
pub fn remote_sessions_are_faithful()
    ensures { (set : TaskSet) (names : List (List ℕ)) (machine : MachineState) (requests : List Request) (new : RemoteState)
        → machine ≡ state_at set machine.tick → Talks (opening names machine) requests new → IsFaithful set machine new.walk.shown }
{}
