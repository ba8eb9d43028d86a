//! The laws. Each function does nothing: its clauses are the law, and a caller has them after the call.

ghost use Rattle.std.specs.Prelude.{◌≡◌, ℕ, ◌<◌, ◌^◌, Bool, List, slice_index};
ghost use Rattle.rt_isa.specs.declared.instruction.Ins.{Ins};
ghost use Rattle.rt_exec.specs.State.{State, register};
ghost use Rattle.rt_exec.specs.Effect.{Goes, outcome_of, state_after, effect};
ghost use Rattle.rt_points.specs.Access.{accessed};
ghost use Rattle.rt_effects.specs.laws.Kept.{Leaves};
ghost use Rattle.rt_effects.specs.laws.Exact.{IsOf};
ghost use Rattle.rt_effects.specs.Did.{source};
ghost use Rattle.rt_effects.specs.laws.Moved.{AreAlike, Holds};

/// Whatever an instruction does, goes on, calls or faults, it changes no register but its target, and no byte but those of its store.
pub fn others_stay()
    ensures { (split : Bool) (i : Ins) (s : State) → slice_index s.x 0 ≡ 0 → Leaves i s (state_after (effect split i s) s) }
{}

/// A load or a store is carried out where all bytes of its access are in RAM, and faults where they aren't, or where its address is no
/// multiple of their number and accesses aren't split; nothing else has such a fault.
pub fn accesses_decide_their_faults()
    ensures { (split : Bool) (i : Ins) (s : State) → slice_index s.x 0 ≡ 0 → IsOf split s.ram (accessed s.x i) (outcome_of (effect split i s)) }
{}

/// Of the bytes of RAM an instruction reads those of its access alone: others of the same number leave the same registers.
pub fn accesses_are_what_is_read()
    ensures { (split : Bool) (i : Ins) (s : State) (ram : List ℕ) → slice_index s.x 0 ≡ 0 → AreAlike (accessed s.x i) s.ram ram
        → (state_after (effect split i (record s { ram = ram })) (record s { ram = ram })).x ≡ (state_after (effect split i s) s).x }
{}

/// A store leaves the low bytes of its source in the bytes of its access.
pub fn sources_are_stored()
    ensures { (split : Bool) (i : Ins) (s t : State) → slice_index s.x 0 ≡ 0 → register s.x (source i) < 2 ^ 32 → effect split i s ≡ Goes t
        → Holds (accessed s.x i) t.ram (register s.x (source i)) }
{}
