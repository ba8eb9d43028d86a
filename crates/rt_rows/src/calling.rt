//! Rows of the other calls: what they leave in the registers, the output and the server.
ghost use Rattle.std.specs.Prelude.{◌≡◌, ℕ, ◌+◌, ◌^◌, List, [], ◌∷◌, length, true, false, Some, None};
ghost use Rattle.rt_history.specs.Calls.{with_room, offered, writes};
ghost use Rattle.rt_history.specs.Program.{Program};
ghost use Rattle.rt_history.specs.Legal.{legal};
ghost use Rattle.rt_trace.specs.HistoryText.{history_text};
ghost use Rattle.rt_trace.specs.RunText.{run_text};
ghost use Rattle.rt_trace.specs.declared.telling.Telling.TheVariants.{WithServers};
ghost use Rattle.rt_rows.specs.Calling.{yielding, yield_at_two_text, yield_at_last_text, writing, write_four_text, write_refused_text, write_all_text, writing_outside, write_outside_text, writing_nothing, write_nothing_text, asking, now_at_two_text, asking_late, now_past_32_bits_text};

/// A yield gives up the rest, and is postponed once: `yielded`.
pub fn yield_at_two()
    ensures early { run_text WithServers (yielding 5) 2 ≡ yield_at_two_text }
    ensures at_last { run_text WithServers (yielding 2) 2 ≡ yield_at_last_text }
{}

/// A write appends its bytes and says how many; one of 257 bytes, or of bytes outside RAM, appends none: `written`, `writes`.
pub fn write_call()
    ensures accepted { run_text WithServers (writing 0x00400593) 4 ≡ write_four_text }
    ensures longest { history_text (legal (writing 0x10000593) 4) ≡ write_all_text }
    ensures too_long { run_text WithServers (writing 0x10100593) 4 ≡ write_refused_text }
    ensures outside { run_text WithServers writing_outside 5 ≡ write_outside_text }
{}

/// A write of no bytes is accepted at every address: `span` of no bytes.
pub fn write_of_nothing()
    ensures { run_text WithServers writing_nothing 2 ≡ write_nothing_text }
{}

/// An output of 65,533 bytes has room for 3 more, and not for 4: `with_room`. The program that has offered 4 is told so, and is full from then
/// on: `writes`.
pub fn write_to_a_full_output()
    ensures last { (output : List ℕ) → length output ≡ 65533 → with_room output (1 ∷ 2 ∷ 3 ∷ []) ≡ Some (1 ∷ 2 ∷ 3 ∷ []) }
    ensures past { (output : List ℕ) → length output ≡ 65533 → with_room output (1 ∷ 2 ∷ 3 ∷ 4 ∷ []) ≡ None }
    ensures full { (p : Program) → offered p ≡ Some (1 ∷ 2 ∷ 3 ∷ 4 ∷ []) → (writes None p).program.full ≡ true }
    ensures unfilled { (p : Program) → offered p ≡ None → p.full ≡ false → (writes None p).program.full ≡ false }
{}

/// At tick 2 a task learns 2: `tells`.
pub fn now_at_two()
    ensures { run_text WithServers asking 3 ≡ now_at_two_text }
{}

/// Past tick 2^32, a0 has the low 32 bits and a1 the others; a stretch of so many idle ticks is one line.
pub fn now_past_32_bits()
    ensures { run_text WithServers asking_late (2 ^ 32 + 3) ≡ now_past_32_bits_text }
{}
