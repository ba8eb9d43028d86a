//! Rows of faults: each by its name, with nothing changed but what the tick costs.
ghost use Rattle.std.specs.Prelude.{◌≡◌, true, ◌∷◌, []};
ghost use Rattle.rt_trace.specs.RunText.{run_text};
ghost use Rattle.rt_trace.specs.declared.telling.Telling.TheVariants.{WithServers};
ghost use Rattle.rt_rows.specs.Sets.{set_of};
ghost use Rattle.rt_rows.specs.Faulting.{empty, illegal_text, jumping_between, jump_misaligned_text, branching_between, branch_misaligned_text, jumping_out, fetch_access_text, running_out, running_out_text, loads_between, load_misaligned_text, load_split_text, loading_outside, load_access_text, storing, store_text, store_misaligned_text, store_access_text, half_outside, half_outside_text, unsigned_outside, unsigned_outside_text, last_address, last_address_text, word_outside, word_outside_text, last_bytes, breaking, break_text, calling_unknown, unknown_call_text};

/// What can't be fetched, is no instruction, or goes to no word: `attempt`, `fault_name`, and the mode of a fault.
pub fn faults_of_fetches_and_jumps()
    ensures illegal { run_text WithServers empty 2 ≡ illegal_text }
    ensures jump { run_text WithServers jumping_between 2 ≡ jump_misaligned_text }
    ensures branch { run_text WithServers branching_between 2 ≡ branch_misaligned_text }
    ensures behind_the_last_word { run_text WithServers running_out 2 ≡ running_out_text }
    ensures far_away { run_text WithServers jumping_out 2 ≡ fetch_access_text }
{}

/// Loads and stores at an address that is no multiple of their size, and outside RAM: `load`, `store`, and the flag of accesses
/// that are split.
pub fn access_faults()
    ensures load_misaligned { run_text WithServers (set_of 10 (loads_between ∷ [])) 2 ≡ load_misaligned_text }
    ensures load_split { run_text WithServers (set_of 10 (record loads_between { split = true } ∷ [])) 2 ≡ load_split_text }
    ensures load_outside { run_text WithServers loading_outside 2 ≡ load_access_text }
    ensures last_word { run_text WithServers (storing 0x0012A623) 2 ≡ store_text }
    ensures store_misaligned { run_text WithServers (storing 0x0012A8A3) 2 ≡ store_misaligned_text }
    ensures store_outside { run_text WithServers (storing 0x0012A823) 2 ≡ store_access_text }
{}

/// A split access of which the last byte alone is outside RAM faults, and stores no byte; addresses don't wrap: `is_inside`,
/// `store`.
pub fn split_accesses_outside()
    ensures half { run_text WithServers half_outside 2 ≡ half_outside_text }
    ensures unsigned_half { run_text WithServers unsigned_outside 2 ≡ unsigned_outside_text }
    ensures last_address { run_text WithServers last_address 2 ≡ last_address_text }
    ensures word { run_text WithServers word_outside 3 ≡ word_outside_text }
    ensures stores_nothing { last_bytes word_outside 3 ≡ (0 ∷ 0 ∷ 0 ∷ 0 ∷ []) ∷ [] }
{}

/// EBREAK, and an ECALL with the number of no call: `call_of`.
pub fn faults_of_calls()
    ensures breaks { run_text WithServers breaking 1 ≡ break_text }
    ensures unknown { run_text WithServers calling_unknown 2 ≡ unknown_call_text }
{}
