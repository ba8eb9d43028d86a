//! Rows of programs, most of them alone.
ghost use Rattle.std.specs.Prelude.{◌≡◌};
ghost use Rattle.rt_trace.specs.RunText.{run_text};
ghost use Rattle.rt_trace.specs.declared.telling.Telling.TheVariants.{WithServers, Alone};
ghost use Rattle.rt_rows.specs.Executing.{lone_loop, lone_loop_text, entered_later, entered_later_text, storing_ahead, store_into_code_text, storing_behind, changed_after_it_ran_text, jumping, jump_text, passing, branch_not_taken_text, split_store, split_store_text, split_accesses, split_accesses_text};

/// A program alone begins at its entry, with all registers 0; of its server nothing is reported: `loaded`, `server_text`.
pub fn two_word_loop()
    ensures from_its_first_word { run_text Alone lone_loop 3 ≡ lone_loop_text }
    ensures from_its_entry { run_text Alone entered_later 1 ≡ entered_later_text }
{}

/// A store is seen by the next fetch, also of a word that has run, and of two words where it is split: `attempt`, `store`, `put`.
pub fn stores_into_code()
    ensures ahead { run_text Alone storing_ahead 4 ≡ store_into_code_text }
    ensures behind { run_text Alone storing_behind 6 ≡ changed_after_it_ran_text }
    ensures of_two_words { run_text WithServers split_store 6 ≡ split_store_text }
{}

/// A jump to a multiple of 4, and a branch that isn't taken: `jumps_to`, `branches`.
pub fn jumps()
    ensures jump { run_text Alone jumping 2 ≡ jump_text }
    ensures not_taken { run_text Alone passing 2 ≡ branch_not_taken_text }
{}

/// Where accesses are split, halves and words are read and written at odd addresses, low byte first: `is_allowed`, `load`, `store`.
pub fn accesses_at_odd_addresses()
    ensures { run_text WithServers split_accesses 6 ≡ split_accesses_text }
{}
