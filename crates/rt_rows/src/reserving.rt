//! Rows of reserves: what is granted, what is pending, and when it takes effect.
ghost use Rattle.std.specs.Prelude.{◌≡◌, [], ◌∷◌, Some, None};
ghost use Rattle.rt_history.specs.Legal.{legal};
ghost use Rattle.rt_trace.specs.HistoryText.{history_text};
ghost use Rattle.rt_trace.specs.RunText.{run_text};
ghost use Rattle.rt_trace.specs.declared.telling.Telling.TheVariants.{WithServers};
ghost use Rattle.rt_rows.specs.Reserving.{accounts, reserver, reserve_text, reserve_pending_text, refused_reserver, reserve_refused_text, reserving_all, reserve_limits_text, reserving_most, reserve_most_text, two_reservers, reserve_beside_pending_text, reserving_again, reserving_again_text, ended_holder, ended_holder_text, faulted_holder, faulted_holder_text, holder_accounts, beside_ended, beside_ended_text, lesser_pending, lesser_pending_text};

/// A budget that is reserved takes effect with the next fresh wake, and stays pending at a kept one; one that doesn't fit is
/// refused: `reserves`, `grants`, `reserved`, `refreshed`.
pub fn reserve_call()
    ensures taken { run_text WithServers (reserver 0x01500513 (0x0000006F ∷ [])) 21 ≡ reserve_text }
    ensures taken_account { accounts (reserver 0x01500513 (0x0000006F ∷ [])) 21 ≡ record { q = 2; p = 3; c = 2; d = 24; pending = None } ∷ [] }
    ensures pending { run_text WithServers (reserver 0x01400513 (0x0000006F ∷ [])) 20 ≡ reserve_pending_text }
    ensures pending_account { accounts (reserver 0x01400513 (0x0000006F ∷ [])) 20 ≡ record { q = 1; p = 3; c = 1; d = 24; pending = Some 2 } ∷ [] }
    ensures refused { run_text WithServers refused_reserver 7 ≡ reserve_refused_text }
{}

/// A budget of 0 and those over the period are refused, up to the greatest number, the period itself is not; a pending budget of
/// another task counts, where it is greater than its present one: `is_granted`, `held_weight`.
pub fn reserve_limits()
    ensures limits { run_text WithServers reserving_all 6 ≡ reserve_limits_text }
    ensures most { run_text WithServers reserving_most 3 ≡ reserve_most_text }
    ensures beside_pending { run_text WithServers two_reservers 7 ≡ reserve_beside_pending_text }
{}

/// A budget that is reserved takes the place of an earlier one that is pending. It stays pending over a yield, which fills the
/// present budget, and where a reserve is refused; the present budget itself can be pending too: `reserved`, `charged`.
pub fn pending_budget()
    ensures run { run_text WithServers reserving_again 12 ≡ reserving_again_text }
    ensures first { accounts reserving_again 3 ≡ record { q = 8; p = 20; c = 5; d = 20; pending = Some 16 } ∷ [] }
    ensures in_its_place { accounts reserving_again 5 ≡ record { q = 8; p = 20; c = 3; d = 20; pending = Some 3 } ∷ [] }
    ensures yielded { accounts reserving_again 7 ≡ record { q = 8; p = 20; c = 8; d = 40; pending = Some 3 } ∷ [] }
    ensures refused { accounts reserving_again 10 ≡ record { q = 8; p = 20; c = 5; d = 40; pending = Some 3 } ∷ [] }
    ensures as_at_present { accounts reserving_again 12 ≡ record { q = 8; p = 20; c = 3; d = 40; pending = Some 8 } ∷ [] }
{}

/// A task that has ended or faulted keeps what is pending, and holds what it has reserved: `grants`, `reserved_of`.
pub fn stopped_tasks_hold()
    ensures ended { run_text WithServers ended_holder 10 ≡ ended_holder_text }
    ensures ended_accounts { accounts ended_holder 10 ≡ holder_accounts }
    ensures faulted { run_text WithServers faulted_holder 10 ≡ faulted_holder_text }
    ensures faulted_accounts { accounts faulted_holder 10 ≡ holder_accounts }
    ensures nothing_pending { history_text (legal beside_ended 21) ≡ beside_ended_text }
{}

/// A pending budget that is less than the present one counts as the present one: `held_weight`.
pub fn lesser_budget_pending()
    ensures { run_text WithServers lesser_pending 11 ≡ lesser_pending_text }
{}
