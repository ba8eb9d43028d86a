//! Rows of sleeps: until when, and what the wake makes of the server.
ghost use Rattle.std.specs.Prelude.{◌≡◌};
ghost use Rattle.rt_trace.specs.RunText.{run_text};
ghost use Rattle.rt_trace.specs.declared.telling.Telling.TheVariants.{WithServers};
ghost use Rattle.rt_rows.specs.Sleeping.{until_seven, until_seven_text, until_eight, until_eight_text, beside_busy, sleep_later_text, sleep_now_text, exhausted, exhausted_text, exhausted_until_nine_text, exhausted_until_eleven_text, far_sleeper, far_sleeper_text};

/// Of the wakes at 7 and at 8 the first is kept and the second is fresh, at equality: `wakes_fresh`, `refreshed`, and the entries
/// of idle ticks.
pub fn sleep_until_seven()
    ensures kept { run_text WithServers until_seven 7 ≡ until_seven_text }
    ensures fresh { run_text WithServers until_eight 8 ≡ until_eight_text }
{}

/// A sleep until the next tick is an arrival, one until the present tick is none: `mode_after` of a sleep.
pub fn sleep_now_and_later()
    ensures later { run_text WithServers (beside_busy 0x00900513) 9 ≡ sleep_later_text }
    ensures now { run_text WithServers (beside_busy 0x00800513) 9 ≡ sleep_now_text }
{}

/// A sleep whose tick uses the budget up is postponed before it sleeps: `spent` of a sleep, and the wakes that follow.
pub fn exhausted_sleeper()
    ensures asleep { run_text WithServers (exhausted 0x00700513) 4 ≡ exhausted_text }
    ensures kept { run_text WithServers (exhausted 0x00900513) 9 ≡ exhausted_until_nine_text }
    ensures fresh { run_text WithServers (exhausted 0x00B00513) 11 ≡ exhausted_until_eleven_text }
{}

/// The tick of a sleep is of 64 bits, the low ones in a0: `wake_tick`.
pub fn sleep_past_32_bits()
    ensures { run_text WithServers far_sleeper 6 ≡ far_sleeper_text }
{}
