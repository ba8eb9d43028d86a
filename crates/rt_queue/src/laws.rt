//! Laws of rows of keys. Each function does nothing: its clause is the law, and a caller has it after
//! the call.
ghost use Rattle.std.specs.Prelude.{◌≡◌, ℕ, ◌<◌, ◌↔◌, List, length, slice_set, Option, None, Some};
ghost use Rattle.rt_queue.specs.Keys.{key_at};
ghost use Rattle.rt_queue.specs.Least.{IsLeast, least_from};
ghost use Rattle.rt_queue.specs.Order.{earlier};

/// A row of keys has exactly one least entry, the one that the recursion over the row finds.
pub fn least_from_is_least()
    ensures { (keys : List (Option ℕ)) (found : Option (ℕ × ℕ)) →
        IsLeast keys found ↔ (found ≡ least_from 0 keys) }
{}

/// Where a number without a key gets one, the least entry is the earlier one of it and the least
/// entry before.
pub fn least_after_insert()
    ensures { (keys : List (Option ℕ)) (n k : ℕ) (r : Option (ℕ × ℕ)) →
        n < length keys → key_at keys n ≡ None → IsLeast keys r →
        IsLeast (slice_set keys n (Some k)) (Some (earlier (k, n) r)) }
{}
