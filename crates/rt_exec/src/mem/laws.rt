//! Laws of loads and stores.

ghost use Rattle.std.specs.Prelude.{◌≡◌, ℕ, ◌^◌, ◌<◌, Bool, List, Ok};
ghost use Rattle.rt_exec.specs.mem.Access.{load, store};

/// A law: a load gives the number that a store of the same size left at its address, whatever the
/// addresses that accesses may have.
pub fn load_gives_what_was_stored()
    ensures { (split : Bool) (count : ℕ) (old new : List ℕ) (address value : ℕ) → value < 256 ^ count → store split count old address value ≡ Ok new → load split count new address ≡ Ok value }
{}
