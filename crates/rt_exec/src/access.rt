//! Loads and stores of 2 and 4 bytes, which may have any address where accesses are split. The alignment is asked first, so
//! that accesses at multiples of their size never look at the flag.

ghost use Rattle.std.specs.Prelude.{◌≡◌};
ghost use Rattle.rt_exec.specs.mem.Access.{load, store, Leaves};

use crate::mem::{AccessFault, Ram};

/// The two bytes at an address.
#[inline(always)]
#[tactic(auto, using(crate::proofs::Accesses::load_allowed, crate::proofs::Accesses::load_refused))]
pub fn half_at(ram: &Ram, split: bool, at: u32) -> Result<u16, AccessFault>
    ensures { result ≡ load split 2 ram.now at }
{
    if at % 2 != 0 && !split {
        return Err(AccessFault::LoadMisaligned);
    }
    ram.load16_any(at)
}

/// The four bytes at an address.
#[inline(always)]
#[tactic(auto, using(crate::proofs::Accesses::load_allowed, crate::proofs::Accesses::load_refused))]
pub fn word_at(ram: &Ram, split: bool, at: u32) -> Result<u32, AccessFault>
    ensures { result ≡ load split 4 ram.now at }
{
    if at % 4 != 0 && !split {
        return Err(AccessFault::LoadMisaligned);
    }
    ram.load32_any(at)
}

/// Puts two bytes at an address.
#[inline(always)]
#[tactic(auto, using(crate::proofs::Accesses::store_allowed, crate::proofs::Accesses::store_refused))]
pub fn put_half(ram: &mut Ram, split: bool, at: u32, value: u16) -> Result<(), AccessFault>
    ensures { Leaves result (store split 2 ram.old at value) ram.old ram.new }
{
    if at % 2 != 0 && !split {
        return Err(AccessFault::StoreMisaligned);
    }
    ram.store16_any(at, value)
}

/// Puts four bytes at an address.
#[inline(always)]
#[tactic(auto, using(crate::proofs::Accesses::store_allowed, crate::proofs::Accesses::store_refused))]
pub fn put_word(ram: &mut Ram, split: bool, at: u32, value: u32) -> Result<(), AccessFault>
    ensures { Leaves result (store split 4 ram.old at value) ram.old ram.new }
{
    if at % 4 != 0 && !split {
        return Err(AccessFault::StoreMisaligned);
    }
    ram.store32_any(at, value)
}
