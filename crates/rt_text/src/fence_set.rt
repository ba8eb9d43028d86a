//! The sets of accesses that a FENCE orders.

ghost use Rattle.std.specs.Prelude.{◌≡◌, ◌↔◌, IsSome, IfSome};
ghost use Rattle.rt_text.specs.FenceSet.{IsFenceSet};

use std::marker::Model;

/// A set of accesses: device input, device output, memory reads, memory writes. A contract sees it
/// as the number of its four bits.
#[derive(Clone, Copy, PartialEq, Eq)]
pub struct FenceSet {
    bits: u8,
}

impl Model for FenceSet {
    ghost use Rattle.std.specs.Prelude.{ℕ};
    ghost use Rattle.rt_text.specs.FenceSet.{IsFenceSet};

    ghost Value = { ℕ };

    ghost view = { λ s. s.bits };

    ghost invariant = { λ s. IsFenceSet s.bits };

    ghost inverse = { λ n. record { bits = n } };
}

impl FenceSet {
    /// The set of these four bits: input 8, output 4, reads 2, writes 1; none from 16 on.
    pub(crate) fn new(bits: u8) -> Option<FenceSet>
        ensures valid { IsSome result ↔ IsFenceSet bits }
        ensures value { IfSome result (λ s. s ≡ bits) }
    {
        if bits < 16 {
            Some(FenceSet { bits })
        } else {
            None
        }
    }

    /// Its four bits: input 8, output 4, reads 2, writes 1; 0 to 15.
    pub fn bits(self) -> u8
        ensures value { result ≡ self }
        ensures in_range { IsFenceSet self }
    {
        self.bits
    }
}
