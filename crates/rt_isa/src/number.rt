//! The small numbers in an instruction, each within its range by its type.

ghost use Rattle.std.specs.Prelude.{◌≡◌, ℤ, IsSome, IfSome, ◌↔◌};
ghost use Rattle.rt_isa.specs.Numbers.{IsRegister, IsShiftAmount, IsUpper, IsOrder, IsImmediate, IsBranchOffset, IsJumpOffset};

use std::marker::Model;

/// A register's number, 0 to 31.
#[derive(Clone, Copy, PartialEq, Eq)]
pub struct Reg {
    pub(crate) number: u8,
}

impl Model for Reg {
    ghost use Rattle.std.specs.Prelude.{ℕ};
    ghost use Rattle.rt_isa.specs.Numbers.{IsRegister};

    ghost Value = { ℕ };

    ghost view = { λ r. r.number };

    ghost invariant = { λ r. IsRegister r.number };

    ghost inverse = { λ n. record { number = n } };
}

impl Reg {
    /// The register of this number; none from 32 on.
    pub fn new(number: u8) -> Option<Reg>
        ensures valid { IsSome result ↔ IsRegister number }
        ensures value { IfSome result (λ r. r ≡ number) }
    {
        if number < 32 {
            Some(Reg { number })
        } else {
            None
        }
    }

    /// Its number, 0 to 31.
    #[inline]
    pub fn number(self) -> u8
        ensures value { result ≡ self }
        ensures in_range { IsRegister self }
    {
        self.number
    }
}

/// A shift amount, 0 to 31 bits.
#[derive(Clone, Copy)]
pub struct Shamt {
    pub(crate) bits: u8,
}

impl Model for Shamt {
    ghost use Rattle.std.specs.Prelude.{ℕ};
    ghost use Rattle.rt_isa.specs.Numbers.{IsShiftAmount};

    ghost Value = { ℕ };

    ghost view = { λ s. s.bits };

    ghost invariant = { λ s. IsShiftAmount s.bits };

    ghost inverse = { λ n. record { bits = n } };
}

impl Shamt {
    /// A shift by this many bits; none from 32 on.
    pub fn new(bits: u8) -> Option<Shamt>
        ensures valid { IsSome result ↔ IsShiftAmount bits }
        ensures value { IfSome result (λ s. s ≡ bits) }
    {
        if bits < 32 {
            Some(Shamt { bits })
        } else {
            None
        }
    }

    /// How many bits, 0 to 31.
    #[inline]
    pub fn bits(self) -> u8
        ensures value { result ≡ self }
        ensures in_range { IsShiftAmount self }
    {
        self.bits
    }
}

/// The upper 20 bits of a word, as LUI and AUIPC have them, not shifted: 0 to 1048575.
#[derive(Clone, Copy)]
pub struct Upper20 {
    pub(crate) value: u32,
}

impl Model for Upper20 {
    ghost use Rattle.std.specs.Prelude.{ℕ};
    ghost use Rattle.rt_isa.specs.Numbers.{IsUpper};

    ghost Value = { ℕ };

    ghost view = { λ u. u.value };

    ghost invariant = { λ u. IsUpper u.value };

    ghost inverse = { λ n. record { value = n } };
}

impl Upper20 {
    /// These upper 20 bits; none from 2^20 on.
    pub fn new(value: u32) -> Option<Upper20>
        ensures valid { IsSome result ↔ IsUpper value }
        ensures value { IfSome result (λ u. u ≡ value) }
    {
        if value < 1 << 20 {
            Some(Upper20 { value })
        } else {
            None
        }
    }

    /// The 20 bits as a number, 0 to 1048575.
    #[inline]
    pub fn value(self) -> u32
        ensures value { result ≡ self }
        ensures in_range { IsUpper self }
    {
        self.value
    }
}

/// The upper 12 bits of a FENCE (fm, predecessor set, successor set): 0 to 4095.
#[derive(Clone, Copy)]
pub struct Order12 {
    pub(crate) value: u16,
}

impl Model for Order12 {
    ghost use Rattle.std.specs.Prelude.{ℕ};
    ghost use Rattle.rt_isa.specs.Numbers.{IsOrder};

    ghost Value = { ℕ };

    ghost view = { λ o. o.value };

    ghost invariant = { λ o. IsOrder o.value };

    ghost inverse = { λ n. record { value = n } };
}

impl Order12 {
    /// These 12 bits; none from 4096 on.
    pub fn new(value: u16) -> Option<Order12>
        ensures valid { IsSome result ↔ IsOrder value }
        ensures value { IfSome result (λ o. o ≡ value) }
    {
        if value < 4096 {
            Some(Order12 { value })
        } else {
            None
        }
    }

    /// The 12 bits as a number, 0 to 4095.
    #[inline]
    pub fn value(self) -> u16
        ensures value { result ≡ self }
        ensures in_range { IsOrder self }
    {
        self.value
    }
}

/// A signed 12-bit immediate, -2048 to 2047.
#[derive(Clone, Copy)]
pub struct Imm12 {
    pub(crate) value: i16,
}

impl Model for Imm12 {
    ghost use Rattle.std.specs.Prelude.{ℤ};
    ghost use Rattle.rt_isa.specs.Numbers.{IsImmediate};

    ghost Value = { ℤ };

    ghost view = { λ i. i.value };

    ghost invariant = { λ i. IsImmediate i.value };

    ghost inverse = { λ i. record { value = i } };
}

impl Imm12 {
    /// This immediate; none outside -2048 to 2047.
    pub fn new(value: i16) -> Option<Imm12>
        ensures valid { IsSome result ↔ IsImmediate value }
        ensures value { IfSome result (λ i. i ≡ value) }
    {
        if -2048 <= value && value <= 2047 {
            Some(Imm12 { value })
        } else {
            None
        }
    }

    /// Its value, -2048 to 2047.
    #[inline]
    pub fn value(self) -> i16
        ensures value { result ≡ self }
        ensures in_range { IsImmediate self }
    {
        self.value
    }
}

/// The distance of a branch in bytes: even, -4096 to 4094.
#[derive(Clone, Copy)]
pub struct Off13 {
    pub(crate) value: i16,
}

impl Model for Off13 {
    ghost use Rattle.std.specs.Prelude.{ℤ};
    ghost use Rattle.rt_isa.specs.Numbers.{IsBranchOffset};

    ghost Value = { ℤ };

    ghost view = { λ i. i.value };

    ghost invariant = { λ i. IsBranchOffset i.value };

    ghost inverse = { λ i. record { value = i } };
}

impl Off13 {
    /// This distance; none where it is odd or outside -4096 to 4094.
    pub fn new(value: i16) -> Option<Off13>
        ensures valid { IsSome result ↔ IsBranchOffset value }
        ensures value { IfSome result (λ i. i ≡ value) }
    {
        if -4096 <= value && value <= 4094 && value % 2 == 0 {
            Some(Off13 { value })
        } else {
            None
        }
    }

    /// The distance in bytes, even, -4096 to 4094.
    #[inline]
    pub fn value(self) -> i16
        ensures value { result ≡ self }
        ensures in_range { IsBranchOffset self }
    {
        self.value
    }
}

/// The distance of a jump in bytes: even, -1048576 to 1048574.
#[derive(Clone, Copy)]
pub struct Off21 {
    pub(crate) value: i32,
}

impl Model for Off21 {
    ghost use Rattle.std.specs.Prelude.{ℤ};
    ghost use Rattle.rt_isa.specs.Numbers.{IsJumpOffset};

    ghost Value = { ℤ };

    ghost view = { λ i. i.value };

    ghost invariant = { λ i. IsJumpOffset i.value };

    ghost inverse = { λ i. record { value = i } };
}

impl Off21 {
    /// This distance; none where it is odd or outside -1048576 to 1048574.
    pub fn new(value: i32) -> Option<Off21>
        ensures valid { IsSome result ↔ IsJumpOffset value }
        ensures value { IfSome result (λ i. i ≡ value) }
    {
        if -1_048_576 <= value && value <= 1_048_574 && value % 2 == 0 {
            Some(Off21 { value })
        } else {
            None
        }
    }

    /// The distance in bytes, even, -1048576 to 1048574.
    #[inline]
    pub fn value(self) -> i32
        ensures value { result ≡ self }
        ensures in_range { IsJumpOffset self }
    {
        self.value
    }
}
