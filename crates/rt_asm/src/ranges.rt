//! The numbers that the places of an image hold.

ghost use Rattle.std.specs.Prelude.{◌≡◌, false, true};
ghost use Rattle.rt_asm.specs.Numbers.{is_between};
ghost use Rattle.rt_asm.specs.Ranges.{within};

use crate::fault::AsmKind;
use rt_words::MAX_IMAGE;

/// The numbers from `low` to `high`.
#[derive(Clone, Copy)]
pub struct Range {
    /// The least.
    pub low: i64,
    /// The greatest.
    pub high: i64,
}

/// A signed 12-bit immediate.
pub(crate) const IMMEDIATES: Range = Range {
    low: -2_048,
    high: 2_047,
};

/// The upper 20 bits of a word.
pub(crate) const UPPERS: Range = Range {
    low: 0,
    high: 0xf_ffff,
};

/// The number of places of a shift.
pub(crate) const SHIFTS: Range = Range { low: 0, high: 31 };

/// The distance of a branch.
pub(crate) const BRANCHES: Range = Range {
    low: -4_096,
    high: 4_095,
};

/// The distance of a jump.
pub(crate) const JUMPS: Range = Range {
    low: -1_048_576,
    high: 1_048_575,
};

/// An item of `.byte`.
pub(crate) const BYTES: Range = Range {
    low: -128,
    high: 255,
};

/// An item of `.half`.
pub(crate) const HALVES: Range = Range {
    low: -32_768,
    high: 65_535,
};

/// The count of `.zero`.
pub(crate) const COUNTS: Range = Range {
    low: 0,
    high: MAX_IMAGE as i64,
};

/// The power of 2 of `.align`.
pub(crate) const POWERS: Range = Range { low: 0, high: 12 };

impl Range {
    /// Whether a number is one of them.
    pub(crate) fn contains(self, number: i64) -> bool
        ensures { result ≡ is_between self.low self.high number }
    {
        self.low <= number && number <= self.high
    }

    /// The number, where it is one of them.
    pub(crate) fn within(self, number: i64) -> Result<i64, AsmKind>
        ensures { result ≡ within self number }
    {
        if self.contains(number) {
            Ok(number)
        } else {
            Err(AsmKind::OutOfRange)
        }
    }
}
