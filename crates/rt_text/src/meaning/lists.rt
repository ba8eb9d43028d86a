//! The lists that a directive holds. A contract sees each as a list.

ghost use Rattle.std.specs.Prelude.{◌≡◌};

use super::Target;
use std::marker::Model;

/// The numbers of a data directive, one or more, each -2^31 to 2^32 - 1.
#[derive(Drop)]
pub struct Numbers {
    pub(super) numbers: Vec<i64>,
}

impl Model for Numbers {
    ghost use Rattle.std.specs.Prelude.{List, ℤ};

    ghost Value = { List ℤ };

    ghost view = { λ n. n.numbers.items };
}

impl Numbers {
    /// The numbers, in the order of the source.
    pub fn items(&self) -> &[i64]
        ensures { result.now ≡ self.now }
    {
        self.numbers.as_slice()
    }
}

/// The items of `.word`, one or more.
#[derive(Drop)]
pub struct Targets<'a> {
    pub(super) targets: Vec<Target<'a>>,
}

impl<'a> Model for Targets<'a> {
    ghost use Rattle.std.specs.Prelude.{List};
    ghost use Rattle.rt_text.specs.declared.meaning.Target.{Target};

    ghost Value = { List Target };

    ghost view = { λ t. t.targets.items };
}

impl<'a> Targets<'a> {
    /// The items, in the order of the source.
    pub fn items(&self) -> &[Target<'a>]
        ensures { result.now ≡ self.now }
    {
        self.targets.as_slice()
    }
}

/// The bytes that a string means: without its quotes, and each escape as its one byte.
#[derive(Drop)]
pub struct StringBytes {
    pub(super) bytes: Vec<u8>,
}

impl Model for StringBytes {
    ghost use Rattle.std.specs.Prelude.{List, ℕ};

    ghost Value = { List ℕ };

    ghost view = { λ s. s.bytes.items };
}

impl StringBytes {
    /// The bytes.
    pub fn bytes(&self) -> &[u8]
        ensures { result.now ≡ self.now }
    {
        self.bytes.as_slice()
    }
}
