//! How long a tick is shown.

ghost use Rattle.std.specs.Prelude.{◌≡◌, ◌≤◌, length};
ghost use Rattle.rt_waves.specs.Scale as texts;

/// How many units a tick lasts.
#[derive(Clone, Copy, PartialEq, Eq)]
pub enum ScaleCount {
    One,
    Ten,
    Hundred,
}

impl ScaleCount {
    /// In decimal.
    pub(crate) fn word(&self) -> &'static [u8]
        ensures text { result.now ≡ texts.count_text self.now }
        ensures short { length result.now ≤ 3 }
    {
        match self {
            ScaleCount::One => b"1",
            ScaleCount::Ten => b"10",
            ScaleCount::Hundred => b"100",
        }
    }
}

/// The unit in which a tick is shown.
#[derive(Clone, Copy, PartialEq, Eq)]
pub enum TimeUnit {
    Seconds,
    Milliseconds,
    Microseconds,
    Nanoseconds,
    Picoseconds,
    Femtoseconds,
}

impl TimeUnit {
    /// Its name.
    pub(crate) fn word(&self) -> &'static [u8]
        ensures text { result.now ≡ texts.unit_text self.now }
        ensures short { length result.now ≤ 2 }
    {
        match self {
            TimeUnit::Seconds => b"s",
            TimeUnit::Milliseconds => b"ms",
            TimeUnit::Microseconds => b"us",
            TimeUnit::Nanoseconds => b"ns",
            TimeUnit::Picoseconds => b"ps",
            TimeUnit::Femtoseconds => b"fs",
        }
    }
}

/// How long a tick is shown: 1, 10 or 100 of a unit.
#[derive(Clone, Copy, PartialEq, Eq)]
pub struct Scale {
    pub count: ScaleCount,
    pub unit: TimeUnit,
}
