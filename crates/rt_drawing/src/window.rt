//! Which ticks a picture shows.

ghost use Rattle.std.specs.Prelude.{◌≡◌, ◌+◌, ◌-◌, ◌^◌, ◌<◌, ◌≤◌, IfSome, IsSome, ◌↔◌};

use rt_words::MAX_TICKS;

/// The most ticks of a picture.
pub const MAX_SHOWN: u64 = 100_000;

/// The ticks of a picture, from `from` up to `to`, which is no longer one of them: 1 to 100,000 ticks, and `to` at most 2^40.
#[derive(Clone, Copy, PartialEq, Eq)]
pub struct Window {
    pub from: u64,
    pub to: u64,
    ghost some: { from < to },
    ghost few: { to ≤ from + 100000 },
    ghost limit: { to ≤ 2 ^ 40 },
}

impl Window {
    ghost use Rattle.rt_drawing.specs.Windows.{is_in, ticks_in};

    /// The window of so many ticks from one on, if there is one: 1 to 100,000 ticks, of which the last is below 2^40.
    pub fn new(from: u64, ticks: u64) -> Option<Window>
        ensures fits { IsSome result ↔ ((1 ≤ ticks) × (ticks ≤ MAX_SHOWN) × (from + ticks ≤ MAX_TICKS)) }
        ensures value { IfSome result (λ w. (w.from ≡ from) × (w.to ≡ from + ticks)) }
    {
        if ticks == 0 || ticks > MAX_SHOWN || from > MAX_TICKS || ticks > MAX_TICKS - from {
            return None;
        }
        Some(Window {
            from,
            to: from + ticks,
        })
    }

    /// How many ticks it has.
    pub fn ticks(&self) -> u64
        ensures value { result ≡ ticks_in self.now }
        ensures some { 1 ≤ result }
        ensures few { result ≤ MAX_SHOWN }
    {
        self.to - self.from
    }

    /// Whether a tick is in it.
    pub fn contains(&self, tick: u64) -> bool
        ensures { result ≡ is_in self.now tick }
    {
        self.from <= tick && tick < self.to
    }
}
