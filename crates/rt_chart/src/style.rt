//! How a picture looks.

ghost use Rattle.std.specs.Prelude.{◌≡◌, ◌≤◌, IfSome, IsSome, ◌↔◌};

/// The least and the greatest width of a window's ticks, in units of SVG.
const LEAST_WIDTH: u32 = 400;

const MOST_WIDTH: u32 = 16_000;

/// How wide the ticks of a window are together: 400 to 16,000 units of SVG.
#[derive(Clone, Copy, PartialEq, Eq)]
pub struct Width {
    units: u32,
    ghost least: { 400 ≤ units },
    ghost most: { units ≤ 16000 },
}

impl Width {
    /// The width of so many units, if there is one: 400 to 16,000.
    pub fn new(units: u32) -> Option<Width>
        ensures fits { IsSome result ↔ ((400 ≤ units) × (units ≤ 16000)) }
        ensures value { IfSome result (λ w. w.units ≡ units) }
    {
        if units < LEAST_WIDTH || units > MOST_WIDTH {
            return None;
        }
        Some(Width { units })
    }

    /// Its units.
    pub fn units(&self) -> u32
        ensures value { result ≡ self.now.units }
        ensures least { 400 ≤ result }
        ensures most { result ≤ 16000 }
    {
        self.units
    }
}

/// How a picture looks.
#[derive(Clone, Copy, PartialEq, Eq)]
pub struct Style {
    /// How wide the ticks of the window are together; if it is not said, 10 units a tick, but 800 at least and 1,600 at most.
    pub width: Option<Width>,
    /// Whether the rows are low, and the marks plain lines.
    pub is_compact: bool,
}
