//! Where ticks lie in a picture.

ghost use Rattle.std.specs.Prelude.{ℕ, ◌≡◌, ◌+◌, ◌*◌, ◌/◌, ◌^◌, ◌<◌, ◌≤◌};
ghost use Rattle.rt_chart.specs.Scale as spec;
ghost use Rattle.rt_drawing.specs.Windows.{ticks_in};

use crate::look::Look;
use crate::style::Style;
use rt_drawing::Window;

/// The steps of the axis, but for the last, 50,000.
const STEPS: [u64; 14] = [
    1, 2, 5, 10, 20, 50, 100, 200, 500, 1_000, 2_000, 5_000, 10_000, 20_000,
];

/// How wide the ticks of a window are in a style: as it says, or else ten units for each, but 800 at least and 1,600 at most.
pub(crate) fn width(window: &Window, style: &Style) -> u64
    ensures value { result ≡ spec.width window.now style.now }
    ensures some { 400 ≤ result }
    ensures few { result ≤ 16000 }
{
    match style.width {
        Some(asked) => u64::from(asked.units()),
        None => (10 * window.ticks()).max(800).min(1_600),
    }
}

/// The units of length of a picture, and those of half a tick.
#[derive(Clone, Copy)]
pub(crate) struct Scale {
    pub(crate) look: Look,
    pub(crate) width: u64,
    half_tick: u64,
    ghost is: { width ≡ spec.width look.window look.style },
    ghost few: { width ≤ 16000 },
    ghost half_is: { half_tick ≡ width / (2 * ticks_in look.window) },
}

impl Scale {
    /// That of a picture which looks so.
    pub(crate) fn new(look: Look) -> Scale
        ensures { result.look ≡ look }
    {
        let width = width(&look.window, &look.style);
        Scale {
            look,
            width,
            half_tick: width / (2 * look.window.ticks()),
        }
    }

    /// Where a tick begins; one outside is at the edge.
    pub(crate) fn place(&self, tick: u64) -> u64
        ensures value { result ≡ spec.place self.now.look.window self.now.look.style tick }
        ensures edge { result ≤ 16000 }
    {
        let ticks = self.look.window.ticks();
        let shown = tick.saturating_sub(self.look.window.from).min(ticks);
        // All are below 2^17, and the product of two below 2^31: 32 bits take fewer instructions.
        u64::from(shown as u32 * self.width as u32 / ticks as u32)
    }

    /// The middle of a tick.
    pub(crate) fn middle(&self, tick: u64) -> u64
        ensures { result ≡ spec.middle self.now.look.window self.now.look.style tick }
    {
        self.place(tick) + self.half_tick
    }

    /// The width of a stretch that begins at a place, of which something is to be seen.
    pub(crate) fn extent(&self, place: u64, to: u64) -> u64
        ensures { let w = self.now.look.window in let s = self.now.look.style in
            (from : ℕ) → place ≡ spec.place w s from → result ≡ spec.extent w s from to }
    {
        self.place(to).saturating_sub(place).max(1)
    }

    /// The ticks between two names of the axis: the first step that is 100 units wide.
    pub(crate) fn step(&self) -> u64
        ensures value { result ≡ spec.step self.now.look.window self.now.look.style }
        ensures some { 1 ≤ result }
        ensures few { result ≤ 50000 }
    {
        let least = 100 * self.look.window.ticks();
        for step in STEPS {
            if step * self.width >= least {
                return step;
            }
        }
        50_000
    }
}
