//! What a session that goes on looks at each tick, before it asks its stops.

ghost use Rattle.std.specs.Prelude.{◌≡◌, ℕ, List, IsSomeAnd, true, false};
ghost use Rattle.rt_core.specs.declared.view.Next.TheVariants.{Run};
ghost use Rattle.rt_debug.specs.PlaceStop.{is_at};
ghost use Rattle.rt_points.specs.Marks.{is_marked};
ghost use Rattle.rt_debug.specs.Working.Watch.{sees};

use rt_points::{Marks, Place as PlaceStop};

/// Where a stop may be met. It is small, so that it stays in registers while ticks go by.
#[derive(Clone, Copy)]
pub(crate) enum Watch {
    /// There is no stop.
    Nowhere,
    /// There is a stop for one place, and no other.
    At(PlaceStop),
    /// All stops are for places that are marked.
    Marked,
    /// All stops have to be asked.
    Anywhere,
}

impl Watch {
    /// A watch that sees as much as this one and one stop more, which may be met at this place alone where one is given.
    pub(crate) fn with(self, place: Option<PlaceStop>) -> Watch
        ensures before { (words : List ℕ) (task pc : ℕ) → sees words result (Run task pc) ≡ false → sees words self (Run task pc) ≡ false }
        ensures added { (words : List ℕ) (task pc : ℕ) → sees words result (Run task pc) ≡ false → IsSomeAnd place (λ p. is_at p task pc ≡ false) }
    {
        match (self, place) {
            (Watch::Nowhere, Some(place)) => Watch::At(place),
            _ => Watch::Anywhere,
        }
    }

    /// The same with one stop more, for a place that is marked.
    pub(crate) fn with_place(self, place: PlaceStop, marks: &Marks) -> Watch
        requires { is_marked marks.now.words.items place.task place.pc ≡ true }
        ensures before { (task pc : ℕ) → sees marks.now.words.items result (Run task pc) ≡ false → sees marks.now.words.items self (Run task pc) ≡ false }
        ensures added { (task pc : ℕ) → sees marks.now.words.items result (Run task pc) ≡ false → is_at place task pc ≡ false }
    {
        match self {
            Watch::Nowhere => Watch::At(place),
            Watch::At(other) if marks.has(other.task, other.pc) => Watch::Marked,
            Watch::Marked => Watch::Marked,
            Watch::At(_) | Watch::Anywhere => Watch::Anywhere,
        }
    }
}
