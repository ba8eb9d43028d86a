//! When a walk pauses.

ghost use Rattle.std.specs.Prelude.{◌≡◌, ◌<◌, ◌≤◌, true, false};

/// Is asked as a walk goes on, at most once for each entry, whether it is to pause; of the entries that may go by before, it learns
/// how many went by. What it does meanwhile is its own: contracts see it as a relation between the pace before and after.
pub trait Pace {
    ghost use Rattle.std.specs.Prelude.{Bool, ℕ};

    /// Whether it has asked for a pause.
    ghost has_paused: { Self → Bool };

    /// How many entries may go by before it has to be asked.
    ghost spare: { Self → ℕ };

    /// What it may have become.
    ghost goes: { Self → Self → Type 0 };

    /// It wasn't asked.
    ghost stays: { (p : Self) → goes p p };

    /// It was asked more than once.
    ghost joins: { (p q r : Self) → goes p q → goes q r → goes p r };

    /// Whether the walk is to pause before it goes on.
    fn pauses(&mut self) -> bool
        ensures asks { result ≡ has_paused self.new }
        ensures goes { goes self.old self.new };

    /// How many entries may go by before it has to be asked.
    fn spare(&self) -> u32
        ensures { result ≡ spare self.now };

    /// So many entries went by without a question.
    fn skip(&mut self, n: u32)
        requires { n ≤ spare self.old }
        ensures same { has_paused self.new ≡ has_paused self.old }
        ensures goes { goes self.old self.new };
}

/// Asks a pace for a pause, unless it asked for one before.
#[inline(always)]
pub(crate) fn asked<P: Pace>(pace: &mut P, pauses: bool) -> bool
    ensures asks { (pauses ≡ true → P.has_paused pace.old ≡ true) → result ≡ true → P.has_paused pace.new ≡ true }
    ensures goes { P.goes pace.old pace.new }
{
    pauses || pace.pauses()
}

/// Whether a walk with so many ticks left is to pause: asks its pace, unless none is left.
pub(crate) fn is_to_pause<P: Pace>(pace: &mut P, left: u64) -> bool
    ensures asks { result ≡ true → P.has_paused pace.new ≡ true }
    ensures some { result ≡ true → 0 < left }
    ensures same { result ≡ false → P.has_paused pace.old ≡ false → P.has_paused pace.new ≡ false }
    ensures goes { P.goes pace.old pace.new }
{
    left > 0 && pace.pauses()
}

/// Never pauses, however many entries go by.
#[derive(Clone, Copy, PartialEq, Eq)]
pub struct Endless;

impl Pace for Endless {
    ghost use Rattle.std.specs.Prelude.{false};

    ghost has_paused = { λ _. false };

    ghost spare = { λ _. 4294967295 };

    ghost goes = { λ _ _. Unit {0} };

    ghost stays = { λ _. tt };

    ghost joins = { λ _ _ _ _ _. tt };

    #[inline(always)]
    fn pauses(&mut self) -> bool {
        false
    }

    #[inline(always)]
    fn spare(&self) -> u32 {
        u32::MAX
    }

    #[inline(always)]
    fn skip(&mut self, _n: u32) {}
}

/// Pauses when it is asked so often. A walk asks once between any two entries.
#[derive(Clone, Copy, PartialEq, Eq)]
pub struct Entries {
    left: u32,
}

impl Entries {
    /// Pauses when it is asked for the `left`-th time, or the first where that is 0.
    pub fn new(left: u32) -> Entries {
        Entries { left }
    }
}

impl Pace for Entries {
    ghost use Rattle.std.specs.Prelude.{◌==◌, ◌-◌};

    ghost has_paused = { λ entries. entries.left == 0 };

    ghost spare = { λ entries. entries.left - 1 };

    ghost goes = { λ _ _. Unit {0} };

    ghost stays = { λ _. tt };

    ghost joins = { λ _ _ _ _ _. tt };

    #[inline(always)]
    fn pauses(&mut self) -> bool {
        self.left = self.left.saturating_sub(1);
        self.left == 0
    }

    #[inline(always)]
    fn spare(&self) -> u32 {
        self.left.saturating_sub(1)
    }

    #[inline(always)]
    fn skip(&mut self, n: u32) {
        self.left -= n;
    }
}
