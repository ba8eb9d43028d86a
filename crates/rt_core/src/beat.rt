//! What hears how far a run has come.

/// After how many ticks at most a run beats: some hundredths of a second.
pub const BEAT_TICKS: u64 = 1 << 22;

/// Hears how far a run has come. What it does with that changes nothing of the run.
pub trait Beat {
    /// Hears that a run has come to a tick.
    fn beat(&self, tick: u64);
}

/// It hears nothing: for a run whose end nobody waits for.
#[derive(Clone, Copy)]
pub struct NoBeat;

impl Beat for NoBeat {
    fn beat(&self, _tick: u64) {}
}
