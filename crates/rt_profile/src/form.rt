//! What is asked of a profile.

/// The text of a profile.
#[derive(Clone, Copy, PartialEq, Eq)]
pub enum ProfileForm {
    /// For each task and each symbol, the ticks that were executed there.
    Rows,
    /// How many ticks finished jobs needed, by brackets.
    Needs,
    /// The ticks by address, in callgrind's format.
    Callgrind,
}
