//! Which standard streams a person sees or types.

/// Which of the standard streams are terminals.
#[derive(Clone, Copy)]
pub struct Terminals {
    pub input: bool,
    pub output: bool,
    pub error: bool,
}
