//! What is reported of a faulty line of an assembly source: where it lies, which word is wrong, and what was wanted.

mod extensions;
mod hints;
mod names;
mod near;
mod numbers;
mod sources;
mod texts;

pub use hints::{source_hint, source_hints};
