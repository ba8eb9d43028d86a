//! Files of a desk, read as far as what they hold can matter.

mod binary;
mod blocks;
mod kind;
mod texts;

pub use blocks::{FileFault, read_file};
pub use kind::FileKind;
