//! The last entries of a history, as many as there is room for.

mod ring;

pub use ring::Ring;
