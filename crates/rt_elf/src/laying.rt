//! Bytes of other files in the image of an object, from a symbol on.

mod fault;
mod laid;
mod room;

pub use fault::{DataFault, NotLaid};
pub use laid::lay_data;
