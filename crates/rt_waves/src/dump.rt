//! The run of a machine as waves: each of its entries goes to them as it comes.

mod dump;

pub use crate::PAGE_LEN;
pub use dump::write_waves;
