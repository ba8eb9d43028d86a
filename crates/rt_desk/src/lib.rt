//! What a program has of its host: files and a standard error, as a value of the trait [`Desk`].
#![tactic(auto)]

mod desk;
pub mod making;
pub mod memory;
pub mod reading;
pub mod reading_laws;
mod reason;

pub use desk::{Desk, MakeFault};
pub use reason::Reason;
