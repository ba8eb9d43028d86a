//! A desk in memory: the programs run on it in tests, and it shows that a desk can tell what stands on it.

mod desk;
mod entry;

pub use desk::MemoryDesk;
pub use entry::Unread;
