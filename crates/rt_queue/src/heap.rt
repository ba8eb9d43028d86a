//! A binary heap as a queue of `rt_queue`, to compare with: no program runs it.

mod heap;
mod sift;

pub use heap::Heap;
