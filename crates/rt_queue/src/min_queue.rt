//! What a queue is: the trait that each kind of queue implements.
ghost use Rattle.std.specs.Prelude.{◌≡◌, ℕ, ◌<◌, List, length, replicate, slice_set, Option, None, Some, IsSome, IfOk};
ghost use Rattle.rt_queue.specs.Keys.{key_at};
ghost use Rattle.rt_queue.specs.Least.{IsLeast};

use std::alloc::{AllocError, Global};

/// A map from the numbers below a capacity to keys, which knows its least entry. Contracts see it as
/// the list of the keys by number, whose length is the capacity.
///
/// All room is taken by `make` and `copy`; the other calls take no memory.
pub trait MinQueue: Drop {
    ghost keys: { Self → List (Option ℕ) };

    /// Makes a queue for the numbers below `capacity`, with no entry.
    fn make(alloc: Global, capacity: u32) -> Result<Self, AllocError>
        ensures { IfOk result (λ queue. keys queue ≡ replicate capacity None) };

    /// Puts a number in with a key. It is below the capacity, and isn't in the queue.
    fn insert(&mut self, number: u32, key: u64)
        requires below { number < length (keys self.old) }
        requires absent { key_at (keys self.old) number ≡ None }
        ensures { keys self.new ≡ slice_set (keys self.old) number (Some key) };

    /// Takes a number out, which is in the queue.
    fn remove(&mut self, number: u32)
        requires { IsSome (key_at (keys self.old) number) }
        ensures { keys self.new ≡ slice_set (keys self.old) number None };

    /// Gives the number of the least entry, which is `least`, another key.
    fn rekey_least(&mut self, least: (u64, u32), key: u64)
        requires { IsLeast (keys self.old) (Some least) }
        ensures { keys self.new ≡ slice_set (keys self.old) least.1 (Some key) };

    /// The least key with its number, and the least of these numbers where keys are equal; none where
    /// the queue is empty.
    fn least(&self) -> Option<(u64, u32)>
        ensures { IsLeast (keys self.now) result };

    /// The key of a number; none where it isn't in the queue.
    fn key_of(&self, number: u32) -> Option<u64>
        ensures { result ≡ key_at (keys self.now) number };

    /// Makes a queue of the same capacity and entries.
    fn copy(&self, alloc: Global) -> Result<Self, AllocError>
        ensures { IfOk result (λ queue. keys queue ≡ keys self.now) };
}
