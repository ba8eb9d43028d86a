//! A sink in memory, of limited room.

ghost use Rattle.std.specs.Prelude.{◌≡◌, ◌<◌, ◌≤◌, Some, true, vec_capacity, length, IfOk};
ghost use Rattle.rt_sink.specs.Sink.{Answers};
ghost use Rattle.rt_sink.specs.Limited.{LimitedSink, opened, seen, limited_answer, limited_after};

use crate::sink::{Put, Sink};
use std::alloc::{AllocError, Global};
use std::marker::Model;

/// A sink that keeps its bytes, takes so many at a time, and fails where its room is full.
#[derive(Drop)]
pub struct Limited {
    per_put: usize,
    room: usize,
    taken: Vec<u8>,
    has_failed: bool,
}

impl Model for Limited {
    ghost Value = { LimitedSink };

    ghost view = { λ l. record { per_put = l.per_put; room = l.room; taken = l.taken.items; has_failed = l.has_failed } };

    ghost invariant = { λ l. (0 < l.per_put) × (length l.taken.items ≤ l.room) × (l.room ≤ vec_capacity l.taken) };
}

impl Limited {
    /// An empty sink that takes at most `per_put` bytes in one `put`, and `room` bytes in all.
    /// All its room is taken here.
    ///
    /// # Errors
    ///
    /// There is no memory for the room.
    pub fn new(alloc: Global, per_put: usize, room: usize) -> Result<Limited, AllocError>
        requires { 0 < per_put }
        ensures { IfOk result (λ l. l ≡ opened per_put room) }
    {
        Ok(Limited {
            per_put,
            room,
            taken: Vec::with_capacity(alloc, room)?,
            has_failed: false,
        })
    }

    /// The bytes that it has taken so far.
    pub fn bytes(&self) -> &[u8]
        ensures { result.now ≡ self.now.taken }
    {
        &self.taken
    }
}

impl Sink for Limited {
    ghost use Rattle.rt_sink.specs.Limited.{seen};

    ghost seen = { seen };

    fn put(&mut self, bytes: &[u8]) -> Put
        ensures answer { Answers seen self.old bytes.now result self.new }
        ensures stays { self.old.has_failed ≡ true → result ≡ Put.Failed }
        ensures exact { result ≡ limited_answer self.old bytes.now }
        ensures after { self.new ≡ limited_after self.old bytes.now }
    {
        if self.has_failed {
            return Put::Failed;
        }
        let left = self.room - self.taken.len();
        if left == 0 && !bytes.is_empty() {
            self.has_failed = true;
            return Put::Failed;
        }
        let count = bytes.len().min(self.per_put.min(left));
        self.taken.extend_from_slice(&bytes[..count]).unwrap();
        Put::Taken(count)
    }

    fn has_failed(&self) -> bool {
        self.has_failed
    }
}
