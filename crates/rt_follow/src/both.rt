//! Two listeners of one run.

use crate::following::tell_plain;
use crate::listener::Listener;
use rt_core::Machine;
use rt_exec::Fetcher;
use rt_history::Entry;
use rt_queue::MinQueue;
use std::convert::Infallible;

/// A listener, and one beside it that never stops.
#[derive(Drop)]
pub struct Both<A, B> {
    pub first: A,
    pub second: B,
}

impl<A: Listener, B: Listener<Fault = Infallible>> Listener for Both<A, B> {
    ghost use Rattle.std.specs.Prelude.{◌≡◌, ◌&&◌};

    type Fault = A::Fault;

    ghost Kept = { A.Kept × B.Kept };

    ghost kept = { λ b. (A.kept b.first, B.kept b.second) };

    ghost tick = { λ b. A.tick b.first };

    ghost count = { λ b. A.count b.first };

    ghost in_step = { λ b. (A.tick b.first ≡ B.tick b.second) × (A.count b.first ≡ B.count b.second) × A.in_step b.first × B.in_step b.second };

    ghost told = { λ a b set t. A.told a.first b.first set t × B.told a.second b.second set t };

    ghost stopped = { λ a b set t. A.stopped a.first b.first set t };

    ghost plain = { A.plain && B.plain };

    #[inline(always)]
    fn takes_plain(&self) -> bool {
        self.first.takes_plain() && self.second.takes_plain()
    }

    #[inline(always)]
    fn add<Q: MinQueue, F: Fetcher>(
        &mut self,
        entry: Entry,
        machine: &Machine<Q, F>,
    ) -> Result<(), A::Fault> {
        self.first.add(entry, machine)?;
        match self.second.add(entry, machine) {
            Ok(()) => Ok(()),
        }
    }

    #[inline(always)]
    fn add_plain(&mut self, task: u32, n: u64) -> Result<u64, A::Fault> {
        if !self.takes_plain() {
            return Ok(n);
        }
        tell_plain(&mut self.first, task, n)?;
        match tell_plain(&mut self.second, task, n) {
            Ok(()) => Ok(n),
        }
    }
}
