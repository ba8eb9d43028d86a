//! The sink of the program's output, which gathers bytes so that there are few writes.

ghost use Rattle.std.specs.Prelude.{◌≡◌, ◌<◌, ◌≤◌, ◌^◌, List, ℕ, [], length, vec_capacity, true, false, Some, IfOk, IfErr};
ghost use Rattle.rt_sink.specs.Sink.{Answers};
ghost use Rattle.rt_sink.specs.Buffered.{gathering, BufferedSink, gathered_limit, told, Delivers, PutGathers, PutPasses, Flushes, Arrives};

use crate::sink::{DeviceFault, Put, Sink, put_bytes};
use std::alloc::Global;
use std::marker::Model;

/// How many bytes are gathered.
pub const GATHERED_LEN: usize = 32_768;

/// A sink that gathers `GATHERED_LEN` bytes and then gives them to another sink. So many bytes at once, or more, aren't gathered:
/// the other sink gets them themselves.
///
/// It fails where the other does, at most so many bytes later: `flush` says at the end whether
/// all was delivered. What the other sink hasn't taken when it fails stays gathered for good.
#[derive(Drop)]
pub struct Buffered<S> {
    inner: S,
    gathered: Vec<u8>,
    delivered: u64,
}

impl<S> Model for Buffered<S> {
    ghost Value = { BufferedSink S };

    ghost view = { λ b. record { inner = b.inner; gathered = b.gathered.items; delivered = b.delivered } };

    ghost invariant = { λ b. (length b.gathered.items ≤ gathered_limit) × (gathered_limit ≤ vec_capacity b.gathered) };
}

impl<S: Sink + Drop> Buffered<S> {
    /// A sink over the other one, with nothing gathered. All its room is taken here.
    ///
    /// # Errors
    ///
    /// There is no memory for the room: the other sink is handed back.
    pub fn new(alloc: Global, inner: S) -> Result<Buffered<S>, S>
        ensures made { IfOk result (λ b. b ≡ record { inner = inner; gathered = []; delivered = 0 }) }
        ensures handed { IfErr result (λ back. back ≡ inner) }
    {
        match Vec::with_capacity(alloc, GATHERED_LEN) {
            Ok(gathered) => Ok(Buffered {
                inner,
                gathered,
                delivered: 0,
            }),
            Err(_) => Err(inner),
        }
    }
}

impl<S: Sink> Buffered<S> {
    /// How many bytes the other sink has taken since this one was made, up to 2^64 - 1.
    pub fn delivered(&self) -> u64
        ensures { result ≡ self.now.delivered }
    {
        self.delivered
    }

    /// Gives what was gathered to the other sink.
    fn deliver(&mut self)
        requires { (S.seen self.old.inner).failed ≡ false }
        ensures { Delivers S.seen self.old self.new }
    {
        let count = match put_bytes(&mut self.inner, &self.gathered) {
            Ok(()) => self.gathered.len(),
            Err(fault) => fault.written as usize,
        };
        self.delivered = self.delivered.saturating_add(count as u64);
        if count == self.gathered.len() {
            self.gathered.clear();
        } else {
            self.gathered.drain(..count);
        }
    }

    /// Gives bytes to the other sink themselves, once what was gathered is delivered.
    fn pass(&mut self, bytes: &[u8]) -> Put
        requires { (S.seen self.old.inner).failed ≡ false }
        ensures answer { Answers (gathering S.seen) self.old bytes.now result self.new }
        ensures passes { PutPasses S.seen self.old bytes.now result self.new }
    {
        self.deliver();
        if self.inner.has_failed() {
            return Put::Failed;
        }
        let put = self.inner.put(bytes);
        if let Put::Taken(count) = put {
            let taken = count as u64;
            self.delivered = self.delivered.saturating_add(taken);
        }
        put
    }

    /// Delivers all that was gathered. So what this sink took has arrived at the other one.
    ///
    /// # Errors
    ///
    /// The other sink has failed. `written` is what it took since this one was made.
    pub fn flush(&mut self) -> Result<(), DeviceFault>
        ensures steps { Flushes S.seen self.old result self.new }
        ensures arrives { (text : List ℕ) → length text < 2 ^ 64 → told S.seen self.old ≡ Some text → Arrives S.seen text result self.new.inner }
    {
        if !self.inner.has_failed() {
            self.deliver();
        }
        if self.inner.has_failed() {
            return Err(DeviceFault {
                written: self.delivered,
            });
        }
        Ok(())
    }
}

impl<S: Sink> Sink for Buffered<S> {
    ghost seen = { gathering S.seen };

    fn put(&mut self, bytes: &[u8]) -> Put
        ensures answer { Answers (gathering S.seen) self.old bytes.now result self.new }
        ensures stays { (S.seen self.old.inner).failed ≡ true → (result ≡ Put.Failed) × (self.new ≡ self.old) }
        ensures gathers { length bytes.now < GATHERED_LEN → PutGathers S.seen self.old bytes.now result self.new }
        ensures passes { (S.seen self.old.inner).failed ≡ false → GATHERED_LEN ≤ length bytes.now → PutPasses S.seen self.old bytes.now result self.new }
    {
        if self.inner.has_failed() {
            return Put::Failed;
        }
        if bytes.len() >= GATHERED_LEN {
            return self.pass(bytes);
        }
        if self.gathered.len() == GATHERED_LEN {
            self.deliver();
            if self.inner.has_failed() {
                return Put::Failed;
            }
        }
        let count = bytes.len().min(GATHERED_LEN - self.gathered.len());
        self.gathered.extend_from_slice(&bytes[..count]).unwrap();
        Put::Taken(count)
    }

    fn has_failed(&self) -> bool {
        self.inner.has_failed()
    }
}
