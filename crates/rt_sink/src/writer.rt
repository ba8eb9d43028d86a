//! The inner writer of all texts: it offers nothing to a sink that has failed.

ghost use Rattle.std.specs.Prelude.{◌≡◌, ℕ, ◌+◌, ◌^◌, ◌<◌, ◌≤◌, List, length, false};
ghost use Rattle.rt_sink.specs.Sink.{Counts};
ghost use Rattle.rt_sink.specs.Offers.{Offers};

use crate::sink::{DeviceFault, Sink, put_bytes};

/// A sink, and how many bytes it has taken since the writer was made. Once the sink has failed,
/// each `put` leaves it alone, so the parts of a text follow one another with no test between.
#[derive(Drop)]
pub struct Writer<'a, S: Sink> {
    pub sink: &'a mut S,
    /// How many bytes the sink has taken (in bytes).
    pub written: u64,
}

impl<'a, S: Sink> Writer<'a, S> {
    /// Offers the bytes to the sink, unless it has failed.
    pub fn put(&mut self, bytes: &[u8])
        requires { self.old.written + length bytes.now < 2 ^ 64 }
        ensures bound { self.new.written ≤ self.old.written + length bytes.now }
        ensures same { self.new.sink.ghost_name ≡ self.old.sink.ghost_name }
        ensures offers { Offers S.seen self.old.written self.old.sink.now bytes.now self.new.written self.new.sink.now }
    {
        if self.sink.has_failed() {
            return;
        }
        match put_bytes(self.sink, bytes) {
            Ok(()) => self.written += bytes.len() as u64,
            Err(fault) => self.written += fault.written,
        }
    }

    /// Whether the sink has failed.
    pub fn has_failed(&self) -> bool
        ensures { result ≡ (S.seen self.now.sink.now).failed }
    {
        self.sink.has_failed()
    }

    /// How many bytes of the text were written.
    ///
    /// # Errors
    ///
    /// The sink has failed.
    pub fn end(&self) -> Result<u64, DeviceFault>
        // For each text that was offered, to whichever sink, since the count was 0.
        ensures { (s : S) (text : List ℕ) → (S.seen s).failed ≡ false → Offers S.seen 0 s text self.now.written self.now.sink.now
            → Counts S.seen s text result self.now.sink.now }
    {
        if self.sink.has_failed() {
            return Err(DeviceFault {
                written: self.written,
            });
        }
        Ok(self.written)
    }
}
