//! Where a text goes: a sink takes bytes until it fails.

ghost use Rattle.std.specs.Prelude.{◌≡◌, ℕ, List, Bool, true, false, Option};
ghost use Rattle.rt_sink.specs.Sink.{Answers, Writes};

/// The answer of a sink to one `put`.
#[derive(Clone, Copy, PartialEq, Eq)]
pub enum Put {
    /// The first so many bytes were taken: at least one of a nonempty slice, at most all of it.
    Taken(usize),
    /// Nothing was taken, and nothing will be from now on.
    Failed,
}

/// A sink failed within a text.
#[derive(Clone, Copy, Debug, PartialEq, Eq)]
pub struct DeviceFault {
    /// How many bytes of the text, its first ones, the sink took before it failed (in bytes).
    pub written: u64,
}

/// What takes bytes, in pieces of its own choice, until it fails for good.
pub trait Sink {
    ghost use Rattle.rt_sink.specs.Seen.{Seen};

    // What is seen of it.
    ghost seen: { Self → Seen };

    /// Takes some of the bytes from their front, or fails.
    fn put(&mut self, bytes: &[u8]) -> Put
        ensures answer { Answers seen self.old bytes.now result self.new }
        ensures stays { (seen self.old).failed ≡ true → result ≡ Put.Failed };

    /// Whether it has failed.
    fn has_failed(&self) -> bool
        ensures { result ≡ (seen self.now).failed };
}

/// Gives the sink all of the bytes, in as many pieces as it wants.
///
/// # Errors
///
/// The sink failed. `written` is the number of these bytes that it took.
pub fn put_bytes<S: Sink>(sink: &mut S, bytes: &[u8]) -> Result<(), DeviceFault>
    requires { (S.seen sink.old).failed ≡ false }
    ensures { Writes S.seen sink.old bytes.now result sink.new }
{
    let mut done = 0;
    while done < bytes.len() {
        match sink.put(&bytes[done..]) {
            Put::Taken(taken) => done += taken,
            Put::Failed => {
                return Err(DeviceFault {
                    written: done as u64,
                });
            }
        }
    }
    Ok(())
}
