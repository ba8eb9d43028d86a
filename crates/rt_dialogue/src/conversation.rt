//! The loop of a session: what responds to an input reads a part of it, and says what it answers.

ghost use Rattle.std.specs.Prelude.{◌≡◌, false, true, List, ℕ, IfOk, Some, Err, []};
ghost use Rattle.rt_sink.specs.Buffered.{told};
ghost use Rattle.rt_sink.specs.declared.sink.DeviceFault.{DeviceFault};
ghost use Rattle.rt_opening.specs.declared.fault.SimFault.TheVariants.{Device};
ghost use Rattle.rt_dialogue.specs.declared.fault.DebugFault.TheVariants.{Sim};
ghost use Rattle.rt_dialogue.specs.Conversed.{Ends};
ghost use Rattle.rt_dialogue.specs.Saying.{HasSaid};
ghost use Rattle.rt_dialogue.specs.Responds.{Responds};

use crate::fault::DebugFault;
use rt_sink::{Buffered, DeviceFault, Sink};
use std::io::BufRead;

/// What responds to an input.
pub trait Responder {
    ghost use Rattle.std.specs.Prelude.{List, ℕ, Bool, [], false};

    /// What it says to the bytes of an input from here on: to all of them, or to the first of them as if the input ended there.
    ghost replies: { Self → List ℕ → List ℕ → Bool → Type 0 };

    /// Before it reads it has said nothing.
    ghost silent: { (r : Self) (bytes : List ℕ) → replies r bytes [] false };

    /// Reads the next part of the input, and says what it answers. Answers whether the session goes on.
    ///
    /// # Errors
    ///
    /// The sink failed, or the input couldn't be read.
    fn respond<I: BufRead, S: Sink>(
        &mut self,
        input: &mut I,
        out: &mut Buffered<S>,
    ) -> Result<bool, DebugFault>
        requires { (S.seen out.old.inner).failed ≡ false }
        ensures responds { (bytes text : List ℕ) → I.remaining input.old ≡ Some bytes → HasSaid S.seen text out.old
            → Responds S.seen (replies self.old bytes) text result (I.remaining input.new) out.new (replies self.new) }
        ensures is_open { IfOk result (λ goes. goes ≡ true → (S.seen out.new.inner).failed ≡ false) }
        ensures device { (fault : DeviceFault) → result ≡ Err (Sim (Device fault)) → (S.seen out.new.inner).failed ≡ true };
}

/// Responds to an input until the session or the input ends.
///
/// # Errors
///
/// The sink failed, or the input couldn't be read or has 2^64 - 1 parts and more.
pub fn converse<R: Responder, I: BufRead, S: Sink>(
    responder: &mut R,
    input: &mut I,
    out: &mut Buffered<S>,
) -> Result<(), DebugFault>
    requires { (S.seen out.old.inner).failed ≡ false }
    ensures session { (bytes : List ℕ) → I.remaining input.old ≡ Some bytes → told S.seen out.old ≡ Some []
        → Ends S.seen (R.replies responder.old bytes) result out.new.inner }
    ensures device { (fault : DeviceFault) → result ≡ Err (Sim (Device fault)) → (S.seen out.new.inner).failed ≡ true }
{
    for _ in 0..u64::MAX {
        if !responder.respond(input, out)? {
            return Ok(());
        }
    }
    Err(DebugFault::Input)
}
