//! A session from the bytes of a system file.

ghost use Rattle.std.specs.Prelude.{◌≡◌, false, true, List, ℕ, Some, Err, []};
ghost use Rattle.rt_sink.specs.Buffered.{told};
ghost use Rattle.rt_sink.specs.declared.sink.DeviceFault.{DeviceFault};
ghost use Rattle.rt_opening.specs.declared.fault.SimFault.TheVariants.{Device};
ghost use Rattle.rt_dialogue.specs.declared.fault.DebugFault.TheVariants.{Sim};
ghost use Rattle.rt_dialogue.specs.remote.Dialogue.{DebugsRemotely};

use crate::remote::talk::Talk;
use crate::{DebugFault, Responder, converse, next_byte};
use rt_core::Machine;
use rt_exec::Predecoded;
use rt_image::read_system;
use rt_opening::{Admission, SimFault};
use rt_queue::Tournament;
use rt_remote::Session;
use rt_sink::{Buffered, Sink};
use std::alloc::Global;
use std::io::BufRead;

impl<'s, 'd> Responder for Talk<'s, 'd> {
    ghost use Rattle.std.specs.Prelude.{[], refl};
    ghost use Rattle.rt_dialogue.specs.remote.Dialogue.{RepliesFrom};

    ghost replies = { RepliesFrom };

    ghost silent = { λ now bytes. ([], bytes, refl, (0, (refl, refl))) };

    fn respond<I: BufRead, S: Sink>(
        &mut self,
        input: &mut I,
        out: &mut Buffered<S>,
    ) -> Result<bool, DebugFault> {
        match next_byte(input)? {
            Some(byte) => self.hear(byte, input, out),
            None => Ok(false),
        }
    }
}

/// Serves gdb, which speaks its Remote Serial Protocol, on the system of a file (RTS1 or RTS2): executes the requests of an input,
/// until one ends the session or the input ends. In a run on or back to a stop it says empty console texts, and reads how each is
/// answered. When the session ends, what was said has reached the sink. Where admission is waived, the set may be overloaded.
///
/// Tests look at the texts of a run that never stops: one every 4,194,304 entries.
///
/// # Errors
///
/// In this order: the refusal of the file, that of admission, `ImageTooBig` or `BadEntry` of the first task with such a fault; or
/// there is no memory. Then nothing was read or said. Else the sink failed: `Device` says how many bytes it took in all; or the
/// input couldn't be read, there was no memory for it, or it has 2^64 - 1 bytes and more; what was said before has arrived.
pub fn serve<I: BufRead, S: Sink>(
    alloc: Global,
    bytes: &[u8],
    admission: Admission,
    input: &mut I,
    out: &mut Buffered<S>,
) -> Result<(), DebugFault>
    requires { (S.seen out.old.inner).failed ≡ false }
    ensures session { (read : List ℕ) → I.remaining input.old ≡ Some read → told S.seen out.old ≡ Some []
        → DebugsRemotely S.seen bytes.now admission read result out.new.inner }
    // A fault of the device is reported only where it failed.
    ensures device { (fault : DeviceFault) → result ≡ Err (Sim (Device fault)) → (S.seen out.new.inner).failed ≡ true }
{
    let system = match read_system(alloc, bytes) {
        Ok(system) => system,
        Err(fault) => return Err(DebugFault::Sim(SimFault::from(fault))),
    };
    let machine: Machine<Tournament, Predecoded> = match Machine::load_under(
        alloc, &system, admission,
    ) {
        Ok(machine) => machine,
        Err(fault) => return Err(DebugFault::Sim(SimFault::from(fault))),
    };
    let session = match Session::new(alloc, machine, &system.tasks) {
        Ok(session) => session,
        Err(_) => return Err(DebugFault::Sim(SimFault::Memory)),
    };
    converse(&mut Talk::new(session), input, out)
}
