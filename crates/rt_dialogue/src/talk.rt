//! A session of command lines: a line in, its reply out.

ghost use Rattle.std.specs.Prelude.{◌≡◌, ◌↔◌, true, false, IsOkAnd, List, ℕ, Some, Err, []};
ghost use Rattle.rt_sink.specs.Buffered.{told};
ghost use Rattle.rt_sink.specs.declared.sink.DeviceFault.{DeviceFault};
ghost use Rattle.rt_opening.specs.declared.fault.SimFault.TheVariants.{Device};
ghost use Rattle.rt_debug.specs.declared.line.After.TheVariants.{End};
ghost use Rattle.rt_dialogue.specs.Dialogue.{Debugs};
ghost use Rattle.rt_dialogue.specs.declared.fault.DebugFault.TheVariants.{Sim};

use crate::conversation::{Responder, converse};
use crate::fault::DebugFault;
use crate::line::{Line, read_line};
use rt_core::Machine;
use rt_debug::{After, Done, Session};
use rt_exec::Predecoded;
use rt_image::read_system;
use rt_opening::{Admission, SimFault};
use rt_queue::Tournament;
use rt_sink::{Buffered, DeviceFault, Sink};
use std::alloc::Global;
use std::io::BufRead;

/// Whether nothing is to follow a command line.
fn is_end(ran: Result<Done, DeviceFault>) -> bool
    ensures { IsOkAnd ran (λ done. done.after ≡ End) ↔ (result ≡ true) }
{
    matches!(
        ran,
        Ok(Done {
            after: After::End,
            ..
        })
    )
}

impl<'s, 'd> Responder for Session<'s, 'd, Tournament, Predecoded> {
    ghost use Rattle.std.specs.Prelude.{refl};
    ghost use Rattle.std.proofs.Common.{sym, true≢false};
    ghost use Rattle.rt_image.specs.SystemFile.{task_set};
    ghost use Rattle.rt_debug.specs.Stopping.{stopping};
    ghost use Rattle.rt_dialogue.specs.Working.Places.{SaysOn};

    ghost replies = { λ s. SaysOn (task_set s.system.now) s.walk (stopping s.stops.slots.items s.events) };

    ghost silent = { λ s bytes places are. (0, (refl, λ all. absurd (true≢false (sym all)))) };

    fn respond<I: BufRead, S: Sink>(
        &mut self,
        input: &mut I,
        out: &mut Buffered<S>,
    ) -> Result<bool, DebugFault> {
        let mut line = Line::new();
        if !read_line(input, &mut line)? {
            return Ok(false);
        }
        let ran = self.run_line(&line, out);
        out.flush()?;
        Ok(!is_end(ran))
    }
}

/// Does the commands of an input, one a line, on the system of a file (RTS1 or RTS2), until `quit` or the end of the input, and
/// gives the reply to each to the sink before the next line is read. Where admission is waived, the set may be overloaded.
///
/// # Errors
///
/// In this order: the refusal of the file, that of admission, `ImageTooBig` or `BadEntry` of the first task with such a fault; or
/// there is no memory. Then nothing was read or said. Else the sink failed: `Device` says how many bytes it took in all; or the
/// input couldn't be read, there was no memory for it, or it has 2^64 - 1 lines and more; what was said before has arrived.
pub fn debug<I: BufRead, S: Sink>(
    alloc: Global,
    bytes: &[u8],
    admission: Admission,
    input: &mut I,
    out: &mut Buffered<S>,
) -> Result<(), DebugFault>
    requires { (S.seen out.old.inner).failed ≡ false }
    ensures session { (lines : List ℕ) → I.remaining input.old ≡ Some lines → told S.seen out.old ≡ Some []
        → Debugs S.seen bytes.now admission lines result out.new.inner }
    // A fault of the device is reported only where it failed.
    ensures device { (fault : DeviceFault) → result ≡ Err (Sim (Device fault)) → (S.seen out.new.inner).failed ≡ true }
{
    let system = match read_system(alloc, bytes) {
        Ok(system) => system,
        Err(fault) => return Err(DebugFault::Sim(SimFault::from(fault))),
    };
    let machine: Machine<Tournament, Predecoded> = match Machine::load_under(
        alloc, &system, admission,
    ) {
        Ok(machine) => machine,
        Err(fault) => return Err(DebugFault::Sim(SimFault::from(fault))),
    };
    let mut session = match Session::new(alloc, machine, &system) {
        Ok(session) => session,
        Err(_) => return Err(DebugFault::Sim(SimFault::Memory)),
    };
    converse(&mut session, input, out)
}
