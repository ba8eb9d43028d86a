//! The end of a text that went through a sink that gathers.

ghost use Rattle.rt_programs.specs.printing.Finishes.{Finishes};

use crate::SimFault;
use rt_sink::{Buffered, Sink};

/// Delivers all that was gathered of a text, and answers what the program did: what its input is refused for, whatever the device
/// did; else the device's fault, which counts the bytes that were delivered.
pub(crate) fn finish<S: Sink>(
    done: Result<u64, SimFault>,
    out: &mut Buffered<S>,
) -> Result<(), SimFault>
    ensures { Finishes S.seen done out.old result out.new }
{
    let flushed = out.flush();
    match done {
        Ok(_) => Ok(flushed?),
        Err(SimFault::Device(fault)) => { Err(SimFault::Device(flushed.err().unwrap_or(fault))) }
        Err(fault) => Err(fault),
    }
}
