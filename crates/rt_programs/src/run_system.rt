//! The run of a system.

ghost use Rattle.std.specs.Prelude.{◌≡◌, None, false};
ghost use Rattle.rt_opening.specs.Ends.{Ends};
ghost use Rattle.rt_programs.specs.Simulation.{RunMeans, RunsCalmly};

use rt_core::Machine;
use rt_exec::Predecoded;
use rt_fault_lines::FaultLines;
use rt_image::read_system;
use rt_opening::{Admission, SimFault};
use rt_queue::Tournament;
use rt_sink::Sink;
use rt_trace::{Telling, Unheard, write_run};
use rt_words::MAX_TICKS;
use std::alloc::Global;

/// Runs the system of a file (RTS1 or RTS2) for `n` ticks, at most 2^40, and writes the text of its history and of how each task stands
/// in the end. The answer is the text's length in bytes. The tasks that faulted are noted.
///
/// # Errors
///
/// In this order: the refusal of the file, that of admission, `ImageTooBig` or `BadEntry` of the first task with such a fault; or
/// there is no memory. Then the sink has taken nothing. `Device` where the sink failed: it took so many of the first bytes of the
/// text.
pub fn simulate<S: Sink>(
    alloc: Global,
    bytes: &[u8],
    admission: Admission,
    n: u64,
    out: &mut S,
    faulted: &mut FaultLines,
) -> Result<u64, SimFault>
    requires { (S.seen out.old).failed ≡ false }
    ensures ends { Ends S.seen (RunMeans bytes.now admission n) out.old result out.new }
    ensures calm { RunsCalmly bytes.now n → faulted.old.lines ≡ None → faulted.new.lines ≡ None }
{
    let system = read_system(alloc, bytes)?;
    let mut machine: Machine<Tournament, Predecoded> = Machine::load_under(
        alloc, &system, admission,
    )?;
    let length = write_run(
        &mut machine,
        &mut Unheard,
        Telling::WithServers,
        n.min(MAX_TICKS),
        out,
    )?;
    faulted.note(alloc, &machine, &system.tasks);
    Ok(length)
}
