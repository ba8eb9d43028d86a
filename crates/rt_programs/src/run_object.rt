//! The run of one object as the one task.

ghost use Rattle.std.specs.Prelude.{◌≡◌, false, None};
ghost use Rattle.rt_opening.specs.Ends.{Ends};
ghost use Rattle.rt_programs.specs.Solo.{SoloMeans, RunsAloneCalmly};

use rt_core::Machine;
use rt_exec::Fetcher;
use rt_fault_lines::FaultLines;
use rt_image::read_object;
use rt_opening::{LoadFault, SimFault, SoloTask, alone, load_alone};
use rt_queue::MinQueue;
use rt_sink::Sink;
use rt_trace::{Telling, Unheard, write_run};
use rt_words::{MAX_TICKS, is_ram_size};
use std::alloc::Global;

/// Runs the object of a file (RTI1) alone, as this task, for `n` ticks, at most 2^40, by queues and a fetcher of the caller's
/// choice, and writes the text of its history and of how it stands in the end. The answer is the text's length in bytes. A
/// fault of the task is noted.
///
/// # Errors
///
/// In this order: the refusal of the file, `BadSize` of the RAM, `ImageTooBig`, `BadEntry`; or there is no memory. Then the sink
/// has taken nothing. `Device` where the sink failed: it took so many of the first bytes of the text.
pub fn solo<Q: MinQueue, F: Fetcher, S: Sink>(
    alloc: Global,
    bytes: &[u8],
    task: SoloTask,
    n: u64,
    out: &mut S,
    faulted: &mut FaultLines,
) -> Result<u64, SimFault>
    requires { (S.seen out.old).failed ≡ false }
    ensures ends { Ends S.seen (SoloMeans bytes.now task n) out.old result out.new }
    ensures calm { RunsAloneCalmly bytes.now task n → faulted.old.lines ≡ None → faulted.new.lines ≡ None }
{
    let object = read_object(alloc, bytes)?;
    if !is_ram_size(task.ram) {
        return Err(SimFault::Load(LoadFault::BadSize));
    }
    let system = alone(alloc, object, task)?;
    let mut machine: Machine<Q, F> = load_alone(alloc, &system)?;
    let n = n.min(MAX_TICKS);
    match write_run(&mut machine, &mut Unheard, Telling::Alone, n, out) {
        Ok(length) => {
            faulted.note(alloc, &machine, &system.tasks);
            Ok(length)
        }
        Err(fault) => Err(SimFault::Device(fault)),
    }
}
