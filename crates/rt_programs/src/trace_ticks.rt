//! What each tick of a system did.

ghost use Rattle.std.specs.Prelude.{◌≡◌, false, OnOk, IfErr};
ghost use Rattle.rt_opening.specs.Ends.{Ends};
ghost use Rattle.rt_programs.specs.Asked.{IsThere, IsMissing};
ghost use Rattle.rt_programs.specs.Tracing.{TraceMeans};

use rt_effects::{Teller, write_ticks};
use rt_follow::{Beat, go_to};
use rt_history::params_of;
use rt_image::read_system;
use rt_opening::{Admission, SimFault, answer, open_set};
use rt_sink::Sink;
use rt_words::MAX_TICKS;
use std::alloc::Global;

/// Refuses a task that isn't one of so many.
fn check_task(task: Option<u32>, count: u32) -> Result<(), SimFault>
    ensures there { OnOk result (IsThere count task) }
    ensures missing { IfErr result (λ fault. IsMissing count task fault) }
{
    match task {
        Some(task) if task >= count => Err(SimFault::NoTask { task, count }),
        _ => Ok(()),
    }
}

/// Runs the system of a file (RTS1 or RTS2) to tick `from + n`, at most 2^40, and writes what each of the ticks from `from` on did: a line
/// for each attempt, of all tasks or of this one alone, and for all tasks one for each idle stretch too. The answer is the text's length
/// in bytes. No history is kept, and a tick takes no memory. It beats before tick `from`.
///
/// # Errors
///
/// In this order: the refusal of the file, that of admission, `ImageTooBig` or `BadEntry` of the first task with such a fault; or there
/// is no memory; `NoTask` where the set has no such task. Then the sink has taken nothing. `Device` where the sink failed: it took so many
/// of the first bytes of the text, and the run has stopped there.
pub fn trace<S: Sink, B: Beat>(
    alloc: Global,
    bytes: &[u8],
    admission: Admission,
    from: u64,
    n: u64,
    task: Option<u32>,
    out: &mut S,
    beat: &B,
) -> Result<u64, SimFault>
    requires { (S.seen out.old).failed ≡ false }
    ensures { Ends S.seen (TraceMeans bytes.now admission from n task) out.old result out.new }
{
    let system = read_system(alloc, bytes)?;
    let params = params_of(alloc, &system.tasks)?;
    let mut opened = open_set(alloc, admission, &system, &params)?;
    check_task(task, opened.machine.count())?;
    let mut teller = Teller::new(alloc, &system)?;
    let begin = from.min(MAX_TICKS);
    go_to(&mut opened.machine, begin, beat);
    let end = from.saturating_add(n).min(MAX_TICKS);
    answer(write_ticks(&mut opened.machine, &mut teller, end, task, out))
}
