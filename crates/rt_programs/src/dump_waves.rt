//! The waves of a system's schedule.

ghost use Rattle.std.specs.Prelude.{◌≡◌, false};
ghost use Rattle.rt_opening.specs.Ends.{Ends};
ghost use Rattle.rt_programs.specs.Waving.{WavesMean};

use rt_follow::Beat;
use rt_history::params_of;
use rt_image::read_system;
use rt_names::TaskNames;
use rt_opening::{Admission, SimFault, answer, open_set};
use rt_sink::Sink;
use rt_waves::dump::{PAGE_LEN, write_waves};
use rt_waves::{Scale, Waves};
use rt_words::MAX_TICKS;
use std::alloc::Global;

/// Runs the system of a file (RTS1 or RTS2) to the end of a window of `n` ticks from tick `from` on, and writes the waves of its
/// ticks as a value change dump. The answer is the text's length in bytes. No tick is at 2^40 or above: the window ends there. No
/// history is kept. It beats while it runs.
///
/// # Errors
///
/// In this order: the refusal of the file, that of admission, `ImageTooBig` or `BadEntry` of the first task with such a fault; or
/// there is no memory. Then the sink has taken nothing. `Device` where the sink failed: it took so many of the first bytes of the
/// text.
pub fn vcd<S: Sink, B: Beat>(
    alloc: Global,
    bytes: &[u8],
    admission: Admission,
    from: u64,
    n: u64,
    scale: Scale,
    out: &mut S,
    beat: &B,
) -> Result<u64, SimFault>
    requires { (S.seen out.old).failed ≡ false }
    ensures { Ends S.seen (WavesMean bytes.now admission from n scale) out.old result out.new }
{
    let system = read_system(alloc, bytes)?;
    let params = params_of(alloc, &system.tasks)?;
    let mut opened = open_set(alloc, admission, &system, &params)?;
    let first = from.min(MAX_TICKS);
    let end = first + n.min(MAX_TICKS - first);
    let mut waves = Waves::new(alloc, &opened.runnable, &system.tasks, first)?;
    let names = TaskNames::of(alloc, &system)?;
    let mut bytes = vec![in alloc; 0u8; PAGE_LEN]?;
    let Some(room) = bytes.first_chunk_mut::<PAGE_LEN>() else {
        unreachable!()
    };
    answer(write_waves(
        &mut opened.machine,
        &mut waves,
        &scale,
        &names,
        end,
        room,
        out,
        beat,
    ))
}
