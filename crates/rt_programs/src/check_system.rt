//! The admission of the set of a system file.

ghost use Rattle.std.specs.Prelude.{◌≡◌, ℕ, List, [], Some, false};
ghost use Rattle.rt_admit.specs.Refusal.{refusal};
ghost use Rattle.rt_admit.specs.declared.fault.AdmitFault.{AdmitFault};
ghost use Rattle.rt_image.specs.SystemFile.{TaskSet};
ghost use Rattle.rt_history.specs.Admitted.{task_params};
ghost use Rattle.rt_sink.specs.Sink.{Counts};
ghost use Rattle.rt_programs.specs.Check.{CheckMeans, IsReason, admitted_text};
ghost use Rattle.rt_opening.specs.Ends.{EndsTelling, IsTold};

use crate::overload_lines::write_overload;
use rt_admit::{Params, admit};
use rt_history::params_of;
use rt_image::read_system;
use rt_laws::breach::breach;
use rt_opening::SimFault;
use rt_sink::{DeviceFault, LineBuffer, Sink, push_decimal, push_text, put_bytes};
use std::alloc::Global;

/// Writes the line of an admitted set, and answers its length in bytes.
fn write_admitted<S: Sink>(out: &mut S, total: u32, hyper: u32) -> Result<u64, DeviceFault>
    requires { (S.seen out.old).failed ≡ false }
    ensures { Counts S.seen out.old (admitted_text total hyper) result out.new }
{
    let mut line = LineBuffer::new();
    push_text(&mut line, b"admitted ");
    push_decimal(&mut line, u64::from(total));
    push_text(&mut line, b" of ");
    push_decimal(&mut line, u64::from(hyper));
    push_text(&mut line, b"\n");
    put_bytes(out, &line)?;
    Ok(line.len() as u64)
}

/// Writes why a set is refused, where that is for its load: what each task asks for, and the first one whose budget would miss its
/// deadline. The refusal is reported whether the sink takes these lines or fails.
pub(crate) fn write_reason<S: Sink>(out: &mut S, hyper: u32, params: &[Params])
    requires { (S.seen out.old).failed ≡ false }
    ensures { (set : TaskSet) (fault : AdmitFault) → set.hyper ≡ hyper → task_params set.tasks ≡ params.now → refusal hyper params.now ≡ Some fault →
        (text : List ℕ) × IsReason set fault text × IsTold S.seen out.old text out.new }
{
    if let Some(breach) = breach(hyper, params) {
        let _ = write_overload(out, hyper, params, breach);
    }
}

/// Reads the system of a file (RTS1 or RTS2), and writes that it is admitted: the sum of its weights, and
/// its hyperperiod, in ticks. The answer is the length of this line in bytes.
///
/// # Errors
///
/// The refusal of the file: then the sink has taken nothing. That of admission: where the weights sum to too much, the sink has
/// taken a line for each task with its weight, and one for the first task whose budget would miss its deadline, were all of them
/// busy for a hyperperiod, or the first bytes of these lines where it failed; else nothing. `Memory` where there is none: then it
/// has taken nothing. `Device` where the sink failed within the line of an admitted set: it took so many of its first bytes.
pub fn check<S: Sink>(alloc: Global, bytes: &[u8], out: &mut S) -> Result<u64, SimFault>
    requires { (S.seen out.old).failed ≡ false }
    ensures { EndsTelling S.seen (CheckMeans bytes.now) out.old result out.new }
{
    let system = read_system(alloc, bytes)?;
    let params = params_of(alloc, &system.tasks)?;
    let admitted = match admit(system.hyper, &params) {
        Ok(admitted) => admitted,
        Err(fault) => {
            write_reason(out, system.hyper, &params);
            return Err(SimFault::Admit(fault));
        }
    };
    let length = write_admitted(out, admitted.total(), admitted.hyper())?;
    Ok(length)
}
