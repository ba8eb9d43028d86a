//! The jobs of a system, printed while it runs.

ghost use Rattle.std.specs.Prelude.{◌≡◌, ◌≤◌, false, true, Some, [], IfOk, OnErr};
ghost use Rattle.rt_image.specs.SystemFile.{TaskSet};
ghost use Rattle.rt_sink.specs.Buffered.{told};
ghost use Rattle.rt_accounts.specs.Accounting.{IsAccounted};
ghost use Rattle.rt_accounts.specs.JobListing.{form_text};
ghost use Rattle.rt_programs.specs.printing.Prints.{IsDelivered};

use crate::{AccountedRun, Beat, JobsForm, write_jobs_header};
use rt_sink::{Buffered, DeviceFault, Sink};
use rt_words::MAX_TICKS;

/// After how many ticks at most lines that wait are delivered.
const PART: u64 = 1 << 24;

/// Runs to tick `n`, and prints the header, the lines of the jobs that are finished, and those of the others if the form has them. What
/// waits is delivered after each part. Answers the run behind its last tick.
///
/// # Errors
///
/// The sink behind this one failed. It took so many of the first bytes.
pub(crate) fn print_lines<'a, S: Sink, B: Beat>(
    mut run: AccountedRun<'a>,
    form: JobsForm,
    n: u64,
    out: &mut Buffered<S>,
    beat: &B,
) -> Result<AccountedRun<'a>, DeviceFault>
    requires limit { n ≤ MAX_TICKS }
    requires start { run.machine.tick ≡ 0 }
    requires is_open { (S.seen out.old.inner).failed ≡ false }
    ensures runs { IfOk result (λ end. (set : TaskSet) → IsAccounted set 0 run.entry → IsAccounted set n end) }
    ensures delivers { (set : TaskSet) → IsAccounted set 0 run.entry → told S.seen out.old ≡ Some [] →
        IsDelivered S.seen (form_text form set n) result out.new.inner }
    ensures device { (set : TaskSet) → IsAccounted set 0 run.entry → OnErr result ((S.seen out.new.inner).failed ≡ true) }
{
    // The flush tells what of this was taken.
    let _ = write_jobs_header(form.details, out);
    out.flush()?;
    'parts: while run.now() < n {
        let until = n.min(run.now() + PART);
        let part = run.write_jobs_until(form.details, until, out, beat);
        out.flush()?;
        run = part?;
    }
    let _ = run.write_unfinished(form, out);
    out.flush()?;
    Ok(run)
}
