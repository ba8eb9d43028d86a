//! The report of a system.

ghost use Rattle.std.specs.Prelude.{◌≡◌, ℕ, false};
ghost use Rattle.rt_image.specs.SystemFile.{TaskSet};
ghost use Rattle.rt_names.specs.TaskNames.{task_names};
ghost use Rattle.rt_report.specs.Standing.{report_at};
ghost use Rattle.rt_sink.specs.Sink.{Counts};
ghost use Rattle.rt_opening.specs.Ends.{Ends};
ghost use Rattle.rt_accounts.specs.Reporting.{text_at, ReportMeans};

use crate::accounts::AccountedRun;
use rt_follow::Beat;
use rt_names::TaskNames;
use rt_opening::{Admission, SimFault, answer};
use rt_report::Report;
use rt_sink::{DeviceFault, Sink};
use rt_words::MAX_TICKS;
use std::alloc::Global;

/// How much a report tells of each task.
#[derive(Clone, Copy, PartialEq, Eq)]
pub enum ReportWidth {
    /// What its jobs took.
    Narrow,
    /// That, how it stands in the end, what its jobs and its server did beside, and its name.
    Wide,
    /// That, with its reserves, its responses together, its budget and its period before its name, as comma-separated values (RFC 4180, with
    /// LF).
    Csv,
}

/// Writes the text of a report of this width.
pub(crate) fn write_report<S: Sink>(
    report: &Report,
    names: &TaskNames<'_>,
    width: ReportWidth,
    out: &mut S,
) -> Result<u64, DeviceFault>
    requires { (S.seen out.old).failed ≡ false }
    ensures { (set : TaskSet) (t : ℕ) → report.now ≡ report_at set t → names.now ≡ task_names set →
        Counts S.seen out.old (text_at width set t) result out.new }
{
    match width {
        ReportWidth::Narrow => report.write_text(out),
        ReportWidth::Wide => report.write_wide_text(names, out),
        ReportWidth::Csv => report.write_csv(names, out),
    }
}

/// Runs the system of a file (RTS1 or RTS2) for `n` ticks, at most 2^40, and writes the report of its jobs, of this width: a header, a
/// line for each task, and the idle ticks, which comma-separated values leave out. Where admission is waived, the set may be overloaded.
/// The answer is the text's length in bytes. No history is kept. It beats while it runs.
///
/// # Errors
///
/// In this order: the refusal of the file, that of admission, `ImageTooBig` or `BadEntry` of the first task with such a fault; or
/// there is no memory. Then the sink has taken nothing. `Device` where the sink failed: it took so many of the first bytes of the
/// text.
pub fn report<S: Sink, B: Beat>(
    alloc: Global,
    bytes: &[u8],
    admission: Admission,
    n: u64,
    width: ReportWidth,
    out: &mut S,
    beat: &B,
) -> Result<u64, SimFault>
    requires { (S.seen out.old).failed ≡ false }
    ensures { Ends S.seen (ReportMeans bytes.now admission n width) out.old result out.new }
{
    let run = AccountedRun::open(alloc, bytes, admission)?.run(n.min(MAX_TICKS), beat);
    answer(run.write_report(width, out))
}
