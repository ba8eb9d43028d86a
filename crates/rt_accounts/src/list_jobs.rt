//! The jobs of a system.

ghost use Rattle.std.specs.Prelude.{◌≡◌, ℕ, ◌+◌, ◌*◌, ◌^◌, ◌<◌, ◌≤◌, ◌++◌, List, length, true, false, OnOk, OnErr};
ghost use Rattle.rt_image.specs.SystemFile.{TaskSet};
ghost use Rattle.rt_names.specs.TaskNames.{task_names};
ghost use Rattle.rt_history.specs.Entries.{start_of, ticks_of, IsEntryOf, GoesOnBy};
ghost use Rattle.rt_history.specs.Legal.{legal, state_at};
ghost use Rattle.rt_report.specs.JobText.{jobs_text};
ghost use Rattle.rt_report.specs.DetailText.{detailed_text, listed_text};
ghost use Rattle.rt_report.specs.Standing.{report_at};
ghost use Rattle.rt_sink.specs.Offers.{Offers};
ghost use Rattle.rt_sink.specs.Sink.{Counts};
ghost use Rattle.rt_accounts.specs.JobListing.{header_with, behind_text};
ghost use Rattle.rt_accounts.specs.Working.JobsOffered.{OffersMore};

use rt_core::Machine;
use rt_exec::Fetcher;
use rt_follow::{Beat, Listener, follow};
use rt_history::Entry;
use rt_names::TaskNames;
use rt_queue::MinQueue;
use rt_report::{DETAILED_HEADER, DetailedLine, JOBS_HEADER, Report};
use rt_sink::{DeviceFault, Sink, Writer};
use rt_text_out::{offer_to, plain, write};
use rt_words::MAX_TICKS;

/// The most bytes of the line of a job.
const JOB_LINE_LEN: usize = 1024;

/// How jobs are listed.
#[derive(Clone, Copy, PartialEq, Eq)]
pub struct JobsForm {
    /// Whether each line has the details of its job, and the name of its task.
    pub details: bool,
    /// Whether the jobs that aren't finished stand behind the others.
    pub unfinished: bool,
}

/// The lines of the finished jobs on their way to a sink, with details or without: the report knows which job an entry finishes.
#[derive(Drop)]
struct JobLines<'r, 'n, 'a, S: Sink> {
    report: &'r mut Report,
    names: &'n TaskNames<'n>,
    details: bool,
    writer: Writer<'a, S>,
    // The header, and at most a line for each tick.
    ghost short: { writer.written ≤ 1024 + 1024 * report.now.tick },
}

/// The sink has failed. Its writer knows how much it took.
#[derive(Drop)]
struct SinkFailed;

/// Offers the line of the job that the entry that comes next finishes, if it finishes one.
#[inline(always)]
fn offer_brief<S: Sink>(report: &Report, entry: &Entry, out: &mut Writer<'_, S>)
    requires start { start_of entry.now ≡ report.now.tick }
    requires limit { report.now.tick + ticks_of entry.now ≤ MAX_TICKS }
    requires task { IsEntryOf (length report.now.tasks) entry.now }
    requires room { out.old.written + JOB_LINE_LEN + 1 < 2 ^ 64 }
    ensures bound { out.new.written ≤ out.old.written + JOB_LINE_LEN }
    ensures same { out.new.sink.ghost_name ≡ out.old.sink.ghost_name }
    ensures offers { (set : TaskSet) (t : ℕ) → report.now ≡ report_at set t → GoesOnBy set t entry.now →
        OffersMore S.seen (jobs_text set (legal set t)) (jobs_text set (legal set (t + ticks_of entry.now))) out.old.written out.old.sink.now out.new.written out.new.sink.now }
{
    if let Some(job) = report.finished_by(entry) {
        offer_to(&job, out);
    }
}

/// Offers that line with the details.
#[inline(always)]
fn offer_detailed<S: Sink>(
    report: &Report,
    names: &TaskNames<'_>,
    entry: &Entry,
    out: &mut Writer<'_, S>,
)
    requires start { start_of entry.now ≡ report.now.tick }
    requires limit { report.now.tick + ticks_of entry.now ≤ MAX_TICKS }
    requires task { IsEntryOf (length report.now.tasks) entry.now }
    requires room { out.old.written + JOB_LINE_LEN + 1 < 2 ^ 64 }
    ensures bound { out.new.written ≤ out.old.written + JOB_LINE_LEN }
    ensures same { out.new.sink.ghost_name ≡ out.old.sink.ghost_name }
    ensures offers { (set : TaskSet) (t : ℕ) → report.now ≡ report_at set t → names.now ≡ task_names set → GoesOnBy set t entry.now →
        OffersMore S.seen (detailed_text set (legal set t)) (detailed_text set (legal set (t + ticks_of entry.now))) out.old.written out.old.sink.now out.new.written out.new.sink.now }
{
    if let Some(detailed) = report.detailed_by(entry) {
        offer_to(&DetailedLine { names, detailed }, out);
    }
}

/// Offers that line with the details or without.
#[inline(always)]
fn offer_finished<S: Sink>(
    report: &Report,
    names: &TaskNames<'_>,
    details: bool,
    entry: &Entry,
    out: &mut Writer<'_, S>,
)
    requires start { start_of entry.now ≡ report.now.tick }
    requires limit { report.now.tick + ticks_of entry.now ≤ MAX_TICKS }
    requires task { IsEntryOf (length report.now.tasks) entry.now }
    requires room { out.old.written + JOB_LINE_LEN + 1 < 2 ^ 64 }
    ensures bound { out.new.written ≤ out.old.written + JOB_LINE_LEN }
    ensures same { out.new.sink.ghost_name ≡ out.old.sink.ghost_name }
    ensures offers { (set : TaskSet) (t : ℕ) → report.now ≡ report_at set t → names.now ≡ task_names set → GoesOnBy set t entry.now →
        OffersMore S.seen (listed_text details set (legal set t)) (listed_text details set (legal set (t + ticks_of entry.now))) out.old.written out.old.sink.now out.new.written out.new.sink.now }
{
    if details {
        offer_detailed(report, names, entry, out);
    } else {
        offer_brief(report, entry, out);
    }
}

/// It takes no more once the sink has failed.
impl<S: Sink> Listener for JobLines<'_, '_, '_, S> {
    ghost use Rattle.std.specs.Prelude.{◌≡◌, ℕ, length, true};
    ghost use Rattle.rt_history.specs.Legal.{legal};
    ghost use Rattle.rt_names.specs.TaskNames.{task_names};
    ghost use Rattle.rt_report.specs.DetailText.{listed_text};
    ghost use Rattle.rt_report.specs.Standing.{report_at};
    ghost use Rattle.rt_accounts.specs.Working.JobsOffered.{OffersMore};

    type Fault = SinkFailed;

    ghost Kept = { ℕ × ℕ };

    ghost kept = { λ lines. (lines.writer.sink.ghost_name, lines.report.ghost_name) };

    ghost tick = { λ lines. lines.report.now.tick };

    ghost count = { λ lines. length lines.report.now.tasks };

    ghost told = { λ first lines set t. (lines.report.now ≡ report_at set t) × (lines.names.now ≡ task_names set) × (lines.details ≡ first.details)
        × OffersMore S.seen (listed_text first.details set (legal set first.report.now.tick)) (listed_text first.details set (legal set t)) first.writer.written first.writer.sink.now lines.writer.written lines.writer.sink.now };

    ghost stopped = { λ first lines set t. ((S.seen lines.writer.sink.now).failed ≡ true)
        × OffersMore S.seen (listed_text first.details set (legal set first.report.now.tick)) (listed_text first.details set (legal set t)) first.writer.written first.writer.sink.now lines.writer.written lines.writer.sink.now };

    ghost plain = { true };

    #[inline(always)]
    fn takes_plain(&self) -> bool {
        true
    }

    #[inline(always)]
    fn add<Q: MinQueue, F: Fetcher>(
        &mut self,
        entry: Entry,
        _machine: &Machine<Q, F>,
    ) -> Result<(), SinkFailed> {
        offer_finished(
            self.report,
            self.names,
            self.details,
            &entry,
            &mut self.writer,
        );
        self.report.add(entry);
        if self.writer.has_failed() {
            return Err(SinkFailed);
        }
        Ok(())
    }

    #[inline(always)]
    fn add_plain(&mut self, task: u32, n: u64) -> Result<u64, SinkFailed> {
        self.report.add_plain(task, n);
        Ok(n)
    }
}

/// Runs a machine to tick `n`, and offers the line of each job that is finished on the way. It stops where the sink fails.
fn offer_lines<Q: MinQueue, F: Fetcher, S: Sink, B: Beat>(
    machine: &mut Machine<Q, F>,
    lines: &mut JobLines<'_, '_, '_, S>,
    n: u64,
    beat: &B,
) -> Result<(), SinkFailed>
    requires limit { n ≤ MAX_TICKS }
    requires before { machine.old.tick ≤ n }
    requires together { lines.old.report.now.tick ≡ machine.old.tick }
    requires count { length lines.old.report.now.tasks ≡ length machine.old.tasks }
    ensures same_sink { lines.new.writer.sink.ghost_name ≡ lines.old.writer.sink.ghost_name }
    ensures same_report { lines.new.report.ghost_name ≡ lines.old.report.ghost_name }
    ensures counts { length lines.new.report.now.tasks ≡ length machine.new.tasks }
    ensures arrives { OnOk result ((machine.new.tick ≡ n) × (lines.new.report.now.tick ≡ n)) }
    ensures offers { (set : TaskSet) → machine.old ≡ state_at set machine.old.tick → lines.old.report.now ≡ report_at set machine.old.tick → lines.old.names.now ≡ task_names set →
        OffersMore S.seen (listed_text lines.old.details set (legal set machine.old.tick)) (listed_text lines.old.details set (legal set n)) lines.old.writer.written lines.old.writer.sink.now lines.new.writer.written lines.new.writer.sink.now }
    ensures stands { OnOk result ((set : TaskSet) → machine.old ≡ state_at set machine.old.tick → lines.old.report.now ≡ report_at set machine.old.tick → lines.old.names.now ≡ task_names set →
        (machine.new ≡ state_at set n) × (lines.new.report.now ≡ report_at set n)) }
    ensures stops { OnErr result ((set : TaskSet) → machine.old ≡ state_at set machine.old.tick → lines.old.report.now ≡ report_at set machine.old.tick → lines.old.names.now ≡ task_names set →
        (S.seen lines.new.writer.sink.now).failed ≡ true) }
{
    if lines.writer.has_failed() {
        return Err(SinkFailed);
    }
    follow(machine, lines, n, beat)
}

/// Runs a machine to tick `n`, offers the lines of the jobs that are finished on the way to a new writer, and answers how much of them was
/// taken.
fn end_lines<Q: MinQueue, F: Fetcher, S: Sink, B: Beat>(
    machine: &mut Machine<Q, F>,
    lines: &mut JobLines<'_, '_, '_, S>,
    n: u64,
    beat: &B,
) -> Result<u64, DeviceFault>
    requires limit { n ≤ MAX_TICKS }
    requires before { machine.old.tick ≤ n }
    requires together { lines.old.report.now.tick ≡ machine.old.tick }
    requires count { length lines.old.report.now.tasks ≡ length machine.old.tasks }
    requires is_open { (S.seen lines.old.writer.sink.now).failed ≡ false }
    requires unwritten { lines.old.writer.written ≡ 0 }
    ensures same_sink { lines.new.writer.sink.ghost_name ≡ lines.old.writer.sink.ghost_name }
    ensures same_report { lines.new.report.ghost_name ≡ lines.old.report.ghost_name }
    ensures counts { length lines.new.report.now.tasks ≡ length machine.new.tasks }
    ensures arrives { OnOk result ((machine.new.tick ≡ n) × (lines.new.report.now.tick ≡ n)) }
    ensures ends { (set : TaskSet) → machine.old ≡ state_at set machine.old.tick → lines.old.report.now ≡ report_at set machine.old.tick → lines.old.names.now ≡ task_names set →
        (more : List ℕ) × (listed_text lines.old.details set (legal set n) ≡ listed_text lines.old.details set (legal set machine.old.tick) ++ more)
        × Counts S.seen lines.old.writer.sink.now more result lines.new.writer.sink.now }
    ensures stands { OnOk result ((set : TaskSet) → machine.old ≡ state_at set machine.old.tick → lines.old.report.now ≡ report_at set machine.old.tick → lines.old.names.now ≡ task_names set →
        (machine.new ≡ state_at set n) × (lines.new.report.now ≡ report_at set n)) }
{
    match offer_lines(machine, lines, n, beat) {
        Ok(()) => lines.writer.end(),
        Err(SinkFailed) => Err(DeviceFault {
            written: lines.writer.written,
        }),
    }
}

/// Writes what stands behind the lines of the finished jobs to a sink.
pub(crate) fn write_behind<S: Sink>(
    report: &Report,
    names: &TaskNames<'_>,
    form: JobsForm,
    out: &mut S,
) -> Result<u64, DeviceFault>
    requires { (S.seen out.old).failed ≡ false }
    ensures { (set : TaskSet) (t : ℕ) → report.now ≡ report_at set t → names.now ≡ task_names set →
        Counts S.seen out.old (behind_text form set t) result out.new }
{
    if form.unfinished {
        report.write_unfinished(form.details, names, out)
    } else {
        write(&plain(b""), out)
    }
}

/// Runs a machine to tick `n`, and writes the lines of the jobs that are finished on the way to a sink.
pub(crate) fn write_lines<Q: MinQueue, F: Fetcher, S: Sink, B: Beat>(
    machine: &mut Machine<Q, F>,
    report: &mut Report,
    names: &TaskNames<'_>,
    details: bool,
    n: u64,
    out: &mut S,
    beat: &B,
) -> Result<u64, DeviceFault>
    requires limit { n ≤ MAX_TICKS }
    requires before { machine.old.tick ≤ n }
    requires together { report.old.tick ≡ machine.old.tick }
    requires count { length report.old.tasks ≡ length machine.old.tasks }
    requires is_open { (S.seen out.old).failed ≡ false }
    ensures counts { length report.new.tasks ≡ length machine.new.tasks }
    ensures arrives { OnOk result ((machine.new.tick ≡ n) × (report.new.tick ≡ n)) }
    ensures writes { (set : TaskSet) → machine.old ≡ state_at set machine.old.tick → report.old ≡ report_at set machine.old.tick → names.now ≡ task_names set →
        (more : List ℕ) × (listed_text details set (legal set n) ≡ listed_text details set (legal set machine.old.tick) ++ more)
        × Counts S.seen out.old more result out.new }
    ensures stands { OnOk result ((set : TaskSet) → machine.old ≡ state_at set machine.old.tick → report.old ≡ report_at set machine.old.tick → names.now ≡ task_names set →
        (machine.new ≡ state_at set n) × (report.new ≡ report_at set n)) }
{
    let mut lines = JobLines {
        report,
        names,
        details,
        writer: Writer {
            sink: out,
            written: 0,
        },
    };
    end_lines(machine, &mut lines, n, beat)
}

/// The header of a list with details or without.
fn header(details: bool) -> &'static [u8]
    ensures text { result.now ≡ header_with details }
    ensures short { length result.now ≤ 512 }
{
    if details {
        DETAILED_HEADER
    } else {
        JOBS_HEADER
    }
}

/// Writes the header of the finished jobs to a sink that hasn't failed, with the columns of the details or without, and answers its
/// length in bytes.
///
/// # Errors
///
/// The sink failed: it took so many of the first bytes.
pub fn write_jobs_header<S: Sink>(details: bool, out: &mut S) -> Result<u64, DeviceFault>
    requires { (S.seen out.old).failed ≡ false }
    ensures { Counts S.seen out.old (header_with details) result out.new }
{
    write(&plain(header(details)), out)
}
