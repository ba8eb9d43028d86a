//! The report: what it keeps, and how it is given a history.

ghost use Rattle.std.specs.Prelude.{◌≡◌, ℕ, ◌+◌, ◌*◌, ◌^◌, ◌<◌, ◌≤◌, ◌++◌, false, length, map, slice_get, All, Some, IfOk};
ghost use Rattle.std.specs.Option.{option_to_list};
ghost use Rattle.rt_image.specs.SystemFile.{SetTask, TaskSet};
ghost use Rattle.rt_names.specs.TaskNames.{task_names};
ghost use Rattle.rt_history.specs.Admitted.{IsAdmittedSet, task_params};
ghost use Rattle.rt_history.specs.Entries.{start_of, ticks_of, IsEntryOf, GoesOnBy};
ghost use Rattle.rt_history.specs.Job.{jobs};
ghost use Rattle.rt_history.specs.Legal.{legal};
ghost use Rattle.rt_history.specs.OwnPart.{own};
ghost use Rattle.rt_history.specs.Plain.{ArePlain};
ghost use Rattle.rt_laws.specs.Periodic.{ArePeriodic};
ghost use Rattle.rt_sink.specs.Sink.{Counts};
ghost use Rattle.rt_report.specs.Rows.{rows, idle_ticks};
ghost use Rattle.rt_report.specs.JobLines.{finished_jobs};
ghost use Rattle.rt_report.specs.ReportText.{text_of, report_text};
ghost use Rattle.rt_report.specs.WideRows.{wide_rows};
ghost use Rattle.rt_report.specs.WideText.{wide_text_of, wide_text};
ghost use Rattle.rt_report.specs.CsvText.{csv_text_of, csv_text};
ghost use Rattle.rt_report.specs.Standing.{report_at, wide_row_at};
ghost use Rattle.rt_report.specs.Working.Tallied.{first_reports, tallied_at, added};
ghost use Rattle.rt_report.specs.Working.Plainly.{added_plain};
ghost use Rattle.rt_report.specs.JobDetails.{detailed_jobs};
ghost use Rattle.rt_report.specs.DetailText.{unfinished_text};
ghost use Rattle.rt_report.specs.Failures.{has_failed};
ghost use Rattle.rt_report.specs.Working.Finishing.{finishing_by};
ghost use Rattle.rt_report.specs.Working.Detailing.{detailing_by};
ghost use Rattle.rt_report.specs.Working.Seen.{seen_at};

use crate::csv_text::CSV_HEADER;
use crate::detailed_job::DetailedJob;
use crate::evidence::Evidence;
use crate::failing::Failing;
use crate::finished_job::FinishedJob;
use crate::lazy_tally::LazyTally;
use crate::row::Row;
use crate::task_text::{CsvLine, NarrowLine, OpenLine, WideLine};
use crate::text::{HEADER, IdleLine};
use crate::wide_row::WideRow;
use crate::wide_text::WIDE_HEADER;
use rt_admit::Runnable;
use rt_history::{AttemptOutcome, Entry};
use rt_names::TaskNames;
use rt_sink::{DeviceFault, Sink};
use rt_text_out::{Each, plain, write};
use rt_words::MAX_TICKS;
use std::alloc::{AllocError, Global};
use std::marker::Model;

/// What the jobs of each task of a set took, up to a tick.
///
/// It keeps no history: it is given the entries of one, the first from tick 0 on. Contracts see the tick, how many ticks were
/// idle, and what is kept of each task.
#[derive(Drop)]
pub struct Report {
    clock: u64,
    tasks: Vec<LazyTally>,
    // Apart from the clock: where both are added to at once, what was just stored of one is waited for.
    idle: u64,
}

impl Model for Report {
    ghost use Rattle.rt_report.specs.Standing.{ReportState};
    ghost use Rattle.rt_report.specs.Working.Tallied.{IsSoundReport};

    ghost Value = { ReportState };

    ghost view = { λ r. record { tick = r.clock; idle = r.idle; tasks = r.tasks.items } };

    ghost invariant = { λ r. IsSoundReport r.clock r.idle r.tasks.items };
}

impl Report {
    /// The report of a set before its first tick. All room that it needs is taken here.
    ///
    /// # Errors
    ///
    /// There is no memory for it.
    pub fn new(alloc: Global, runnable: &Runnable<'_>) -> Result<Report, AllocError>
        ensures count { IfOk result (λ report. length report.tasks ≡ length runnable.now.tasks) }
        ensures clock { IfOk result (λ report. report.tick ≡ 0) }
        ensures stands { IfOk result (λ report. (set : TaskSet) → task_params set.tasks ≡ runnable.now.tasks → report ≡ report_at set 0) }
    {
        let params = runnable.params();
        let mut tasks = Vec::new(alloc);
        for (task, params) in params.iter().enumerate() {
            tasks.push(LazyTally::new(task as u32, params))?;
        }
        Ok(Report {
            clock: 0,
            idle: 0,
            tasks,
        })
    }

    /// The tick up to which it has taken the history, 0 to 2^40. Takes no memory.
    pub fn now(&self) -> u64
        ensures value { result ≡ self.now.tick }
        ensures limit { result ≤ MAX_TICKS }
    {
        self.clock
    }

    /// How many tasks there are. Takes no memory.
    pub fn count(&self) -> u32
        ensures { result ≡ length self.now.tasks }
    {
        self.tasks.len() as u32
    }

    /// Takes a record of the coming tick, of an instruction at this address.
    #[inline(always)]
    fn take_busy(&mut self, task: u32, pc: u32, outcome: AttemptOutcome)
        requires limit { self.old.tick + 1 ≤ MAX_TICKS }
        requires task { task < length self.old.tasks }
        ensures { self.new ≡ record self.old { tick = self.old.tick + 1; tasks = tallied_at self.old.tick outcome self.old.tasks task } }
    {
        self.tasks[task as usize].take(self.clock, pc, outcome);
        self.clock += 1;
    }

    /// Takes `n` idle ticks.
    fn take_idle(&mut self, n: u64)
        requires limit { self.old.tick + n ≤ MAX_TICKS }
        ensures { self.new ≡ record self.old { tick = self.old.tick + n; idle = self.old.idle + n } }
    {
        self.clock += n;
        self.idle += n;
    }

    /// Takes an entry.
    #[inline(always)]
    fn take(&mut self, entry: Entry)
        requires limit { self.old.tick + ticks_of entry ≤ MAX_TICKS }
        requires task { IsEntryOf (length self.old.tasks) entry }
        ensures { self.new ≡ added entry self.old }
    {
        match entry {
            Entry::Busy { rec, .. } => self.take_busy(rec.task, rec.pc, rec.outcome),
            Entry::Idle { n, .. } => self.take_idle(n),
        }
    }

    /// The job that the coming entry finishes, from what is kept.
    fn finishing(&self, entry: &Entry) -> Option<FinishedJob>
        requires limit { self.now.tick + ticks_of entry.now ≤ MAX_TICKS }
        requires task { IsEntryOf (length self.now.tasks) entry.now }
        ensures { result ≡ finishing_by entry.now self.now }
    {
        match entry {
            Entry::Busy { rec, .. } => {
                self.tasks[rec.task as usize].finishing(self.clock, rec.outcome)
            }
            Entry::Idle { .. } => None,
        }
    }

    /// The job that the entry that comes next finishes, if it finishes one. The entry is as `add` takes it, and is still to be
    /// added. Takes no memory.
    pub fn finished_by(&self, entry: &Entry) -> Option<FinishedJob>
        requires start { start_of entry.now ≡ self.now.tick }
        requires limit { self.now.tick + ticks_of entry.now ≤ MAX_TICKS }
        requires task { IsEntryOf (length self.now.tasks) entry.now }
        ensures { (set : TaskSet) (t : ℕ) → self.now ≡ report_at set t → GoesOnBy set t entry.now →
            finished_jobs set (legal set (t + ticks_of entry.now)) ≡ finished_jobs set (legal set t) ++ option_to_list result }
    {
        self.finishing(entry)
    }

    /// The job that the coming entry finishes with its details, from what is kept.
    fn detailing(&self, entry: &Entry) -> Option<DetailedJob>
        requires limit { self.now.tick + ticks_of entry.now ≤ MAX_TICKS }
        requires task { IsEntryOf (length self.now.tasks) entry.now }
        ensures { result ≡ detailing_by entry.now self.now }
    {
        match entry {
            Entry::Busy { rec, .. } => {
                self.tasks[rec.task as usize].detailing(self.clock, rec.outcome)
            }
            Entry::Idle { .. } => None,
        }
    }

    /// The job that the entry that comes next finishes, with its details, if it finishes one. The entry is as [`finished_by`] takes
    /// it. Takes no memory.
    ///
    /// [`finished_by`]: Report::finished_by
    pub fn detailed_by(&self, entry: &Entry) -> Option<DetailedJob>
        requires start { start_of entry.now ≡ self.now.tick }
        requires limit { self.now.tick + ticks_of entry.now ≤ MAX_TICKS }
        requires task { IsEntryOf (length self.now.tasks) entry.now }
        ensures { (set : TaskSet) (t : ℕ) → self.now ≡ report_at set t → GoesOnBy set t entry.now →
            detailed_jobs set (legal set (t + ticks_of entry.now)) ≡ detailed_jobs set (legal set t) ++ option_to_list result }
    {
        self.detailing(entry)
    }

    /// Whether a task has this failure, from what is kept, where its output was full for a write or for none.
    fn is_seen(&self, task: u32, failing: Failing, full: bool) -> bool
        requires { task < length self.now.tasks }
        ensures { result ≡ seen_at failing full self.now task }
    {
        self.tasks[task as usize].has_failed(self.clock, failing, full)
    }

    /// Whether a task of the set has this failure in the ticks that the report has taken. The machine knows whether its output was full for a
    /// write. Takes no memory.
    pub fn has_failed(&self, task: u32, failing: Failing, full: bool) -> bool
        requires { task < length self.now.tasks }
        ensures { (set : TaskSet) (t : ℕ) → self.now ≡ report_at set t → full ≡ has_failed Failing.Lost set t (legal set t) task →
            result ≡ has_failed failing set t (legal set t) task }
    {
        self.is_seen(task, failing, full)
    }

    /// What is known of a task's failures, for what is said of them, if there is this task. Takes no memory.
    pub fn evidence(&self, task: u32) -> Option<Evidence> {
        Some(self.tasks.get(task as usize)?.evidence(self.clock))
    }

    /// Takes the entry that comes next: it begins at the tick where the one before ended, the first at 0, it ends at 2^40 at
    /// most, and its task is of the set. A stretch of idle ticks may be cut anywhere, and is one step. A reserve that the task's
    /// server can't take, of 0 or of more than the period, counts as refused; no legal history has one. Takes no memory.
    #[inline(always)]
    pub fn add(&mut self, entry: Entry)
        requires start { start_of entry ≡ self.old.tick }
        requires limit { self.old.tick + ticks_of entry ≤ MAX_TICKS }
        requires task { IsEntryOf (length self.old.tasks) entry }
        ensures clock { self.new.tick ≡ self.old.tick + ticks_of entry }
        ensures count { length self.new.tasks ≡ length self.old.tasks }
        ensures stands { (set : TaskSet) (t : ℕ) → self.old ≡ report_at set t → GoesOnBy set t entry → self.new ≡ report_at set (t + ticks_of entry) }
    {
        self.take(entry);
    }

    /// Takes `n` plain ticks of a task.
    #[inline(always)]
    fn take_plain(&mut self, task: u32, n: u64)
        requires limit { self.old.tick + n ≤ MAX_TICKS }
        requires task { task < length self.old.tasks }
        ensures { self.new ≡ added_plain task n self.old }
    {
        if n > 0 {
            self.tasks[task as usize].take_plain(self.clock, n);
            self.clock += n;
        }
    }

    /// Takes the `n` ticks that come next, plain ones of a task of the set: each carried out an instruction that is no call. They
    /// end at 2^40 at most. It is what [`add`] makes of them one by one, in one step. Takes no memory.
    ///
    /// [`add`]: Report::add
    #[inline(always)]
    pub fn add_plain(&mut self, task: u32, n: u64)
        requires limit { self.old.tick + n ≤ MAX_TICKS }
        requires task { task < length self.old.tasks }
        ensures clock { self.new.tick ≡ self.old.tick + n }
        ensures count { length self.new.tasks ≡ length self.old.tasks }
        ensures stands { (set : TaskSet) (t : ℕ) → self.old ≡ report_at set t → ArePlain set t task n → self.new ≡ report_at set (t + n) }
    {
        self.take_plain(task, n);
    }

    /// How many ticks were idle, 0 to 2^40. Takes no memory.
    pub fn idle(&self) -> u64
        ensures value { result ≡ self.now.idle }
        ensures legal { (set : TaskSet) (t : ℕ) → self.now ≡ report_at set t → result ≡ idle_ticks (legal set t) }
    {
        self.idle
    }

    /// A row for each task, in order of number. After a legal history of an admitted set no job is late, and all jobs of a
    /// periodic task are hard.
    ///
    /// # Errors
    ///
    /// There is no memory for them.
    pub fn rows(&self) -> Result<Vec<Row>, AllocError>
        ensures value { IfOk result (λ found. found.items ≡ map (λ x. x.row) self.now.tasks) }
        ensures legal { IfOk result (λ found. (set : TaskSet) (t : ℕ) → self.now ≡ report_at set t → found.items ≡ rows set (legal set t)) }
        ensures none_late { IfOk result (λ found. (set : TaskSet) (t : ℕ) → IsAdmittedSet set → self.now ≡ report_at set t →
            All (λ r. r.late ≡ 0) found.items) }
        ensures periodic { IfOk result (λ found. (set : TaskSet) (t i : ℕ) (s : SetTask) (r : Row) → IsAdmittedSet set → self.now ≡ report_at set t →
            slice_get set.tasks i ≡ Some s → slice_get found.items i ≡ Some r → ArePeriodic s.period (jobs s (own i (legal set t))) → r.hard ≡ r.jobs) }
    {
        let mut rows = Vec::new(*self.tasks.allocator());
        for tally in &self.tasks {
            rows.push(tally.row())?;
        }
        Ok(rows)
    }

    /// Writes the text of the report to a sink: a header, a line for each task, and the idle ticks. The answer is the text's
    /// length in bytes. Takes no memory.
    ///
    /// # Errors
    ///
    /// The sink failed. `written` is how many of the first bytes of the text it took.
    pub fn write_text<S: Sink>(&self, out: &mut S) -> Result<u64, DeviceFault>
        requires { (S.seen out.old).failed ≡ false }
        ensures value { Counts S.seen out.old (text_of (map (λ x. x.row) self.now.tasks) self.now.idle) result out.new }
        ensures legal { (set : TaskSet) (t : ℕ) → self.now ≡ report_at set t →
            Counts S.seen out.old (report_text set (legal set t)) result out.new }
    {
        let rows = Each {
            items: &self.tasks,
            by: NarrowLine,
        };
        let text = (plain(HEADER), rows, IdleLine(self.idle()));
        write(&text, out)
    }

    /// A wide row for each task, in order of number.
    ///
    /// # Errors
    ///
    /// There is no memory for them.
    pub fn wide_rows(&self) -> Result<Vec<WideRow>, AllocError>
        ensures value { IfOk result (λ found. found.items ≡ map (wide_row_at self.now.tick) self.now.tasks) }
        ensures legal { IfOk result (λ found. (set : TaskSet) (t : ℕ) → self.now ≡ report_at set t → found.items ≡ wide_rows set t (legal set t)) }
    {
        let mut rows = Vec::new(*self.tasks.allocator());
        for tally in &self.tasks {
            rows.push(tally.wide_row(self.clock))?;
        }
        Ok(rows)
    }

    /// Writes the text of the wide report to a sink: as [`write_text`], with the columns of the wide rows behind those of the
    /// rows, and the names of the tasks of the set behind them. The answer is the text's length in bytes. Takes no memory.
    ///
    /// # Errors
    ///
    /// The sink failed. `written` is how many of the first bytes of the text it took.
    ///
    /// [`write_text`]: Report::write_text
    pub fn write_wide_text<S: Sink>(
        &self,
        names: &TaskNames<'_>,
        out: &mut S,
    ) -> Result<u64, DeviceFault>
        requires { (S.seen out.old).failed ≡ false }
        ensures value { Counts S.seen out.old (wide_text_of names.now (map (wide_row_at self.now.tick) self.now.tasks) self.now.idle) result out.new }
        ensures legal { (set : TaskSet) (t : ℕ) → self.now ≡ report_at set t → names.now ≡ task_names set →
            Counts S.seen out.old (wide_text set t (legal set t)) result out.new }
    {
        let by = WideLine {
            names,
            tick: self.clock,
        };
        let rows = Each {
            items: &self.tasks,
            by,
        };
        let text = (plain(WIDE_HEADER), rows, IdleLine(self.idle()));
        write(&text, out)
    }

    /// Writes the lines of the jobs that aren't finished to a sink, in the order of tasks, with details and the names of the tasks of the
    /// set or without. The answer is their length in bytes. Takes no memory.
    ///
    /// # Errors
    ///
    /// The sink failed. `written` is how many of the first bytes of the lines it took.
    pub fn write_unfinished<S: Sink>(
        &self,
        details: bool,
        names: &TaskNames<'_>,
        out: &mut S,
    ) -> Result<u64, DeviceFault>
        requires { (S.seen out.old).failed ≡ false }
        ensures { (set : TaskSet) (t : ℕ) → self.now ≡ report_at set t → names.now ≡ task_names set →
            Counts S.seen out.old (unfinished_text details set (legal set t)) result out.new }
    {
        let lines = Each {
            items: &self.tasks,
            by: OpenLine { details, names },
        };
        write(&lines, out)
    }

    /// Writes the wide report to a sink as comma-separated values (RFC 4180, with LF): a header, and a line for each task, with its name
    /// from those of the set. A value that isn't there is empty. The answer is the text's length in bytes. Takes no memory.
    ///
    /// # Errors
    ///
    /// The sink failed. `written` is how many of the first bytes of the text it took.
    pub fn write_csv<S: Sink>(&self, names: &TaskNames<'_>, out: &mut S) -> Result<u64, DeviceFault>
        requires { (S.seen out.old).failed ≡ false }
        ensures value { Counts S.seen out.old (csv_text_of names.now (map (wide_row_at self.now.tick) self.now.tasks)) result out.new }
        ensures legal { (set : TaskSet) (t : ℕ) → self.now ≡ report_at set t → names.now ≡ task_names set →
            Counts S.seen out.old (csv_text set t (legal set t)) result out.new }
    {
        let by = CsvLine {
            names,
            tick: self.clock,
        };
        let rows = Each {
            items: &self.tasks,
            by,
        };
        let text = (plain(CSV_HEADER), rows);
        write(&text, out)
    }
}
