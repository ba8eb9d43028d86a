//! A run that is accounted: its report, its jobs, and which failures happened in it.

ghost use Rattle.std.specs.Prelude.{◌≡◌, ℕ, ◌<◌, ◌≤◌, length, false, is_some, Ok, Err, IfOk};
ghost use Rattle.rt_image.specs.SystemFile.{TaskSet};
ghost use Rattle.rt_words.specs.declared.or_memory.OrMemory.TheVariants.{Fault};
ghost use Rattle.rt_names.specs.TaskWords.{task_of, tasks_of};
ghost use Rattle.rt_names.specs.declared.task_word.TaskFault.{TaskFault};
ghost use Rattle.rt_report.specs.Standing.{report_at};
ghost use Rattle.rt_sink.specs.Sink.{Counts};
ghost use Rattle.rt_trace.specs.RunText.{run_text};
ghost use Rattle.rt_accounts.specs.Reporting.{text_at};
ghost use Rattle.rt_accounts.specs.JobListing.{behind_text, WritesOn};
ghost use Rattle.rt_accounts.specs.Failures.{has_happened, happened, counts, first_task, first_failure};
ghost use Rattle.rt_accounts.specs.FailureText.{failing_word, failure_text};
ghost use Rattle.rt_accounts.specs.Accounting.{IsAccounted, OpensAccounts, OpensAlone};

use crate::list_jobs::{JobsForm, write_behind, write_lines};
use crate::report_system::{ReportWidth, write_report};
use rt_core::Machine;
use rt_exec::Predecoded;
use rt_follow::{Beat, follow};
use rt_history::{Moment, params_of};
use rt_image::{System, Task, read_object, read_system};
use rt_names::{TaskFault, TaskName, TaskNames, TaskWord};
use rt_opening::{Admission, LoadFault, SimFault, SoloTask, alone, open_set};
use rt_queue::Tournament;
use rt_report::{Evidence, Failing, Report};
use rt_sink::{DeviceFault, Sink};
use rt_trace::{Heard, Telling, write_run};
use rt_words::{MAX_TICKS, OrMemory, is_ram_size};
use std::alloc::Global;
use std::fmt;
use std::marker::Model;

/// What happened to a task in a run.
#[derive(Clone, Copy, PartialEq, Eq)]
pub struct Failure {
    pub failing: Failing,
    /// The task's number.
    pub task: u32,
}

/// The word that asks for it.
fn word_of(failing: Failing) -> &'static str
    ensures { result.now ≡ failing_word failing }
{
    match failing {
        Failing::Fault => "fault",
        Failing::Over => "over",
        Failing::Soft => "soft",
        Failing::Refused => "refused",
        Failing::Few => "few",
        Failing::Lost => "lost",
    }
}

impl fmt::Display for Failure {
    ghost use Rattle.std.specs.Prelude.{Some};

    ghost output = { λ failure. Some (failure_text failure) };

    fn fmt<W: fmt::Write>(&self, f: &mut fmt::Formatter<W>) -> fmt::Result {
        let word = word_of(self.failing);
        write!(f, "{word} task {}", self.task)
    }
}

/// A run of a system, or of an object alone, that a report follows. It borrows the names of the tasks from the file's bytes. Contracts see
/// the machine, the report and the names; the system is for what is said of failures.
#[derive(Drop)]
pub struct AccountedRun<'a> {
    machine: Machine<Tournament, Predecoded>,
    report: Report,
    names: TaskNames<'a>,
    system: System<'a>,
}

impl<'a> Model for AccountedRun<'a> {
    ghost use Rattle.std.specs.Prelude.{◌≡◌, length};
    ghost use Rattle.rt_accounts.specs.Accounting.{Accounts};

    ghost Value = { Accounts };

    ghost view = { λ run. record { machine = run.machine; report = run.report; names = run.names } };

    ghost invariant = { λ run. (run.report.tick ≡ run.machine.tick) × (length run.report.tasks ≡ length run.machine.tasks) };
}

impl<'a> AccountedRun<'a> {
    /// Loads the system of a file (RTS1 or RTS2), at tick 0; where admission is waived, its set may be overloaded. All memory is taken
    /// here.
    ///
    /// # Errors
    ///
    /// In this order: the refusal of the file, that of admission, `ImageTooBig` or `BadEntry` of the first task with such a fault;
    /// or there is no memory.
    pub fn open(
        alloc: Global,
        bytes: &'a [u8],
        admission: Admission,
    ) -> Result<AccountedRun<'a>, SimFault>
        ensures { OpensAccounts bytes.now admission result }
    {
        let system = read_system(alloc, bytes)?;
        let names = TaskNames::of(alloc, &system)?;
        let params = params_of(alloc, &system.tasks)?;
        let opened = open_set(alloc, admission, &system, &params)?;
        let report = Report::new(alloc, &opened.runnable)?;
        Ok(AccountedRun {
            machine: opened.machine,
            report,
            names,
            system,
        })
    }

    /// Loads the object of a file (RTI1) alone, as this task, at tick 0. All memory is taken here.
    ///
    /// # Errors
    ///
    /// In this order: the refusal of the file, `BadSize` of the RAM, `ImageTooBig`, `BadEntry`; or there is no memory.
    pub fn open_alone(
        alloc: Global,
        bytes: &'a [u8],
        task: SoloTask,
    ) -> Result<AccountedRun<'a>, SimFault>
        ensures { OpensAlone bytes.now task result }
    {
        let object = read_object(alloc, bytes)?;
        if !is_ram_size(task.ram) {
            return Err(SimFault::Load(LoadFault::BadSize));
        }
        let system = alone(alloc, object, task)?;
        let names = TaskNames::of(alloc, &system)?;
        let params = params_of(alloc, &system.tasks)?;
        let opened = open_set(alloc, Admission::Required, &system, &params)?;
        let report = Report::new(alloc, &opened.runnable)?;
        Ok(AccountedRun {
            machine: opened.machine,
            report,
            names,
            system,
        })
    }

    /// The tick that comes next: 0 to 2^40.
    pub fn now(&self) -> u64
        ensures value { result ≡ self.now.machine.tick }
        ensures limit { result ≤ MAX_TICKS }
    {
        self.machine.now()
    }

    /// Runs on to tick `n`, from its own tick up to 2^40, and beats on the way. Takes no memory.
    pub fn run<B: Beat>(self, n: u64, beat: &B) -> AccountedRun<'a>
        requires limit { n ≤ MAX_TICKS }
        requires before { self.machine.tick ≤ n }
        ensures clock { result.machine.tick ≡ n }
        ensures stands { (set : TaskSet) (t : ℕ) → IsAccounted set t self.entry → IsAccounted set n result }
    {
        let AccountedRun {
            mut machine,
            mut report,
            names,
            system,
        } = self;
        match follow(&mut machine, &mut report, n, beat) {
            Ok(()) => AccountedRun {
                machine,
                report,
                names,
                system,
            },
        }
    }

    /// Runs from tick 0 to tick `n`, at most 2^40, and writes the text of the run to a sink that hasn't failed. The answer is the text's
    /// length in bytes. Takes no memory.
    ///
    /// # Errors
    ///
    /// The sink failed: it took so many of the first bytes of the text. The run ends there.
    pub fn write_run<S: Sink>(
        self,
        telling: Telling,
        n: u64,
        out: &mut S,
    ) -> (AccountedRun<'a>, Result<u64, DeviceFault>)
        requires limit { n ≤ MAX_TICKS }
        requires start { self.machine.tick ≡ 0 }
        requires is_open { (S.seen out.old).failed ≡ false }
        ensures writes { (set : TaskSet) → IsAccounted set 0 self.entry → Counts S.seen out.old (run_text telling set n) result.1 out.new }
        ensures stands { IfOk result.1 (λ _. (set : TaskSet) → IsAccounted set 0 self.entry → IsAccounted set n result.0) }
    {
        let AccountedRun {
            mut machine,
            report,
            names,
            system,
        } = self;
        let mut heard = Heard { listener: report };
        let written = write_run(&mut machine, &mut heard, telling, n, out);
        let run = AccountedRun {
            machine,
            report: heard.listener,
            names,
            system,
        };
        (run, written)
    }

    /// Writes the report of its ticks, of this width, to a sink that hasn't failed, and answers its length in bytes.
    ///
    /// # Errors
    ///
    /// The sink failed: it took so many of the first bytes of the text.
    pub fn write_report<S: Sink>(&self, width: ReportWidth, out: &mut S) -> Result<u64, DeviceFault>
        requires { (S.seen out.old).failed ≡ false }
        ensures { (set : TaskSet) (t : ℕ) → IsAccounted set t self.now → Counts S.seen out.old (text_at width set t) result out.new }
    {
        write_report(&self.report, &self.names, width, out)
    }

    /// Runs on to tick `n`, from its own tick up to 2^40, and writes the lines of the jobs that are finished on the way, with details or
    /// without, to a sink that hasn't failed. It beats on the way, and takes no memory.
    ///
    /// # Errors
    ///
    /// The sink failed: it took so many of the first bytes of these lines. The run ends there.
    pub fn write_jobs_until<S: Sink, B: Beat>(
        self,
        details: bool,
        n: u64,
        out: &mut S,
        beat: &B,
    ) -> Result<AccountedRun<'a>, DeviceFault>
        requires limit { n ≤ MAX_TICKS }
        requires before { self.machine.tick ≤ n }
        requires is_open { (S.seen out.old).failed ≡ false }
        ensures clock { IfOk result (λ run. run.machine.tick ≡ n) }
        ensures writes { (set : TaskSet) (t : ℕ) → IsAccounted set t self.entry → WritesOn S.seen set details t n out.old result out.new }
    {
        let AccountedRun {
            mut machine,
            mut report,
            names,
            system,
        } = self;
        match write_lines(&mut machine, &mut report, &names, details, n, out, beat) {
            Ok(_) => Ok(AccountedRun {
                machine,
                report,
                names,
                system,
            }),
            Err(fault) => Err(fault),
        }
    }

    /// Writes the lines of the jobs that aren't finished to a sink that hasn't failed, if the form has them, and answers their
    /// length in bytes. Takes no memory.
    ///
    /// # Errors
    ///
    /// The sink failed: it took so many of the first bytes of these lines.
    pub fn write_unfinished<S: Sink>(&self, form: JobsForm, out: &mut S) -> Result<u64, DeviceFault>
        requires { (S.seen out.old).failed ≡ false }
        ensures { (set : TaskSet) (t : ℕ) → IsAccounted set t self.now → Counts S.seen out.old (behind_text form set t) result out.new }
    {
        write_behind(&self.report, &self.names, form, out)
    }

    /// Its machine.
    pub fn machine(&self) -> &Machine<Tournament, Predecoded>
        ensures { result.now ≡ self.now.machine }
    {
        &self.machine
    }

    /// Its tasks as they were loaded.
    pub fn tasks(&self) -> &[Task<'a>] {
        &self.system.tasks
    }

    /// How many tasks there are.
    pub fn count(&self) -> u32
        ensures { result ≡ length self.now.machine.tasks }
    {
        self.machine.count()
    }

    /// Whether this happened. Takes no memory.
    pub fn has_failed(&self, failure: Failure) -> bool
        ensures { (set : TaskSet) (t : ℕ) → IsAccounted set t self.now → result ≡ happened failure set t }
    {
        failure.task < self.count() && self.has_happened(failure.task, failure.failing)
    }

    /// When a write of a task was first refused since its output had no room for it, if one was. Takes no memory.
    pub fn full_since(&self, task: u32) -> Option<Moment>
        ensures { (set : TaskSet) (t : ℕ) → IsAccounted set t self.now → is_some result ≡ has_happened Failing.Lost set t task }
    {
        self.machine.full_since(task)
    }

    /// Whether this happened to a task of the set.
    fn has_happened(&self, task: u32, failing: Failing) -> bool
        requires { task < length self.now.machine.tasks }
        ensures { (set : TaskSet) (t : ℕ) → IsAccounted set t self.now → result ≡ has_happened failing set t task }
    {
        let full = self.full_since(task).is_some();
        self.report.has_failed(task, failing, full)
    }

    /// Whether this happened to a task of the set that isn't excepted.
    fn counts(&self, task: u32, failing: Failing, except: &[usize]) -> bool
        requires { task < length self.now.machine.tasks }
        ensures { (set : TaskSet) (t : ℕ) → IsAccounted set t self.now → result ≡ counts failing except.now set t task }
    {
        !except.contains(&(task as usize)) && self.has_happened(task, failing)
    }

    /// The task that a word means. Takes no memory.
    ///
    /// # Errors
    ///
    /// Why the word means no task of the set.
    pub fn task_of<'w>(&self, word: TaskWord<'w>) -> Result<usize, TaskFault<'w>>
        ensures { result ≡ task_of self.now.names word.entry }
    {
        self.names.task_of(word)
    }

    /// The tasks that words mean, in the order of the words.
    ///
    /// # Errors
    ///
    /// The first word that means no task of the set, and why; or there is no memory.
    pub fn tasks_of<'w>(
        &self,
        alloc: Global,
        words: &[TaskWord<'w>],
    ) -> Result<Vec<usize>, OrMemory<TaskFault<'w>>>
        ensures found { IfOk result (λ tasks. tasks_of self.now.names words.now ≡ Ok tasks.items) }
        ensures refused { (fault : TaskFault) → result ≡ Err (Fault fault) → tasks_of self.now.names words.now ≡ Err fault }
    {
        self.names.tasks_of(alloc, words)
    }

    /// The name of a task, if it is there. Takes no memory.
    pub fn name(&self, task: u32) -> Option<&TaskName<'a>> {
        self.names.get(task)
    }

    /// A task as it was loaded, if it is there. Takes no memory.
    pub fn task(&self, task: u32) -> Option<&Task<'a>> {
        self.system.tasks.get(task as usize)
    }

    /// What is known of a task's failures, if it is there. Takes no memory.
    pub fn evidence(&self, task: u32) -> Option<Evidence> {
        self.report.evidence(task)
    }

    /// The least task to which this happened, of those that aren't excepted.
    fn first_task(&self, failing: Failing, except: &[usize]) -> Option<u32>
        ensures { (set : TaskSet) (t : ℕ) → IsAccounted set t self.now → result ≡ first_task failing except.now set t }
    {
        for task in 0..self.count() {
            if self.counts(task, failing, except) {
                return Some(task);
            }
        }
        None
    }

    /// The first of these failures that happened: of the first of the list that did, that of the least task that isn't excepted. Takes no
    /// memory.
    pub fn first_failure(&self, asked: &[Failing], except: &[usize]) -> Option<Failure>
        ensures { (set : TaskSet) (t : ℕ) → IsAccounted set t self.now → result ≡ first_failure asked.now except.now set t }
    {
        for failing in asked {
            if let Some(task) = self.first_task(*failing, except) {
                return Some(Failure {
                    failing: *failing,
                    task,
                });
            }
        }
        None
    }
}
