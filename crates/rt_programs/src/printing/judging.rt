//! The text of a run, and the failures that happened in it.

ghost use Rattle.std.specs.Prelude.{◌≡◌, ◌<◌, ◌≤◌, ◌^◌, ℕ, List, [], length, true, false, min, Some, None, Ok, Err, IfOk, IfErr, IfSome};
ghost use Rattle.std.specs.Option.{option_map};
ghost use Rattle.rt_words.specs.Limits.{tick_limit};
ghost use Rattle.rt_sink.specs.Buffered.{BufferedSink, gathering, told};
ghost use Rattle.rt_image.specs.SystemFile.{TaskSet, task_set, system_spelling};
ghost use Rattle.rt_history.specs.Legal.{state_at};
ghost use Rattle.rt_fault_lines.specs.Calm.{IsCalm};
ghost use Rattle.rt_sink.specs.Sink.{Counts};
ghost use Rattle.rt_opening.specs.Ends.{Apart, EndsTelling};
ghost use Rattle.rt_accounts.specs.Reporting.{ReportMeans};
ghost use Rattle.rt_accounts.specs.Failures.{first_failure};
ghost use Rattle.rt_accounts.specs.Accounting.{IsAccounted, OpensAccounts};
ghost use Rattle.rt_names.specs.TaskWords.{task_of, tasks_of};
ghost use Rattle.rt_names.specs.declared.task_word.TaskWord.{TaskWord};
ghost use Rattle.rt_programs.specs.Asked.{IsMeant};
ghost use Rattle.rt_programs.specs.Certify.{CertifiesCalmly};
ghost use Rattle.rt_programs.specs.Showing.{is_object};
ghost use Rattle.rt_programs.specs.Working.SetOpened.{IsCertifiable};
ghost use Rattle.rt_programs.specs.declared.printing.file_text.FileText.TheVariants.{Certificates};
ghost use Rattle.rt_programs.specs.printing.Fails.{ticks_of, certificates_of, Fails, Misnames};
ghost use Rattle.rt_programs.specs.declared.printing.judging.Finding.TheVariants.{Failed, Uncertified as Lacks};
ghost use Rattle.rt_programs.specs.declared.printing.judging.Verdict.TheVariants.{Judged};
ghost use Rattle.rt_programs.specs.printing.TextMeans.{TextMeans, Excepts, EndsCalmly};
ghost use Rattle.rt_programs.specs.printing.Judges.{Judges};
ghost use Rattle.rt_programs.specs.Working.Told.{told_text, ToldIs};
ghost use Rattle.rt_programs.specs.printing.Working.Judged.{looked_at, Opens, IsOf, told_of, PrintsRun};

use crate::certify_set::CertifiableSet;
use crate::printing::failure_line::failure_line;
use crate::printing::file_text::FileText;
use crate::printing::finishing::finish;
use crate::printing::joining::joined;
use crate::printing::printing_jobs::print_lines;
use crate::run_part::write_of;
use crate::show_file::is_object;
use crate::{
    AccountedRun, Admission, Beat, Failing, Failure, Question, ReportWidth, RunPart, SimFault,
    TaskFault, TaskWord, Uncertified, certify,
};
use rt_certify::certified_set_is_in_time;
use rt_fault_lines::FaultLines;
use rt_fault_lines::shown::Explanation;
use rt_opening::answer;
use rt_sink::{Buffered, DeviceFault, Sink};
use rt_trace::Telling;
use rt_words::{MAX_TICKS, OrMemory};
use std::alloc::Global;

/// How many ticks a text that is of a run runs.
fn ticks_of(text: FileText<'_>) -> Option<u64>
    ensures { result ≡ ticks_of text.entry }
{
    match text {
        FileText::Solo { ticks, .. } | FileText::SoloPart { ticks, .. } => Some(ticks),
        FileText::Run { ticks } | FileText::RunPart { ticks, .. } => Some(ticks),
        FileText::Report { ticks, .. } | FileText::Jobs { ticks, .. } => Some(ticks),
        FileText::Chart { window, .. } => Some(window.to),
        FileText::Trace { from, ticks, .. } => Some(from.saturating_add(ticks).min(MAX_TICKS)),
        _ => None,
    }
}

/// How many ticks the run has that is loaded for a text, if one is: the text is a part of it, of jobs, a picture in which tasks are excepted,
/// the trace of a task, or of a run in which failures are looked for.
fn looked_at(text: FileText<'_>, fail_on: &[Failing], except: &[TaskWord<'_>]) -> Option<u64>
    ensures { result ≡ looked_at text.entry fail_on.now except.now }
{
    match text {
        FileText::Jobs { .. } | FileText::SoloPart { .. } | FileText::RunPart { .. } => ticks_of(
            text,
        ),
        FileText::Trace { task: Some(_), .. } => ticks_of(text),
        FileText::Chart { .. } if !except.is_empty() => ticks_of(text),
        _ if fail_on.is_empty() => None,
        _ => ticks_of(text),
    }
}

/// The certificates that a text asks for, if it does.
fn certificates_of(text: FileText<'_>) -> Option<Question>
    ensures { result ≡ certificates_of text.entry }
{
    match text {
        FileText::Certificates(question) => Some(question),
        _ => None,
    }
}

/// Loads the run that a text of a file of these bytes is of, before its first tick.
fn open<'a>(
    alloc: Global,
    bytes: &'a [u8],
    admission: Admission,
    text: FileText<'_>,
) -> Result<AccountedRun<'a>, SimFault>
    ensures { Opens admission text.entry bytes.now result }
{
    match text {
        FileText::Solo { task, .. } | FileText::SoloPart { task, .. } => {
            AccountedRun::open_alone(alloc, bytes, task)
        }
        _ => AccountedRun::open(alloc, bytes, admission),
    }
}

/// Which failures a build asks for.
#[derive(Clone, Copy, PartialEq, Eq)]
pub struct Asked<'a> {
    /// These; none where the list is empty.
    pub fail_on: &'a [Failing],
    /// But not of the tasks that these words mean. A picture is drawn without their jobs over the period.
    pub except: &'a [TaskWord<'a>],
}

/// What is found wrong.
#[derive(Clone, Copy, PartialEq, Eq)]
pub enum Finding<'a> {
    /// This failure happened in a run.
    Failed(Failure),
    /// This task of a set isn't certified.
    Uncertified(Uncertified<'a>),
}

/// What is found of a run, or of certificates.
#[derive(Clone, Copy, PartialEq, Eq)]
pub enum Verdict<'a> {
    /// Its text is printed, and this is the first that is wrong, if something is.
    Judged(Option<Finding<'a>>),
    /// A word means no task, and nothing is printed.
    Misnamed(TaskFault<'a>),
}

/// A failure, as what is found.
fn failed<'a>(first: Option<Failure>) -> Option<Finding<'a>>
    ensures { result ≡ option_map Failed first }
{
    match first {
        Some(failure) => Some(Finding::Failed(failure)),
        None => None,
    }
}

/// A task that isn't certified, as what is found.
fn uncertified<'a>(first: Option<Uncertified<'a>>) -> Option<Finding<'a>>
    ensures { result ≡ option_map Lacks first.entry }
{
    match first {
        Some(task) => Some(Finding::Uncertified(task)),
        None => None,
    }
}

/// The line behind that of the first failure, which is reported by itself, and the lines of the others.
fn further(
    alloc: Global,
    run: &AccountedRun<'_>,
    fail_on: &[Failing],
    except: &[usize],
    first: Failure,
) -> Explanation {
    let mut lines = failure_line(alloc, run, first)?;
    for failing in fail_on {
        for task in 0..run.count() {
            let failure = Failure {
                failing: *failing,
                task,
            };
            let counts = !except.contains(&(task as usize)) && run.has_failed(failure);
            if failure != first && counts {
                let line = format!(in alloc; "  {failure}")?;
                let line = joined(alloc, Some(line), failure_line(alloc, run, failure)?)?;
                lines = joined(alloc, lines, line)?;
            }
        }
    }
    Ok(lines)
}

/// The first of these failures in a run, of a task that isn't excepted. What there is to say of it and of the others is noted before the
/// tasks that faulted.
fn judge(
    alloc: Global,
    run: &AccountedRun<'_>,
    fail_on: &[Failing],
    except: &[usize],
    faulted: &mut FaultLines,
) -> Option<Failure>
    ensures first { (set : TaskSet) (t : ℕ) → IsAccounted set t run.now → result ≡ first_failure fail_on.now except.now set t }
    ensures quiet { result ≡ None → faulted.new.lines ≡ faulted.old.lines }
{
    let first = run.first_failure(fail_on, except)?;
    let noted = faulted.lines.take();
    faulted.lines = match further(alloc, run, fail_on, except, first) {
        Ok(lines) => joined(alloc, lines, noted).ok().flatten(),
        Err(_) => None,
    };
    Some(first)
}

/// Prints the report of a run of `n` ticks, of this width, and answers the run behind them.
fn print_report<'a, S: Sink, B: Beat>(
    run: AccountedRun<'a>,
    width: ReportWidth,
    n: u64,
    out: &mut Buffered<S>,
    beat: &B,
) -> Result<AccountedRun<'a>, SimFault>
    requires limit { n ≤ MAX_TICKS }
    requires start { run.machine.tick ≡ 0 }
    requires is_open { (S.seen out.old.inner).failed ≡ false }
    ensures runs { IfOk result (λ end. (set : TaskSet) → IsAccounted set 0 run.entry → IsAccounted set n end) }
    ensures prints { told S.seen out.old ≡ Some [] → (admission : Admission) (file : List ℕ) (ticks : ℕ) → OpensAccounts file admission (Ok run.entry) → n ≡ min ticks tick_limit →
        PrintsRun S.seen (Apart (ReportMeans file admission ticks width)) result out.new.inner }
{
    let run = run.run(n, beat);
    let done = answer(run.write_report(width, out));
    match finish(done, out) {
        Ok(()) => Ok(run),
        Err(fault) => Err(fault),
    }
}

/// Writes the text of a run of `n` ticks, or this part of it, which may be of this task, and answers the run behind them, with the text's
/// length.
fn write_told<'a, S: Sink, B: Beat>(
    run: AccountedRun<'a>,
    telling: Telling,
    part: Option<RunPart<'_>>,
    task: Option<u32>,
    n: u64,
    out: &mut S,
    beat: &B,
) -> (AccountedRun<'a>, Result<u64, DeviceFault>)
    requires limit { n ≤ MAX_TICKS }
    requires start { run.machine.tick ≡ 0 }
    requires is_open { (S.seen out.old).failed ≡ false }
    ensures runs { IfOk result.1 (λ _. (set : TaskSet) → IsAccounted set 0 run.entry → IsAccounted set n result.0) }
    ensures writes { (set : TaskSet) → IsAccounted set 0 run.entry → Counts S.seen out.old (told_text telling part.entry task set n) result.1 out.new }
{
    let Some(part) = part else {
        return run.write_run(telling, n, out);
    };
    let run = run.run(n, beat);
    let written = write_of(run.machine(), telling, part, task, out);
    (run, written)
}

/// Prints the text of a run of `n` ticks, or this part of it, which may be of this task, and answers the run behind them. The tasks that
/// faulted are noted.
fn print_told<'a, S: Sink, B: Beat>(
    alloc: Global,
    run: AccountedRun<'a>,
    telling: Telling,
    part: Option<RunPart<'_>>,
    task: Option<u32>,
    n: u64,
    out: &mut Buffered<S>,
    faulted: &mut FaultLines,
    beat: &B,
) -> Result<AccountedRun<'a>, SimFault>
    requires limit { n ≤ MAX_TICKS }
    requires start { run.machine.tick ≡ 0 }
    requires is_open { (S.seen out.old.inner).failed ≡ false }
    ensures runs { IfOk result (λ end. (set : TaskSet) → IsAccounted set 0 run.entry → IsAccounted set n end) }
    ensures prints { told S.seen out.old ≡ Some [] → (set : TaskSet) → IsAccounted set 0 run.entry →
        PrintsRun S.seen (Apart (ToldIs telling part.entry task set n)) result out.new.inner }
    ensures calm { (set : TaskSet) → IsAccounted set 0 run.entry → IsCalm (state_at set n) → faulted.old.lines ≡ None → faulted.new.lines ≡ None }
{
    let (run, written) = write_told(run, telling, part, task, n, out, beat);
    match finish(answer(written), out) {
        Ok(()) => {
            faulted.note(alloc, run.machine(), run.tasks());
            Ok(run)
        }
        Err(fault) => Err(fault),
    }
}

/// How a run is told whose text this is, and the part of it, if it is one; none where it is no text of a run itself.
fn told_of(text: FileText<'_>) -> Option<(Telling, Option<RunPart<'_>>)>
    ensures { result ≡ told_of text.entry }
{
    match text {
        FileText::Run { .. } => Some((Telling::WithServers, None)),
        FileText::RunPart { part, .. } => Some((Telling::WithServers, Some(part))),
        FileText::Solo { .. } => Some((Telling::Alone, None)),
        FileText::SoloPart { part, .. } => Some((Telling::Alone, Some(part))),
        _ => None,
    }
}

/// Prints the text of a run of so many ticks that is loaded, and answers it behind its last tick; of the task that the text is of, if it is
/// of one. A picture and a trace are of a run of their own. Some tasks are excepted in a picture.
fn print_run<'a, S: Sink, B: Beat>(
    alloc: Global,
    bytes: &[u8],
    admission: Admission,
    text: FileText<'_>,
    run: AccountedRun<'a>,
    ticks: u64,
    except: &[usize],
    task: Option<u32>,
    out: &mut Buffered<S>,
    faulted: &mut FaultLines,
    beat: &B,
) -> Result<AccountedRun<'a>, SimFault>
    requires asked { ticks_of text ≡ Some ticks }
    requires opens { Opens admission text bytes.now (Ok run) }
    requires start { run.machine.tick ≡ 0 }
    requires is_open { (S.seen out.old.inner).failed ≡ false }
    ensures runs { IfOk result (λ end. (t : ℕ) × (t ≤ min ticks tick_limit) × ((set : TaskSet) → IsAccounted set 0 run.entry → IsAccounted set t end)) }
    ensures prints { told S.seen out.old ≡ Some [] → (words : List TaskWord) → Excepts text.entry bytes.now words except.now → IsOf text.entry bytes.now task →
        PrintsRun S.seen (TextMeans admission words text.entry bytes.now) result out.new.inner }
    ensures calm { EndsCalmly text.entry bytes.now → faulted.old.lines ≡ None → faulted.new.lines ≡ None }
{
    let n = ticks.min(MAX_TICKS);
    if let Some((telling, part)) = told_of(text) {
        return print_told(alloc, run, telling, part, task, n, out, faulted, beat);
    }
    match text {
        FileText::Report { width, .. } => print_report(run, width, n, out, beat),
        FileText::Jobs { form, .. } => Ok(print_lines(run, form, n, out, beat)?),
        _ => {
            text.print(alloc, bytes, admission, except, task, out, faulted, beat)?;
            Ok(run)
        }
    }
}

/// Ends for this fault of its file, with no text but what belongs to it.
fn refuse<'a, S: Sink>(fault: SimFault, out: &mut Buffered<S>) -> Result<Verdict<'a>, SimFault>
    ensures judges { (begun : BufferedSink S) (admission : Admission) (text : FileText) (file : List ℕ) (fail_on : List Failing) (except : List TaskWord) →
        (S.seen begun.inner).failed ≡ false → told S.seen begun ≡ Some [] → EndsTelling (gathering S.seen) (TextMeans admission except text file) begun (Err fault) out.old →
        Judges S.seen (TextMeans admission except text file) (Fails text file fail_on except) (Misnames text file except) result out.new.inner }
    ensures never { IfOk result (λ _. ⊥) }
{
    match finish(Err(fault), out) {
        Ok(()) => Ok(Verdict::Judged(None)),
        Err(fault) => Err(fault),
    }
}

/// The task of a run that a word means, if one is there.
fn task_meant<'a>(
    run: &AccountedRun<'_>,
    word: Option<TaskWord<'a>>,
) -> Result<Option<u32>, TaskFault<'a>>
    ensures found { IfOk result (λ task. length run.now.names < 2 ^ 32 → IsMeant run.now.names word.entry task) }
    ensures missing { IfErr result (λ fault. (w : TaskWord) × (word.entry ≡ Some w) × (task_of run.now.names w ≡ Err fault)) }
{
    let Some(word) = word else {
        return Ok(None);
    };
    match run.task_of(word) {
        Ok(task) => Ok(u32::try_from(task).ok()),
        Err(fault) => Err(fault),
    }
}

/// Prints the text of a run that is loaded, and looks for failures in it.
fn judge_run<'a, S: Sink, B: Beat>(
    alloc: Global,
    bytes: &[u8],
    admission: Admission,
    text: FileText<'a>,
    run: AccountedRun<'_>,
    ticks: u64,
    asked: Asked<'a>,
    out: &mut Buffered<S>,
    faulted: &mut FaultLines,
    beat: &B,
) -> Result<Verdict<'a>, SimFault>
    requires asked { ticks_of text ≡ Some ticks }
    requires opens { Opens admission text bytes.now (Ok run) }
    requires start { run.machine.tick ≡ 0 }
    requires is_open { (S.seen out.old.inner).failed ≡ false }
    ensures judges { told S.seen out.old ≡ Some [] →
        Judges S.seen (TextMeans admission asked.entry.except.now text.entry bytes.now) (Fails text.entry bytes.now asked.entry.fail_on.now asked.entry.except.now) (Misnames text.entry bytes.now asked.entry.except.now) result out.new.inner }
    ensures calm { IfOk result (λ verdict. verdict ≡ Judged None → EndsCalmly text.entry bytes.now → faulted.old.lines ≡ None → faulted.new.lines ≡ None) }
{
    let except = match run.tasks_of(alloc, asked.except) {
        Ok(tasks) => tasks,
        Err(OrMemory::Fault(fault)) => return Ok(Verdict::Misnamed(fault)),
        Err(OrMemory::Memory) => return Err(SimFault::Memory),
    };
    let task = match task_meant(&run, text.word()) {
        Ok(task) => task,
        Err(fault) => return Ok(Verdict::Misnamed(fault)),
    };
    let run = print_run(
        alloc, bytes, admission, text, run, ticks, &except, task, out, faulted, beat,
    )?;
    if asked.fail_on.is_empty() {
        return Ok(Verdict::Judged(None));
    }
    let run = run.run(ticks.min(MAX_TICKS), beat);
    let first = judge(alloc, &run, asked.fail_on, &except, faulted);
    Ok(Verdict::Judged(failed(first)))
}

/// Why the first of these words means no task of an object, which has none.
fn of_no_task<'w>(words: &[TaskWord<'w>]) -> Option<TaskFault<'w>>
    ensures none { result ≡ None → words.now ≡ [] }
    ensures fault { IfSome result (λ fault. tasks_of [] words.now ≡ Err fault) }
{
    match *words.first()? {
        TaskWord::Number(task) => Some(TaskFault::NoTask { task, count: 0 }),
        TaskWord::Name(name) => Some(TaskFault::NoName(name)),
    }
}

/// Prints the certificate of an object. It beats while the object runs.
fn print_certificate<'a, S: Sink, B: Beat>(
    alloc: Global,
    bytes: &[u8],
    question: Question,
    except: &[TaskWord<'a>],
    out: &mut Buffered<S>,
    faulted: &mut FaultLines,
    beat: &B,
) -> Result<Verdict<'a>, SimFault>
    requires is_open { (S.seen out.old.inner).failed ≡ false }
    requires object { is_object bytes.now ≡ true }
    ensures judges { (admission : Admission) (fail_on : List Failing) → told S.seen out.old ≡ Some [] →
        Judges S.seen (TextMeans admission except.now (Certificates question) bytes.now) (Fails (Certificates question) bytes.now fail_on except.now) (Misnames (Certificates question) bytes.now except.now) result out.new.inner }
    ensures calm { CertifiesCalmly bytes.now question → faulted.new.lines ≡ faulted.old.lines }
{
    if let Some(fault) = of_no_task(except) {
        return Ok(Verdict::Misnamed(fault));
    }
    let done = certify(alloc, bytes, &question, out, faulted, beat);
    match finish(done, out) {
        Ok(()) => Ok(Verdict::Judged(None)),
        Err(fault) => Err(fault),
    }
}

/// Prints what the tasks of a set come to that is open, but of those that words mean.
fn print_outcomes<'a, S: Sink, B: Beat>(
    alloc: Global,
    set: &CertifiableSet<'a>,
    question: Question,
    words: &[TaskWord<'a>],
    out: &mut Buffered<S>,
    faulted: &mut FaultLines,
    beat: &B,
) -> Result<Verdict<'a>, SimFault>
    requires is_open { (S.seen out.old.inner).failed ≡ false }
    requires certifiable { IsCertifiable set.now }
    ensures judges { (admission : Admission) (file : List ℕ) (fail_on : List Failing) → is_object file ≡ false → file ≡ system_spelling (task_set set.now.system) → told S.seen out.old ≡ Some [] →
        Judges S.seen (TextMeans admission words.now (Certificates question) file) (Fails (Certificates question) file fail_on words.now) (Misnames (Certificates question) file words.now) result out.new.inner }
    ensures calm { faulted.new.lines ≡ faulted.old.lines }
{
    let except = match set.names.tasks_of(alloc, words) {
        Ok(tasks) => tasks,
        Err(OrMemory::Fault(why)) => return Ok(Verdict::Misnamed(why)),
        Err(OrMemory::Memory) => return Err(SimFault::Memory),
    };
    let outcomes = set.outcomes(alloc, question.jobs, &except, faulted, beat)?;
    certified_set_is_in_time();
    let done = answer(set.write(&outcomes, question.jobs, out));
    match finish(done, out) {
        Ok(()) => {
            let first = set.first_refused(&outcomes);
            Ok(Verdict::Judged(uncertified(first)))
        }
        Err(fault) => Err(fault),
    }
}

/// Prints the certificates of the tasks of a file's set, or that of its object.
fn print_certificates<'a, S: Sink, B: Beat>(
    alloc: Global,
    bytes: &'a [u8],
    question: Question,
    except: &[TaskWord<'a>],
    out: &mut Buffered<S>,
    faulted: &mut FaultLines,
    beat: &B,
) -> Result<Verdict<'a>, SimFault>
    requires is_open { (S.seen out.old.inner).failed ≡ false }
    ensures judges { (admission : Admission) (fail_on : List Failing) → told S.seen out.old ≡ Some [] →
        Judges S.seen (TextMeans admission except.now (Certificates question) bytes.now) (Fails (Certificates question) bytes.now fail_on except.now) (Misnames (Certificates question) bytes.now except.now) result out.new.inner }
    ensures calm { CertifiesCalmly bytes.now question → faulted.new.lines ≡ faulted.old.lines }
{
    if is_object(bytes) {
        return print_certificate(alloc, bytes, question, except, out, faulted, beat);
    }
    match CertifiableSet::open(alloc, bytes, out) {
        Ok(set) => print_outcomes(alloc, &set, question, except, out, faulted, beat),
        Err(fault) => refuse(fault, out),
    }
}

/// Prints the text of a file of these bytes to a sink that gathers, and delivers all of it; finished jobs while the run goes on. Answers
/// the first of the failures that are asked for that happened in the run that it is of, or the first task of its set that isn't
/// certified; or why a word means no task of its set: then nothing is printed. Failures are noted, the first one apart, and the tasks
/// that faulted behind them. What memory the failures take is taken before the text. It beats while a run goes on.
///
/// # Errors
///
/// What the file is refused for: then nothing was printed but the text that belongs to this refusal, if there is one, or its first
/// bytes where the sink behind this one failed. Or want of memory, and nothing was. `Device` exactly where that sink failed within
/// the text of a file that isn't refused: it took so many of its first bytes.
pub fn print_judged<'a, S: Sink, B: Beat>(
    alloc: Global,
    bytes: &'a [u8],
    admission: Admission,
    text: FileText<'a>,
    asked: Asked<'a>,
    out: &mut Buffered<S>,
    faulted: &mut FaultLines,
    beat: &B,
) -> Result<Verdict<'a>, SimFault>
    requires { (S.seen out.old.inner).failed ≡ false }
    ensures judges { told S.seen out.old ≡ Some [] →
        Judges S.seen (TextMeans admission asked.entry.except.now text.entry bytes.now) (Fails text.entry bytes.now asked.entry.fail_on.now asked.entry.except.now) (Misnames text.entry bytes.now asked.entry.except.now) result out.new.inner }
    ensures calm { IfOk result (λ verdict. verdict ≡ Judged None → EndsCalmly text.entry bytes.now → faulted.old.lines ≡ None → faulted.new.lines ≡ None) }
{
    if let Some(question) = certificates_of(text) {
        return print_certificates(alloc, bytes, question, asked.except, out, faulted, beat);
    }
    let Some(ticks) = looked_at(text, asked.fail_on, asked.except) else {
        text.print(alloc, bytes, admission, &[], None, out, faulted, beat)?;
        return Ok(Verdict::Judged(None));
    };
    match open(alloc, bytes, admission, text) {
        Ok(run) => judge_run(
            alloc, bytes, admission, text, run, ticks, asked, out, faulted, beat,
        ),
        Err(fault) => refuse(fault, out),
    }
}
