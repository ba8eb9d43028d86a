//! The texts that are printed of a file.

ghost use Rattle.std.specs.Prelude.{◌≡◌, List, false, Some, None, []};
ghost use Rattle.rt_sink.specs.Buffered.{told};
ghost use Rattle.rt_names.specs.declared.task_word.TaskWord.{TaskWord};
ghost use Rattle.rt_opening.specs.Ends.{EndsTelling};
ghost use Rattle.rt_programs.specs.printing.TextMeans.{TextMeans, Excepts, Traces, EndsCalmly};
ghost use Rattle.rt_programs.specs.printing.Prints.{Prints};
ghost use Rattle.rt_programs.specs.printing.TextKind.{text_kind};
ghost use Rattle.rt_programs.specs.printing.Fails.{text_word};
ghost use Rattle.rt_programs.specs.printing.Working.Judged.{IsWhole};

use crate::printing::finishing::finish;
use crate::{
    Admission, Beat, JobsForm, ProfileForm, Question, ReportWidth, RunPart, Scale, SimFault,
    SoloTask, TaskWord, certify, chart, check, dis, profile, report, show, simulate, solo, trace,
    vcd,
};
use rt_chart::{Style, Window};
use rt_desk::reading::FileKind;
use rt_exec::Predecoded;
use rt_fault_lines::FaultLines;
use rt_queue::Tournament;
use rt_sink::{Buffered, Sink};
use std::alloc::Global;

/// What is to be printed of a file.
#[derive(Clone, Copy, PartialEq, Eq)]
pub enum FileText<'a> {
    /// The run of an object alone, as this task, for so many ticks.
    Solo {
        ticks: u64,
        task: SoloTask,
    },
    /// A part of it.
    SoloPart {
        ticks: u64,
        task: SoloTask,
        part: RunPart<'a>,
    },
    /// The run of a system for so many ticks.
    Run {
        ticks: u64,
    },
    /// A part of it.
    RunPart {
        ticks: u64,
        part: RunPart<'a>,
    },
    /// The report on the jobs of a system over so many ticks, and how much it tells.
    Report {
        ticks: u64,
        width: ReportWidth,
    },
    /// The jobs of a system over so many ticks, a line each, in this form.
    Jobs {
        ticks: u64,
        form: JobsForm,
    },
    /// Where so many ticks of a system went, in this form.
    Profile {
        ticks: u64,
        form: ProfileForm,
    },
    /// The picture of a system's schedule in a window, in this style.
    Chart {
        window: Window,
        style: Style,
    },
    /// The waves of a system's schedule in `ticks` ticks from tick `from` on. A tick is shown so long.
    Waves {
        from: u64,
        ticks: u64,
        scale: Scale,
    },
    /// What each of `ticks` ticks from tick `from` on did, of all tasks or of that of this word alone.
    Trace {
        from: u64,
        ticks: u64,
        task: Option<TaskWord<'a>>,
    },
    /// The certificate that this question asks for, of an object.
    Certificate(Question),
    /// The certificates of the tasks of a system, each for as many jobs, with the numbers of its line; or that which this question asks for, of
    /// an object.
    Certificates(Question),
    /// The listing of an object.
    Listing,
    /// What a file holds, an object or a system.
    Contents,
    /// Whether a system is admitted.
    Admitted,
}

impl<'a> FileText<'a> {
    /// What the file of this text is to hold.
    pub fn kind(self) -> FileKind
        ensures { result ≡ text_kind self.entry }
    {
        match self {
            FileText::Solo { .. } | FileText::SoloPart { .. } => FileKind::Object,
            FileText::Certificate(_) | FileText::Listing => FileKind::Object,
            FileText::Contents | FileText::Certificates(_) => FileKind::ObjectOrSystem,
            _ => FileKind::System,
        }
    }

    /// The word for the task that it is of.
    pub(crate) fn word(self) -> Option<TaskWord<'a>>
        ensures { result ≡ text_word self.entry }
    {
        match self {
            FileText::SoloPart { part, .. } | FileText::RunPart { part, .. } => part.word(),
            FileText::Trace { task, .. } => task,
            _ => None,
        }
    }

    /// Writes the text of a file of these bytes, and answers its length in bytes. Where admission is waived, a system that is run may be
    /// overloaded. Some tasks are excepted in a picture, and a trace may be of this task. Of a run the tasks that faulted are noted, of a certificate why there is none.
    fn write<S: Sink, B: Beat>(
        self,
        alloc: Global,
        bytes: &[u8],
        admission: Admission,
        except: &[usize],
        task: Option<u32>,
        out: &mut S,
        faulted: &mut FaultLines,
        beat: &B,
    ) -> Result<u64, SimFault>
        requires is_open { (S.seen out.old).failed ≡ false }
        requires whole { IsWhole self }
        ensures ends { (words : List TaskWord) → Excepts self.entry bytes.now words except.now → Traces self.entry bytes.now task → EndsTelling S.seen (TextMeans admission words self.entry bytes.now) out.old result out.new }
        ensures calm { EndsCalmly self.entry bytes.now → faulted.old.lines ≡ None → faulted.new.lines ≡ None }
    {
        match self {
            FileText::Solo { ticks, task } => {
                solo::<Tournament, Predecoded, S>(alloc, bytes, task, ticks, out, faulted)
            }
            FileText::Run { ticks } => simulate(alloc, bytes, admission, ticks, out, faulted),
            FileText::SoloPart { .. } | FileText::RunPart { .. } => unreachable!(),
            FileText::Report { ticks, width } => report(
                alloc, bytes, admission, ticks, width, out, beat,
            ),
            FileText::Jobs { .. } | FileText::Certificates(_) => unreachable!(),
            FileText::Profile { ticks, form } => profile(
                alloc, bytes, admission, ticks, form, out, beat,
            ),
            FileText::Chart { window, style } => {
                chart(alloc, bytes, admission, window, style, except, out, beat)
            }
            FileText::Waves { from, ticks, scale } => vcd(
                alloc, bytes, admission, from, ticks, scale, out, beat,
            ),
            FileText::Trace { from, ticks, .. } => trace(
                alloc, bytes, admission, from, ticks, task, out, beat,
            ),
            FileText::Certificate(question) => {
                certify(alloc, bytes, &question, out, faulted, beat)
            }
            FileText::Listing => dis(alloc, bytes, out),
            FileText::Contents => show(alloc, bytes, out),
            FileText::Admitted => check(alloc, bytes, out),
        }
    }

    /// Prints the text of a file of these bytes to a sink that gathers, and delivers all of it. Some tasks are excepted in a picture, and a
    /// trace may be of this task. Of a run the tasks that faulted are noted.
    ///
    /// # Errors
    ///
    /// What the file is refused for: then nothing was printed but the text that belongs to this refusal, if there is one, or its first
    /// bytes where the sink behind this one failed. Or want of memory, and nothing was. `Device` exactly where that sink failed within
    /// the text of a file that isn't refused: it took so many of its first bytes.
    pub(crate) fn print<S: Sink, B: Beat>(
        self,
        alloc: Global,
        bytes: &[u8],
        admission: Admission,
        except: &[usize],
        task: Option<u32>,
        out: &mut Buffered<S>,
        faulted: &mut FaultLines,
        beat: &B,
    ) -> Result<(), SimFault>
        requires is_open { (S.seen out.old.inner).failed ≡ false }
        requires whole { IsWhole self }
        ensures prints { told S.seen out.old ≡ Some [] → (words : List TaskWord) → Excepts self.entry bytes.now words except.now → Traces self.entry bytes.now task →
            Prints S.seen (TextMeans admission words self.entry bytes.now) result out.new.inner }
        ensures calm { EndsCalmly self.entry bytes.now → faulted.old.lines ≡ None → faulted.new.lines ≡ None }
    {
        let done = self.write(alloc, bytes, admission, except, task, out, faulted, beat);
        finish(done, out)
    }
}
