//! What is done of what was asked for.

ghost use Rattle.std.specs.Prelude.{◌≡◌, ℕ, List, false, true, Some, None, [], Ok, IfErr, OnOk, OnErr};
ghost use Rattle.rt_sink.specs.Buffered.{told};
ghost use Rattle.rt_desk.specs.Desk.{Makes, Keeps};
ghost use Rattle.rt_perform.specs.Paths.{made_path};
ghost use Rattle.rt_perform.specs.Produced.{IsUnmade};
ghost use Rattle.rt_perform.specs.FirstLine.{fault_text, Extends, Begins, SaysLine};
ghost use Rattle.rt_perform.specs.ExitStatus.{exit_status};
ghost use Rattle.rt_programs.specs.printing.Fails.{Fails, Misnames};
ghost use Rattle.rt_programs.specs.printing.TextMeans.{TextMeans, EndsCalmly};
ghost use Rattle.rt_perform.specs.Performs.{left_out_text, PrintsText, Replies, Answers, Produces, Works, IsQuiet, Reports, Performs};
ghost use Rattle.rt_perform.specs.Noted.{admission_of, Notes, NotesOf};
ghost use Rattle.rt_opening.specs.declared.fault.SimFault.TheVariants.{Memory};
ghost use Rattle.rt_perform.specs.declared.program.ProgramFault.TheVariants as faults;
ghost use Rattle.rt_perform.specs.Working.Done.{PerformsGiven};
ghost use Rattle.rt_perform.specs.Working.LeftOut.{IsLeftOut};
ghost use Rattle.rt_perform.specs.Working.SessionResult.{session_result};
ghost use Rattle.rt_perform.specs.declared.program.ProgramFault.{ProgramFault};

use crate::explaining::explanation;
use crate::help::with_help;
use crate::inputs::{Inputs, made_of, read_inputs};
use crate::producing::produce;
use crate::program::ProgramFault;
use crate::remarking::remark;
use crate::request::Request;
use rt_desk::{Desk, MakeFault, Reason};
use rt_dialogue::remote::serve;
use rt_dialogue::{DebugFault, debug};
use rt_fault_lines::FaultLines;
use rt_programs::printing::{Asked, FileText, Finding, Verdict, print_judged};
use rt_programs::{Admission, Beat, Overload, SimFault, overload_of};
use rt_sink::{Buffered, Sink};
use std::alloc::Global;
use std::fmt::{self, Display};
use std::io::BufRead;

/// Makes the file of this path of these bytes.
fn make<'a, D: Desk>(
    alloc: Global,
    desk: &mut D,
    path: &'a str,
    bytes: &[u8],
) -> Result<(), ProgramFault<'a>>
    ensures made { OnOk result (Makes (D.files desk.old) path.now bytes.now (D.files desk.new)) }
    ensures unmade { IfErr result (λ fault. IsUnmade (Some path.now) bytes.now fault) }
    ensures kept { OnErr result (Keeps (D.files desk.old) (D.files desk.new)) }
    ensures silent { D.said desk.new ≡ D.said desk.old }
    ensures hears { D.is_deaf desk.new ≡ D.is_deaf desk.old }
{
    match desk.make(alloc, path, bytes) {
        Ok(()) => Ok(()),
        Err(MakeFault::Refused(Reason::Memory)) => Err(ProgramFault::Sim(SimFault::Memory)),
        Err(MakeFault::Refused(reason)) => Err(ProgramFault::File(path, reason, None)),
        Err(MakeFault::Device(fault, reason)) => Err(ProgramFault::Device(path, fault, reason)),
    }
}

/// Makes the file of a request, at this path, of what it read. Answers how many names are left out.
#[inline(never)]
fn make_file<'a, D: Desk>(
    alloc: Global,
    desk: &mut D,
    request: Request<'a>,
    path: &'a str,
    inputs: &'a Inputs,
) -> Result<u64, ProgramFault<'a>>
    requires { made_path request ≡ Some path.now }
    ensures produces { Produces request.entry inputs.now.first.items inputs.now.names.items inputs.now.left_out (D.files desk.old) result (D.files desk.new) }
    ensures silent { D.said desk.new ≡ D.said desk.old }
    ensures hears { D.is_deaf desk.new ≡ D.is_deaf desk.old }
{
    let produced = produce(alloc, desk, request, path, inputs)?;
    match make(alloc, desk, path, &produced.bytes) {
        Ok(()) => Ok(produced.left_out),
        Err(fault) => Err(fault),
    }
}

/// How a session ended on a system that so many names are left out of, as `perform` reports it.
fn session_result<'a>(left_out: u64, ended: Result<(), DebugFault>) -> Result<u64, ProgramFault<'a>>
    ensures { result ≡ session_result left_out ended }
{
    match ended {
        Ok(()) => Ok(left_out),
        Err(DebugFault::Sim(fault)) => Err(ProgramFault::Sim(fault)),
        Err(DebugFault::Input) => Err(ProgramFault::Input),
    }
}

/// Replies to the lines of an input, in a session on the system of what was read.
#[inline(never)]
fn debug_system<'a, S: Sink, I: BufRead>(
    alloc: Global,
    system: &Inputs,
    admission: Admission,
    input: &mut I,
    out: &mut Buffered<S>,
) -> Result<u64, ProgramFault<'a>>
    requires { (S.seen out.old.inner).failed ≡ false }
    ensures { (lines : List ℕ) → I.remaining input.old ≡ Some lines → told S.seen out.old ≡ Some [] → Replies S.seen system.now.first.items admission lines system.now.left_out result out.new.inner }
{
    session_result(
        system.left_out,
        debug(alloc, &system.first, admission, input, out),
    )
}

/// Answers gdb's requests, the bytes of an input, in a session on the system of what was read.
#[inline(never)]
fn serve_system<'a, S: Sink, I: BufRead>(
    alloc: Global,
    system: &Inputs,
    admission: Admission,
    input: &mut I,
    out: &mut Buffered<S>,
) -> Result<u64, ProgramFault<'a>>
    requires { (S.seen out.old.inner).failed ≡ false }
    ensures { (bytes : List ℕ) → I.remaining input.old ≡ Some bytes → told S.seen out.old ≡ Some [] → Answers S.seen system.now.first.items admission bytes system.now.left_out result out.new.inner }
{
    session_result(
        system.left_out,
        serve(alloc, &system.first, admission, input, out),
    )
}

/// Prints a text of what was read, and fails where a failure that is asked for happened in the run that it is of, or where a task of its set
/// isn't certified.
fn print_text<'a, S: Sink, B: Beat>(
    alloc: Global,
    inputs: &'a Inputs,
    admission: Admission,
    text: FileText<'a>,
    asked: Asked<'a>,
    out: &mut Buffered<S>,
    faulted: &mut FaultLines,
    beat: &B,
) -> Result<u64, ProgramFault<'a>>
    requires { (S.seen out.old.inner).failed ≡ false }
    ensures prints { told S.seen out.old ≡ Some [] →
        PrintsText S.seen (TextMeans admission asked.entry.except.now text.entry inputs.now.first.items) (Fails text.entry inputs.now.first.items asked.entry.fail_on.now asked.entry.except.now)
        (Misnames text.entry inputs.now.first.items asked.entry.except.now) inputs.now.left_out result out.new.inner }
    ensures calm { OnOk result (EndsCalmly text.entry inputs.now.first.items → faulted.old.lines ≡ None → faulted.new.lines ≡ None) }
{
    match print_judged(
        alloc,
        &inputs.first,
        admission,
        text,
        asked,
        out,
        faulted,
        beat,
    ) {
        Ok(Verdict::Judged(None)) => Ok(inputs.left_out),
        Ok(Verdict::Judged(Some(Finding::Failed(failure)))) => Err(ProgramFault::Failed(failure)),
        Ok(Verdict::Judged(Some(Finding::Uncertified(task)))) => {
            Err(ProgramFault::Uncertified(task))
        }
        Ok(Verdict::Misnamed(fault)) => Err(ProgramFault::NotNamed(fault)),
        Err(fault) => Err(ProgramFault::Sim(fault)),
    }
}

/// Does with what was read what is asked for. Answers how many names are left out of it, or of the file that is made.
fn work<'a, D: Desk, S: Sink, I: BufRead, B: Beat>(
    alloc: Global,
    desk: &mut D,
    input: &mut I,
    out: &mut Buffered<S>,
    request: Request<'a>,
    inputs: &'a Inputs,
    faulted: &mut FaultLines,
    beat: &B,
) -> Result<u64, ProgramFault<'a>>
    requires { (S.seen out.old.inner).failed ≡ false }
    ensures works { Works S.seen request.entry inputs.now.first.items inputs.now.names.items inputs.now.left_out (I.remaining input.old) (D.files desk.old) out.old result (D.files desk.new) out.new }
    ensures silent { D.said desk.new ≡ D.said desk.old }
    ensures hears { D.is_deaf desk.new ≡ D.is_deaf desk.old }
    ensures quiet { OnOk result (IsQuiet request.entry inputs.now.first.items → faulted.old.lines ≡ None → faulted.new.lines ≡ None) }
{
    match request {
        Request::Print {
            text,
            admission,
            asked,
            ..
        } => print_text(alloc, inputs, admission, text, asked, out, faulted, beat),
        Request::Debug { admission, .. } => { debug_system(alloc, inputs, admission, input, out) }
        Request::Gdb { admission, .. } => { serve_system(alloc, inputs, admission, input, out) }
        Request::Asm { object, .. } => make_file(alloc, desk, request, object, inputs),
        Request::Elf { object, .. } => make_file(alloc, desk, request, object, inputs),
        Request::Image { object, .. } => make_file(alloc, desk, request, object, inputs),
        Request::Pack { system, .. } => make_file(alloc, desk, request, system, inputs),
        Request::Convert { converted, .. } => make_file(alloc, desk, request, converted, inputs),
    }
}

/// Says lines behind a first one, if there are any.
#[tactic(auto, using(crate::proofs::SaidLemmas::says_extends, crate::proofs::SaidLemmas::extends_none))]
fn say_more<D: Desk>(desk: &mut D, lines: Option<String>)
    ensures said { D.is_deaf desk.new ≡ false → Extends (D.said desk.old) (D.said desk.new) }
    ensures none { lines ≡ None → D.said desk.new ≡ D.said desk.old }
    ensures deaf { D.is_deaf desk.old ≡ true → D.is_deaf desk.new ≡ true }
    ensures stays { D.files desk.new ≡ D.files desk.old }
{
    if let Some(lines) = lines {
        desk.say(lines.as_str());
    }
}

/// Says a line of the program.
#[tactic(auto, using(crate::proofs::SaidLemmas::says_line))]
fn say_first<D: Desk, T: Display + Drop>(desk: &mut D, text: T)
    ensures said { (line : List ℕ) → T.output text ≡ Some line → D.is_deaf desk.new ≡ false → SaysLine (D.said desk.old) line (D.said desk.new) }
    ensures deaf { D.is_deaf desk.old ≡ true → D.is_deaf desk.new ≡ true }
    ensures stays { D.files desk.new ≡ D.files desk.old }
{
    desk.say(format_args!("rt_sim: {text}"));
}

/// What is said behind the first line of a fault: of a failure, and of a program that isn't certified, what was noted; else what explains it.
fn behind<D: Desk>(
    alloc: Global,
    desk: &D,
    fault: ProgramFault<'_>,
    request: Request<'_>,
    inputs: &Inputs,
    noted: FaultLines,
) -> Option<String> {
    match fault {
        ProgramFault::Failed(_) => noted.lines,
        ProgramFault::Sim(SimFault::NotCertified(_)) | ProgramFault::Uncertified(_) => {
            with_help(alloc, Some(noted.refusal?), fault).ok().flatten()
        }
        _ => explanation(alloc, desk, fault, request, inputs),
    }
}

/// Reports a fault in a first line, and what explains it in those behind it, if there is memory for these. Answers the exit status.
#[tactic(auto, using(crate::proofs::SaidLemmas::line_more, crate::proofs::SaidLemmas::was_heard))]
#[inline(never)]
fn report_fault<D: Desk>(
    alloc: Global,
    desk: &mut D,
    fault: ProgramFault<'_>,
    request: Request<'_>,
    inputs: &Inputs,
    noted: FaultLines,
) -> u8
    ensures status { result ≡ exit_status fault.entry }
    ensures said { D.is_deaf desk.new ≡ false → Begins (D.said desk.old) (fault_text fault.entry) (D.said desk.new) }
    ensures deaf { D.is_deaf desk.old ≡ true → D.is_deaf desk.new ≡ true }
    ensures stays { D.files desk.new ≡ D.files desk.old }
{
    say_first(desk, fault);
    let more = behind(alloc, desk, fault, request, inputs, noted);
    say_more(desk, more);
    fault.status()
}

/// How many names a file doesn't have.
#[derive(Drop)]
struct LeftOut(u64);

impl Display for LeftOut {
    ghost output = { λ count. Some (left_out_text count.0) };

    fn fmt<W: fmt::Write>(&self, f: &mut fmt::Formatter<W>) -> fmt::Result {
        write!(f, "names left out: {}", self.0)
    }
}

/// Reports how many names are left out, if any are.
fn report_left_out<D: Desk>(desk: &mut D, left_out: u64)
    ensures said { D.is_deaf desk.new ≡ false → IsLeftOut left_out (D.said desk.old) (D.said desk.new) }
    ensures deaf { D.is_deaf desk.old ≡ true → D.is_deaf desk.new ≡ true }
    ensures stays { D.files desk.new ≡ D.files desk.old }
{
    if left_out > 0 {
        say_first(desk, LeftOut(left_out));
    }
}

/// Reports how many names are left out, if any are, and what more there is to say.
#[tactic(auto, using(crate::proofs::SaidLemmas::reports_made, crate::proofs::SaidLemmas::was_heard))]
#[inline(never)]
fn report_done<D: Desk>(
    alloc: Global,
    desk: &mut D,
    request: Request<'_>,
    inputs: &Inputs,
    left_out: u64,
    faulted: FaultLines,
)
    requires { IsQuiet request inputs.now.first.items → faulted.lines ≡ None }
    ensures said { D.is_deaf desk.new ≡ false → Reports request.entry inputs.now.first.items (D.said desk.old) (Ok left_out) (D.said desk.new) }
    ensures deaf { D.is_deaf desk.old ≡ true → D.is_deaf desk.new ≡ true }
    ensures stays { D.files desk.new ≡ D.files desk.old }
{
    report_left_out(desk, left_out);
    say_more(desk, remark(alloc, request, inputs, left_out, faulted));
}

/// Says how far a set is overloaded, if it is.
fn say_overload<D: Desk>(desk: &mut D, found: Option<Overload>)
    ensures noted { D.is_deaf desk.new ≡ false → Notes found (D.said desk.old) (D.said desk.new) }
    ensures deaf { D.is_deaf desk.old ≡ true → D.is_deaf desk.new ≡ true }
    ensures stays { D.files desk.new ≡ D.files desk.old }
{
    if let Some(overload) = found {
        say_first(desk, overload);
    }
}

/// Notes how far the set of a request is overloaded, if it is and admission is waived.
#[inline(never)]
fn note_overload<'a, D: Desk>(
    alloc: Global,
    desk: &mut D,
    request: Request<'_>,
    inputs: &Inputs,
) -> Result<(), ProgramFault<'a>>
    ensures noted { OnOk result (D.is_deaf desk.new ≡ false → NotesOf (admission_of request.entry) inputs.now.first.items (D.said desk.old) (D.said desk.new)) }
    ensures memory { IfErr result (λ fault. fault ≡ faults.Sim Memory) }
    ensures unsaid { OnErr result (D.said desk.new ≡ D.said desk.old) }
    ensures deaf { D.is_deaf desk.old ≡ true → D.is_deaf desk.new ≡ true }
    ensures stays { D.files desk.new ≡ D.files desk.old }
{
    match request.admission() {
        Admission::Required => Ok(()),
        Admission::Waived => {
            let found = overload_of(alloc, &inputs.first)?;
            say_overload(desk, found);
            Ok(())
        }
    }
}

/// Does with what a request works on what is asked for, and reports it. Answers the exit status.
fn perform_given<D: Desk, S: Sink, I: BufRead, B: Beat>(
    alloc: Global,
    desk: &mut D,
    input: &mut I,
    out: &mut Buffered<S>,
    request: Request<'_>,
    inputs: &Inputs,
    beat: &B,
) -> u8
    requires { (S.seen out.old.inner).failed ≡ false }
    ensures { PerformsGiven D.files D.said D.is_deaf S.seen request.entry inputs.now.first.items inputs.now.names.items inputs.now.left_out (I.remaining input.old) desk.old out.old result desk.new out.new }
{
    match note_overload(alloc, desk, request, inputs) {
        Ok(()) => {}
        Err(fault) => return report_fault(alloc, desk, fault, request, inputs, FaultLines::none()),
    }
    let mut faulted = FaultLines::none();
    match work(alloc, desk, input, out, request, inputs, &mut faulted, beat) {
        Ok(left_out) => {
            report_done(alloc, desk, request, inputs, left_out, faulted);
            0
        }
        Err(fault) => report_fault(alloc, desk, fault, request, inputs, faulted),
    }
}

/// Does what is asked for: reads the files that it names, prints to a sink that gathers or makes a file, and reports a fault on the
/// standard error of the desk. A set file in place of a system file is what `pack` makes of it, an ELF file in place of an object file what
/// `elf` makes of it. It beats while a run goes on. Answers the exit status.
pub fn perform<D: Desk, S: Sink, I: BufRead, B: Beat>(
    alloc: Global,
    desk: &mut D,
    input: &mut I,
    out: &mut Buffered<S>,
    request: Request<'_>,
    beat: &B,
) -> u8
    requires { (S.seen out.old.inner).failed ≡ false }
    ensures { Performs D.files D.said D.is_deaf S.seen request.entry (I.remaining input.old) desk.old out.old result desk.new out.new }
{
    let read = match read_inputs(alloc, desk, request) {
        Ok(read) => read,
        Err(fault) => {
            let none = Inputs::none(alloc);
            return report_fault(alloc, desk, fault, request, &none, FaultLines::none());
        }
    };
    match made_of(alloc, desk, request, &read) {
        Ok(None) => perform_given(alloc, desk, input, out, request, &read, beat),
        Ok(Some(made)) => {
            let inputs = Inputs::of(alloc, made);
            perform_given(alloc, desk, input, out, request, &inputs, beat)
        }
        Err(fault) => report_fault(alloc, desk, fault, request, &read, FaultLines::none()),
    }
}
