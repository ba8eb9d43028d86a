//! The laws. Each function does nothing: its clauses are the law, and a caller has them after the call.

ghost use Rattle.std.specs.Prelude.{◌≡◌, ◌↔◌, ℕ, List, true, Option, Some, Result};
ghost use Rattle.std.specs.Global.{Vec};
ghost use Rattle.rt_sink.specs.Buffered.{BufferedSink};
ghost use Rattle.rt_admit.specs.declared.admission.Admission.{Admission};
ghost use Rattle.rt_report.specs.declared.failing.Failing.{Failing};
ghost use Rattle.rt_names.specs.declared.task_word.TaskWord.{TaskWord};
ghost use Rattle.rt_names.specs.declared.task_word.TaskFault.{TaskFault};
ghost use Rattle.rt_opening.specs.Overloaded.{IsOverload};
ghost use Rattle.rt_opening.specs.declared.overloading.Overload.{Overload};
ghost use Rattle.rt_opening.specs.declared.fault.SimFault.{SimFault};
ghost use Rattle.rt_desk.specs.declared.reading.kind.FileKind.TheVariants.{System};
ghost use Rattle.rt_desk.specs.reading.Reads.{ReadsSome};
ghost use Rattle.rt_programs.specs.printing.TextKind.{text_kind};
ghost use Rattle.rt_programs.specs.printing.TextMeans.{EndsCalmly, TextMeans};
ghost use Rattle.rt_programs.specs.printing.Fails.{Fails, Misnames};
ghost use Rattle.rt_programs.specs.declared.printing.file_text.FileText.{FileText};
ghost use Rattle.rt_programs.specs.declared.printing.judging.Finding.{Finding};
ghost use Rattle.rt_desk.specs.Desk.{Files};
ghost use Rattle.rt_elf.specs.flat.ElfMagic.{is_elf};
ghost use Rattle.rt_desk.specs.declared.reading.kind.FileKind.{FileKind};
ghost use Rattle.rt_desk.specs.reading.Extent.{takes_elf_files};
ghost use Rattle.rt_perform.specs.Given.{is_placed, is_linked};
ghost use Rattle.rt_perform.specs.Objects.{StandsForObject, StandsForNone};
ghost use Rattle.rt_perform.specs.Packed.{GivesSystem, RefusesSet};
ghost use Rattle.rt_perform.specs.Paths.{first_kind};
ghost use Rattle.rt_perform.specs.Performs.{Works};
ghost use Rattle.rt_perform.specs.declared.program.ProgramFault.{ProgramFault};
ghost use Rattle.rt_perform.specs.declared.request.Request.{Request};

use rt_sink::Sink;

/// What is read of a file means what the whole file does, for each text that is printed of it: what it says, whether a task faults in its
/// run, which failure happens in it, and why a word means no task of it.
pub fn texts_are_of_whole_files()
    ensures means { (admission : Admission) (except : List TaskWord) (text : FileText) (whole bytes : List ℕ) (said : List ℕ) (fault : Option SimFault) →
        ReadsSome (text_kind text) (Some whole) bytes → TextMeans admission except text bytes said fault ↔ TextMeans admission except text whole said fault }
    ensures calm { (text : FileText) (whole bytes : List ℕ) → ReadsSome (text_kind text) (Some whole) bytes → EndsCalmly text bytes ↔ EndsCalmly text whole }
    ensures fails { (text : FileText) (whole bytes : List ℕ) (fail_on : List Failing) (except : List TaskWord) (found : Option Finding) →
        ReadsSome (text_kind text) (Some whole) bytes → Fails text bytes fail_on except found ↔ Fails text whole fail_on except found }
    ensures misnames { (text : FileText) (whole bytes : List ℕ) (except : List TaskWord) (fault : TaskFault) →
        ReadsSome (text_kind text) (Some whole) bytes → Misnames text bytes except fault ↔ Misnames text whole except fault }
{}

/// What is noted of an overload is that of the whole system file.
pub fn overloads_are_of_whole_systems()
    ensures { (whole bytes : List ℕ) (found : Option Overload) → ReadsSome System (Some whole) bytes → IsOverload bytes found ↔ IsOverload whole found }
{}

/// What is read first for a request means what the whole file does: what is printed of it, what a session on it says, and what is made of
/// it, or why nothing is.
pub fn requests_are_of_whole_files<S: Sink>()
    ensures { (request : Request) (whole bytes names : List ℕ) (less : ℕ) (input : Option (List ℕ)) (old : Option Files) (out : BufferedSink S) (result : Result ℕ ProgramFault)
        (new : Option Files) (after : BufferedSink S) → ReadsSome (first_kind request) (Some whole) bytes →
        Works S.seen request bytes names less input old out result new after ↔ Works S.seen request whole names less input old out result new after }
{}

/// What is read of a file in place of a system file is a set exactly where the whole is one, and gives the same system, or the same
/// refusal.
pub fn placed_sets_are_of_whole_files()
    ensures placed { (request : Request) (whole read : List ℕ) → ReadsSome (first_kind request) (Some whole) read → is_placed request whole ≡ is_placed request read }
    ensures gives { (request : Request) (whole read : List ℕ) (files : Option Files) (made : Option (List ℕ)) (file : Vec ℕ) (left_out : ℕ) → ReadsSome (first_kind request) (Some whole) read →
        is_placed request read ≡ true → GivesSystem files made read file left_out ↔ GivesSystem files made whole file left_out }
    ensures refuses { (request : Request) (whole read : List ℕ) (files : Option Files) (made : Option (List ℕ)) (fault : ProgramFault) → ReadsSome (first_kind request) (Some whole) read →
        is_placed request read ≡ true → RefusesSet files made read fault ↔ RefusesSet files made whole fault }
{}

/// What is read of a file in place of an object file is an ELF file exactly where the whole is one, and stands for the same object, or for
/// none, for the same reason: of a request and of a task of a set.
pub fn elf_files_are_of_whole_files()
    ensures linked { (request : Request) (whole read : List ℕ) → ReadsSome (first_kind request) (Some whole) read → is_linked request whole ≡ is_linked request read }
    ensures stands { (kind : FileKind) (path whole read object : List ℕ) (left_out : ℕ) → takes_elf_files kind ≡ true → ReadsSome kind (Some whole) read → is_elf read ≡ true →
        StandsForObject path read object left_out ↔ StandsForObject path whole object left_out }
    ensures none { (kind : FileKind) (whole read : List ℕ) (fault : ProgramFault) → takes_elf_files kind ≡ true → ReadsSome kind (Some whole) read → is_elf read ≡ true →
        StandsForNone read fault ↔ StandsForNone whole fault }
{}
