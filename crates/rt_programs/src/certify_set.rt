//! The certificates of the tasks of a set.

ghost use Rattle.std.specs.Prelude.{◌≡◌, ℕ, ◌^◌, ◌<◌, ◌≤◌, ◌++◌, ◌⊎◌, List, length, slice_get, codes, decimal, Some, None, Err, false, IfOk, IfErr, Contains};
ghost use Rattle.std.specs.Option.{option_map_or};
ghost use Rattle.rt_core.specs.Loading.{load_fault};
ghost use Rattle.rt_core.specs.declared.fault.LoadFault.TheVariants as loads;
ghost use Rattle.rt_image.specs.ObjectFile.{IsObject, object_value};
ghost use Rattle.rt_image.specs.SystemFile.{TaskSet, IsSystem, set_task, set_tasks, task_set, system_spelling};
ghost use Rattle.rt_sink.specs.Sink.{Counts};
ghost use Rattle.rt_names.specs.TaskName.{task_name};
ghost use Rattle.rt_names.specs.TaskNames.{name_at};
ghost use Rattle.rt_names.specs.declared.task_word.TaskWord.{TaskWord};
ghost use Rattle.rt_opening.specs.Ends.{EndsTelling};
ghost use Rattle.rt_opening.specs.declared.fault.SimFault.TheVariants.{Memory};
ghost use Rattle.rt_programs.specs.CertifySet.{own_question, IsOutcome, AreOutcomes, outcome_line, promise_line, outcomes_text, SetCertifies, first_refused, uncertified_name, IsFirst};
ghost use Rattle.rt_programs.specs.Working.SetOpened.{IsCertifiable};

use crate::certify_object::{CertificateLine, certificate_of};
use crate::check_system::write_reason;
use crate::outcome::{Outcome, Uncertified, promised};
use crate::printing::joined;
use crate::question::Question;
use rt_admit::admit;
use rt_certify::{Limits, NotCertified};
use rt_core::{LoadFault, Machine};
use rt_exec::Predecoded;
use rt_fault_lines::FaultLines;
use rt_fault_lines::shown::Explanation;
use rt_follow::Beat;
use rt_history::params_of;
use rt_image::{Object, System, Task, read_system};
use rt_names::{NameAt, TaskNames, own_namer};
use rt_opening::SimFault;
use rt_queue::Tournament;
use rt_sink::{DeviceFault, Sink};
use rt_text_out::{Decimal, Each, Line, Out, Text, plain, write};
use std::alloc::{AllocError, Global};
use std::str::from_utf8;

/// A set that is admitted and can be run, with the names of its tasks.
#[derive(Drop)]
pub(crate) struct CertifiableSet<'a> {
    pub system: System<'a>,
    pub names: TaskNames<'a>,
}

/// Loads a machine of a set, and lets it go.
fn try_load(alloc: Global, system: &System<'_>) -> Result<(), LoadFault>
    requires { IsSystem (task_set system.now) }
    ensures none { IfOk result (λ _. load_fault (task_set system.now) ≡ None) }
    ensures some { IfErr result (λ fault. (fault ≡ loads.Memory) ⊎ (load_fault (task_set system.now) ≡ Some fault)) }
{
    let _machine: Machine<Tournament, Predecoded> = Machine::load(alloc, system)?;
    Ok(())
}

/// The same object once more.
fn copy_of<'a>(object: &Object<'a>) -> Result<Object<'a>, AllocError>
    ensures { IfOk result (λ copy. object_value copy ≡ object_value object.now) }
{
    Ok(Object {
        entry: object.entry,
        bytes: object.bytes,
        symbols: object.symbols.clone()?,
    })
}

/// The name of the symbol that names the task of an object, if one does.
fn symbol_of<'a>(object: &Object<'a>) -> Option<&'a str>
    requires { IsObject (object_value object.now) }
    ensures { (i : ℕ) → option_map_or (λ name. name.now) result (codes "task" ++ decimal i) ≡ task_name i (object_value object.now) }
{
    let symbol = own_namer(object)?;
    match from_utf8(symbol.name) {
        Ok(name) => Some(name),
        Err(_) => unreachable!(),
    }
}

/// What is asked of a task of a set.
fn own_question(task: &Task<'_>, jobs: u64) -> Question
    ensures { result ≡ own_question jobs (set_task task.now) }
{
    Question {
        ram: task.ram,
        split: task.split,
        start: task.start,
        limits: Limits {
            budget: task.budget,
            period: task.period,
            periods: 1,
        },
        jobs,
        places: false,
    }
}

/// What the task of this number comes to that isn't excepted.
fn tried<B: Beat>(
    alloc: Global,
    number: u32,
    task: &Task<'_>,
    jobs: u64,
    faulted: &mut FaultLines,
    beat: &B,
) -> Result<Outcome, SimFault>
    ensures outcome { IfOk result (λ o. (except : List ℕ) → (Contains except number → ⊥) → IsOutcome jobs except number (set_task task.now) o) }
    ensures memory { (set : TaskSet) → IsSystem set → load_fault set ≡ None → slice_get set.tasks number ≡ Some (set_task task.now) → IfErr result (λ fault. fault ≡ Memory) }
    ensures calm { faulted.new.lines ≡ faulted.old.lines }
{
    let object = copy_of(&task.object)?;
    match certificate_of(
        alloc,
        object,
        &own_question(task, jobs),
        number,
        faulted,
        beat,
    )? {
        Ok(placed) => Ok(Outcome::Certified(placed.certificate)),
        Err(refusal) => Ok(Outcome::Refused(refusal)),
    }
}

/// What the task of this number comes to.
fn outcome_of<B: Beat>(
    alloc: Global,
    number: usize,
    task: &Task<'_>,
    jobs: u64,
    except: &[usize],
    faulted: &mut FaultLines,
    beat: &B,
) -> Result<Outcome, SimFault>
    requires { number < 2 ^ 32 }
    ensures outcome { IfOk result (IsOutcome jobs except.now number (set_task task.now)) }
    ensures memory { (set : TaskSet) → IsSystem set → load_fault set ≡ None → slice_get set.tasks number ≡ Some (set_task task.now) → IfErr result (λ fault. fault ≡ Memory) }
    ensures calm { faulted.new.lines ≡ faulted.old.lines }
{
    if except.contains(&number) {
        return Ok(Outcome::Excepted);
    }
    tried(alloc, number as u32, task, jobs, faulted, beat)
}

/// What is said of one more task that isn't certified, below what is said of those before it: of the first one the program's first line says it.
fn with_refusal(
    alloc: Global,
    notes: Option<String>,
    refused: Uncertified<'_>,
    is_first: bool,
    more: Option<String>,
) -> Explanation {
    if is_first {
        return Ok(more);
    }
    let line = format!(in alloc; "  {refused}")?;
    let lines = joined(alloc, Some(line), more)?;
    joined(alloc, notes, lines)
}

/// What the tasks with these names come to, each as a line.
#[derive(Clone, Copy)]
struct OutcomeLines<'n, 'a>(&'n TaskNames<'a>);

impl Line<Outcome> for OutcomeLines<'_, '_> {
    ghost use Rattle.std.proofs.Props.{props};
    ghost use Rattle.std.specs.Prelude.{⊤};

    ghost may = { λ by item. ⊤ };

    ghost fact = { λ by item. Prim.hlevel props };

    ghost line = { λ by number item. outcome_line by.0.now number item };

    ghost most = { 16384 };

    fn offer_line<O: Out>(&self, number: u32, item: &Outcome, out: &mut O) {
        let names = self.0;
        let task = number;
        let name = NameAt { names, task };
        let head = (Decimal(u64::from(number)), plain(b" "), name);
        match *item {
            Outcome::Excepted => (head, plain(b" excepted\n")).offer(out),
            Outcome::Certified(certificate) => {
                (head, plain(b" "), CertificateLine(certificate)).offer(out)
            }
            Outcome::Refused(_) => plain(b"").offer(out),
        }
    }
}

/// That so many first jobs of these tasks are in time, where they are.
#[derive(Clone, Copy)]
struct PromiseLine(Option<u64>);

impl Text for PromiseLine {
    ghost text = { λ x. promise_line x.0 };

    ghost most = { 2048 };

    fn offer<O: Out>(&self, out: &mut O) {
        match self.0 {
            Some(jobs) => {
                let behind = plain(b" jobs of these tasks are answered in time in this set\n");
                (plain(b"the first "), Decimal(jobs), behind).offer(out)
            }
            None => plain(b"").offer(out),
        }
    }
}

impl<'a> CertifiableSet<'a> {
    /// The set of a file (RTS1 or RTS2).
    ///
    /// # Errors
    ///
    /// The refusal of the file, that of admission, which is told as `check` tells it, `ImageTooBig` or `BadEntry` of the first task with
    /// such a fault; or there is no memory.
    pub(crate) fn open<S: Sink>(
        alloc: Global,
        bytes: &'a [u8],
        out: &mut S,
    ) -> Result<CertifiableSet<'a>, SimFault>
        requires { (S.seen out.old).failed ≡ false }
        ensures opens { IfOk result (λ set. IsCertifiable set × (bytes.now ≡ system_spelling (task_set set.system)) × (out.new ≡ out.old)) }
        ensures refused { IfErr result (λ fault. (n : ℕ) (words : List TaskWord) → EndsTelling S.seen (SetCertifies bytes.now n words) out.old (Err fault) out.new) }
    {
        let system = read_system(alloc, bytes)?;
        let params = params_of(alloc, &system.tasks)?;
        if let Err(fault) = admit(system.hyper, &params) {
            write_reason(out, system.hyper, &params);
            return Err(SimFault::Admit(fault));
        }
        try_load(alloc, &system)?;
        let names = TaskNames::of(alloc, &system)?;
        Ok(CertifiableSet { system, names })
    }

    /// The task of this number, which isn't certified for this reason.
    fn uncertified(&self, number: usize, refusal: NotCertified) -> Uncertified<'a>
        requires certifiable { IsCertifiable self.now }
        requires there { number < length self.now.system.tasks.items }
        ensures task { result.task ≡ number }
        ensures refusal { result.refusal ≡ refusal }
        ensures name { uncertified_name result ≡ name_at self.now.names number }
    {
        let task = &self.system.tasks[number];
        Uncertified {
            task: number as u32,
            symbol: symbol_of(&task.object),
            refusal,
        }
    }

    /// What is noted of those that aren't certified, with the task of this number if it is one of them.
    fn noted(
        &self,
        alloc: Global,
        notes: Option<String>,
        number: usize,
        outcome: Outcome,
        is_first: bool,
        faulted: &mut FaultLines,
    ) -> Option<String>
        requires certifiable { IsCertifiable self.now }
        requires there { number < length self.now.system.tasks.items }
        ensures { faulted.new.lines ≡ faulted.old.lines }
    {
        match outcome {
            Outcome::Refused(refusal) => {
                let refused = self.uncertified(number, refusal);
                let more = faulted.refusal.take();
                with_refusal(alloc, notes, refused, is_first, more)
                    .ok()
                    .flatten()
            }
            Outcome::Excepted | Outcome::Certified(_) => notes,
        }
    }

    /// What its tasks come to, of which some are excepted, for so many jobs. Of those that aren't certified it is noted where, and what to do.
    ///
    /// # Errors
    ///
    /// There is no memory.
    pub(crate) fn outcomes<B: Beat>(
        &self,
        alloc: Global,
        jobs: u64,
        except: &[usize],
        faulted: &mut FaultLines,
        beat: &B,
    ) -> Result<Vec<Outcome>, SimFault>
        requires { IsCertifiable self.now }
        ensures outcomes { IfOk result (λ os. AreOutcomes jobs except.now (set_tasks self.now.system.tasks.items) os.items) }
        ensures memory { IfErr result (λ fault. fault ≡ Memory) }
        ensures calm { faulted.new.lines ≡ faulted.old.lines }
    {
        let mut outcomes: Vec<Outcome> = Vec::new(alloc);
        let mut notes = None;
        for (number, task) in self.system.tasks.iter().enumerate() {
            let outcome = outcome_of(alloc, number, task, jobs, except, faulted, beat)?;
            let is_first = promised(&outcomes, jobs).is_some();
            notes = self.noted(alloc, notes, number, outcome, is_first, faulted);
            if let Err(fault) = outcomes.push(outcome) {
                return Err(AllocError::from(fault).into());
            }
        }
        faulted.refusal = notes;
        Ok(outcomes)
    }

    /// The first task that isn't certified, of these outcomes.
    pub(crate) fn first_refused(&self, outcomes: &[Outcome]) -> Option<Uncertified<'a>>
        requires certifiable { IsCertifiable self.now }
        requires count { length outcomes.now ≡ length self.now.system.tasks.items }
        ensures { IsFirst self.now.names (first_refused 0 outcomes.now) result }
    {
        for (number, outcome) in outcomes.iter().enumerate() {
            if let Outcome::Refused(refusal) = *outcome {
                return Some(self.uncertified(number, refusal));
            }
        }
        None
    }

    /// Writes what the tasks come to, and what is promised of them for so many jobs. The answer is the text's length in bytes.
    ///
    /// # Errors
    ///
    /// The sink failed: it took so many of the first bytes of the text.
    pub(crate) fn write<S: Sink>(
        &self,
        outcomes: &[Outcome],
        jobs: u64,
        out: &mut S,
    ) -> Result<u64, DeviceFault>
        requires is_open { (S.seen out.old).failed ≡ false }
        requires few { length outcomes.now ≤ 2 ^ 32 }
        ensures { Counts S.seen out.old (outcomes_text self.now.names jobs outcomes.now) result out.new }
    {
        let lines = Each {
            items: outcomes,
            by: OutcomeLines(&self.names),
        };
        write(&(lines, PromiseLine(promised(outcomes, jobs))), out)
    }
}
