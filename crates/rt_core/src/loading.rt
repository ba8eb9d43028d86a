//! How a machine is loaded with a system.

ghost use Rattle.std.specs.Prelude.{◌≡◌, ℕ, ◌^◌, ◌<◌, true, All, List, length, map, replicate, Option, None, IfOk};
ghost use Rattle.rt_words.specs.Limits.{is_ram_size};
ghost use Rattle.rt_admit.specs.AdmittedSet.{admitted_set};
ghost use Rattle.rt_image.specs.SystemFile.{set_task, set_tasks, task_set};
ghost use Rattle.rt_history.specs.Admitted.{IsAdmittedSet, task_params};
ghost use Rattle.rt_history.specs.Safe.{IsSafe};
ghost use Rattle.rt_core.specs.Loading.{is_entry as may_begin, task_fault as why_not, first_task_fault, Loads, LoadsUnder, Begins};
ghost use Rattle.rt_core.specs.Working.First.{IsMakeable, start_key};
ghost use Rattle.rt_history.specs.Working.Step.{first_task};

use crate::fault::LoadFault;
use crate::machine::Machine;
use crate::task::Task;
use rt_admit::{Admission, Runnable, admit};
use rt_exec::Fetcher;
use rt_history::params_of;
use rt_image::{System, Task as SystemTask};
use rt_queue::MinQueue;
use rt_words::RAM_BASE;
use std::alloc::{AllocError, Global};

/// Whether a task may begin at this address of a RAM of so many bytes.
fn is_entry(ram: u32, entry: u32) -> bool
    ensures { result ≡ may_begin ram entry }
{
    entry % 4 == 0
        && entry >= RAM_BASE
        && u64::from(entry) + 4 <= u64::from(RAM_BASE) + u64::from(ram)
}

/// Why a task can't be loaded.
fn task_fault(number: u32, task: &SystemTask) -> Option<LoadFault>
    ensures { result ≡ why_not number (set_task task.now) }
{
    if task.object.bytes.len() > task.ram as usize {
        return Some(LoadFault::ImageTooBig(number));
    }
    if is_entry(task.ram, task.object.entry) {
        return None;
    }
    Some(LoadFault::BadEntry(number))
}

/// Why the first task that can't be loaded can't be.
fn first_fault(tasks: &[SystemTask]) -> Option<LoadFault>
    requires { length tasks.now < 2 ^ 32 }
    ensures { result ≡ first_task_fault 0 (set_tasks tasks.now) }
{
    for (number, task) in tasks.iter().enumerate() {
        if let Some(fault) = task_fault(number as u32, task) {
            return Some(fault);
        }
    }
    None
}

/// The tasks of a system, asleep until they start.
fn make_tasks<F: Fetcher>(alloc: Global, tasks: &[SystemTask]) -> Result<Vec<Task<F>>, AllocError>
    requires { All IsMakeable (set_tasks tasks.now) }
    ensures { IfOk result (λ made. made.items ≡ map first_task (set_tasks tasks.now)) }
{
    let mut made = Vec::new(alloc);
    for task in tasks {
        made.push(Task::new(alloc, task)?)?;
    }
    Ok(made)
}

/// Sets the timer of each task to its start tick.
fn set_timers<Q: MinQueue>(timers: &mut Q, tasks: &[SystemTask])
    requires few { length tasks.now < 2 ^ 32 }
    requires empty { Q.keys timers.old ≡ replicate (length tasks.now) None }
    ensures { Q.keys timers.new ≡ map start_key (set_tasks tasks.now) }
{
    for (number, task) in tasks.iter().enumerate() {
        timers.insert(number as u32, u64::from(task.start));
    }
}

impl<Q: MinQueue, F: Fetcher> Machine<Q, F> {
    /// A machine of a system, at tick 0, with the wakes of tick 0 applied. Each task's RAM has its image and then zeros. All
    /// room that ticks need is taken here.
    ///
    /// # Errors
    ///
    /// The refusal of admission; else what is wrong with the image or the entry of the first task with such a fault. `Memory`
    /// where there is none.
    pub fn load(alloc: Global, system: &System) -> Result<Machine<Q, F>, LoadFault>
        requires { All (λ t. is_ram_size t.ram ≡ true) system.now.tasks.items }
        ensures loads { Loads (task_set system.now) result }
        ensures safe { IfOk result IsSafe }
    {
        let params = params_of(alloc, &system.tasks)?;
        let admitted = admit(system.hyper, &params)?;
        Machine::load_runnable(alloc, system, &admitted.runnable())
    }

    /// The same of a system whose set need not be admitted where admission is waived: then it may be overloaded, and nothing is
    /// promised of its deadlines.
    ///
    /// # Errors
    ///
    /// As those of `load`; where admission is waived, `Overload` isn't among them.
    pub fn load_under(
        alloc: Global,
        system: &System,
        admission: Admission,
    ) -> Result<Machine<Q, F>, LoadFault>
        requires { All (λ t. is_ram_size t.ram ≡ true) system.now.tasks.items }
        ensures { LoadsUnder admission (task_set system.now) result }
    {
        let params = params_of(alloc, &system.tasks)?;
        let runnable = admission.examine(system.hyper, &params)?;
        Machine::load_runnable(alloc, system, &runnable)
    }

    /// The same of a system whose set is this one, which can be run.
    ///
    /// # Errors
    ///
    /// What is wrong with the image or the entry of the first task with such a fault. `Memory` where there is none.
    pub fn load_runnable(
        alloc: Global,
        system: &System,
        runnable: &Runnable<'_>,
    ) -> Result<Machine<Q, F>, LoadFault>
        requires sizes { All (λ t. is_ram_size t.ram ≡ true) system.now.tasks.items }
        requires set { runnable.now ≡ admitted_set system.now.hyper (task_params (set_tasks system.now.tasks.items)) }
        ensures begins { Begins (task_set system.now) result }
        ensures safe { IsAdmittedSet (task_set system.now) → IfOk result IsSafe }
    {
        let count = runnable.params().len() as u32;
        if let Some(fault) = first_fault(&system.tasks) {
            return Err(fault);
        }
        let tasks = make_tasks(alloc, &system.tasks)?;
        let ready = Q::make(alloc, count)?;
        let mut timers = Q::make(alloc, count)?;
        set_timers(&mut timers, &system.tasks);
        Ok(Machine::begin(runnable.hyper(), tasks, ready, timers))
    }
}
