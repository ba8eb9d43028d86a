//! Machines that are kept and don't run.

ghost use Rattle.std.specs.Prelude.{◌≡◌, ◌≤◌, length, is_some, IfOk};
ghost use Rattle.rt_exec.specs.State.{state_of};
ghost use Rattle.rt_history.specs.Calls.{output_limit};
ghost use Rattle.rt_core.specs.Working.Tied.{AreTied};

use crate::machine::Machine;
use crate::task::Task;
use rt_exec::mem::Ram;
use rt_exec::{Fetcher, Hart};
use rt_history::{Moment, TaskServer};
use rt_queue::MinQueue;
use rt_words::MAX_TICKS;
use std::alloc::{AllocError, Global};
use std::marker::Model;

/// A task that doesn't run: without a fetcher, and without room for more output.
#[derive(Drop)]
pub(crate) struct ParkedTask {
    hart: Hart,
    ram: Ram,
    split: bool,
    output: Vec<u8>,
    full: Option<Moment>,
    serving: TaskServer,
}

impl Model for ParkedTask {
    ghost use Rattle.std.specs.Prelude.{◌≤◌, length, is_some};
    ghost use Rattle.rt_exec.specs.State.{state_of};
    ghost use Rattle.rt_history.specs.Calls.{output_limit};
    ghost use Rattle.rt_history.specs.OwnPart.{TaskState};

    ghost Value = { TaskState };

    ghost view = { λ t. record {
      program = record { state = state_of t.hart t.ram; split = t.split; output = t.output.items; full = is_some t.full };
      serving = t.serving;
    } };

    ghost invariant = { λ t. length t.output.items ≤ output_limit };
}

impl ParkedTask {
    /// A task of these parts.
    pub(crate) fn new(
        hart: Hart,
        ram: Ram,
        split: bool,
        output: Vec<u8>,
        full: Option<Moment>,
        serving: TaskServer,
    ) -> ParkedTask
        requires { length output.items ≤ output_limit }
        ensures { result ≡ record { program = record { state = state_of hart ram; split = split; output = output.items; full = is_some full }; serving = serving } }
    {
        ParkedTask {
            hart,
            ram,
            split,
            output,
            full,
            serving,
        }
    }

    /// The task with all room that its ticks need.
    fn resume<F: Fetcher>(&self, alloc: Global) -> Result<Task<F>, AllocError>
        ensures { IfOk result (λ task. task ≡ self.now) }
    {
        let ram = self.ram.copy()?;
        Task::resumed(
            alloc,
            self.hart,
            ram,
            self.split,
            &self.output,
            self.full,
            self.serving,
        )
    }
}

/// A machine that is kept and doesn't run: without what only ticks need, the slots of its fetchers and the room for more output.
///
/// Contracts see the machine that it was made of.
#[derive(Drop)]
pub struct Parked<Q: MinQueue> {
    hyper: u32,
    clock: u64,
    tasks: Vec<ParkedTask>,
    ready: Q,
    timers: Q,
}

impl<Q: MinQueue> Model for Parked<Q> {
    ghost use Rattle.rt_history.specs.MachineState.{MachineState};
    ghost use Rattle.rt_core.specs.Working.Tied.{AreTied};

    ghost Value = { MachineState };

    ghost view = { λ m. record { hyper = m.hyper; tick = m.clock; tasks = m.tasks.items } };

    ghost invariant = { λ m. AreTied (Q.keys m.ready) (Q.keys m.timers) m.hyper m.clock m.tasks.items };
}

/// Tasks that stand as these do, and don't run.
pub(crate) fn park_tasks<F: Fetcher>(
    alloc: Global,
    tasks: &[Task<F>],
) -> Result<Vec<ParkedTask>, AllocError>
    ensures { IfOk result (λ parked. parked.items ≡ tasks.now) }
{
    let mut parked = Vec::new(alloc);
    for task in tasks {
        parked.push(task.park(alloc)?)?;
    }
    Ok(parked)
}

/// Tasks that stand as these do, and run.
fn resume_tasks<F: Fetcher>(
    alloc: Global,
    parked: &[ParkedTask],
) -> Result<Vec<Task<F>>, AllocError>
    ensures { IfOk result (λ tasks. tasks.items ≡ parked.now) }
{
    let mut tasks = Vec::new(alloc);
    for task in parked {
        tasks.push(task.resume(alloc)?)?;
    }
    Ok(tasks)
}

impl<Q: MinQueue> Parked<Q> {
    /// A machine of these parts.
    pub(crate) fn new(
        hyper: u32,
        clock: u64,
        tasks: Vec<ParkedTask>,
        ready: Q,
        timers: Q,
    ) -> Parked<Q>
        requires { AreTied (Q.keys ready) (Q.keys timers) hyper clock tasks.items }
        ensures { result ≡ record { hyper = hyper; tick = clock; tasks = tasks.items } }
    {
        Parked {
            hyper,
            clock,
            tasks,
            ready,
            timers,
        }
    }

    /// The tick that comes next, 0 to 2^40.
    pub fn now(&self) -> u64
        ensures value { result ≡ self.now.tick }
        ensures limit { result ≤ MAX_TICKS }
    {
        self.clock
    }

    /// A machine that stands as the one that was parked did. It takes the same room for ticks as `load` did, from the same allocator.
    ///
    /// # Errors
    ///
    /// There is no memory for it.
    pub fn resume<F: Fetcher>(&self) -> Result<Machine<Q, F>, AllocError>
        ensures { IfOk result (λ machine. machine ≡ self.now) }
    {
        let alloc = *self.tasks.allocator();
        let tasks = resume_tasks(alloc, &self.tasks)?;
        let ready = self.ready.copy(alloc)?;
        let timers = self.timers.copy(alloc)?;
        Ok(Machine::at_tick(self.hyper, self.clock, tasks, ready, timers))
    }
}
