//! An object that runs alone, as the one task of a system.

ghost use Rattle.std.specs.Prelude.{◌≡◌, true, All, IfOk, if◌then◌else◌};
ghost use Rattle.rt_words.specs.Limits.{is_ram_size};
ghost use Rattle.rt_core.specs.Loading.{Loads};
ghost use Rattle.rt_image.specs.ObjectFile.{object_value};
ghost use Rattle.rt_image.specs.SystemFile.{task_set};
ghost use Rattle.rt_image.specs.declared.system.Version.TheVariants.{One, Two};
ghost use Rattle.rt_opening.specs.Alone.{alone as set_alone};

use rt_core::{LoadFault, Machine};
use rt_exec::Fetcher;
use rt_image::{Object, System, Task, Version};
use rt_queue::MinQueue;
use std::alloc::{AllocError, Global};

/// The task that an object is when it runs alone.
#[derive(Clone, Copy, PartialEq, Eq)]
pub struct SoloTask {
    /// The bytes of its RAM.
    pub ram: u32,
    /// Whether its loads and stores may have any address: they are split into bytes.
    pub split: bool,
}

impl SoloTask {
    /// The version of a system file that can hold the task.
    fn version(self) -> Version
        ensures { result ≡ (if self.split then Two else One) }
    {
        if self.split {
            Version::Two
        } else {
            Version::One
        }
    }
}

/// The system of one task that runs this object alone, with the whole hart as its share.
pub fn alone<'a>(
    alloc: Global,
    object: Object<'a>,
    task: SoloTask,
) -> Result<System<'a>, AllocError>
    ensures set { IfOk result (λ system. task_set system ≡ set_alone (object_value object.entry) task) }
    ensures ram { IfOk result (λ system. All (λ t. t.ram ≡ task.ram) system.tasks.items) }
{
    let mut tasks = Vec::new(alloc);
    tasks.push(Task {
        budget: 1,
        period: 1,
        start: 0,
        split: task.split,
        ram: task.ram,
        object,
    })?;
    Ok(System {
        version: task.version(),
        hyper: 1,
        tasks,
    })
}

/// Loads a machine of it. A function of its own, so that the loop of `solo` keeps its registers.
#[inline(never)]
pub fn load_alone<Q: MinQueue, F: Fetcher>(
    alloc: Global,
    system: &System,
) -> Result<Machine<Q, F>, LoadFault>
    requires { All (λ t. is_ram_size t.ram ≡ true) system.now.tasks.items }
    ensures { Loads (task_set system.now) result }
{
    Machine::load(alloc, system)
}
