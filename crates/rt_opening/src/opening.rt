//! How a program that follows a run opens a set.

ghost use Rattle.std.specs.Prelude.{◌≡◌, true, All};
ghost use Rattle.rt_words.specs.Limits.{is_ram_size};
ghost use Rattle.rt_image.specs.SystemFile.{set_tasks, task_set};
ghost use Rattle.rt_history.specs.Admitted.{task_params};
ghost use Rattle.rt_opening.specs.Opening.{Opens};

use crate::fault::SimFault;
use rt_admit::{Admission, Params, Runnable};
use rt_core::Machine;
use rt_exec::Predecoded;
use rt_image::System;
use rt_queue::Tournament;
use std::alloc::Global;

/// A set that can be run, and its machine at tick 0.
#[derive(Drop)]
pub struct Opened<'p> {
    pub machine: Machine<Tournament, Predecoded>,
    pub runnable: Runnable<'p>,
}

/// Examines the set of a system, whose tasks ask for these parameters, and loads its machine. Where admission is waived, the set may
/// be overloaded.
///
/// # Errors
///
/// In this order: the refusal of admission, `ImageTooBig` or `BadEntry` of the first task with such a fault; or there is no memory.
pub fn open_set<'p>(
    alloc: Global,
    admission: Admission,
    system: &System,
    params: &'p [Params],
) -> Result<Opened<'p>, SimFault>
    requires sizes { All (λ t. is_ram_size t.ram ≡ true) system.now.tasks.items }
    requires asked { params.now ≡ task_params (set_tasks system.now.tasks.items) }
    ensures { Opens admission (task_set system.now) result }
{
    let runnable = admission.examine(system.hyper, params)?;
    let machine = Machine::load_runnable(alloc, system, &runnable)?;
    Ok(Opened { machine, runnable })
}
