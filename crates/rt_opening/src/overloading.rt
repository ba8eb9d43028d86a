//! How far the set of a file is overloaded.

ghost use Rattle.std.specs.Prelude.{◌≡◌, IfOk, true, All};
ghost use Rattle.rt_words.specs.Limits.{is_ram_size};
ghost use Rattle.rt_image.specs.SystemFile.{task_set};
ghost use Rattle.rt_opening.specs.Overloaded.{can_run, IsOverload};

use rt_admit::{Admission, AdmitFault, admit};
use rt_core::{LoadFault, Machine};
use rt_exec::Predecoded;
use rt_history::params_of;
use rt_image::{ReadFault, System, read_system};
use rt_queue::Tournament;
use std::alloc::{AllocError, Global};
use std::fmt;

/// The weights of a set that asks for more than its hyperperiod.
#[derive(Clone, Copy, PartialEq, Eq)]
pub struct Overload {
    /// The sum of the weights, in ticks.
    pub total: u32,
    /// The hyperperiod, in ticks.
    pub hyper: u32,
}

impl fmt::Display for Overload {
    ghost use Rattle.std.specs.Prelude.{Some};
    ghost use Rattle.rt_opening.specs.Overloaded.{overload_note};

    ghost output = { λ overload. Some (overload_note overload) };

    fn fmt<W: fmt::Write>(&self, f: &mut fmt::Formatter<W>) -> fmt::Result {
        let Overload { total, hyper } = self;
        write!(
            f,
            "not admitted: total {total} of {hyper}; nothing is promised"
        )
    }
}

/// Whether a system can be loaded where admission is waived.
fn can_run(alloc: Global, system: &System) -> Result<bool, AllocError>
    requires { All (λ t. is_ram_size t.ram ≡ true) system.now.tasks.items }
    ensures { IfOk result (λ can. can ≡ can_run (task_set system.now)) }
{
    let loaded: Result<Machine<Tournament, Predecoded>, LoadFault> = Machine::load_under(
        alloc,
        system,
        Admission::Waived,
    );
    match loaded {
        Ok(_) => Ok(true),
        Err(LoadFault::Memory) => Err(AllocError),
        Err(LoadFault::Admit(_)) => Ok(false),
        Err(LoadFault::ImageTooBig(_)) => Ok(false),
        Err(LoadFault::BadEntry(_)) => Ok(false),
    }
}

/// How far the set of a system file (RTS1 or RTS2) is overloaded, if it is refused for its load alone, so that it can be run where
/// admission is waived; nothing of any other file.
///
/// # Errors
///
/// There is no memory.
pub fn overload_of(alloc: Global, bytes: &[u8]) -> Result<Option<Overload>, AllocError>
    ensures { IfOk result (λ found. IsOverload bytes.now found) }
{
    let system = match read_system(alloc, bytes) {
        Ok(system) => system,
        Err(ReadFault::Memory) => return Err(AllocError),
        Err(ReadFault::Fault(_)) => return Ok(None),
    };
    let params = params_of(alloc, &system.tasks)?;
    let Err(AdmitFault::Overload { total, hyper }) = admit(system.hyper, &params) else {
        return Ok(None);
    };
    if can_run(alloc, &system)? {
        Ok(Some(Overload { total, hyper }))
    } else {
        Ok(None)
    }
}
