//! Why a machine can't be loaded.

ghost use Rattle.std.specs.Prelude.{◌≡◌};
ghost use Rattle.rt_core.specs.declared.fault.LoadFault.TheVariants.{Admit, Memory};

use rt_admit::AdmitFault;
use std::alloc::AllocError;
use thiserror::Error;

/// Why a system was not loaded.
#[derive(Clone, Copy, Debug, PartialEq, Eq, Error)]
pub enum LoadFault {
    /// There was no memory.
    #[error("memory")]
    Memory,
    /// The set of its tasks isn't admitted.
    #[error("{0}")]
    Admit(AdmitFault),
    /// The image of the task with this number has more bytes than its RAM.
    #[error("load: ImageTooBig task {0}")]
    ImageTooBig(u32),
    /// The entry of the task with this number is no multiple of 4, or its word isn't in RAM.
    #[error("load: BadEntry task {0}")]
    BadEntry(u32),
}

impl From<AllocError> for LoadFault {
    ghost from_gives = { λ _ fault. fault ≡ Memory };

    fn from(_error: AllocError) -> LoadFault {
        LoadFault::Memory
    }
}

impl From<AdmitFault> for LoadFault {
    ghost from_gives = { λ refusal fault. fault ≡ Admit refusal };

    fn from(refusal: AdmitFault) -> LoadFault {
        LoadFault::Admit(refusal)
    }
}
