//! Why a program ended early.

ghost use Rattle.std.specs.Prelude.{◌≡◌};
ghost use Rattle.rt_opening.specs.Faults.{sim_fault, sim_load_fault, sim_source_fault};
ghost use Rattle.rt_opening.specs.declared.fault.SimFault.TheVariants.{Admit, Device, Memory};
ghost use Rattle.rt_opening.specs.declared.fault.SimFault.TheVariants as faults;

use rt_admit::AdmitFault;
use rt_asm::{AsmFault, AssembleTextFault};
use rt_certify::NotCertified;
use rt_image::{ImageFault, ReadFault};
use rt_sink::DeviceFault;
use rt_text::TextFault;
use std::alloc::AllocError;
use std::fmt;

/// Why a task could not be loaded.
#[derive(Clone, Copy, Debug, PartialEq, Eq)]
pub enum LoadFault {
    /// The size of RAM isn't a multiple of 4 from 4 to 1,048,576 (in bytes).
    BadSize,
    /// The image of the task with this number is larger than its RAM.
    ImageTooBig(u32),
    /// The entry of the task with this number is no multiple of 4, or its word isn't in RAM.
    BadEntry(u32),
}

impl fmt::Display for LoadFault {
    ghost use Rattle.std.specs.Prelude.{Some};
    ghost use Rattle.rt_opening.specs.FaultText.{load_text};

    ghost output = { λ fault. Some (load_text fault) };

    fn fmt<W: fmt::Write>(&self, f: &mut fmt::Formatter<W>) -> fmt::Result {
        match self {
            LoadFault::BadSize => f.write_str("load: BadSize"),
            LoadFault::ImageTooBig(task) => write!(f, "load: ImageTooBig task {task}"),
            LoadFault::BadEntry(task) => write!(f, "load: BadEntry task {task}"),
        }
    }
}

impl std::error::Error for LoadFault {}

/// Why a program on the bytes of a file ended early.
#[derive(Clone, Copy, Debug, PartialEq, Eq)]
pub enum SimFault {
    /// The bytes of a file spell nothing.
    Image(ImageFault),
    /// The set of tasks isn't admitted.
    Admit(AdmitFault),
    /// The object could not be loaded.
    Load(LoadFault),
    /// A source isn't assembly text.
    Text(TextFault),
    /// The lines of a source have no image.
    Source(AsmFault),
    /// The program of an object isn't certified.
    NotCertified(NotCertified),
    /// The set has no task of this number: it has `count`, numbered from 0.
    NoTask { task: u32, count: u32 },
    /// There was no memory.
    Memory,
    /// The sink failed within the text.
    Device(DeviceFault),
}

impl fmt::Display for SimFault {
    ghost use Rattle.std.specs.Prelude.{Some};
    ghost use Rattle.rt_opening.specs.FaultText.{sim_text};

    ghost output = { λ fault. Some (sim_text fault) };

    fn fmt<W: fmt::Write>(&self, f: &mut fmt::Formatter<W>) -> fmt::Result {
        match self {
            SimFault::Image(fault) => write!(f, "{fault}"),
            SimFault::Admit(fault) => write!(f, "{fault}"),
            SimFault::Load(fault) => write!(f, "{fault}"),
            SimFault::Text(fault) => write!(f, "{fault}"),
            SimFault::Source(fault) => write!(f, "{fault}"),
            SimFault::NotCertified(fault) => write!(f, "certify: {fault}"),
            SimFault::NoTask { task, count } => write!(f, "task {task} of {count}"),
            SimFault::Memory => f.write_str("memory"),
            SimFault::Device(fault) => write!(f, "device after {} bytes", fault.written),
        }
    }
}

impl std::error::Error for SimFault {}

impl From<ReadFault> for SimFault {
    ghost from_gives = { λ fault e. e ≡ sim_fault fault };

    fn from(fault: ReadFault) -> SimFault {
        match fault {
            ReadFault::Memory => SimFault::Memory,
            ReadFault::Fault(fault) => SimFault::Image(fault),
        }
    }
}

impl From<AdmitFault> for SimFault {
    ghost from_gives = { λ fault e. e ≡ Admit fault };

    fn from(fault: AdmitFault) -> SimFault {
        SimFault::Admit(fault)
    }
}

impl From<rt_core::LoadFault> for SimFault {
    ghost from_gives = { λ fault e. e ≡ sim_load_fault fault };

    fn from(fault: rt_core::LoadFault) -> SimFault {
        match fault {
            rt_core::LoadFault::Memory => SimFault::Memory,
            rt_core::LoadFault::Admit(fault) => SimFault::Admit(fault),
            rt_core::LoadFault::ImageTooBig(task) => SimFault::Load(LoadFault::ImageTooBig(task)),
            rt_core::LoadFault::BadEntry(task) => SimFault::Load(LoadFault::BadEntry(task)),
        }
    }
}

impl From<AssembleTextFault> for SimFault {
    ghost from_gives = { λ fault e. e ≡ sim_source_fault fault };

    fn from(fault: AssembleTextFault) -> SimFault {
        match fault {
            AssembleTextFault::Memory => SimFault::Memory,
            AssembleTextFault::Text(fault) => SimFault::Text(fault),
            AssembleTextFault::Source(fault) => SimFault::Source(fault),
        }
    }
}

impl From<NotCertified> for SimFault {
    ghost from_gives = { λ fault e. e ≡ faults.NotCertified fault };

    fn from(fault: NotCertified) -> SimFault {
        SimFault::NotCertified(fault)
    }
}

impl From<DeviceFault> for SimFault {
    ghost from_gives = { λ fault e. e ≡ Device fault };

    fn from(fault: DeviceFault) -> SimFault {
        SimFault::Device(fault)
    }
}

impl From<AllocError> for SimFault {
    ghost from_gives = { λ _ e. e ≡ Memory };

    fn from(_fault: AllocError) -> SimFault {
        SimFault::Memory
    }
}
