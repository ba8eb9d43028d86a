//! Why a session ended early.

ghost use Rattle.std.specs.Prelude.{◌≡◌};
ghost use Rattle.rt_dialogue.specs.declared.fault.DebugFault.TheVariants.{Sim};
ghost use Rattle.rt_opening.specs.declared.fault.SimFault.TheVariants.{Device};

use rt_opening::SimFault;
use rt_sink::DeviceFault;

/// Why a debugging session ended early.
#[derive(Clone, Copy, PartialEq, Eq)]
pub enum DebugFault {
    /// The system was refused, there was no memory, or the device failed.
    Sim(SimFault),
    /// The input couldn't be read.
    Input,
}

impl From<DeviceFault> for DebugFault {
    ghost from_gives = { λ fault e. e ≡ Sim (Device fault) };

    fn from(fault: DeviceFault) -> DebugFault {
        DebugFault::Sim(SimFault::Device(fault))
    }
}
