//! Why no RAM is made.

ghost use Rattle.std.specs.Prelude.{◌≡◌};
ghost use Rattle.rt_exec.specs.declared.mem.new_ram_fault.NewRamFault.TheVariants.{NoMemory};

use std::alloc::AllocError;

/// Why no RAM was made.
#[derive(Clone, Copy, Debug, PartialEq, Eq)]
pub enum NewRamFault {
    /// The size is no multiple of 4 from 4 to [`MAX_RAM`](rt_words::MAX_RAM).
    BadSize,
    /// The allocator had no room for the bytes.
    NoMemory,
}

impl From<AllocError> for NewRamFault {
    ghost from_gives = { λ _ fault. fault ≡ NoMemory };

    fn from(_error: AllocError) -> NewRamFault {
        NewRamFault::NoMemory
    }
}
