//! Why a point isn't inserted.

ghost use Rattle.std.specs.Prelude.{◌≡◌};
ghost use Rattle.rt_points.specs.declared.fault.PointFault.TheVariants.{NoMemory};

use std::alloc::AllocError;

/// Why a point isn't inserted. The points are then as they were.
#[derive(Clone, Copy, Debug, PartialEq, Eq)]
pub enum PointFault {
    /// There are 1024 others.
    TooMany,
    /// There was no memory for the point or its mark.
    NoMemory,
}

impl From<AllocError> for PointFault {
    ghost from_gives = { λ _ fault. fault ≡ NoMemory };

    fn from(_fault: AllocError) -> PointFault {
        PointFault::NoMemory
    }
}
