//! The points of a debugger, and which of them an attempt meets: breakpoints at a pc, watchpoints over the bytes of a load or a store.
#![tactic(auto)]

mod access;
mod events;
mod fault;
mod marks;
mod met;
mod point;
mod points;

pub use access::{Access, access_of, accessed, may_access};
pub use events::{Event, Events};
pub use fault::PointFault;
pub use marks::{Marks, Place};
pub use met::Watched;
pub use point::{BreakKind, Point, PointKind, WatchKind};
pub use points::{Breaking, Points};
