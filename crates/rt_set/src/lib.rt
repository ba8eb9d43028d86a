//! Set files, which name the tasks of a system and the files of their objects, and the system file
//! that is made of them: of version Two where a task's accesses are split, else of version One.

#![tactic(auto)]

mod fault;
mod laws;
mod lines;
mod misfits;
mod numbers;
mod packing;
mod reading;
mod said_lines;
mod set;

pub use fault::SetFault;
pub use laws::{misfits_are_in_faulty_lines, read_sets_fit, reads_set_files};
pub use misfits::{Misfit, WordKind, first_misfit};
pub use packing::{PackTask, pack};
pub use reading::{is_set, read_set};
pub use said_lines::{line_of_task, said_before};
pub use set::{SetFile, TaskLine};
