//! Object files (RTI1) and system files (RTS1 and RTS2): values, each with one spelling in bytes.

#![tactic(auto)]

mod fault;
mod fits;
mod laws;
mod limits;
mod object;
mod reading;
mod system;
mod system_reading;
mod system_writing;
mod writing;

pub use fault::{ImageFault, ReadFault, WriteFault};
pub use laws::{one_object, one_system, reads_spellings, reads_system_spellings};
pub use limits::MAX_TASKS;
pub use object::{Object, Symbol};
pub use reading::read_object;
pub use system::{System, Task, Version};
pub use system_reading::read_system;
pub use system_writing::write_system;
pub use writing::{write_object, write_spelling};
