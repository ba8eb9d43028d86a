//! The RAM of one task: a list of bytes from address 0x80000000 on, with the loads and stores of the
//! RISC-V Unprivileged ISA 20191213, chapter 2.6. Data is little-endian. An access at an address that
//! is no multiple of its size faults, or is carried out by the calls whose names end in `_any`.

mod access_fault;
mod laws;
mod memory;
mod new_ram_fault;

pub use access_fault::AccessFault;
pub use laws::load_gives_what_was_stored;
pub use memory::{Ram, span};
pub use new_ram_fault::NewRamFault;
