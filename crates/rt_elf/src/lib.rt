//! Objects of ELF files, as linkers leave them (System V gABI, "Object Files" and "Program Loading"; RISC-V ELF psABI 1.0).

#![tactic(auto)]

mod attributes;
mod checking;
mod elf_header;
mod fault;
mod fields;
pub mod flat;
mod laws;
pub mod laying;
mod loading;
mod magic;
mod making;
mod names;
pub mod naming;
mod program_headers;
mod sections;
mod symbols;
mod telling;

pub use attributes::architecture;
pub use fault::ElfFault;
pub use laws::{
    kept_symbols_are_told, one_segment_is_a_flat_image, order_of_headers_does_not_matter,
    unread_bytes_do_not_matter,
};
pub use magic::is_elf;
pub use making::{Made, elf_object};
pub use telling::{Told, told_symbols};
