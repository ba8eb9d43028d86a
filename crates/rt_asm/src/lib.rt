//! The assembler: lines of assembly text in, an image with its labels out.
#![tactic(auto)]

mod assembled;
mod assembling;
mod data;
mod fault;
mod faulty_lines;
mod flaws;
mod instructions;
mod kept;
mod labels;
mod laws;
mod layout;
mod numbers;
mod operations;
mod printing_law;
mod ranges;
mod rows;
mod statements;
mod texts;
mod transfers;

pub use assembled::Assembled;
pub use assembling::assemble;
pub use fault::{AsmFault, AsmKind, AssembleFault, AssembleTextFault, LineFault};
pub use faulty_lines::{all_faults, all_flaws};
pub use flaws::{Flaw, Reason, defining_line};
pub use laws::{
    assembles_what_agrees, flaws_are_those_of_the_faults, one_placement,
    statements_have_their_size, the_first_fault_is_named, two_parts_make_the_number,
};
pub use printing_law::what_is_printed_reads_back;
pub use ranges::Range;
pub use texts::assemble_text;
