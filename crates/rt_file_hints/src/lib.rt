//! What is said behind the first line of a fault of a file: what the file is, which word of it is wrong, what is allowed there, and what
//! to do.
#![tactic(auto)]

mod admission;
mod built;
mod elf;
mod flat;
mod kinds;
mod laid;
mod left_out;
mod listed;
mod marked;
mod names;
mod sets;
pub mod source_hints;

pub use admission::{admit_hint, admitted_hint, load_hint};
pub use built::built_for;
pub use elf::elf_hint;
pub use flat::{FlatFiles, flat_hint, start_hint};
pub use kinds::{image_hint, kind_hint};
pub use laid::data_hint;
pub use left_out::{elf_left_out_hint, left_out_hint};
pub use sets::set_hint;
