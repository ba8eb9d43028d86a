//! Worked rows of texts and files: pictures, system files, what is reported of a set that asks for too much, names, what the programs print. As
//! in rt_rows, each row was worked out by hand and stands as a law beside the definitions that it pins, whose names end its
//! comment, and is proved by computing them.
#![tactic(auto, unfolding(crate::proofs::Computing::computing))]

mod charts;
mod elf_files;
mod files;
mod keys;
mod names;
mod overloads;
mod rulers;
mod texts;

pub use charts::{rows_of_pictures, shapes_and_lines, what_is_drawn, what_is_missed};
pub use elf_files::{elf_headers_in_order, elf_tables_in_order, names_of_an_elf_file};
pub use files::{bytes_of_systems, version_of_a_set};
pub use keys::{axis_above_many_rows, key_of_marks};
pub use names::{names_of_a_flat_image, names_of_parts_and_tasks};
pub use overloads::{admitted_in_full, breach_of_a_half, breach_of_one};
pub use rulers::{places_in_a_window, steps_of_the_axis, widths_of_pictures};
pub use texts::{
    contents_of_files, first_failures, jobs_of_certificates, lines_of_a_certified_set,
    lines_of_certificates, note_of_an_overload, waves_of_a_write, what_ticks_did, where_ticks_went,
};
