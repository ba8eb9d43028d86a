//! That what is read of a file for a request means what the whole file does.

mod laws;

pub use laws::{
    elf_files_are_of_whole_files, overloads_are_of_whole_systems, placed_sets_are_of_whole_files,
    requests_are_of_whole_files, texts_are_of_whole_files,
};
