//! That reading a file ends in time: what follows the bytes that were read changes nothing.

mod laws;

pub use laws::{
    more_of_a_set_changes_nothing, more_of_a_source_changes_nothing,
    more_of_a_system_changes_nothing, more_of_an_elf_file_changes_nothing,
    more_of_an_image_changes_nothing, more_of_an_object_changes_nothing,
    more_of_names_changes_nothing, more_than_no_set_changes_nothing,
};
