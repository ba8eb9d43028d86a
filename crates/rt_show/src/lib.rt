//! What a file holds, as a text: a system as the set file that would give it, an object with its symbols.
#![tactic(auto)]

mod image_remark;
pub mod listing;
mod object_shown;
mod set_shown;
mod task_lines;

pub use object_shown::ShownObject;
pub use set_shown::write_set;
