//! Names of tasks, and of parts of their addresses, by the symbols of their objects.
#![tactic(auto)]

mod parts;
mod places;
mod task_name;
mod task_names;
mod task_word;

pub use parts::namer_of;
pub use places::Places;
pub use task_name::{TASK_NAME_LEN, TaskName, namer_among, own_namer};
pub use task_names::{NameAt, TaskNames};
pub use task_word::{TaskFault, TaskWord};
