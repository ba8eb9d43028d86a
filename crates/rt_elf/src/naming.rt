//! The name of an object's entry, which names the task that runs the object.

mod entry_name;
mod fault;
mod naming;
mod path_name;

pub use entry_name::EntryName;
pub use fault::{NameFault, NamingFault};
pub(crate) use naming::address_in;
pub use naming::named_file;
pub use path_name::path_named_file;
