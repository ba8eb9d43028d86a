//! How a file is made: whole or not at all, at whatever moment the machine stops.

mod disk;
mod new_file;

pub use disk::{Disk, Way};
pub use new_file::make_file;
