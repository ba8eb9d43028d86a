//! Texts of files and of hosts as the standard error shows them: none of their bytes changes a terminal.

mod shown;

pub use shown::{Escaped, Explanation, Marked, Place, Printable, line};
