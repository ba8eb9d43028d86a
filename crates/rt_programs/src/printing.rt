//! The text of a file, printed, and the failures that happened in the run that it is of.

mod failure_line;
mod file_text;
mod finishing;
mod joining;
mod judging;
mod printing_jobs;

pub use failure_line::ShownName;
pub use file_text::FileText;
pub use joining::joined;
pub use judging::{Asked, Finding, Verdict, print_judged};
