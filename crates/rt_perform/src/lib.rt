//! What the simulator does on a desk: files in, texts out, and an exit status.
#![tactic(auto)]

mod explaining;
mod help;
mod inputs;
pub mod laws;
mod laying;
mod numbers;
mod objects;
mod packing;
mod performing;
mod producing;
mod program;
mod remarking;
mod request;

pub use performing::perform;
pub use program::ProgramFault;
pub use request::{LaidFile, Request};
pub use rt_chart::{Style, Width, Window};
pub use rt_elf::flat::Entry;
pub use rt_elf::naming::EntryName;
pub use rt_fault_lines::shown::Escaped;
pub use rt_programs::printing::{Asked, FileText};
pub use rt_programs::{
    Admission, Beat, Failing, JobsForm, Limits, NoBeat, ProfileForm, Question, ReportWidth,
    RunPart, Scale, ScaleCount, SoloTask, TaskWord, TimeUnit,
};
