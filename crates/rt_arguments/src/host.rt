//! The simulator on a real host: its files, its standard streams, and exit statuses.

mod host_desk;
mod host_disk;
mod progress;
mod prompting;
mod running;
mod terminals;
mod watched;

pub use host_desk::HostDesk;
pub use progress::Progress;
pub use rt_perform::{
    Admission, Asked, Entry, EntryName, Escaped, Failing, FileText, JobsForm, LaidFile, Limits,
    ProfileForm, ProgramFault, Question, ReportWidth, Request, RunPart, Scale, ScaleCount,
    SoloTask, Style, TaskWord, TimeUnit, Width, Window,
};
pub use running::{perform, tell};
pub use terminals::Terminals;
