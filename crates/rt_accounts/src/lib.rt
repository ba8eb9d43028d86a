//! The programs that follow a run by a report: the report itself, the list of jobs, and which failures happened.
#![tactic(auto)]

mod accounts;
mod list_jobs;
mod report_system;

pub use accounts::{AccountedRun, Failure};
pub use list_jobs::{JobsForm, write_jobs_header};
pub use report_system::{ReportWidth, report};
