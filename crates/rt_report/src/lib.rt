//! What each task's jobs took: a report that is given the entries of a history one after the other, and keeps none of them.
//!
//! C. Liu and J. Layland, "Scheduling algorithms for multiprogramming in a hard-real-time environment", JACM 1973. What a
//! report tells is defined in `specs/`, and is read first there: `Rows`, `ReportText`, `NameText`, `WideRows`, `WideText`, `CsvText`, `JobLines`, `JobText`, `JobDetails`, `DetailText`,
//! `Failures`, `Standing`. All
//! numbers are whole ticks.
#![tactic(auto)]

mod csv_text;
mod detail_text;
mod detailed_job;
mod evidence;
mod failing;
mod finished_job;
mod job;
mod job_text;
mod laws;
mod lazy_tally;
mod name_text;
mod report;
mod row;
mod span;
mod tally;
mod task_text;
mod text;
mod wide_row;
mod wide_text;

pub use detail_text::{DETAILED_HEADER, DetailedLine};
pub use detailed_job::{DetailedJob, JobDetail, UnfinishedJob};
pub use evidence::{Evidence, FailedJob, Firsts};
pub use failing::Failing;
pub use finished_job::FinishedJob;
pub use job_text::JOBS_HEADER;
pub use laws::{details_are_of_finished_jobs, kept_servers_are_due, rows_count_jobs};
pub use report::Report;
pub use row::Row;
pub use text::{Cell, IdleLine, Number, offer_right};
pub use wide_row::{WideCounts, WideRow};
pub use wide_text::stands_word;
