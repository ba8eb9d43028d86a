//! Where the ticks of each task went: a profile that is given the entries of a history one after the other, and keeps none of them.
//!
//! What a profile tells is defined in `specs/`, and is read first there: `Attempts`, `Parts`, `Rows`, `RowsText`, `CallgrindText`,
//! `Brackets`, `Needs`, `NeedsText`, `ProfileText`. All numbers are whole ticks.
#![tactic(auto)]

mod bracket;
mod callgrind;
mod form;
pub mod laws;
mod need_counts;
mod need_row;
mod needs_text;
mod part_count;
mod parts;
mod profile;
mod row;
mod rows;
mod task_profile;
mod task_text;
mod text;
mod walk;

pub use form::ProfileForm;
pub use profile::Profile;
