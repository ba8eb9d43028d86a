//! The programs of the simulator, each a function over bytes and a sink; those of rt_accounts too.
#![tactic(auto)]

mod assemble_source;
mod certify_object;
mod certify_set;
mod check_system;
mod convert_system;
mod draw_chart;
mod dump_waves;
mod list_object;
mod outcome;
mod overload_lines;
pub mod printing;
mod profile_system;
mod question;
mod run_object;
mod run_part;
mod run_system;
mod show_file;
mod trace_ticks;

pub use assemble_source::asm;
pub use certify_object::certify;
pub use check_system::check;
pub use convert_system::convert;
pub use draw_chart::chart;
pub use dump_waves::vcd;
pub use list_object::dis;
pub use outcome::{Outcome, Uncertified};
pub use profile_system::profile;
pub use question::Question;
pub use rt_accounts::{AccountedRun, Failure, JobsForm, ReportWidth, report, write_jobs_header};
pub use rt_certify::Limits;
pub use rt_follow::{Beat, NoBeat};
pub use rt_names::{TaskFault, TaskWord};
pub use rt_opening::{Admission, LoadFault, Overload, SimFault, SoloTask, overload_of};
pub use rt_profile::ProfileForm;
pub use rt_report::Failing;
pub use rt_set::{PackTask, SetFault, TaskLine, pack, read_set};
pub use rt_waves::{Scale, ScaleCount, TimeUnit};
pub use run_object::solo;
pub use run_part::RunPart;
pub use run_system::simulate;
pub use show_file::show;
pub use trace_ticks::trace;
