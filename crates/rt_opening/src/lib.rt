//! How a program opens a system or an object that it runs, why it ended early, and how it leaves its sink.
#![tactic(auto)]

mod ending;
mod fault;
mod opening;
mod overloading;
mod solo_task;

pub use ending::answer;
pub use fault::{LoadFault, SimFault};
pub use opening::{Opened, open_set};
pub use overloading::{Overload, overload_of};
pub use rt_admit::Admission;
pub use solo_task::{SoloTask, alone, load_alone};
