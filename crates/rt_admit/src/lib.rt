//! Admission of a task set: yes exactly where the utilisations of its tasks sum to at most one.
//!
//! C. Liu and J. Layland, "Scheduling algorithms for multiprogramming in a hard-real-time
//! environment", JACM 1973. All numbers are whole ticks. Nothing here allocates.
#![tactic(auto)]

mod admission;
mod fault;
mod laws;
mod params;
mod reservation;
mod runnable;

pub use admission::{Admission, Admitted, admit};
pub use fault::AdmitFault;
pub use laws::{
    admitted_iff_not_refused, eligible_task, load_is_utilisation, overload_is_else_admitted,
    utilisation_is_at_most_one,
};
pub use params::{MAX_HYPER, MAX_TASKS, Params};
pub use reservation::{Reserved, trial};
pub use runnable::{Runnable, examine};
