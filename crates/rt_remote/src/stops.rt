//! Where a debugger's session comes to stand: on to the first stop of the tasks that it looks at, back to the last, and one
//! instruction of a task back.

mod ahead;
mod asked;
mod backward;
mod looked;
mod looks;
mod one_back;
mod onward;
mod seeing;
mod told;

pub use backward::{Backward, go_back};
pub(crate) use looked::general;
pub use one_back::{OneBack, step_back};
pub use onward::{Onward, go_on};
pub use told::{Actions, MAX_TASKS, Told};
