//! One Constant Bandwidth Server: the budget, the deadline and the three rules that change them.
//!
//! L. Abeni and G. Buttazzo, "Integrating multimedia applications in hard real-time systems",
//! RTSS 1998. All numbers are whole ticks. Nothing here allocates.
#![tactic(auto)]

mod laws;
mod server;

pub use laws::{
    arrival_test_is_signed, budget_is_bounded, deadline_is_bounded, fresh_wake_fits,
    grants_are_kept, recharge_moves_one_period, server_never_runs_dry, wake_fits,
    wake_gives_budget, yield_recharges_once,
};
pub use server::{Server, Spent, Wake};
