//! Why a set is refused for its load: the first task whose budget would miss its deadline, were all tasks always busy.
//!
//! C. Liu and J. Layland, "Scheduling algorithms for multiprogramming in a hard-real-time environment", JACM 1973, and
//! L. Abeni and G. Buttazzo, "Integrating multimedia applications in hard real-time systems", RTSS 1998. Nothing here allocates.

mod breaching;
mod busy_server;
mod exceeding;
mod laws;

pub use breaching::breach;
pub use exceeding::Breach;
pub use laws::legal_servers_are_busy_ones;
