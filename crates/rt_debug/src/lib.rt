//! A debugging session: where it stands, its stops, the way on and back, and what each command does.
#![tactic(auto)]

mod laws;
mod line;
mod looking;
pub mod reply;
mod seeing;
mod session;
mod stops;
mod watch;
mod whose;

pub use crate::reply::{
    Reply, Shown, Stopped, Text, write_break, write_refusal, write_reply, write_shown,
};
pub use laws::{names_mean_what_options_mean, sessions_are_faithful};
pub use line::{After, Answer, Done};
pub use looking::{look, place_pc, shows};
pub use rt_command::{Command, Name, Place, Refusal, Whose, parse_command};
pub use rt_points::Place as PlaceStop;
pub use session::Session;
pub use stops::Stop;
pub use whose::meant;
