//! The requests of gdb's Remote Serial Protocol, and the lines of its `monitor`: what a payload asks for.

mod actions;
mod hex_line;
mod ids;
mod monitor;
mod numbers;
mod parsing;
mod points;
mod prefixes;
mod request;
mod whole;

pub use actions::{Action, Resumed};
pub use hex_line::{HexLine, ROOM};
pub use ids::Tasks;
pub use monitor::{Monitor, Wanted, parse_monitor};
pub use parsing::parse_request;
pub use points::Spot;
pub use request::{Request, Selected};
