//! The payloads that a debugger's session answers with in gdb's Remote Serial Protocol.

mod bytes;
mod description;
mod ids;
mod laws;
mod payload;
mod registers;
mod replies;
mod stops;

pub use bytes::{bytes_answer, console_answer, memory_answer};
pub use description::description_answer;
pub use ids::{Ids, task_answer, tasks_answer};
pub use laws::{answers_are_carried, carried_payloads_are_plain};
pub use payload::Payload;
pub use registers::{TaskNumbers, register_answer, registers_answer};
pub use replies::{Refused, Reply, fixed_answer, supported_answer};
pub use stops::{Stop, stop_answer};
