//! What is said of the tasks of a machine that faulted, or of one that isn't certified: where, by which instruction, and what it meant.
#![tactic(auto)]

mod attempt;
mod extension;
mod fault_lines;
mod place;
mod refusal;
pub mod shown;

pub use fault_lines::FaultLines;
pub use place::Place;
