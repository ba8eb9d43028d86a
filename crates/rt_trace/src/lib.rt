//! The exact text of a run: a line for each entry of its history, and then how each task stands.
#![tactic(auto)]

mod decimals;
mod hearing;
mod history_line;
mod laws;
mod line_rest;
mod name;
mod out_line;
mod page;
mod placing;
mod regs_line;
mod run;
mod task_lines;
mod telling;
mod tick_text;

pub use hearing::{Heard, Hearer, Unheard};
pub use history_line::{EntryLine, push_line, push_outcome};
pub use laws::tasks_are_told_as_alone;
pub use out_line::{Digits, OutLine};
pub use placing::{pair_of, place_front, place_text};
pub use regs_line::RegsLine;
pub use run::{write_end, write_run};
pub use task_lines::ModeWords;
pub use telling::Telling;
pub use tick_text::{Hundred, place_tick};
