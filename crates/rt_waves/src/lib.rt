//! The schedule as waves: a value change dump (IEEE 1364-2005, 18.2) that is written while a history goes on, and keeps none of it.
//!
//! What it tells is defined in `specs/`, and is read first there: `Waves`, `WavesText`, `Scale`, `Standing`. All numbers are whole ticks.
#![tactic(auto)]

mod binary;
mod block;
pub mod dump;
mod head;
mod kept;
pub mod laws;
mod lines;
mod page;
mod parts;
mod scale;
mod scopes;
mod signals;
mod track;
mod visiting;
mod waves;

pub use page::{PAGE_LEN, Page, TIMES_ROOM};
pub use scale::{Scale, ScaleCount, TimeUnit};
pub use track::Place;
pub use waves::Waves;
