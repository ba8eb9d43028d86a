//! Texts that the table of commands makes: what shells complete, the page of the manual, and what help says of a word that is printed.

mod pages;
mod printed;

pub use pages::Page;
pub use printed::{Printed, printed_names};
