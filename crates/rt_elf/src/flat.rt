//! Objects of flat images, as a linker leaves them, with the symbols that a list of names gives.

mod entry;
mod fault;
mod laws;
mod making;
mod names;
mod places;
mod refused_words;
mod symbols;

pub use entry::Entry;
pub use fault::FlatFault;
pub use laws::{refused_words_are_in_faulty_lines, symbols_are_those_of_the_lines};
pub use making::{Flat, flat_object};
pub use refused_words::refused_word;
pub use symbols::{is_shown, symbol_of};
