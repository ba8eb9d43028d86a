//! What has a text is a value, and one function writes it.
#![tactic(auto)]

mod each;
mod line;
mod out;
mod pieces;
mod tuples;

pub use each::{Each, Line};
pub use line::{Gathered, InOne};
pub use out::{Out, Text, offer_to, write};
pub use pieces::{BYTES_LEN, Byte, Bytes, Decimal, Hex, WORD_LEN, plain, word};
