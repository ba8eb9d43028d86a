//! Words, numbers and tokens: what all texts that are read are cut into, and their lines.
#![tactic(auto)]

mod laws;
mod lines;
mod numbers;
mod pieces;
mod spaced_words;
mod tokens;
mod words;

pub use laws::tokens_are_those_of_the_grammar;
pub use lines::cut_line;
pub use numbers::{number, value_up_to};
pub use pieces::{Piece, Span};
pub use spaced_words::{after_keyword, decimal_up_to, number_at, word_at};
pub use tokens::{Kind, Token, cut_tokens};
pub use words::is_word;
