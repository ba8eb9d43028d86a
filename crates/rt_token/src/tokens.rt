//! The tokens of a line.

use crate::pieces::Piece;

/// What a token is.
#[derive(Clone, Copy, PartialEq, Eq)]
pub enum Kind {
    /// A label, a mnemonic, a directive, a register.
    Word,
    /// A digit and what follows it, with a `-` before it or not.
    Number,
    /// A string with its quotes.
    Text,
    /// `,`
    Comma,
    /// `(`
    Open,
    /// `)`
    Close,
    /// `:`
    Colon,
}

/// A token.
#[derive(Drop)]
pub struct Token<'a> {
    /// What it is.
    pub kind: Kind,
    /// Its bytes, and where they lie.
    pub slice: Piece<'a>,
}

mod cutting;

pub use cutting::cut_tokens;
