//! The operands of a statement, as a source writes them.

mod reading;

pub(crate) use reading::{comma_place, cut_at_comma, operand, operands};
use rt_isa::Reg;
use rt_token::{Piece, Span};

/// A memory operand `n(r)`; `(r)` has the offset 0.
#[derive(Clone, Copy, PartialEq, Eq)]
pub struct Memory {
    /// Bytes from the base, -2^31 to 2^32 - 1 as the source has it.
    pub offset: i64,
    /// The register that holds the base.
    pub base: Reg,
}

/// An operand. What a word means is decided by its place in the statement.
#[derive(Drop)]
pub enum Operand<'a> {
    /// A word: a register, a label or a fence set.
    Word(Piece<'a>),
    /// A number, -2^31 to 2^32 - 1.
    Number(Piece<'a>, i64),
    /// A string, with its quotes.
    Text(Piece<'a>),
    /// A memory operand, from its first token to its last.
    Memory(Span, Memory),
}

impl<'a> Operand<'a> {
    ghost use Rattle.std.specs.Prelude.{◌≡◌};
    ghost use Rattle.rt_text.specs.Operands.{span_of};

    /// Where it lies in the source.
    pub fn span(&self) -> Span
        ensures { result ≡ span_of self.now }
    {
        match self {
            Operand::Word(piece) => piece.span(),
            Operand::Number(piece, _) => piece.span(),
            Operand::Text(piece) => piece.span(),
            Operand::Memory(span, _) => *span,
        }
    }
}
