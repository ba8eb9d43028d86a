//! Parts of the source.

ghost use Rattle.std.specs.Prelude.{◌≡◌, ◌+◌, ◌<◌, ◌^◌, length};

use std::marker::Model;

/// Where a part of the source begins, and where it ends (one past its last byte), in bytes from 0.
#[derive(Clone, Copy, PartialEq, Eq)]
pub struct Span {
    /// Its first byte.
    pub start: usize,
    /// One past its last byte.
    pub end: usize,
}

/// A part of the source text, with where it lies there. A contract sees it as a `Slice`.
#[derive(Drop)]
pub struct Piece<'a> {
    pub(crate) start: usize,
    pub(crate) text: &'a [u8],
}

impl<'a> Model for Piece<'a> {
    ghost use Rattle.std.specs.Prelude.{◌+◌, ◌<◌, ◌^◌, length};
    ghost use Rattle.rt_token.specs.Slice.{Slice};

    ghost Value = { Slice };

    ghost view = { λ p. record { start = p.start; text = p.text.now } };

    ghost invariant = { λ p. p.start + length p.text.now < 2 ^ 64 };
}

impl<'a> Piece<'a> {
    /// Its bytes.
    pub fn text(&self) -> &'a [u8]
        ensures { result.now ≡ self.now.text }
    {
        self.text
    }

    /// Where its first byte lies in the source, counted in bytes from 0.
    pub fn start(&self) -> usize
        ensures { result ≡ self.now.start }
    {
        self.start
    }

    /// Where it ends in the source: one past its last byte.
    pub fn end(&self) -> usize
        ensures { result ≡ self.now.start + length self.now.text }
    {
        let length = self.text.len();
        length + self.start
    }

    /// Where it lies in the source.
    pub fn span(&self) -> Span
        ensures { result ≡ record { start = self.now.start; end = self.now.start + length self.now.text } }
    {
        Span {
            start: self.start,
            end: self.end(),
        }
    }

    /// The same part.
    pub fn same(&self) -> Piece<'a>
        ensures { result ≡ self.now }
    {
        Piece {
            start: self.start,
            text: self.text,
        }
    }
}
