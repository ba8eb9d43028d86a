//! A text that is kept from one place where it is written to the next.

ghost use Rattle.std.specs.Prelude.{◌≡◌, ◌≤◌, length, take};

use std::marker::Model;

/// How many bytes a kept text has at most: 64, and a task's name.
pub(crate) const KEPT_LEN: usize = 576;

/// A text, and room behind it. Contracts see the text.
#[derive(Drop)]
pub(crate) struct Kept {
    bytes: [u8; KEPT_LEN],
    len: usize,
}

impl Model for Kept {
    ghost use Rattle.std.specs.Prelude.{ℕ, List, ◌≡◌, ◌≤◌, length, take};

    ghost Value = { List ℕ };

    ghost view = { λ kept. take kept.len kept.bytes };

    ghost invariant = { λ kept. (kept.len ≤ 576) × (length kept.bytes ≡ 576) };
}

impl Kept {
    /// A text.
    pub(crate) fn new(text: &[u8]) -> Kept
        requires { length text.now ≤ KEPT_LEN }
        ensures { result ≡ text.now }
    {
        let mut bytes = [0; KEPT_LEN];
        bytes[..text.len()].copy_from_slice(text);
        Kept {
            bytes,
            len: text.len(),
        }
    }

    /// The text, with what lies behind it.
    #[inline(always)]
    pub(crate) fn bytes(&self) -> &[u8]
        ensures text { take (length self.now) result.now ≡ self.now }
        ensures long { length result.now ≡ KEPT_LEN }
    {
        &self.bytes
    }

    /// How many bytes the text has.
    #[inline(always)]
    pub(crate) fn count(&self) -> usize
        ensures value { result ≡ length self.now }
        ensures few { result ≤ KEPT_LEN }
    {
        self.len
    }
}
