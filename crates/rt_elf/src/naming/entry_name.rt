//! Names for entries.

ghost use Rattle.std.specs.Prelude.{◌≡◌, ◌≤◌, ◌↔◌, length, true, IfSome, IsSome};
ghost use Rattle.rt_token.specs.Word.{is_word};

use rt_token::is_word;

/// The most bytes of a name for an entry.
const MOST_BYTES: usize = 64;

/// A name for an entry: a word of assembly text, of at most 64 bytes.
#[derive(Clone, Copy, PartialEq, Eq)]
pub struct EntryName<'a> {
    word: &'a str,
    ghost is_word: { is_word word.now ≡ true },
    ghost short: { length word.now ≤ 64 },
}

impl<'a> EntryName<'a> {
    /// The name that is this word, if it is one of at most 64 bytes.
    pub fn new(word: &'a str) -> Option<EntryName<'a>>
        ensures fits { IsSome result ↔ ((is_word word.now ≡ true) × (length word.now ≤ 64)) }
        ensures value { IfSome result (λ name. name.word.now ≡ word.now) }
    {
        if word.len() > MOST_BYTES || !is_word(word.as_bytes()) {
            return None;
        }
        Some(EntryName { word })
    }

    /// Its word.
    pub fn word(&self) -> &'a str
        ensures value { result.now ≡ self.now.word.now }
        ensures spelled { is_word result.now ≡ true }
        ensures short { length result.now ≤ 64 }
    {
        self.word
    }
}
