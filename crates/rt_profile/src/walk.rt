//! The addresses of a task that have ticks, one after the other.

ghost use Rattle.std.specs.Prelude.{◌≡◌, ◌≢◌, ℕ, ◌+◌, ◌*◌, ◌^◌, ◌<◌, ◌≤◌, [], ◌∷◌, length, slice_index, Some, None, MatchOption};
ghost use Rattle.rt_words.specs.Base.{base};
ghost use Rattle.rt_profile.specs.Counted.{word_at};
ghost use Rattle.rt_profile.specs.Working.Told.{executed_from, with_outside, is_below};

use rt_words::RAM_BASE;
use std::marker::Model;

/// What is still to report of the addresses with ticks, in rising order.
#[derive(Drop)]
pub(crate) struct Walk<'w> {
    words: &'w [u64],
    at: usize,
    outside: Option<u32>,
}

impl<'w> Model for Walk<'w> {
    ghost use Rattle.std.specs.Prelude.{ℕ, List, ◌+◌, ◌*◌, drop};
    ghost use Rattle.rt_words.specs.Base.{base};
    ghost use Rattle.rt_profile.specs.Working.Told.{executed_from, with_outside, IsWalk};

    ghost Value = { List ℕ };

    ghost view = { λ w. with_outside w.outside (executed_from (base + 4 * w.at) (drop w.at w.words.now)) };

    ghost invariant = { λ w. IsWalk w.at w.words.now w.outside };
}

/// The number of the first word with ticks from word `at` on, or how many words there are.
fn first_with_ticks(words: &[u64], at: usize) -> usize
    requires { at ≤ length words.now }
    ensures from { at ≤ result }
    ensures within { result ≤ length words.now }
    ensures none { (k : ℕ) → at ≤ k → k < result → slice_index words.now k ≡ 0 }
    ensures some { result < length words.now → slice_index words.now result ≢ 0 }
{
    let mut word = at;
    'words: while word < words.len() && words[word] == 0 {
        word += 1;
    }
    word
}

/// Whether there is an address, and it stands below another.
fn stands_below(outside: Option<u32>, address: u32) -> bool
    ensures { result ≡ is_below outside address }
{
    match outside {
        Some(pc) => pc < address,
        None => false,
    }
}

impl<'w> Walk<'w> {
    /// All addresses with ticks: of these words of RAM, and one that is no word's.
    pub(crate) fn new(words: &'w [u64], outside: Option<u32>) -> Walk<'w>
        requires few { length words.now ≤ 2 ^ 18 }
        requires apart { (a : ℕ) → outside ≡ Some a → word_at (length words.now) a ≡ None }
        ensures { result ≡ with_outside outside (executed_from base words.now) }
    {
        Walk {
            words,
            at: 0,
            outside,
        }
    }

    /// The address that comes next, and is reported with this.
    pub(crate) fn next(&mut self) -> Option<u32>
        ensures { MatchOption result (self.old ≡ []) (λ a. self.old ≡ a ∷ self.new) }
    {
        let word = first_with_ticks(self.words, self.at);
        self.at = word;
        if word == self.words.len() {
            return self.outside.take();
        }
        let address = RAM_BASE + 4 * word as u32;
        if stands_below(self.outside, address) {
            return self.outside.take();
        }
        self.at = word + 1;
        Some(address)
    }
}
