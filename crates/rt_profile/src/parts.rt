//! The parts of a task's addresses, by the symbols of its object.

ghost use Rattle.std.specs.Prelude.{◌≡◌, ℕ, ◌+◌, ◌*◌, ◌^◌, ◌<◌, ◌≤◌, ◌==◌, length, slice_index, count_by, IfOk};
ghost use Rattle.rt_words.specs.Base.{base};
ghost use Rattle.rt_image.specs.ObjectFile.{labels};
ghost use Rattle.rt_names.specs.Parts.{part};
ghost use Rattle.rt_profile.specs.Working.Told.{first_word};

use rt_image::Symbol;
use rt_words::RAM_BASE;
use std::alloc::{AllocError, Global};

/// The number of the part of an address.
pub(crate) fn part_of(symbols: &[Symbol], address: u32) -> u32
    requires { length symbols.now < 2 ^ 32 }
    ensures value { result ≡ part (labels symbols.now) address }
    ensures within { result ≤ length symbols.now }
{
    let mut number = 0;
    for symbol in symbols {
        if symbol.address <= address {
            number += 1;
        }
    }
    number
}

/// The first word that stands at an address or above it, by its number in RAM.
fn first_word_of(address: u32) -> usize
    ensures { result ≡ first_word address }
{
    (address.saturating_sub(RAM_BASE) as usize + 3) / 4
}

/// Counts the symbols by the first word at or above each.
fn count_first_words(symbols: &[Symbol], counts: &mut [u32])
    requires few { length symbols.now < 2 ^ 32 }
    requires none { (w : ℕ) → w < length counts.old → slice_index counts.old w ≡ 0 }
    ensures { (w : ℕ) → w < length counts.new → slice_index counts.new w ≡ count_by (λ l. first_word l.address == w) (labels symbols.now) }
{
    for symbol in symbols {
        let word = first_word_of(symbol.address);
        if word < counts.len() {
            counts[word] += 1;
        }
    }
}

/// Adds to each count of symbols by their first word those before it: it becomes the number of the word's part.
fn sum_up(symbols: &[Symbol], counts: &mut [u32])
    requires few { length symbols.now < 2 ^ 32 }
    requires counts { (w : ℕ) → w < length counts.old → slice_index counts.old w ≡ count_by (λ l. first_word l.address == w) (labels symbols.now) }
    ensures { (w : ℕ) → w < length counts.new → slice_index counts.new w ≡ part (labels symbols.now) (base + 4 * w) }
{
    let mut before = 0;
    for count in counts.iter_mut() {
        before += *count;
        *count = before;
    }
}

/// The number of the part of each of so many words of RAM, in order.
///
/// # Errors
///
/// There is no memory for them.
pub(crate) fn parts_of_words(
    alloc: Global,
    symbols: &[Symbol],
    words: usize,
) -> Result<Vec<u32>, AllocError>
    requires { length symbols.now < 2 ^ 32 }
    ensures count { IfOk result (λ parts. length parts.items ≡ words) }
    ensures value { IfOk result (λ parts. (w : ℕ) → w < words → slice_index parts.items w ≡ part (labels symbols.now) (base + 4 * w)) }
{
    let mut parts = vec![in alloc; 0u32; words]?;
    count_first_words(symbols, &mut parts);
    sum_up(symbols, &mut parts);
    Ok(parts)
}
