//! A task's registers and numbers.

ghost use Rattle.std.specs.Prelude.{◌≡◌, ◌+◌, ◌*◌, ◌≤◌, ◌++◌, length};
ghost use Rattle.std.specs.List.{flat_map};
ghost use Rattle.std.specs.Option.{option_map};
ghost use Rattle.arrayvec.specs.ArrayVec.{array_vec_len};
ghost use Rattle.rt_packet.specs.answer.Registers.{word_text, long_text, register_text, registers_text};
ghost use Rattle.rt_packet.specs.answer.Working.Number.{number_text};

use crate::MAX_PAYLOAD;
use crate::answer::payload::{Payload, push_pairs};

/// The registers of a task, and the numbers of its server.
#[derive(Clone, Copy)]
pub struct TaskNumbers<'a> {
    /// x0 to x31.
    pub x: &'a [u32; 32],
    pub pc: u32,
    /// The tick that comes next.
    pub tick: u64,
    /// The budget that is left, in ticks.
    pub budget: u32,
    /// The deadline, as a tick.
    pub deadline: u64,
}

/// Appends a word as four bytes, the low one first: 8 digits.
fn push_word(out: &mut Payload, word: u32)
    requires { array_vec_len out.old + 8 ≤ MAX_PAYLOAD }
    ensures text { out.new.items ≡ out.old.items ++ word_text word }
    ensures room { array_vec_len out.new ≡ array_vec_len out.old + 8 }
{
    push_pairs(out, &word.to_le_bytes());
}

/// A word alone.
fn word_answer(word: u32) -> Payload
    ensures { result.items ≡ word_text word }
{
    let mut out = Payload::new();
    push_word(&mut out, word);
    out
}

/// A number of 64 bits alone.
fn long_answer(number: u64) -> Payload
    ensures { result.items ≡ long_text number }
{
    let mut out = Payload::new();
    push_pairs(&mut out, &number.to_le_bytes());
    out
}

/// A number of either size.
#[derive(Clone, Copy)]
enum Number {
    Word(u32),
    Long(u64),
}

/// A number alone. One place for its payload is enough, whichever number it is.
fn number_answer(number: Number) -> Payload
    ensures { result.items ≡ number_text number }
{
    match number {
        Number::Word(word) => word_answer(word),
        Number::Long(long) => long_answer(long),
    }
}

/// The number of an index, if it has one.
fn number_of(numbers: &TaskNumbers, n: u64) -> Option<Number>
    ensures { option_map number_text result ≡ register_text numbers.now n }
{
    match n {
        0..=31 => Some(Number::Word(numbers.x[n as usize])),
        0x20 => Some(Number::Word(numbers.pc)),
        0x21 => Some(Number::Long(numbers.tick)),
        0x22 => Some(Number::Word(numbers.budget)),
        0x23 => Some(Number::Long(numbers.deadline)),
        _ => None,
    }
}

/// Appends words.
#[tactic(auto, using(crate::proofs::answer::PairLemmas::flat_map_take_more))]
fn push_words(out: &mut Payload, words: &[u32])
    requires { array_vec_len out.old + 8 * length words.now ≤ MAX_PAYLOAD }
    ensures text { out.new.items ≡ out.old.items ++ flat_map word_text words.now }
    ensures room { array_vec_len out.new ≡ array_vec_len out.old + 8 * length words.now }
{
    for word in words {
        push_word(out, *word);
    }
}

/// The values of x0 to x31 and pc, each as four bytes, the low one first: 264 digits. Allocates nothing.
pub fn registers_answer(x: &[u32; 32], pc: u32) -> Payload
    ensures { result.items ≡ registers_text x.now pc }
{
    let mut out = Payload::new();
    push_words(&mut out, x);
    push_word(&mut out, pc);
    out
}

/// The value of the number of this index, its low byte first: 0 to 31 are the registers, 0x20 is pc, 0x21 the tick, 0x22 the
/// budget, 0x23 the deadline. Tick and deadline have 16 digits, the others 8. None from 0x24 on. Allocates nothing.
pub fn register_answer(numbers: &TaskNumbers, n: u64) -> Option<Payload>
    ensures { option_map (λ p. p.items) result ≡ register_text numbers.now n }
{
    Some(number_answer(number_of(numbers, n)?))
}
