//! What follows the tick in the line of an entry, put at a place of a row of bytes.

ghost use Rattle.std.specs.Prelude.{◌≡◌, ◌+◌, ◌≤◌, ◌++◌, length, codes, decimal};
ghost use Rattle.rt_words.specs.Hex.{hex};
ghost use Rattle.rt_trace.specs.HistoryText.{word_text, outcome_text};
ghost use Rattle.rt_trace.specs.Placed.{Placed};
ghost use Rattle.rt_trace.specs.Working.Lines.{name_text, attempt_text, rest_text};

use crate::decimals::place_decimal;
use crate::history_line::push_outcome;
use crate::placing::{place_byte, place_front, place_text, place_words};
use arrayvec::ArrayVec;
use rt_history::{Attempt, AttemptOutcome, Entry};
use rt_words::hex_word;

/// How many bytes follow the tick at most.
pub(crate) const REST_LEN: usize = 140;

/// Puts the number of a task at a place, a space before it and one behind.
#[inline(always)]
fn place_number(bytes: &mut [u8], at: usize, task: u32) -> usize
    requires { at + 22 ≤ length bytes.old }
    ensures text { Placed bytes.old bytes.new at (name_text task) result }
    ensures short { result ≤ at + 22 }
{
    let at = place_byte(bytes, at, b' ');
    let at = place_decimal(bytes, at, u64::from(task));
    place_byte(bytes, at, b' ')
}

/// Puts a pc at a place, and eight hyphens for the word that isn't in RAM, a space between them.
#[inline(never)]
fn place_unread(bytes: &mut [u8], at: usize, pc: u32) -> usize
    requires room { at + 17 ≤ length bytes.old }
    ensures text { Placed bytes.old bytes.new at (hex 8 pc ++ codes " " ++ codes "--------") result }
    ensures end { result ≡ at + 17 }
{
    let at = place_front::<8>(bytes, at, &hex_word(pc), 8);
    let at = place_byte(bytes, at, b' ');
    place_front::<8>(bytes, at, b"--------", 8)
}

/// Puts how an attempt came out at a place.
#[inline(never)]
fn place_outcome(bytes: &mut [u8], at: usize, outcome: AttemptOutcome) -> usize
    requires { at + 28 ≤ length bytes.old }
    ensures text { Placed bytes.old bytes.new at (outcome_text outcome) result }
    ensures short { result ≤ at + 28 }
{
    let mut text = ArrayVec::<u8, 28>::new();
    push_outcome(&mut text, outcome);
    place_text(bytes, at, &text)
}

/// Puts what follows the tick of an attempt at a place.
#[inline(always)]
fn place_attempt(bytes: &mut [u8], at: usize, rec: Attempt) -> usize
    requires { at + 80 ≤ length bytes.old }
    ensures text { Placed bytes.old bytes.new at (attempt_text rec) result }
    ensures short { result ≤ at + 80 }
{
    let at = place_number(bytes, at, rec.task);
    let at = match rec.word {
        Some(word) => place_words(bytes, at, rec.pc, word),
        None => place_unread(bytes, at, rec.pc),
    };
    match rec.outcome {
        AttemptOutcome::Sleep(w) => {
            let at = place_front::<8>(bytes, at, b" sleep  ", 7);
            place_decimal(bytes, at, w)
        }
        outcome => {
            let at = place_byte(bytes, at, b' ');
            place_outcome(bytes, at, outcome)
        }
    }
}

/// Puts what follows the tick in the line of an entry at a place, and answers the place behind it.
#[cold]
#[inline(never)]
pub(crate) fn place_rest(bytes: &mut [u8], at: usize, entry: &Entry) -> usize
    requires { at + REST_LEN ≤ length bytes.old }
    ensures text { Placed bytes.old bytes.new at (rest_text entry.now) result }
    ensures short { result ≤ at + REST_LEN }
{
    let end = match *entry {
        Entry::Busy { rec, .. } => place_attempt(bytes, at, rec),
        Entry::Idle { n, .. } => {
            let at = place_front::<8>(bytes, at, b" idle   ", 6);
            place_decimal(bytes, at, n)
        }
    };
    place_byte(bytes, end, b'\n')
}
