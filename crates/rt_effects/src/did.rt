//! What an attempt did.

ghost use Rattle.std.specs.Prelude.{◌≡◌, ◌+◌, ◌≤◌, ◌++◌, ◌∷◌, [], Some, codes};
ghost use Rattle.std.specs.List.{filter_map};
ghost use Rattle.arrayvec.specs.ArrayVec.{array_vec_len};
ghost use Rattle.rt_trace.specs.HistoryText.{outcome_text};
ghost use Rattle.rt_effects.specs.Did.{register_text, carried_out, fault_text, joined, did};
ghost use Rattle.rt_effects.specs.Working.Pieces.{next_pieces};

use crate::instruction::{push_carried_out, push_register};
use arrayvec::ArrayVec;
use rt_history::{Attempt, AttemptOutcome};
use rt_isa::decode;
use rt_points::access_of;
use rt_sink::{push_byte, push_hex, push_text};
use rt_trace::push_outcome;

/// The most bytes of what an attempt did.
pub const DID_LEN: usize = 64;

/// The number of the register of a call's answer.
const A0: u8 = 10;

/// Appends what an instruction did that was carried out.
fn push_next<const N: usize>(
    line: &mut ArrayVec<u8, N>,
    before: &[u32; 32],
    next: u32,
    x: &[u32; 32],
    rec: &Attempt,
)
    requires { array_vec_len line.old + DID_LEN ≤ N }
    ensures text { line.new.items ≡ line.old.items ++ joined (filter_map (λ p. p) (next_pieces before.now (record { pc = next; x = x.now }) rec.now)) }
    ensures room { array_vec_len line.new ≤ array_vec_len line.old + DID_LEN }
{
    let Some(word) = rec.word else {
        push_byte(line, b'-');
        return;
    };
    match decode(word) {
        Some(instruction) => push_carried_out(line, before, next, x, rec.pc, instruction),
        None => push_byte(line, b'-'),
    }
}

/// Appends how a call came out that answers in x10, and the answer.
fn push_answered<const N: usize>(line: &mut ArrayVec<u8, N>, outcome: AttemptOutcome, x: &[u32; 32])
    requires { array_vec_len line.old + DID_LEN ≤ N }
    ensures text { line.new.items ≡ line.old.items ++ joined (outcome_text outcome ∷ register_text 10 x.now ∷ []) }
    ensures room { array_vec_len line.new ≤ array_vec_len line.old + DID_LEN }
{
    push_outcome(line, outcome);
    push_text(line, b", ");
    push_register(line, A0, x);
}

/// Appends how a call came out that answers nothing.
fn push_called<const N: usize>(line: &mut ArrayVec<u8, N>, outcome: AttemptOutcome)
    requires { array_vec_len line.old + DID_LEN ≤ N }
    ensures text { line.new.items ≡ line.old.items ++ joined (outcome_text outcome ∷ []) }
    ensures room { array_vec_len line.new ≤ array_vec_len line.old + DID_LEN }
{
    push_outcome(line, outcome);
}

/// Appends a fault, with the address of the load or store that it is of.
fn push_fault<const N: usize>(line: &mut ArrayVec<u8, N>, before: &[u32; 32], rec: &Attempt)
    requires { array_vec_len line.old + DID_LEN ≤ N }
    ensures text { line.new.items ≡ line.old.items ++ joined (fault_text before.now rec.now.word rec.now.outcome ∷ []) }
    ensures room { array_vec_len line.new ≤ array_vec_len line.old + DID_LEN }
{
    push_outcome(line, rec.outcome);
    let Some(word) = rec.word else {
        return;
    };
    if let Some(access) = access_of(word, before) {
        push_text(line, b" at ");
        push_hex(line, access.address);
    }
}

/// Appends what an attempt did, with the registers before it, and pc and the registers after it: at most `DID_LEN` bytes.
pub fn push_did<const N: usize>(
    line: &mut ArrayVec<u8, N>,
    before: &[u32; 32],
    next: u32,
    x: &[u32; 32],
    rec: &Attempt,
)
    requires { array_vec_len line.old + DID_LEN ≤ N }
    ensures text { line.new.items ≡ line.old.items ++ did before.now (record { pc = next; x = x.now }) rec.now }
    ensures room { array_vec_len line.new ≤ array_vec_len line.old + DID_LEN }
{
    match rec.outcome {
        AttemptOutcome::Next => push_next(line, before, next, x, rec),
        AttemptOutcome::End | AttemptOutcome::Sleep(_) | AttemptOutcome::Yield => {
            push_called(line, rec.outcome)
        }
        AttemptOutcome::Write(_)
        | AttemptOutcome::WriteRefused
        | AttemptOutcome::Now(_)
        | AttemptOutcome::Reserve(_)
        | AttemptOutcome::ReserveRefused => push_answered(line, rec.outcome, x),
        AttemptOutcome::Fault(_) => push_fault(line, before, rec),
    }
}
