//! The bytes of statements, and how many they are.

ghost use Rattle.std.specs.Prelude.{◌≡◌, ◌≤◌, ◌+◌, ◌^◌, length, IfOk, IfSome, MatchResult, Ok};
ghost use Rattle.rt_asm.specs.Code.{Instructions as InstructionCode, code_of, statement_code};
ghost use Rattle.rt_asm.specs.Data.{end_of_text};
ghost use Rattle.rt_asm.specs.Working.Emission.{AppendsCode, Fails};
ghost use Rattle.rt_asm.specs.Size.{operation_size, transfer_size, directive_size, size_of, statement_size};

use crate::data::{gap, push_data};
use crate::fault::{AsmKind, StepFault};
use crate::instructions::Instructions;
use crate::labels::Labels;
use crate::numbers::{alignment, low_word, zero_count};
use crate::operations::{load_number, operation_code};
use crate::rows;
use crate::transfers::transfer_code;
use rt_text::{Directive, JumpOp, Line, Meaning, Operation, TextOp, Transfer};

/// Appends the bytes of a line that stands at a place.
pub fn push_line(
    out: &mut Vec<u8>,
    labels: &Labels,
    place: u32,
    line: &Line,
) -> Result<(), StepFault>
    ensures { MatchResult result (λ _. AppendsCode out.old.items out.new.items (statement_code labels.now place line.now.statement)) (λ fault. Fails fault (statement_code labels.now place line.now.statement)) }
{
    match line.statement() {
        Some(statement) => push_meaning(out, labels, place, statement.meaning()),
        None => Ok(()),
    }
}

/// Appends the bytes of a statement of this meaning that stands at a place.
#[tactic(auto, unfolding(crate::specs::Code::code_of))]
pub fn push_meaning(
    out: &mut Vec<u8>,
    labels: &Labels,
    place: u32,
    meaning: &Meaning,
) -> Result<(), StepFault>
    ensures { MatchResult result (λ _. AppendsCode out.old.items out.new.items (code_of labels.now place meaning.now)) (λ fault. Fails fault (code_of labels.now place meaning.now)) }
{
    let instructions = match meaning {
        Meaning::Operation(operation) => operation_code(operation)?,
        Meaning::Transfer(transfer) => transfer_code(labels, place, transfer)?,
        Meaning::Fence(before, after) => Instructions::one(rows::fence(
            before.bits(),
            after.bits(),
        )),
        Meaning::Plain(op) => Instructions::one(rows::plain(*op)),
        Meaning::Directive(directive) => return push_data(out, labels, place, directive),
    };
    instructions.push_to(out)?;
    Ok(())
}

/// The instructions of a statement of this meaning that stands at a place, where these labels alone
/// say which they are.
#[tactic(auto, unfolding(crate::specs::Code::code_of))]
pub fn known_code(labels: &Labels, place: u32, meaning: &Meaning) -> Option<Instructions>
    ensures { IfSome result (λ xs. code_of labels.now place meaning.now ≡ Ok (InstructionCode xs)) }
{
    match meaning {
        Meaning::Operation(operation) => operation_code(operation).ok(),
        Meaning::Transfer(transfer) => transfer_code(labels, place, transfer).ok(),
        Meaning::Fence(before, after) => Some(Instructions::one(rows::fence(
            before.bits(),
            after.bits(),
        ))),
        Meaning::Plain(op) => Some(Instructions::one(rows::plain(*op))),
        Meaning::Directive(_) => None,
    }
}

/// How many bytes a line takes that stands at a place.
pub fn line_size(place: u32, line: &Line) -> Result<u64, AsmKind>
    ensures value { result ≡ statement_size place line.now.statement }
    ensures bound { IfOk result (λ size. size ≤ 2 ^ 63) }
{
    match line.statement() {
        Some(statement) => size_of(place, statement.meaning()),
        None => Ok(0),
    }
}

fn size_of(place: u32, meaning: &Meaning) -> Result<u64, AsmKind>
    ensures value { result ≡ size_of place meaning.now }
    ensures bound { IfOk result (λ size. size ≤ 2 ^ 63) }
{
    match meaning {
        Meaning::Operation(operation) => Ok(operation_size(operation)),
        Meaning::Transfer(transfer) => Ok(transfer_size(transfer)),
        Meaning::Fence(_, _) => Ok(4),
        Meaning::Plain(_) => Ok(4),
        Meaning::Directive(directive) => directive_size(place, directive),
    }
}

fn operation_size(operation: &Operation) -> u64
    ensures value { result ≡ operation_size operation.now }
    ensures bound { result ≤ 2 ^ 63 }
{
    match operation {
        Operation::LoadNumber(target, number) => {
            u64::from(load_number(*target, low_word(*number)).size())
        }
        _ => 4,
    }
}

fn transfer_size(transfer: &Transfer) -> u64
    ensures value { result ≡ transfer_size transfer.now }
    ensures bound { result ≤ 2 ^ 63 }
{
    match transfer {
        Transfer::JumpTo(JumpOp::Call, _) => 8,
        Transfer::JumpTo(JumpOp::Tail, _) => 8,
        Transfer::LoadAddress(_, _) => 8,
        _ => 4,
    }
}

fn directive_size(place: u32, directive: &Directive) -> Result<u64, AsmKind>
    ensures value { result ≡ directive_size place directive.now }
    ensures bound { IfOk result (λ size. size ≤ 2 ^ 63) }
{
    match directive {
        Directive::Nothing => Ok(0),
        Directive::Bytes(numbers) => Ok(numbers.items().len() as u64),
        Directive::Halves(numbers) => Ok(2 * numbers.items().len() as u64),
        Directive::Words(targets) => Ok(4 * targets.items().len() as u64),
        Directive::Zero(count) => Ok(u64::from(zero_count(*count)?)),
        Directive::Align(power) => Ok(u64::from(gap(1 << alignment(*power)?, place))),
        Directive::Text(op, text) => Ok(text_size(*op, text.bytes())),
    }
}

/// How many bytes a string takes.
fn text_size(op: TextOp, text: &[u8]) -> u64
    ensures value { result ≡ length text.now + length (end_of_text op) }
    ensures bound { result ≤ 2 ^ 63 }
{
    match op {
        TextOp::Ascii => text.len() as u64,
        TextOp::Asciz => text.len() as u64 + 1,
    }
}
