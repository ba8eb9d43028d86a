//! Assembles a whole source.

ghost use Rattle.std.specs.Prelude.{◌≡◌, ◌+◌, ◌≤◌, length, codes, IfOk, MatchResult, Ok, Some};
ghost use Rattle.rt_words.specs.Limits.{image_limit, symbol_limit};
ghost use Rattle.rt_asm.specs.Labels.{address_in};
ghost use Rattle.rt_asm.specs.Layout.{layout};
ghost use Rattle.rt_words.specs.Base.{base};
ghost use Rattle.rt_asm.specs.Placement.{ArePlaced, Agrees};
ghost use Rattle.rt_asm.specs.Source.{end_from, assembled, IsRefusal};

use crate::assembled::Assembled;
use crate::fault::{AssembleFault, at_line};
use crate::layout::{Plan, layout};
use crate::statements::push_line;
use rt_text::Line;
use rt_words::RAM_BASE;
use std::alloc::Global;

/// The image of a source with its labels. Lines count from 1 among those handed in; the first
/// statement stands at 0x80000000, and each other where the one before it ends.
///
/// # Errors
/// The first fault of the layout (a label that is defined twice, a count of `.zero` or `.align` out
/// of range, over 1,048,576 bytes or 65,536 labels); where there is none, the first of the operands
/// (a label that isn't defined, a number or a distance out of range, an odd distance); where there
/// is none, `NoEntry` at line 0 for a source without `_start`. Or want of memory.
pub fn assemble<'a>(alloc: Global, lines: &[Line<'a>]) -> Result<Assembled<'a>, AssembleFault>
    ensures placed { IfOk result (λ a. Agrees lines.now a.labels a.bytes) }
    ensures low { IfOk result (λ a. length a.bytes ≤ image_limit) }
    ensures few { IfOk result (λ a. length a.labels ≤ symbol_limit) }
    ensures start { IfOk result (λ a. address_in a.labels (codes "_start") ≡ Some a.entry) }
    ensures exact { MatchResult result (λ a. assembled lines.now ≡ Ok (a.entry, a.labels)) (λ f. IsRefusal f (assembled lines.now)) }
{
    let plan = layout(alloc, lines)?;
    let bytes = image_bytes(alloc, lines, &plan)?;
    Assembled::new(alloc, plan.labels(), bytes)
}

/// The bytes of a source that is laid out so.
fn image_bytes(alloc: Global, lines: &[Line], plan: &Plan) -> Result<Vec<u8>, AssembleFault>
    requires { layout lines.now ≡ Ok plan.now }
    ensures placed { IfOk result (λ bytes. ArePlaced plan.now.labels base lines.now plan.now.labels bytes.items) }
    ensures low { IfOk result (λ bytes. length bytes.items ≤ image_limit) }
    ensures exact { MatchResult result (λ bytes. end_from plan.now.labels 1 base lines.now ≡ Ok (base + length bytes.items)) (λ fault. IsRefusal fault (end_from plan.now.labels 1 base lines.now)) }
{
    let mut bytes = Vec::with_capacity(alloc, (plan.place() - RAM_BASE) as usize)?;
    let mut number: u64 = 1;
    for line in lines {
        let place = RAM_BASE + bytes.len() as u32;
        match push_line(&mut bytes, plan.labels(), place, line) {
            Ok(()) => number += 1,
            Err(fault) => return Err(at_line(fault, number)),
        }
    }
    Ok(bytes)
}
