//! All lines of a text that are at fault.

ghost use Rattle.std.specs.Prelude.{◌≡◌, ◌++◌, [], map, Ok, IfOk, OnOk};
ghost use Rattle.std.specs.Result.{result_err};
ghost use Rattle.rt_words.specs.Base.{base};
ghost use Rattle.rt_text.specs.AllFaults.{told};
ghost use Rattle.rt_asm.specs.AllFaults.{all_faults};
ghost use Rattle.rt_asm.specs.Flaws.{all_flaws, flaw_at, layout_flaws, operand_flaws, source_flaws, with_reason};
ghost use Rattle.rt_asm.specs.Reasons.{line_reason};
ghost use Rattle.rt_asm.specs.Code.{statement_code};
ghost use Rattle.rt_asm.specs.Layout.{layout};
ghost use Rattle.rt_asm.specs.declared.fault.LineFault.TheVariants.{Text, Source};

use crate::fault::{AsmFault, AsmKind, AssembleFault, LineFault, StepFault};
use crate::flaws::{Flaw, Reason, line_reason};
use crate::labels::Labels;
use crate::layout::{Plan, layout};
use crate::statements::{line_size, push_line};
use rt_text::{Line, ParseFault, TextFault, parse, text_faults};
use rt_words::RAM_BASE;
use std::alloc::{AllocError, Global};

/// All faults of a text of one kind, each of another line, in order: of lines that are no assembly
/// text; where there are none, of the layout; where there are none, of operands. A label that is
/// there keeps its first place, a statement of a faulty size takes no bytes, and behind `TooLarge`
/// nothing is reported. A missing `_start` is none of these faults.
///
/// # Errors
/// Want of memory.
#[tactic(auto, using(crate::proofs::FlawLemmas::flaws_are_faults))]
pub fn all_faults(alloc: Global, text: &[u8]) -> Result<Vec<LineFault>, AllocError>
    ensures { IfOk result (λ faults. faults.items ≡ all_faults text.now) }
{
    match parse(alloc, text) {
        Ok(lines) => of_source(alloc, &source_flaws(alloc, &lines)?),
        Err(ParseFault::Fault(_)) => of_text(alloc, &text_faults(alloc, text)?),
        Err(ParseFault::Memory) => Err(AllocError),
    }
}

fn of_text(alloc: Global, faults: &[TextFault]) -> Result<Vec<LineFault>, AllocError>
    ensures { IfOk result (λ told. told.items ≡ map Text faults.now) }
{
    let mut told = Vec::with_capacity(alloc, faults.len())?;
    for fault in faults {
        told.push(LineFault::Text(*fault))?;
    }
    Ok(told)
}

fn of_source(alloc: Global, flaws: &[Flaw]) -> Result<Vec<LineFault>, AllocError>
    ensures { IfOk result (λ told. told.items ≡ map (λ flaw. Source flaw.fault) flaws.now) }
{
    let mut told = Vec::with_capacity(alloc, flaws.len())?;
    for flaw in flaws {
        told.push(LineFault::Source(flaw.fault))?;
    }
    Ok(told)
}

/// The faults of a text of well formed lines, as `all_faults` tells them, each with why the line has
/// it. None of another text.
///
/// # Errors
/// Want of memory.
pub fn all_flaws(alloc: Global, text: &[u8]) -> Result<Vec<Flaw>, AllocError>
    ensures { IfOk result (λ flaws. flaws.items ≡ all_flaws text.now) }
{
    match parse(alloc, text) {
        Ok(lines) => source_flaws(alloc, &lines),
        Err(ParseFault::Fault(_)) => Ok(Vec::new(alloc)),
        Err(ParseFault::Memory) => Err(AllocError),
    }
}

/// All flaws of a source of one kind.
fn source_flaws(alloc: Global, lines: &[Line]) -> Result<Vec<Flaw>, AllocError>
    ensures { IfOk result (λ flaws. flaws.items ≡ source_flaws lines.now) }
{
    match layout(alloc, lines) {
        Ok(plan) => operand_flaws(alloc, lines, &plan),
        Err(AssembleFault::Fault(_)) => layout_flaws(alloc, lines),
        Err(AssembleFault::Memory) => Err(AllocError),
    }
}

/// The flaws of the layout of a source.
fn layout_flaws(alloc: Global, lines: &[Line]) -> Result<Vec<Flaw>, AllocError>
    ensures { IfOk result (λ flaws. flaws.items ≡ layout_flaws 1 (record { place = base; labels = [] }) lines.now) }
{
    let mut flaws = Vec::new(alloc);
    let mut plan = Plan::new(alloc);
    let mut number: u64 = 1;
    for line in lines {
        let mended = plan.mend_line(line)?;
        tell(&mut flaws, number, mended.flaw)?;
        if !mended.is_within {
            return Ok(flaws);
        }
        number += 1;
    }
    Ok(flaws)
}

/// The flaws of the operands of a source that is laid out so.
fn operand_flaws(alloc: Global, lines: &[Line], plan: &Plan) -> Result<Vec<Flaw>, AllocError>
    requires { layout lines.now ≡ Ok plan.now }
    ensures { IfOk result (λ flaws. flaws.items ≡ operand_flaws plan.now.labels 1 base lines.now) }
{
    let mut flaws = Vec::new(alloc);
    let mut room = Vec::new(alloc);
    let mut number: u64 = 1;
    let mut place = RAM_BASE;
    for line in lines {
        room.clear();
        let flaw = operand_flaw(&mut room, plan.labels(), place, line)?;
        tell(&mut flaws, number, flaw)?;
        place += line_size(place, line).unwrap_or(0) as u32;
        number += 1;
    }
    Ok(flaws)
}

/// What is wrong with the operands of a line that stands at a place, and why. Its bytes go into `room`.
fn operand_flaw(
    room: &mut Vec<u8>,
    labels: &Labels,
    place: u32,
    line: &Line,
) -> Result<Option<(AsmKind, Option<Reason>)>, AllocError>
    ensures { IfOk result (λ flaw. flaw ≡ with_reason (line_reason labels.now place line.now.statement) (result_err (statement_code labels.now place line.now.statement))) }
{
    match push_line(room, labels, place, line) {
        Ok(()) => Ok(None),
        Err(StepFault::Fault(kind)) => {
            let reason = line_reason(labels, place, line.statement(), kind);
            Ok(Some((kind, reason)))
        }
        Err(StepFault::Memory) => Err(AllocError),
    }
}

/// Tells the flaw of a line, where it has one.
fn tell(
    flaws: &mut Vec<Flaw>,
    line: u64,
    flaw: Option<(AsmKind, Option<Reason>)>,
) -> Result<(), AllocError>
    ensures { OnOk result (flaws.new.items ≡ flaws.old.items ++ told flaw_at line flaw) }
{
    if let Some((kind, reason)) = flaw {
        let fault = AsmFault { line, kind };
        flaws.push(Flaw { fault, reason })?;
    }
    Ok(())
}
