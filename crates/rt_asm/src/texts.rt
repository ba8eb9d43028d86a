//! Assembles a text, of whose lines no more is kept than the labels, and the bytes of statements or what they mean.

ghost use Rattle.std.specs.Prelude.{◌≡◌, ◌+◌, ◌≤◌, List, length, codes, IfOk, IfSome, OnOk, MatchResult, Ok, Some};
ghost use Rattle.std.specs.Option.{option_map};
ghost use Rattle.rt_words.specs.Base.{base};
ghost use Rattle.rt_words.specs.Limits.{image_limit, symbol_limit};
ghost use Rattle.rt_text.specs.Line.{SourceStatement};
ghost use Rattle.rt_asm.specs.Code.{Instructions as InstructionCode, code_of};
ghost use Rattle.rt_asm.specs.Labels.{address_in};
ghost use Rattle.rt_asm.specs.Source.{IsRefusal};
ghost use Rattle.rt_asm.specs.Texts.{TextAnswers, IsTextRefusal};
ghost use Rattle.rt_asm.specs.Working.Drafts.{IsDraft, IsDrafted, Drafts};
ghost use Rattle.rt_asm.specs.Working.Kept.{kept_of, kept_end, HaveBytes};
ghost use Rattle.rt_asm.specs.Working.TextSteps.{ReadsOn, IsTextFault};
ghost use Rattle.rt_asm.specs.declared.kept.KeptStatement.{KeptStatement};

use crate::assembled::Assembled;
use crate::fault::{AssembleFault, AssembleTextFault, at_line};
use crate::instructions::Instructions;
use crate::kept::{Draft, LeftStatement, leave};
use crate::labels::Labels;
use crate::layout::Plan;
use crate::statements::{known_code, push_meaning};
use rt_text::{Line, LineReader, ParseFault};
use rt_words::RAM_BASE;
use std::alloc::{AllocError, Global};

/// The image of a text with its labels: that of the lines that [`parse`](rt_text::parse) gives, as
/// [`assemble`](crate::assemble) makes it. The text is read once, and of each line no more is kept
/// than its labels, and the bytes of its statement or, where they wait for labels, what it means.
///
/// # Errors
/// The first fault of the text; where there is none, the fault that `assemble` names. Or want of
/// memory.
pub fn assemble_text<'a>(alloc: Global, text: &'a [u8]) -> Result<Assembled<'a>, AssembleTextFault>
    ensures exact { TextAnswers text.now result }
    ensures low { IfOk result (λ a. length a.bytes ≤ image_limit) }
    ensures few { IfOk result (λ a. length a.labels ≤ symbol_limit) }
    ensures start { IfOk result (λ a. address_in a.labels (codes "_start") ≡ Some a.entry) }
{
    let (plan, draft) = text_layout(alloc, text)?;
    let bytes = finished(alloc, draft, &plan)?;
    Ok(Assembled::new(alloc, plan.labels(), bytes)?)
}

/// The layout of a text, and the draft of its image. Faults of the text come before those of its layout.
fn text_layout<'a>(
    alloc: Global,
    text: &'a [u8],
) -> Result<(Plan<'a>, Draft<'a>), AssembleTextFault>
    ensures { MatchResult result (λ found. IsDrafted text.now found.0 found.1.bytes.items found.1.left.items) (λ fault. IsTextRefusal fault text.now) }
{
    let mut plan = Plan::new(alloc);
    let mut draft = Draft::new(alloc);
    let mut reader = LineReader::new(alloc, text);
    let mut number = reader.number();
    while let Some(line) = reader.next_line(alloc)? {
        let place = plan.place();
        if let Err(fault) = plan.add_line(&line) {
            read_rest(alloc, &mut reader)?;
            return Err(AssembleTextFault::from(at_line(fault, number)));
        }
        draft_line(&mut draft, plan.labels(), place, number, line, &mut reader)?;
        number = reader.number();
    }
    Ok((plan, draft))
}

/// Adds a line that stands at a place to a draft, and gives it back to its reader.
fn draft_line<'a>(
    draft: &mut Draft<'a>,
    labels: &Labels<'a>,
    place: u32,
    number: u64,
    line: Line<'a>,
    reader: &mut LineReader<'a>,
) -> Result<(), AllocError>
    ensures same { reader.new ≡ reader.old }
    ensures drafted { OnOk result (Drafts labels.now place draft.old.bytes.items draft.new.bytes.items draft.old.left.items draft.new.left.items (kept_of number (option_map (λ s. s.meaning) line.entry.statement))) }
{
    match known_line(labels, place, &line) {
        Some(code) => {
            reader.reuse(line);
            code.push_to(&mut draft.bytes)
        }
        None => {
            let meaning = reader.take_meaning(line);
            leave(&mut draft.left, draft.bytes.len(), number, meaning)
        }
    }
}

/// The instructions of the statement of a line, where it has one whose instructions are known.
fn known_line(labels: &Labels, place: u32, line: &Line) -> Option<Instructions>
    ensures { IfSome result (λ xs. (s : SourceStatement) × (line.now.statement ≡ Some s) × (code_of labels.now place s.meaning ≡ Ok (InstructionCode xs))) }
{
    let statement = line.statement()?;
    known_code(labels, place, statement.meaning())
}

/// Reads the lines that are left, for the first fault of them.
fn read_rest(alloc: Global, reader: &mut LineReader) -> Result<(), ParseFault>
    ensures { MatchResult result (λ _. ReadsOn reader.old) (λ fault. IsTextFault fault reader.old) }
{
    while let Some(line) = reader.next_line(alloc)? {
        reader.reuse(line);
    }
    Ok(())
}

/// The bytes of a draft, by the layout of all lines.
fn finished(alloc: Global, draft: Draft, plan: &Plan) -> Result<Vec<u8>, AssembleFault>
    requires drafted { (kept : List KeptStatement) × IsDraft plan.now.labels plan.now.place kept draft.bytes.items draft.left.items }
    requires low { plan.now.place ≤ base + image_limit }
    ensures bytes { IfOk result (λ bytes. (kept : List KeptStatement) → IsDraft plan.now.labels plan.now.place kept draft.entry.bytes.items draft.entry.left.items → HaveBytes plan.now.labels base kept bytes.items) }
    ensures low { IfOk result (λ bytes. length bytes.items ≤ image_limit) }
    ensures exact { (kept : List KeptStatement) → IsDraft plan.now.labels plan.now.place kept draft.entry.bytes.items draft.entry.left.items → MatchResult result (λ bytes. kept_end plan.now.labels base kept ≡ Ok (base + length bytes.items)) (λ fault. IsRefusal fault (kept_end plan.now.labels base kept)) }
{
    let Draft { bytes, left } = draft;
    if left.is_empty() {
        Ok(bytes)
    } else {
        filled(alloc, &bytes, &left, plan)
    }
}

/// The bytes that are known, and among them those of the statements that are left.
fn filled(
    alloc: Global,
    known: &[u8],
    left: &[LeftStatement],
    plan: &Plan,
) -> Result<Vec<u8>, AssembleFault>
    requires drafted { (kept : List KeptStatement) × IsDraft plan.now.labels plan.now.place kept known.now left.now }
    requires low { plan.now.place ≤ base + image_limit }
    ensures bytes { IfOk result (λ bytes. (kept : List KeptStatement) → IsDraft plan.now.labels plan.now.place kept known.now left.now → HaveBytes plan.now.labels base kept bytes.items) }
    ensures low { IfOk result (λ bytes. length bytes.items ≤ image_limit) }
    ensures exact { (kept : List KeptStatement) → IsDraft plan.now.labels plan.now.place kept known.now left.now → MatchResult result (λ bytes. kept_end plan.now.labels base kept ≡ Ok (base + length bytes.items)) (λ fault. IsRefusal fault (kept_end plan.now.labels base kept)) }
{
    let mut bytes = Vec::with_capacity(alloc, (plan.place() - RAM_BASE) as usize)?;
    let mut taken = 0;
    let mut rest = known;
    for item in left {
        let (run, after) = rest.split_at(item.before - taken);
        bytes.extend_from_slice(run)?;
        let statement = &item.statement;
        let place = RAM_BASE + bytes.len() as u32;
        if let Err(fault) = push_meaning(&mut bytes, plan.labels(), place, &statement.meaning) {
            return Err(at_line(fault, statement.line));
        }
        taken = item.before;
        rest = after;
    }
    bytes.extend_from_slice(rest)?;
    Ok(bytes)
}
