//! Where each statement stands.

ghost use Rattle.std.specs.Prelude.{◌≡◌, ◌≤◌, ◌+◌, ◌^◌, [], ◌||◌, nat_lt, if◌then◌else◌, is_none, All, IfOk, OnOk, MatchResult, Ok, Err};
ghost use Rattle.std.specs.Result.{result_err};
ghost use Rattle.rt_asm.specs.AllFaults.{mended, new_labels};
ghost use Rattle.rt_asm.specs.Flaws.{layout_reason, repeated, with_reason};
ghost use Rattle.rt_words.specs.Base.{base};
ghost use Rattle.rt_words.specs.Limits.{image_limit, symbol_limit};
ghost use Rattle.rt_text.specs.LabelName.{AreLabelNames};
ghost use Rattle.rt_asm.specs.Working.Emission.{Fails};
ghost use Rattle.rt_asm.specs.Source.{IsRefusal};
ghost use Rattle.rt_asm.specs.Layout.{with_labels, line_layout, layout};
ghost use Rattle.rt_asm.specs.declared.fault.AsmKind.TheVariants.{DuplicateLabel, TooLarge};

use crate::fault::{AsmKind, AssembleFault, StepFault, at_line};
use crate::flaws::{Reason, size_reason, too_large};
use crate::labels::Labels;
use crate::statements::line_size;
use rt_text::Line;
use rt_token::{Piece, Span};
use rt_words::{MAX_IMAGE, MAX_SYMBOLS, RAM_BASE};
use std::alloc::{AllocError, Global};
use std::marker::Model;

/// The greatest address of the end of an image.
const LAST_END: u64 = RAM_BASE as u64 + MAX_IMAGE as u64;

/// What is wrong with a line and why, and whether the limits are kept behind it.
#[derive(Drop)]
pub struct Mended {
    pub flaw: Option<(AsmKind, Option<Reason>)>,
    pub is_within: bool,
}

/// Where the next statement stands, and the labels so far.
#[derive(Drop)]
pub struct Plan<'a> {
    place: u32,
    labels: Labels<'a>,
}

impl<'a> Model for Plan<'a> {
    ghost use Rattle.rt_asm.specs.Layout.{Layout};

    ghost Value = { Layout };

    ghost view = { λ p. record { place = p.place; labels = p.labels } };
}

impl<'a> Plan<'a> {
    pub fn new(alloc: Global) -> Plan<'a>
        ensures { result ≡ record { place = base; labels = [] } }
    {
        Plan {
            place: RAM_BASE,
            labels: Labels::new(alloc),
        }
    }

    pub fn place(&self) -> u32
        ensures { result ≡ self.now.place }
    {
        self.place
    }

    pub fn labels(&self) -> &Labels<'a>
        ensures { result.now ≡ self.now.labels }
    {
        &self.labels
    }

    /// Adds a line: its labels, then its size, then the limits.
    pub fn add_line(&mut self, line: &Line<'a>) -> Result<(), StepFault>
        ensures exact { MatchResult result (λ _. line_layout self.old line.now ≡ Ok self.new) (λ fault. Fails fault (line_layout self.old line.now)) }
        ensures names { AreLabelNames line.now.labels }
    {
        add_labels(&mut self.labels, self.place, line.labels())?;
        let size = line_size(self.place, line)?;
        self.place = place_after(self.place, size, self.labels.len())?;
        Ok(())
    }

    /// Adds a line, whatever is wrong with it: the labels whose names are new, and the size of its
    /// statement, where it has one.
    pub fn mend_line(&mut self, line: &Line<'a>) -> Result<Mended, AllocError>
        ensures flaw { IfOk result (λ m. m.flaw ≡ with_reason (layout_reason self.old line.now) (result_err (line_layout self.old line.now))) }
        ensures after { IfOk result (λ m. mended self.old line.now ≡ (if m.is_within then Ok self.new else Err TooLarge)) }
    {
        let repeated = add_new_labels(&mut self.labels, self.place, line.labels())?;
        let size = line_size(self.place, line);
        let room = size.unwrap_or(0);
        let end = place_after(self.place, room, self.labels.len());
        let flaw = if repeated.is_some() {
            Some((AsmKind::DuplicateLabel, repeated.map(Reason::Duplicate)))
        } else if let Err(kind) = size {
            Some((kind, size_reason(line.statement())))
        } else if let Err(kind) = end {
            let reason = too_large(u64::from(self.place) + room, self.labels.len());
            Some((kind, Some(reason)))
        } else {
            None
        };
        self.place = end.unwrap_or(self.place);
        let is_within = end.is_ok();
        Ok(Mended { flaw, is_within })
    }
}

/// The place behind a statement of this size, within the limits.
fn place_after(place: u32, size: u64, labels: usize) -> Result<u32, AsmKind>
    requires { size ≤ 2 ^ 63 }
    ensures { result ≡ (if nat_lt (base + image_limit) (place + size) || nat_lt symbol_limit labels then Err TooLarge else Ok (place + size)) }
{
    let end = u64::from(place) + size;
    if end > LAST_END || labels > MAX_SYMBOLS as usize {
        Err(AsmKind::TooLarge)
    } else {
        Ok(end as u32)
    }
}

/// Adds the labels of a line that stands at a place.
fn add_labels<'a>(labels: &mut Labels<'a>, place: u32, names: &[Piece<'a>]) -> Result<(), StepFault>
    ensures { MatchResult result (λ _. with_labels place labels.old names.now ≡ Ok labels.new) (λ fault. Fails fault (with_labels place labels.old names.now)) }
{
    for name in names {
        labels.add(name.text(), place)?;
    }
    Ok(())
}

/// Adds the labels of a line that stands at a place whose names are new, and answers where the first
/// lies whose name isn't.
fn add_new_labels<'a>(
    labels: &mut Labels<'a>,
    place: u32,
    names: &[Piece<'a>],
) -> Result<Option<Span>, AllocError>
    ensures added { OnOk result (labels.new ≡ new_labels place labels.old names.now) }
    ensures first { IfOk result (λ found. found ≡ repeated place labels.old names.now) }
    ensures are_new { IfOk result (λ found. with_labels place labels.old names.now ≡ (if is_none found then Ok labels.new else Err DuplicateLabel)) }
{
    let mut repeated = None;
    for name in names {
        let is_new = labels.add_new(name.text(), place)?;
        if !is_new && repeated.is_none() {
            repeated = Some(name.span());
        }
    }
    Ok(repeated)
}

/// The layout of a source.
pub fn layout<'a>(alloc: Global, lines: &[Line<'a>]) -> Result<Plan<'a>, AssembleFault>
    ensures exact { MatchResult result (λ plan. layout lines.now ≡ Ok plan) (λ fault. IsRefusal fault (layout lines.now)) }
    ensures names { IfOk result (λ _. All (λ line. AreLabelNames line.labels) lines.now) }
{
    let mut plan = Plan::new(alloc);
    let mut number: u64 = 1;
    for line in lines {
        match plan.add_line(line) {
            Ok(()) => number += 1,
            Err(fault) => return Err(at_line(fault, number)),
        }
    }
    Ok(plan)
}
