//! Reads a whole text.

ghost use Rattle.std.specs.Prelude.{◌≡◌, ◌++◌, Ok, IfOk, IfErr, OnOk};
ghost use Rattle.std.specs.Option.{option_map};
ghost use Rattle.rt_token.specs.SourceLines.{source_lines};
ghost use Rattle.rt_text.specs.AllFaults.{told, text_faults};
ghost use Rattle.rt_text.specs.Reading.{reads, NextLine, Passes};
ghost use Rattle.rt_text.specs.Text.{fault_at, text_lines, IsRefusal};

use crate::fault::{ParseFault, TextFault, TextKind};
use crate::line::{Content, Line, line_at};
use crate::meaning::Meaning;
use rt_token::{Token, cut_line};
use std::alloc::{AllocError, Global};
use std::marker::Model;

/// A text of which some lines are read. A contract sees the lines that are left, as a `Reading`.
#[derive(Drop)]
pub struct LineReader<'a> {
    rest: &'a [u8],
    place: usize,
    number: u64,
    /// The tokens of the line that was read last, in whose place those of the next are put.
    tokens: Vec<Token<'a>>,
    /// A line that is wanted no more, in whose memory the next one is put.
    spare: Option<Box<Content<'a>>>,
}

impl<'a> Model for LineReader<'a> {
    ghost use Rattle.std.specs.Prelude.{◌+◌, ◌<◌, ◌≤◌, ◌^◌, length};
    ghost use Rattle.rt_text.specs.Reading.{Reading};
    ghost use Rattle.rt_token.specs.SourceLines.{source_lines};

    ghost Value = { Reading };

    ghost view = { λ r. record { number = r.number; lines = source_lines r.place r.rest.now } };

    ghost invariant = { λ r. (r.place + length r.rest.now < 2 ^ 63) × (r.number ≤ r.place + 1) };
}

impl<'a> LineReader<'a> {
    /// A text of which no line is read.
    pub fn new(alloc: Global, text: &'a [u8]) -> LineReader<'a>
        ensures { result ≡ record { number = 1; lines = source_lines 0 text.now } }
    {
        LineReader {
            rest: text,
            place: 0,
            number: 1,
            tokens: Vec::new(alloc),
            spare: None,
        }
    }

    /// The number of the next line, counted from 1.
    pub fn number(&self) -> u64
        ensures { result ≡ self.now.number }
    {
        self.number
    }

    /// The next line, none at the end of the text. Its pieces are slices of the text.
    ///
    /// # Errors
    /// The first fault of the next line, or want of memory. That line stays the next one.
    pub fn next_line(&mut self, alloc: Global) -> Result<Option<Line<'a>>, ParseFault>
        ensures read { NextLine self.old result self.new }
        ensures kept { IfErr result (λ _. self.new ≡ self.old) }
    {
        if self.rest.is_empty() {
            return Ok(None);
        }
        let (bytes, after) = cut_line(self.rest);
        match line_at(alloc, &mut self.tokens, &mut self.spare, self.place, bytes)? {
            Ok(line) => {
                self.place += self.rest.len() - after.len();
                self.rest = after;
                self.number += 1;
                Ok(Some(line))
            }
            Err(kind) => Err(ParseFault::Fault(TextFault {
                line: self.number,
                kind,
            })),
        }
    }

    /// The fault of the next line, if it has one; the line behind it is the next one then. None at
    /// the end of the text.
    fn pass_line(&mut self, alloc: Global) -> Result<Option<Option<TextKind>>, AllocError>
        ensures { IfOk result (λ passed. Passes self.old passed self.new) }
    {
        if self.rest.is_empty() {
            return Ok(None);
        }
        let (line, behind) = cut_line(self.rest);
        let read = line_at(alloc, &mut self.tokens, &mut self.spare, self.place, line)?;
        self.place += self.rest.len() - behind.len();
        self.rest = behind;
        self.number += 1;
        Ok(Some(read.err()))
    }

    /// Takes a line that is wanted no more, so that the next one needs no memory of its own.
    pub fn reuse(&mut self, line: Line<'a>)
        ensures { self.new ≡ self.old }
    {
        if let Some(content) = line.into_content() {
            self.spare = Some(content);
        }
    }

    /// What the statement of a line means, where it has one. The rest of the line is taken as by
    /// `reuse`.
    pub fn take_meaning(&mut self, line: Line<'a>) -> Option<Meaning<'a>>
        ensures kept { self.new ≡ self.old }
        ensures meaning { result ≡ option_map (λ s. s.meaning) line.entry.statement }
    {
        let mut content = line.into_content()?;
        let meaning = content.take_meaning();
        self.spare = Some(content);
        meaning
    }
}

/// The lines of a text: one [`Line`] for each line of the source, which ends at a line feed or at
/// the end of the text. Their pieces are slices of the text.
///
/// # Errors
/// The first fault of the first line that has one, or want of memory.
pub fn parse(alloc: Global, text: &[u8]) -> Result<Vec<Line<'_>>, ParseFault>
    ensures lines { IfOk result (λ lines. text_lines text.now ≡ Ok lines.items) }
    ensures refused { IfErr result (λ fault. IsRefusal fault (text_lines text.now)) }
{
    let mut lines = Vec::new(alloc);
    let mut reader = LineReader::new(alloc, text);
    while let Some(line) = reader.next_line(alloc)? {
        lines.push(line)?;
    }
    Ok(lines)
}

/// The faults of a text: of each line that has one, its first.
///
/// # Errors
/// Want of memory.
pub fn text_faults(alloc: Global, text: &[u8]) -> Result<Vec<TextFault>, AllocError>
    ensures { IfOk result (λ faults. faults.items ≡ text_faults text.now) }
{
    let mut faults = Vec::new(alloc);
    let mut reader = LineReader::new(alloc, text);
    let mut number = reader.number();
    while let Some(fault) = reader.pass_line(alloc)? {
        tell(&mut faults, number, fault)?;
        number = reader.number();
    }
    Ok(faults)
}

/// Tells the fault of a line, where it has one.
fn tell(faults: &mut Vec<TextFault>, line: u64, fault: Option<TextKind>) -> Result<(), AllocError>
    ensures { OnOk result (faults.new.items ≡ faults.old.items ++ told fault_at line fault) }
{
    if let Some(kind) = fault {
        faults.push(TextFault { line, kind })?;
    }
    Ok(())
}
