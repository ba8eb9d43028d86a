//! The lines of a source, as they are read.

ghost use Rattle.std.specs.Prelude.{◌≡◌, [], None, IfOk};
ghost use Rattle.std.specs.Option.{option_copied, option_map};
ghost use Rattle.rt_text.specs.LabelName.{AreLabelNames};
ghost use Rattle.rt_text.specs.Working.Contents.{line_saying};

mod reading;

use crate::meaning::Meaning;
use crate::operands::Operand;
use crate::operations::PlainOp;
pub(crate) use reading::{is_good, labels_of, line_at};
use rt_token::Piece;
use std::alloc::{AllocError, Global};
use std::marker::Model;
use std::mem;

/// A statement: its name, its operands, and what they mean. A contract sees it as a
/// `SourceStatement`.
#[derive(Drop)]
pub struct Statement<'a> {
    name: Piece<'a>,
    operands: Vec<Operand<'a>>,
    meaning: Meaning<'a>,
}

impl<'a> Model for Statement<'a> {
    ghost use Rattle.rt_text.specs.Line.{SourceStatement};

    ghost Value = { SourceStatement };

    ghost view = { λ s. record { name = s.name; operands = s.operands.items; meaning = s.meaning } };
}

impl<'a> Statement<'a> {
    fn into_operands(self) -> Vec<Operand<'a>>
        ensures { result.items ≡ self.entry.operands }
    {
        let Statement { operands, .. } = self;
        operands
    }

    /// The name of the instruction or the directive.
    pub fn name(&self) -> &Piece<'a>
        ensures { result.now ≡ self.now.name }
    {
        &self.name
    }

    /// The operands as they are written, in order.
    pub fn operands(&self) -> &[Operand<'a>]
        ensures { result.now ≡ self.now.operands }
    {
        self.operands.as_slice()
    }

    /// What the statement means.
    pub fn meaning(&self) -> &Meaning<'a>
        ensures { result.now ≡ self.now.meaning }
    {
        &self.meaning
    }
}

/// What a line says that says something. A contract sees it as a `SourceLine`.
#[derive(Drop)]
pub(crate) struct Content<'a> {
    labels: Vec<Piece<'a>>,
    statement: Option<Statement<'a>>,
}

impl<'a> Model for Content<'a> {
    ghost use Rattle.rt_text.specs.LabelName.{AreLabelNames};
    ghost use Rattle.rt_text.specs.Line.{SourceLine};

    ghost Value = { SourceLine };

    ghost view = { λ c. record { labels = c.labels.items; statement = c.statement } };

    ghost invariant = { λ c. AreLabelNames c.labels.items };
}

impl<'a> Content<'a> {
    fn labels(&self) -> &[Piece<'a>]
        ensures value { result.now ≡ self.now.labels }
        ensures names { AreLabelNames self.now.labels }
    {
        self.labels.as_slice()
    }

    fn statement(&self) -> Option<&Statement<'a>>
        ensures { option_copied result ≡ self.now.statement }
    {
        self.statement.as_ref()
    }

    /// Takes out what the statement means; one that means nothing much stands there then.
    pub(crate) fn take_meaning(&mut self) -> Option<Meaning<'a>>
        ensures { result ≡ option_map (λ s. s.meaning) self.old.statement }
    {
        match &mut self.statement {
            Some(statement) => Some(mem::replace(
                &mut statement.meaning,
                Meaning::Plain(PlainOp::Nop),
            )),
            None => None,
        }
    }
}

/// A line of a source. Only this crate makes one, from text, so its labels are words of at most 512
/// bytes. A contract sees it as a `SourceLine`.
#[derive(Drop)]
pub struct Line<'a> {
    /// Nothing where the line says nothing.
    content: Option<Box<Content<'a>>>,
}

/// A line that says nothing takes no more than this.
const _: () = prove!(size_of::<Line<'static>>() == 16);

impl<'a> Model for Line<'a> {
    ghost use Rattle.std.specs.Option.{option_map};
    ghost use Rattle.rt_text.specs.Line.{SourceLine};
    ghost use Rattle.rt_text.specs.Working.Contents.{line_saying};

    ghost Value = { SourceLine };

    ghost view = { λ l. line_saying (option_map (λ b. b.value) l.content) };
}

impl<'a> Line<'a> {
    /// A line that says nothing.
    fn saying_nothing() -> Line<'a>
        ensures { result ≡ record { labels = []; statement = None } }
    {
        Line { content: None }
    }

    /// A line that says this, in the memory of another where there is one.
    fn saying(
        alloc: Global,
        spare: Option<Box<Content<'a>>>,
        content: Content<'a>,
    ) -> Result<Line<'a>, AllocError>
        ensures { IfOk result (λ line. line ≡ content.entry) }
    {
        let content = match spare {
            Some(mut room) => {
                *room = content;
                room
            }
            None => Box::new(alloc, content)?,
        };
        Ok(Line {
            content: Some(content),
        })
    }

    /// What it says, and the memory that holds it.
    pub(crate) fn into_content(self) -> Option<Box<Content<'a>>>
        ensures { line_saying (option_map (λ b. b.value) result) ≡ self.entry }
    {
        self.content
    }

    /// The labels before the statement, in order.
    pub fn labels(&self) -> &[Piece<'a>]
        ensures value { result.now ≡ self.now.labels }
        ensures names { AreLabelNames self.now.labels }
    {
        match &self.content {
            Some(content) => content.labels(),
            None => &[],
        }
    }

    /// The statement, where the line has one.
    pub fn statement(&self) -> Option<&Statement<'a>>
        ensures { option_copied result ≡ self.now.statement }
    {
        match &self.content {
            Some(content) => content.statement(),
            None => None,
        }
    }
}

/// The memory of a line that is wanted no more, and its lists.
fn lists_of<'a>(
    alloc: Global,
    spare: Option<Box<Content<'a>>>,
) -> (Option<Box<Content<'a>>>, Vec<Piece<'a>>, Vec<Operand<'a>>) {
    let Some(mut room) = spare else {
        return (None, Vec::new(alloc), Vec::new(alloc));
    };
    let nothing = Content {
        labels: Vec::new(alloc),
        statement: None,
    };
    let Content { labels, statement } = mem::replace(&mut *room, nothing);
    let operands = match statement {
        Some(statement) => statement.into_operands(),
        None => Vec::new(alloc),
    };
    (Some(room), labels, operands)
}
