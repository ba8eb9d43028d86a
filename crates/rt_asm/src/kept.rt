//! What is kept of a text when its lines are gone.

ghost use Rattle.std.specs.Prelude.{◌≡◌, ◌++◌, [], OnOk, map};
ghost use Rattle.rt_asm.specs.Working.Kept.{kept_of};
ghost use Rattle.rt_asm.specs.Working.Drafts.{left_after};

use rt_text::Meaning;
use std::alloc::{AllocError, Global};

/// What a statement means that stands in this line of its text, counted from 1.
#[derive(Drop)]
pub struct KeptStatement<'a> {
    pub line: u64,
    pub meaning: Meaning<'a>,
}

/// A statement that is left to the end: a directive, or one whose bytes the labels so far don't tell.
#[derive(Drop)]
pub struct LeftStatement<'a> {
    /// How many bytes are known of the statements before it.
    pub before: usize,
    pub statement: KeptStatement<'a>,
}

/// The bytes of the statements that are known, without gaps, and the statements that are left.
#[derive(Drop)]
pub struct Draft<'a> {
    pub bytes: Vec<u8>,
    pub left: Vec<LeftStatement<'a>>,
}

impl<'a> Draft<'a> {
    pub fn new(alloc: Global) -> Draft<'a>
        ensures bytes { result.bytes.items ≡ [] }
        ensures left { result.left.items ≡ [] }
    {
        Draft {
            bytes: Vec::new(alloc),
            left: Vec::new(alloc),
        }
    }
}

/// Leaves the statement of a line, where it has one; so many bytes are known before it.
pub fn leave<'a>(
    left: &mut Vec<LeftStatement<'a>>,
    before: usize,
    line: u64,
    meaning: Option<Meaning<'a>>,
) -> Result<(), AllocError>
    ensures { OnOk result (left.new.items ≡ left.old.items ++ map (left_after before) (kept_of line meaning.entry)) }
{
    if let Some(meaning) = meaning {
        let statement = KeptStatement { line, meaning };
        left.push(LeftStatement { before, statement })?;
    }
    Ok(())
}
