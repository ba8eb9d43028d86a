//! What a file is to hold.

ghost use Rattle.std.specs.Prelude.{◌≡◌, ◌≤◌, false};
ghost use Rattle.rt_desk.specs.reading.Extent.{takes_sets, takes_elf_files, IsEnough, IsNoSet, IsNoSystem};

use crate::reading::binary::{MOST_ELF, exceeds_an_object, is_no_system};
use crate::reading::texts::{
    ends_a_line, has_faulty_line, has_faulty_text, may_begin_names, may_begin_set,
};
use rt_elf::is_elf;
use rt_words::MAX_IMAGE;
use std::alloc::Global;

/// What a file is to hold.
#[derive(Clone, Copy, PartialEq, Eq)]
pub enum FileKind {
    /// An object, or an ELF file in its place.
    Object,
    /// A system, or a set in its place.
    System,
    /// An object or an ELF file in its place, a system or a set in its place.
    ObjectOrSystem,
    /// A source, of which the first faulty line is reported.
    Source,
    /// A source, of which each faulty line is reported.
    WholeSource,
    /// The bytes of an image.
    Image,
    /// An ELF file.
    Elf,
    /// A set.
    Set,
    /// A list of names.
    Names,
}

/// The most bytes of a source whose lines are read before it has ended.
const MOST_PARSED: usize = 131_072;

/// Whether a set may begin so: no line of it is faulty that has ended.
fn may_be_set(alloc: Global, bytes: &[u8]) -> bool
    ensures { result ≡ false → IsNoSet bytes.now }
{
    may_begin_set(bytes) && !has_faulty_line(alloc, bytes)
}

/// Whether a system may begin so, or a set in its place.
fn may_be_system(alloc: Global, bytes: &[u8]) -> bool
    ensures system { result ≡ false → IsNoSystem bytes.now }
    ensures set { result ≡ false → IsNoSet bytes.now }
{
    !is_no_system(alloc, bytes) || may_be_set(alloc, bytes)
}

impl FileKind {
    /// Whether a set file may stand in place of such a file.
    pub fn takes_sets(self) -> bool
        ensures { result ≡ takes_sets self }
    {
        matches!(self, FileKind::System | FileKind::ObjectOrSystem)
    }

    /// Whether an ELF file may stand in place of such a file.
    pub fn takes_elf_files(self) -> bool
        ensures { result ≡ takes_elf_files self }
    {
        matches!(self, FileKind::Object | FileKind::ObjectOrSystem)
    }

    /// Whether the bytes behind these can matter. Where there is no memory to find out, they may.
    pub(crate) fn goes_on(self, alloc: Global, bytes: &[u8]) -> bool
        ensures { result ≡ false → IsEnough self bytes.now }
    {
        match self {
            FileKind::Object => !exceeds_an_object(bytes),
            FileKind::System => may_be_system(alloc, bytes),
            FileKind::ObjectOrSystem => !exceeds_an_object(bytes) || may_be_system(alloc, bytes),
            FileKind::Source => {
                ends_a_line(bytes) && (bytes.len() > MOST_PARSED || !has_faulty_text(alloc, bytes))
            }
            FileKind::WholeSource => true,
            FileKind::Image => { !is_elf(bytes) && bytes.len() <= MAX_IMAGE as usize }
            FileKind::Elf => bytes.len() <= MOST_ELF,
            FileKind::Set => may_be_set(alloc, bytes),
            FileKind::Names => may_begin_names(bytes),
        }
    }

    /// How many bytes there are when it is asked next, if it was asked at so many: the lines of a set and the tasks of a system
    /// are read anew each time.
    pub(crate) fn next(self, len: usize) -> usize
        ensures { len ≤ result }
    {
        match self {
            FileKind::Set | FileKind::System | FileKind::ObjectOrSystem => len.saturating_mul(2),
            _ => len,
        }
    }
}
