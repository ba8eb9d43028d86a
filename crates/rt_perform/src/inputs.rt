//! What is read before anything is done.

ghost use Rattle.std.specs.Prelude.{◌≡◌, ◌||◌, [], true, false, None, IfOk, IfErr, IfSome, MatchResult};
ghost use Rattle.std.specs.Option.{option_map};
ghost use Rattle.rt_desk.specs.reading.Reads.{Reads};
ghost use Rattle.rt_perform.specs.Paths.{first_path, first_kind, made_path};
ghost use Rattle.rt_perform.specs.Given.{is_placed, is_linked, Becomes, GivesNothing};
ghost use Rattle.rt_perform.specs.Objects.{GivesObject, StandsForNone};
ghost use Rattle.rt_perform.specs.Packed.{GivesSystem, RefusesSet};
ghost use Rattle.rt_perform.specs.Inputs.{IsApart, NamesAreRead, AreRead, IsMadeAt, IsMadeName, IsUnreadable, IsUnreadableName, IsUnread};

use crate::objects::object_of_elf;
use crate::packing::system_file;
use crate::producing::Produced;
use crate::program::ProgramFault;
use crate::request::Request;
use rt_desk::reading::{FileFault, FileKind, read_file};
use rt_desk::{Desk, Reason};
use rt_elf::is_elf;
use rt_programs::SimFault;
use rt_set::is_set;
use std::alloc::Global;

/// The bytes of the files that a request names: so far as they can matter.
#[derive(Drop)]
pub(crate) struct Inputs {
    /// Those of the first file.
    pub first: Vec<u8>,
    /// Those of the list of names; none where the request has no list.
    pub names: Vec<u8>,
    /// How many names the first file doesn't have that the files it was made of do.
    pub left_out: u64,
}

/// Refuses to read what is to be made.
pub(crate) fn apart<'a, D: Desk>(
    desk: &D,
    path: &'a str,
    made: Option<&str>,
    task: Option<usize>,
) -> Result<(), ProgramFault<'a>>
    ensures { MatchResult result (λ _. IsApart (option_map (λ p. p.now) made.entry) (Some path.now))
        (λ fault. IsMadeAt (D.files desk.now) (option_map (λ p. p.now) made.entry) path.now fault) }
{
    match made {
        Some(made) if desk.is_one_file(path, made) => Err(ProgramFault::IsRead(path, task)),
        _ => Ok(()),
    }
}

/// Refuses to read a list of names that is to be made.
fn names_apart<'a, D: Desk>(
    desk: &D,
    names: Option<&'a str>,
    made: Option<&str>,
) -> Result<(), ProgramFault<'a>>
    ensures { MatchResult result (λ _. IsApart (option_map (λ p. p.now) made.entry) (option_map (λ p. p.now) names.entry))
        (λ fault. IsMadeName (D.files desk.now) (option_map (λ p. p.now) made.entry) (option_map (λ p. p.now) names.entry) fault) }
{
    match names {
        Some(path) => apart(desk, path, made, None),
        None => Ok(()),
    }
}

/// The bytes of a file, so far as they can matter.
pub(crate) fn read<'a, D: Desk>(
    alloc: Global,
    desk: &D,
    path: &'a str,
    kind: FileKind,
    task: Option<usize>,
) -> Result<Vec<u8>, ProgramFault<'a>>
    ensures { MatchResult result (λ bytes. Reads kind (D.files desk.now) path.now bytes.items) (λ fault. IsUnreadable path.now fault) }
{
    match read_file(alloc, desk, path, kind) {
        Ok(bytes) => Ok(bytes),
        Err(
            FileFault {
                reason: Reason::Memory,
                ..
            },
        ) => Err(ProgramFault::Sim(SimFault::Memory)),
        Err(FileFault { path, reason }) => Err(ProgramFault::File(path, reason, task)),
    }
}

/// The bytes of the list of names, if there is one.
fn read_names<'a, D: Desk>(
    alloc: Global,
    desk: &D,
    path: Option<&'a str>,
) -> Result<Vec<u8>, ProgramFault<'a>>
    ensures { MatchResult result (λ names. NamesAreRead (D.files desk.now) (option_map (λ p. p.now) path.entry) names.items)
        (λ fault. IsUnreadableName (option_map (λ p. p.now) path.entry) fault) }
{
    match path {
        Some(path) => read(alloc, desk, path, FileKind::Names, None),
        None => Ok(Vec::new(alloc)),
    }
}

/// The bytes of the file that a request names first.
fn read_first<'a, D: Desk>(
    alloc: Global,
    desk: &D,
    request: Request<'a>,
) -> Result<Vec<u8>, ProgramFault<'a>>
    ensures { MatchResult result (λ bytes. Reads (first_kind request.entry) (D.files desk.now) (first_path request.entry) bytes.items)
        (λ fault. IsUnreadable (first_path request.entry) fault) }
{
    read(alloc, desk, request.path(), request.kind(), None)
}

/// Reads what a request names.
///
/// # Errors
///
/// A file is the one that is to be made: then none is read. Or the first of them that can't be read; or there is no memory.
#[inline(never)]
pub(crate) fn read_inputs<'a, D: Desk>(
    alloc: Global,
    desk: &D,
    request: Request<'a>,
) -> Result<Inputs, ProgramFault<'a>>
    ensures read { MatchResult result (λ inputs. AreRead (D.files desk.now) request.entry inputs.first.items inputs.names.items) (λ fault. IsUnread (D.files desk.now) request.entry fault) }
    ensures whole { IfOk result (λ inputs. inputs.left_out ≡ 0) }
{
    let made = request.made();
    apart(desk, request.path(), made, None)?;
    names_apart(desk, request.names(), made)?;
    let first = read_first(alloc, desk, request)?;
    let names = read_names(alloc, desk, request.names())?;
    Ok(Inputs {
        first,
        names,
        left_out: 0,
    })
}

/// Whether a set file was read in place of a system file.
fn is_placed(request: Request<'_>, read: &Inputs) -> bool
    ensures { result ≡ is_placed request.entry read.now.first.items }
{
    request.kind().takes_sets() && is_set(&read.first)
}

/// Whether an ELF file was read in place of an object file.
fn is_linked(request: Request<'_>, read: &Inputs) -> bool
    ensures { result ≡ is_linked request.entry read.now.first.items }
{
    request.kind().takes_elf_files() && is_elf(&read.first)
}

/// The system file that `pack` makes of the set file that was read.
fn system_of<'a, D: Desk>(
    alloc: Global,
    desk: &D,
    request: Request<'a>,
    read: &'a Inputs,
) -> Result<Produced, ProgramFault<'a>>
    ensures { MatchResult result (λ p. GivesSystem (D.files desk.now) (made_path request.entry) read.now.first.items p.bytes p.left_out)
        (λ fault. RefusesSet (D.files desk.now) (made_path request.entry) read.now.first.items fault) }
{
    system_file(alloc, desk, &read.first, request.made())
}

/// The object file that `elf` makes of the ELF file that was read.
fn object_of<'a>(
    alloc: Global,
    request: Request<'a>,
    read: &Inputs,
) -> Result<Produced, ProgramFault<'a>>
    ensures { MatchResult result (λ p. GivesObject (first_path request.entry) read.now.first.items p.bytes p.left_out) (λ fault. StandsForNone read.now.first.items fault) }
{
    match object_of_elf(alloc, &read.first, request.path()) {
        Ok(made) => Ok(made),
        Err(fault) => Err(ProgramFault::Elf(fault, None)),
    }
}

/// What a request works on, where that isn't what was read: of a set file in place of a system file the system file that `pack` makes of it,
/// of an ELF file in place of an object file the object file that `elf` makes of it.
///
/// # Errors
///
/// There is no system of the set, or no object of the ELF file.
#[inline(never)]
pub(crate) fn made_of<'a, D: Desk>(
    alloc: Global,
    desk: &D,
    request: Request<'a>,
    read: &'a Inputs,
) -> Result<Option<Produced>, ProgramFault<'a>>
    ensures becomes { IfOk result (λ made. IfSome made (λ p. Becomes (is_placed request.entry read.now.first.items) (D.files desk.now) request.entry read.now.first.items p.bytes.items p.left_out)) }
    ensures other { IfOk result (λ made. made ≡ None → (is_placed request.entry read.now.first.items ≡ false) × (is_linked request.entry read.now.first.items ≡ false)) }
    ensures whole { IfOk result (λ made. IfSome made (λ p. (is_placed request.entry read.now.first.items || is_linked request.entry read.now.first.items) ≡ true)) }
    ensures refused { IfErr result (λ fault. GivesNothing (D.files desk.now) request.entry read.now.first.items fault) }
{
    if is_placed(request, read) {
        let system = system_of(alloc, desk, request, read)?;
        return Ok(Some(system));
    }
    if is_linked(request, read) {
        let object = object_of(alloc, request, read)?;
        return Ok(Some(object));
    }
    Ok(None)
}

impl Inputs {
    /// Those of a request of which nothing was read.
    pub fn none(alloc: Global) -> Inputs {
        Inputs {
            first: Vec::new(alloc),
            names: Vec::new(alloc),
            left_out: 0,
        }
    }

    /// Those of a request that works on what was made of its one file.
    pub fn of(alloc: Global, made: Produced) -> Inputs
        ensures first { result.first ≡ made.bytes }
        ensures names { result.names.items ≡ [] }
        ensures left_out { result.left_out ≡ made.left_out }
    {
        Inputs {
            first: made.bytes,
            names: Vec::new(alloc),
            left_out: made.left_out,
        }
    }
}
