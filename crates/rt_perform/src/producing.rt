//! The bytes of the file that a request makes.

ghost use Rattle.std.specs.Prelude.{◌≡◌, Some, MatchResult};
ghost use Rattle.std.specs.Option.{option_map};
ghost use Rattle.rt_perform.specs.Working.Naming.{MayBeNamed};
ghost use Rattle.rt_perform.specs.Paths.{made_path};
ghost use Rattle.rt_perform.specs.Produced.{GivesElf, RefusesElf, GivesImage, RefusesImage, GivesUnnamed, RefusesUnnamed, IsNamed, RefusesName, entry_name, Gives, Refuses};

use crate::inputs::Inputs;
use crate::laying::lay_files;
use crate::packing::system_file;
use crate::program::ProgramFault;
use crate::request::{LaidFile, Request};
use rt_desk::Desk;
use rt_elf::elf_object;
use rt_elf::flat::{Entry, flat_object};
use rt_elf::naming::{EntryName, named_file, path_named_file};
use rt_programs::{SimFault, asm, convert};
use std::alloc::Global;

/// A file that is to be made.
#[derive(Drop)]
pub(crate) struct Produced {
    /// Its bytes.
    pub bytes: Vec<u8>,
    /// How many names it doesn't have.
    pub left_out: u64,
}

impl Produced {
    /// A file that has all names.
    fn whole(bytes: Vec<u8>) -> Produced
        ensures { result ≡ record { bytes = bytes; left_out = 0 } }
    {
        Produced { bytes, left_out: 0 }
    }
}

/// The object file at this path of an ELF file, with the bytes of these files in its image.
fn elf_file<'a, D: Desk>(
    alloc: Global,
    desk: &D,
    elf: &[u8],
    laid: &'a [LaidFile<'a>],
    path: &str,
) -> Result<Produced, ProgramFault<'a>>
    ensures { MatchResult result (λ p. GivesElf (D.files desk.now) path.now laid.now elf.now p.bytes p.left_out) (λ fault. RefusesElf (D.files desk.now) path.now laid.now elf.now fault) }
{
    let made = match elf_object(alloc, elf) {
        Ok(made) => made,
        Err(fault) => return Err(ProgramFault::Elf(fault, None)),
    };
    let left_out = made.left_out;
    match lay_files(alloc, desk, made.bytes, Some(elf), laid, path) {
        Ok(bytes) => Ok(Produced { bytes, left_out }),
        Err(fault) => Err(fault),
    }
}

/// The same of a flat image, with its entry and the list of its names.
fn image_file<'a, D: Desk>(
    alloc: Global,
    desk: &D,
    image: &[u8],
    entry: Entry<'_>,
    names: &[u8],
    laid: &'a [LaidFile<'a>],
    path: &str,
) -> Result<Produced, ProgramFault<'a>>
    ensures { MatchResult result (λ p. GivesImage (D.files desk.now) path.now laid.now image.now entry.entry names.now p.bytes p.left_out) (λ fault. RefusesImage (D.files desk.now) path.now laid.now image.now entry.entry names.now fault) }
{
    let made = match flat_object(alloc, image, entry, Some(names)) {
        Ok(made) => made,
        Err(fault) => return Err(ProgramFault::Flat(fault)),
    };
    let left_out = made.left_out;
    match lay_files(alloc, desk, made.bytes, None, laid, path) {
        Ok(bytes) => Ok(Produced { bytes, left_out }),
        Err(fault) => Err(fault),
    }
}

/// The file that a request makes at this path of what it read, before its entry gets a name.
fn produce_unnamed<'a, D: Desk>(
    alloc: Global,
    desk: &D,
    request: Request<'a>,
    path: &str,
    inputs: &'a Inputs,
) -> Result<Produced, ProgramFault<'a>>
    requires { made_path request ≡ Some path.now }
    ensures { MatchResult result (λ p. GivesUnnamed (D.files desk.now) request.entry inputs.now.first.items inputs.now.names.items inputs.now.left_out p.bytes p.left_out)
        (λ fault. RefusesUnnamed (D.files desk.now) request.entry inputs.now.first.items inputs.now.names.items fault) }
{
    let Inputs {
        first,
        names,
        left_out,
    } = inputs;
    match request {
        // These make no file.
        Request::Print { .. } | Request::Debug { .. } | Request::Gdb { .. } => unreachable!(),
        Request::Asm { .. } => Ok(Produced::whole(asm(alloc, first)?)),
        Request::Convert { .. } => Ok(Produced {
            bytes: convert(alloc, first)?,
            left_out: *left_out,
        }),
        Request::Pack { .. } => system_file(alloc, desk, first, Some(path)),
        Request::Elf { laid, .. } => elf_file(alloc, desk, first, laid, path),
        Request::Image { entry, laid, .. } => {
            image_file(alloc, desk, first, entry, names, laid, path)
        }
    }
}

/// The bytes of the file, whose entry has this name, or the one that a path gives it.
fn named<'a>(
    alloc: Global,
    unnamed: Vec<u8>,
    name: Option<EntryName<'a>>,
    path: Option<&str>,
) -> Result<Vec<u8>, ProgramFault<'a>>
    requires { MayBeNamed (option_map (λ p. p.now) path) unnamed.items }
    ensures { MatchResult result (λ file. IsNamed name.entry (option_map (λ p. p.now) path.entry) unnamed.items file)
        (λ fault. RefusesName name.entry (option_map (λ p. p.now) path.entry) unnamed.items fault) }
{
    match (name, path) {
        (Some(name), _) => Ok(named_file(alloc, &unnamed, name)?),
        (None, Some(path)) => Ok(path_named_file(alloc, unnamed, path)?),
        (None, None) => Ok(unnamed),
    }
}

/// The file that a request makes at this path of what it read.
pub(crate) fn produce<'a, D: Desk>(
    alloc: Global,
    desk: &D,
    request: Request<'a>,
    path: &str,
    inputs: &'a Inputs,
) -> Result<Produced, ProgramFault<'a>>
    requires { made_path request ≡ Some path.now }
    ensures { MatchResult result (λ p. Gives (D.files desk.now) request.entry inputs.now.first.items inputs.now.names.items inputs.now.left_out p.bytes p.left_out)
        (λ fault. Refuses (D.files desk.now) request.entry inputs.now.first.items inputs.now.names.items inputs.now.left_out fault) }
{
    let unnamed = produce_unnamed(alloc, desk, request, path, inputs)?;
    match named(
        alloc,
        unnamed.bytes,
        request.entry_name(),
        request.naming_path(),
    ) {
        Ok(bytes) => Ok(Produced {
            bytes,
            left_out: unnamed.left_out,
        }),
        Err(fault) => Err(fault),
    }
}
