//! Names that the paths of files give to the entries of objects.

ghost use Rattle.std.specs.Prelude.{◌≡◌, Ok, IfOk};
ghost use Rattle.std.specs.Option.{is_none};
ghost use Rattle.rt_words.specs.Found.{Finds};
ghost use Rattle.rt_image.specs.ObjectFile.{ObjectValue, IsObject, spelling};
ghost use Rattle.rt_image.specs.ObjectReading.{spelled_object};
ghost use Rattle.rt_names.specs.TaskName.{own_namer};
ghost use Rattle.rt_elf.specs.naming.PathName.{file_name, stem, begins_with_letter, stem_name, NamesByPath};

use crate::naming::entry_name::EntryName;
use crate::naming::fault::NameFault;
use crate::naming::naming::named_bytes;
use rt_image::{ReadFault, read_object};
use rt_names::own_namer;
use std::alloc::{AllocError, Global};

/// What stands behind the last `/` of a path, or all of it.
fn file_name(path: &str) -> &str
    ensures { result.now ≡ file_name path.now }
{
    match path.rsplit_once('/') {
        Some((_, name)) => name,
        None => path,
    }
}

/// The name of a file up to its first `.`, or all of it.
fn stem(path: &str) -> &str
    ensures { result.now ≡ stem path.now }
{
    let name = file_name(path);
    match name.split_once('.') {
        Some((stem, _)) => stem,
        None => name,
    }
}

fn begins_with_letter(word: &str) -> bool
    ensures { result ≡ begins_with_letter word.now }
{
    match word.as_bytes() {
        [first, ..] => first.is_ascii_alphabetic(),
        [] => false,
    }
}

/// The stem of a path, where it may be a name.
fn stem_name(path: &str) -> Option<EntryName<'_>>
    ensures { Finds (λ name. name.word.now) result (stem_name path.now) }
{
    if path.as_bytes().starts_with(b"/dev/") {
        return None;
    }
    let stem = stem(path);
    if !begins_with_letter(stem) {
        return None;
    }
    EntryName::new(stem)
}

/// Whether no symbol of an object file names a task that runs the object.
fn is_unnamed(alloc: Global, file: &[u8]) -> Result<bool, AllocError>
    requires { (o : ObjectValue) × IsObject o × (file.now ≡ spelling o) }
    ensures { IfOk result (λ unnamed. (o : ObjectValue) × (spelled_object file.now ≡ Ok o) × (unnamed ≡ is_none (own_namer o))) }
{
    match read_object(alloc, file) {
        Ok(object) => Ok(own_namer(&object).is_none()),
        Err(ReadFault::Memory) => Err(AllocError),
        // The bytes spell an object.
        Err(ReadFault::Fault(_)) => unreachable!(),
    }
}

/// The object file of this one, whose entry gets its name from a path: the path's stem, which is what stands behind the last `/`, up to
/// the first `.`. It gets none where the stem is no word of at most 64 bytes that begins with a letter, or the path is that of a device
/// (`/dev/..`), or a symbol at the entry names the task that runs the object, or one elsewhere has the stem as its name, or there is no
/// room for one more symbol.
///
/// # Errors
///
/// There is no memory.
pub fn path_named_file(alloc: Global, file: Vec<u8>, path: &str) -> Result<Vec<u8>, AllocError>
    requires { (o : ObjectValue) × IsObject o × (file.items ≡ spelling o) }
    ensures { IfOk result (λ named. NamesByPath path.now file.items named) }
{
    let Some(name) = stem_name(path) else {
        return Ok(file);
    };
    if !is_unnamed(alloc, &file)? {
        return Ok(file);
    }
    match named_bytes(alloc, &file, name) {
        Ok(named) => Ok(named),
        Err(NameFault::Memory) => Err(AllocError),
        Err(_) => Ok(file),
    }
}
