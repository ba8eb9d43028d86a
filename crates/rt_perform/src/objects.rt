//! Files that stand for objects.

ghost use Rattle.std.specs.Prelude.{◌≡◌, ◌^◌, ◌<◌, Err, IfOk, MatchResult};
ghost use Rattle.rt_elf.specs.ElfObject.{ElfMeans};
ghost use Rattle.rt_perform.specs.Objects.{GivesObject};

use crate::producing::Produced;
use rt_elf::naming::path_named_file;
use rt_elf::{ElfFault, elf_object};
use std::alloc::{AllocError, Global};

/// The object file of an ELF file, whose entry gets its name from a path.
pub(crate) fn object_of_elf(alloc: Global, file: &[u8], path: &str) -> Result<Produced, ElfFault>
    ensures means { MatchResult result (λ p. GivesObject path.now file.now p.bytes p.left_out) (λ fault. ElfMeans file.now (Err fault)) }
    ensures few { IfOk result (λ p. p.left_out < 2 ^ 32) }
{
    let made = elf_object(alloc, file)?;
    match path_named_file(alloc, made.bytes, path) {
        Ok(bytes) => Ok(Produced {
            bytes,
            left_out: made.left_out,
        }),
        Err(AllocError) => Err(ElfFault::Memory),
    }
}
