//! Files whose bytes stand in the image of an object that is made.

ghost use Rattle.std.specs.Prelude.{◌≡◌, Some, None, IfSome, MatchResult};
ghost use Rattle.std.specs.Option.{option_map};
ghost use Rattle.rt_elf.specs.Refusals.{refusal};
ghost use Rattle.rt_perform.specs.Laid.{SpellsObject, IsLaid, IsUnlaid, AreLaid, AreUnlaid};

use crate::inputs::{apart, read};
use crate::program::ProgramFault;
use crate::request::LaidFile;
use rt_desk::Desk;
use rt_desk::reading::FileKind;
use rt_elf::laying::{DataFault, lay_data};
use std::alloc::Global;

/// The object file with the bytes of a file in its image.
fn lay_file<'a, D: Desk>(
    alloc: Global,
    desk: &D,
    object: &[u8],
    elf: Option<&[u8]>,
    file: &LaidFile<'a>,
    made: &str,
) -> Result<Vec<u8>, ProgramFault<'a>>
    requires spelled { SpellsObject object.now }
    requires taken { IfSome elf (λ elf. refusal elf.now ≡ None) }
    ensures { MatchResult result (λ new. IsLaid (D.files desk.now) made.now (option_map (λ elf. elf.now) elf.entry) file.now object.now new.items)
        (λ fault. IsUnlaid (D.files desk.now) made.now (option_map (λ elf. elf.now) elf.entry) file.now object.now fault) }
{
    apart(desk, file.path, Some(made), None)?;
    let bytes = read(alloc, desk, file.path, FileKind::Elf, None)?;
    match lay_data(alloc, object, elf, file.symbol, &bytes) {
        Ok(new) => Ok(new),
        Err(fault) => Err(ProgramFault::Laid(DataFault {
            symbol: file.symbol,
            of_elf: elf.is_some(),
            fault,
        })),
    }
}

/// The object file, of this ELF file if it is made of one, with the bytes of these files in its image, one after the other. None of them
/// is the one at the path of what is made.
pub(crate) fn lay_files<'a, D: Desk>(
    alloc: Global,
    desk: &D,
    object: Vec<u8>,
    elf: Option<&[u8]>,
    files: &'a [LaidFile<'a>],
    made: &str,
) -> Result<Vec<u8>, ProgramFault<'a>>
    requires spelled { SpellsObject object.items }
    requires taken { IfSome elf (λ elf. refusal elf.now ≡ None) }
    ensures { MatchResult result (λ new. AreLaid (D.files desk.now) made.now (option_map (λ elf. elf.now) elf.entry) files.now object.items new.items)
        (λ fault. AreUnlaid (D.files desk.now) made.now (option_map (λ elf. elf.now) elf.entry) files.now object.items fault) }
{
    let mut laid = object;
    for file in files {
        laid = match lay_file(alloc, desk, &laid, elf, file, made) {
            Ok(new) => new,
            Err(fault) => return Err(fault),
        };
    }
    Ok(laid)
}
