//! The assembly of a source file.

ghost use Rattle.rt_programs.specs.Asm.{AsmMeans};
ghost use Rattle.rt_programs.specs.Makes.{Makes};

use rt_asm::assemble_text;
use rt_image::write_spelling;
use rt_opening::SimFault;
use std::alloc::Global;

/// The object file (RTI1) of a source: the bytes of its lines, its labels as symbols, and `_start` as the entry.
///
/// # Errors
///
/// `Text` with the first fault of the text, before any of its lines' meaning; then `Source` with the first fault of the lines;
/// or `Memory` where there is no memory.
pub fn asm(alloc: Global, source: &[u8]) -> Result<Vec<u8>, SimFault>
    ensures { Makes (AsmMeans source.now) result }
{
    let assembled = assemble_text(alloc, source)?;
    let object = assembled.object(alloc)?;
    let mut file = Vec::new(alloc);
    // An assembled object has a spelling.
    write_spelling(&object, &mut file)?;
    Ok(file)
}
