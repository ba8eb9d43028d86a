//! The conversion of a system file.

ghost use Rattle.rt_programs.specs.Convert.{ConvertMeans};
ghost use Rattle.rt_programs.specs.Makes.{Makes};

use rt_image::{Version, WriteFault, read_system, write_system};
use rt_opening::SimFault;
use std::alloc::Global;

/// The file of version Two (RTS2) of the system of a file (RTS1 or RTS2).
///
/// # Errors
///
/// `Image` with the refusal of the file; or `Memory` where there is no memory.
pub fn convert(alloc: Global, bytes: &[u8]) -> Result<Vec<u8>, SimFault>
    ensures { Makes (ConvertMeans bytes.now) result }
{
    let mut system = read_system(alloc, bytes)?;
    system.version = Version::Two;
    let mut file = Vec::new(alloc);
    match write_system(&system, &mut file) {
        Ok(()) => Ok(file),
        Err(WriteFault::NoMemory) => Err(SimFault::Memory),
        // What was read has a spelling in version Two.
        Err(WriteFault::BadField) => unreachable!(),
    }
}
