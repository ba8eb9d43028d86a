//! The listing of an object's file.

ghost use Rattle.rt_show.specs.listing.Answer.{Lists};

use crate::listing::lines::lines;
use crate::listing::names::by_address;
use rt_image::{ReadFault, read_object};
use std::alloc::Global;

/// The listing of the object that a file (RTI1) spells: each word's text with its address and its
/// number, below the names of the symbols there; the last 1 to 3 bytes one by one; and the symbols at
/// the end.
///
/// # Errors
///
/// The refusal of the file, or want of memory.
pub fn listing(alloc: Global, file: &[u8]) -> Result<Vec<u8>, ReadFault>
    ensures { Lists (λ text. text.items) file.now result }
{
    let object = read_object(alloc, file)?;
    let symbols = by_address(alloc, &object.symbols)?;
    let text = lines(alloc, &symbols, object.bytes)?;
    Ok(text)
}
