//! The listing of an object file.

ghost use Rattle.std.specs.Prelude.{◌≡◌, false};
ghost use Rattle.rt_programs.specs.Dis.{DisMeans};
ghost use Rattle.rt_opening.specs.Ends.{Ends};

use rt_opening::SimFault;
use rt_show::listing::listing;
use rt_sink::{Sink, put_bytes};
use std::alloc::Global;

/// Writes the listing of the object of a file (RTI1), and answers its length in bytes.
///
/// # Errors
///
/// The refusal of the file; or there is no memory. Then the sink has taken nothing. `Device` where
/// the sink failed: it took so many of the first bytes of the listing.
pub fn dis<S: Sink>(alloc: Global, bytes: &[u8], out: &mut S) -> Result<u64, SimFault>
    requires { (S.seen out.old).failed ≡ false }
    ensures { Ends S.seen (DisMeans bytes.now) out.old result out.new }
{
    let text = listing(alloc, bytes)?;
    put_bytes(out, &text)?;
    Ok(text.len() as u64)
}
