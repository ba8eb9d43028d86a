//! What an object file or a system file holds.

ghost use Rattle.std.specs.Prelude.{◌≡◌, false};
ghost use Rattle.rt_opening.specs.Ends.{Ends};
ghost use Rattle.rt_programs.specs.Showing.{ObjectShows, SetShows, is_object, ShowMeans};

use rt_image::{read_object, read_system};
use rt_opening::{SimFault, answer};
use rt_show::{ShownObject, write_set};
use rt_sink::Sink;
use std::alloc::Global;

/// Whether a file begins as an object file does.
pub(crate) fn is_object(bytes: &[u8]) -> bool
    ensures { result ≡ is_object bytes.now }
{
    bytes.starts_with(b"RTI1")
}

/// Writes what an object file holds.
fn show_object<S: Sink>(alloc: Global, bytes: &[u8], out: &mut S) -> Result<u64, SimFault>
    requires { (S.seen out.old).failed ≡ false }
    ensures { Ends S.seen (ObjectShows bytes.now) out.old result out.new }
{
    let object = read_object(alloc, bytes)?;
    let shown = ShownObject::new(alloc, &object)?;
    answer(shown.write_text(out))
}

/// Writes what a system file holds.
fn show_set<S: Sink>(alloc: Global, bytes: &[u8], out: &mut S) -> Result<u64, SimFault>
    requires { (S.seen out.old).failed ≡ false }
    ensures { Ends S.seen (SetShows bytes.now) out.old result out.new }
{
    let system = read_system(alloc, bytes)?;
    answer(write_set(&system, out))
}

/// Writes what a file holds, and answers the text's length in bytes. A file that begins with `RTI1` is an object file: its image, its
/// entry, and its symbols in the order of addresses, then names. Any other is a system file (RTS1 or RTS2), admitted or not: the lines
/// of a set file that would give it, with a comment about each task.
///
/// # Errors
///
/// The refusal of the file as what it is read; or there is no memory. Then the sink has taken nothing. `Device` where the sink failed:
/// it took so many of the first bytes of the text.
pub fn show<S: Sink>(alloc: Global, bytes: &[u8], out: &mut S) -> Result<u64, SimFault>
    requires { (S.seen out.old).failed ≡ false }
    ensures { Ends S.seen (ShowMeans bytes.now) out.old result out.new }
{
    if is_object(bytes) {
        return show_object(alloc, bytes, out);
    }
    show_set(alloc, bytes, out)
}
