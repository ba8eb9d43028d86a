//! How a program ends that has written a text.

ghost use Rattle.std.specs.Prelude.{◌≡◌};
ghost use Rattle.rt_opening.specs.Ends.{answer_of};

use crate::fault::SimFault;
use rt_sink::DeviceFault;

/// What a program answers whose text was written: its length in bytes, or the device's fault.
#[inline]
pub fn answer(written: Result<u64, DeviceFault>) -> Result<u64, SimFault>
    ensures { result ≡ answer_of written }
{
    match written {
        Ok(length) => Ok(length),
        Err(fault) => Err(SimFault::Device(fault)),
    }
}
