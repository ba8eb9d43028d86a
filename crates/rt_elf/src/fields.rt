//! Reading numbers at places of a file.

ghost use Rattle.std.specs.Prelude.{◌≡◌, ◌+◌, ◌<◌, ◌≤◌, length};
ghost use Rattle.rt_elf.specs.Fields.{number};

use byteorder::{ByteOrder, LittleEndian};

/// The byte at a place.
#[tactic(auto, unfolding(crate::specs::Fields::number))]
pub fn byte_at(file: &[u8], at: usize) -> u8
    requires { at < length file.now }
    ensures { result ≡ number file.now at 1 }
{
    file[at]
}

/// The number of two bytes at a place.
#[tactic(auto, unfolding(crate::specs::Fields::number))]
pub fn u16_at(file: &[u8], at: usize) -> u16
    requires { at + 2 ≤ length file.now }
    ensures { result ≡ number file.now at 2 }
{
    LittleEndian::read_u16(&file[at..])
}

/// The number of four bytes at a place.
#[tactic(auto, unfolding(crate::specs::Fields::number))]
pub fn u32_at(file: &[u8], at: usize) -> u32
    requires { at + 4 ≤ length file.now }
    ensures { result ≡ number file.now at 4 }
{
    LittleEndian::read_u32(&file[at..])
}
