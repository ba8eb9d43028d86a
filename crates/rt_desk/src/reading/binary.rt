//! How long an object file or a system file can be, by how it begins.

ghost use Rattle.std.specs.Prelude.{◌≡◌, ◌≤◌, true};
ghost use Rattle.rt_desk.specs.reading.Extent.{number_at, most_of_object, most_for_object, most_of_system, exceeds, IsRefusedSystem, IsNoSystem};

use byteorder::{ByteOrder, LittleEndian};
use rt_elf::is_elf;
use rt_image::{ImageFault, MAX_TASKS, ReadFault, read_system};
use rt_words::{MAX_IMAGE, MAX_LINE, MAX_SYMBOLS};
use std::alloc::Global;

/// The most bytes of a symbol: the length of its name, the name, its address.
const SYMBOL_SIZE: u64 = 2 + MAX_LINE as u64 + 4;

/// The most bytes of a task of a system file: six numbers, and what is to be its object file.
const TASK_SIZE: u64 = 24 + 67_108_864;

/// The most bytes of an ELF file.
pub(crate) const MOST_ELF: usize = 67_108_864;

/// The number of the four bytes at a place, the lowest first. None where they aren't all there.
fn number_at(bytes: &[u8], place: usize) -> Option<u32>
    requires { place ≤ 12 }
    ensures { result ≡ number_at place bytes.now }
{
    if bytes.len() < place + 4 {
        return None;
    }
    Some(LittleEndian::read_u32(&bytes[place..]))
}

/// The most bytes of an object file that begins with these. None where no object file does.
fn most_of_object(bytes: &[u8]) -> Option<u64>
    ensures { result ≡ most_of_object bytes.now }
{
    let image = number_at(bytes, 8)?;
    let symbols = number_at(bytes, 12)?;
    if bytes.starts_with(b"RTI1") && image <= MAX_IMAGE && symbols <= MAX_SYMBOLS {
        Some(16 + image as u64 + symbols as u64 * SYMBOL_SIZE)
    } else {
        None
    }
}

/// The most bytes of an object file, or an ELF file in its place, that begins with these. None where neither does.
fn most_for_object(bytes: &[u8]) -> Option<u64>
    ensures { result ≡ most_for_object bytes.now }
{
    if is_elf(bytes) {
        Some(MOST_ELF as u64)
    } else {
        most_of_object(bytes)
    }
}

/// The most bytes of a system file that begins with these. None where no system file does.
fn most_of_system(bytes: &[u8]) -> Option<u64>
    ensures { result ≡ most_of_system bytes.now }
{
    let tasks = number_at(bytes, 8)?;
    let is_system = bytes.starts_with(b"RTS1") || bytes.starts_with(b"RTS2");
    if is_system && tasks <= MAX_TASKS {
        Some(12 + tasks as u64 * TASK_SIZE)
    } else {
        None
    }
}

fn exceeds(most: Option<u64>, bytes: &[u8]) -> bool
    ensures { result ≡ exceeds most bytes.now }
{
    match most {
        Some(most) => most < bytes.len() as u64,
        None => true,
    }
}

/// Whether neither an object file begins with these bytes nor an ELF file in its place, or none that is so long.
pub(crate) fn exceeds_an_object(bytes: &[u8]) -> bool
    ensures { result ≡ exceeds (most_for_object bytes.now) bytes.now }
{
    exceeds(most_for_object(bytes), bytes)
}

/// Whether a system file of these bytes is refused, and not for its end.
fn is_refused_system(alloc: Global, bytes: &[u8]) -> bool
    ensures { result ≡ true → IsRefusedSystem bytes.now }
{
    match read_system(alloc, bytes) {
        Err(ReadFault::Fault(fault)) => fault != ImageFault::Truncated,
        _ => false,
    }
}

/// Whether no system file begins with these bytes, or none that is so long. Where there is no memory to find out, one may.
pub(crate) fn is_no_system(alloc: Global, bytes: &[u8]) -> bool
    ensures { result ≡ true → IsNoSystem bytes.now }
{
    exceeds(most_of_system(bytes), bytes) || is_refused_system(alloc, bytes)
}
