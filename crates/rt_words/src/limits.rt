//! The sizes that are allowed, and the address where RAM begins.

ghost use Rattle.std.specs.Prelude.{◌≡◌};
ghost use Rattle.rt_words.specs.Limits.{is_ram_size as allows_ram};

/// The address of the first byte of RAM.
pub const RAM_BASE: u32 = 0x8000_0000;

/// The greatest number of 32 bits.
pub const MAX_WORD: u64 = 0xFFFF_FFFF;

/// The most bytes of a RAM.
pub const MAX_RAM: u32 = 1_048_576;

/// The most bytes of an image.
pub const MAX_IMAGE: u32 = 1_048_576;

/// The most symbols of an object.
pub const MAX_SYMBOLS: u32 = 65_536;

/// The most bytes of a line of text without its end, and so of a name.
pub const MAX_LINE: u16 = 512;

/// The most ticks of a machine: 2^40.
pub const MAX_TICKS: u64 = 1_099_511_627_776;

/// Whether a RAM may have this many bytes: a multiple of 4 from 4 to 1,048,576.
pub fn is_ram_size(size: u32) -> bool
    ensures { result ≡ allows_ram size }
{
    size >= 4 && size <= MAX_RAM && size.is_multiple_of(4)
}
