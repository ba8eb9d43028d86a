//! How an ELF file begins (System V gABI, "ELF Identification").

ghost use Rattle.std.specs.Prelude.{◌≡◌};
ghost use Rattle.rt_elf.specs.flat.ElfMagic.{is_elf};

/// The first four bytes of an ELF file.
const MAGIC: [u8; 4] = [0x7F, b'E', b'L', b'F'];

/// Whether a file begins as ELF files do.
pub fn is_elf(file: &[u8]) -> bool
    ensures { result ≡ is_elf file.now }
{
    file.starts_with(&MAGIC)
}
