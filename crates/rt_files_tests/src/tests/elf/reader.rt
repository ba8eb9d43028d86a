//! What the rules of ELF files make of a list of bytes, computed a second time: slowly, and straight from their words.

use super::reader_symbols::{Kept, kept_symbols, test_symbols};
use rt_elf::ElfFault;
use std::alloc::{AllocError, Global};

/// The first address of RAM.
pub const LOW: u64 = 0x8000_0000;

/// The end of the greatest RAM.
pub const HIGH: u64 = 0x8010_0000;

/// The number that so many bytes from a place on spell, low byte first. A byte that isn't there is 0.
pub fn number(file: &[u8], at: u64, len: u64) -> u64 {
    let mut value = 0u64;
    let mut scale = 1u64;
    for place in at..at.saturating_add(len) {
        let byte = file.get(place as usize).copied().unwrap_or(0);
        value = value.wrapping_add(u64::from(byte).wrapping_mul(scale));
        scale = scale.wrapping_mul(256);
    }
    value
}

/// The refusal of the first of these rows whose test holds.
pub fn test(rows: &[(bool, ElfFault)]) -> Result<(), ElfFault> {
    for (holds, fault) in rows {
        if *holds {
            return Err(*fault);
        }
    }
    Ok(())
}

/// The length of a file.
pub fn size(file: &[u8]) -> u64 {
    file.len() as u64
}

/// Whether a byte that is there of the first four is another.
fn begins_otherwise(file: &[u8]) -> bool {
    for (byte, magic) in file.iter().zip(b"\x7fELF") {
        if byte != magic {
            return true;
        }
    }
    false
}

/// Rows 1 to 6.
fn test_kind(file: &[u8]) -> Result<(), ElfFault> {
    test(&[
        (size(file) > 67_108_864, ElfFault::TooLarge),
        (begins_otherwise(file), ElfFault::BadMagic),
        (size(file) < 52, ElfFault::Truncated),
        (number(file, 4, 1) != 1, ElfFault::Not32Bit),
        (number(file, 5, 1) != 1, ElfFault::NotLittleEndian),
        (number(file, 18, 2) != 243, ElfFault::NotRiscV),
    ])
}

/// Rows 7 to 12.
fn test_program(file: &[u8]) -> Result<(), ElfFault> {
    let kind = number(file, 16, 2);
    let flags = number(file, 36, 4);
    test(&[
        (kind == 1, ElfFault::Relocatable),
        (kind == 3, ElfFault::Shared),
        (kind != 2, ElfFault::NotExecutable),
        (flags & 1 != 0, ElfFault::Compressed),
        (flags & 6 != 0, ElfFault::FloatAbi),
        (flags != 0, ElfFault::OtherAbi),
    ])
}

/// How many program headers there are.
fn header_count(file: &[u8]) -> u64 {
    number(file, 44, 2)
}

/// Rows 13 and 14.
fn test_table(file: &[u8]) -> Result<(), ElfFault> {
    let count = header_count(file);
    let end = number(file, 28, 4).saturating_add(count.saturating_mul(32));
    test(&[
        (count > 256, ElfFault::BadHeader),
        (count != 0 && number(file, 42, 2) != 32, ElfFault::BadHeader),
        (count != 0 && end > size(file), ElfFault::Truncated),
    ])
}

/// A program header.
#[derive(Clone, Copy)]
struct Header {
    kind: u64,
    offset: u64,
    vaddr: u64,
    paddr: u64,
    filesz: u64,
    memsz: u64,
}

impl Header {
    fn is_segment(&self) -> bool {
        self.kind == 1 && self.memsz > 0
    }

    fn has_bytes(&self) -> bool {
        self.is_segment() && self.filesz > 0
    }

    fn load_end(&self) -> u64 {
        self.paddr.saturating_add(self.filesz)
    }

    fn run_end(&self) -> u64 {
        self.vaddr.saturating_add(self.memsz)
    }

    /// Whether the load span has the address.
    fn loads(&self, address: u64) -> bool {
        self.has_bytes() && self.paddr <= address && address < self.load_end()
    }

    /// Puts its bytes to where it is loaded.
    fn load(&self, file: &[u8], image: &mut [u8]) {
        for place in 0..self.filesz {
            let from = self.offset.saturating_add(place);
            let to = self.paddr.saturating_sub(LOW).saturating_add(place);
            if let (Some(byte), Some(there)) = (
                file.get(from as usize),
                image.get_mut(to as usize),
            ) {
                *there = *byte;
            }
        }
    }
}

/// Header `k`.
fn header_at(file: &[u8], k: u64) -> Header {
    let at = number(file, 28, 4).saturating_add(k.saturating_mul(32));
    Header {
        kind: number(file, at, 4),
        offset: number(file, at.saturating_add(4), 4),
        vaddr: number(file, at.saturating_add(8), 4),
        paddr: number(file, at.saturating_add(12), 4),
        filesz: number(file, at.saturating_add(16), 4),
        memsz: number(file, at.saturating_add(20), 4),
    }
}

fn lies_in_ram(first: u64, end: u64) -> bool {
    first == end || (LOW <= first && end <= HIGH)
}

/// Row 15, of one header.
fn test_header(file: &[u8], h: &Header) -> Result<(), ElfFault> {
    let end = h.offset.saturating_add(h.filesz);
    let loaded = lies_in_ram(h.paddr, h.load_end());
    let run = lies_in_ram(h.vaddr, h.run_end());
    test(&[
        (h.kind == 2 || h.kind == 3, ElfFault::Dynamic),
        (h.kind == 1 && h.filesz > h.memsz, ElfFault::BadSegment),
        (h.has_bytes() && end > size(file), ElfFault::Truncated),
        (h.is_segment() && !loaded, ElfFault::OutsideRam),
        (h.is_segment() && !run, ElfFault::OutsideRam),
    ])
}

/// Row 15, and the headers.
fn headers(alloc: Global, file: &[u8]) -> Result<Result<Vec<Header>, ElfFault>, AllocError> {
    let mut headers = Vec::new(alloc);
    for k in 0..header_count(file) {
        let header = header_at(file, k);
        if let Err(fault) = test_header(file, &header) {
            return Ok(Err(fault));
        }
        headers.push(header)?;
    }
    Ok(Ok(headers))
}

/// Whether both load spans have one address.
fn share(a: &Header, b: &Header) -> bool {
    let first = a.paddr.max(b.paddr);
    a.loads(first) && b.loads(first)
}

fn any_share(headers: &[Header]) -> bool {
    for (j, a) in headers.iter().enumerate() {
        for b in headers.iter().skip(j.saturating_add(1)) {
            if share(a, b) {
                return true;
            }
        }
    }
    false
}

/// Rows 16 and 17.
fn test_image(headers: &[Header]) -> Result<(), ElfFault> {
    let has_bytes = headers.iter().any(|header| header.has_bytes());
    test(&[
        (!has_bytes, ElfFault::Empty),
        (any_share(headers), ElfFault::Overlap),
    ])
}

/// Rows 18 and 19.
fn test_sections(file: &[u8]) -> Result<(), ElfFault> {
    let there = has_sections(file);
    let end = number(file, 32, 4).saturating_add(number(file, 48, 2).saturating_mul(40));
    test(&[
        (there && number(file, 46, 2) != 40, ElfFault::BadHeader),
        (there && end > size(file), ElfFault::Truncated),
    ])
}

/// Whether there are section headers.
pub fn has_sections(file: &[u8]) -> bool {
    number(file, 32, 4) != 0 && number(file, 48, 2) != 0
}

/// How many bytes the image has.
fn image_size(headers: &[Header]) -> u64 {
    let mut end = LOW;
    for header in headers {
        if header.has_bytes() {
            end = end.max(header.load_end());
        }
        if header.is_segment() {
            end = end.max(header.run_end());
        }
    }
    end.saturating_sub(LOW)
}

/// The image.
fn image_of(alloc: Global, file: &[u8], headers: &[Header]) -> Result<Vec<u8>, AllocError> {
    let mut image = vec![in alloc; 0u8; image_size(headers) as usize]?;
    for header in headers {
        if header.has_bytes() {
            header.load(file, &mut image);
        }
    }
    Ok(image)
}

/// Appends so many bytes of a number, low byte first.
fn push_number(out: &mut Vec<u8>, value: u64, len: usize) -> Result<(), AllocError> {
    for byte in value.to_le_bytes().iter().take(len) {
        out.push(*byte)?;
    }
    Ok(())
}

/// The one spelling of an object.
fn spelled(alloc: Global, file: &[u8], image: &[u8], kept: &Kept) -> Result<Vec<u8>, AllocError> {
    let mut out = Vec::from_slice(alloc, b"RTI1")?;
    push_number(&mut out, number(file, 24, 4), 4)?;
    push_number(&mut out, size(image), 4)?;
    push_number(&mut out, kept.symbols.len() as u64, 4)?;
    out.extend_from_slice(image)?;
    for (name, address) in &kept.symbols {
        push_number(&mut out, name.len() as u64, 2)?;
        out.extend_from_slice(name)?;
        push_number(&mut out, *address, 4)?;
    }
    Ok(out)
}

/// Rows 1 to 14.
fn test_front(file: &[u8]) -> Result<(), ElfFault> {
    test_kind(file)?;
    test_program(file)?;
    test_table(file)
}

/// Rows 16 to 24.
fn test_rest(file: &[u8], headers: &[Header]) -> Result<(), ElfFault> {
    test_image(headers)?;
    test_sections(file)?;
    test_symbols(file)
}

/// The object file that the rules make of a file, and how many names are left out; or the refusal.
pub fn object_by_rules(
    alloc: Global,
    file: &[u8],
) -> Result<Result<(Vec<u8>, u64), ElfFault>, AllocError> {
    if let Err(fault) = test_front(file) {
        return Ok(Err(fault));
    }
    let headers = match headers(alloc, file)? {
        Ok(headers) => headers,
        Err(fault) => return Ok(Err(fault)),
    };
    if let Err(fault) = test_rest(file, &headers) {
        return Ok(Err(fault));
    }
    let kept = kept_symbols(alloc, file, image_size(&headers))?;
    if kept.symbols.len() > 65_536 {
        return Ok(Err(ElfFault::TooManySymbols));
    }
    let image = image_of(alloc, file, &headers)?;
    Ok(Ok((spelled(alloc, file, &image, &kept)?, kept.left_out)))
}
