//! The architecture that a compiler built a program for (RISC-V ELF psABI 1.0, "Attributes"). No object depends on it, and no
//! definition speaks of it: a section that can't be read names none.

ghost use Rattle.std.specs.Prelude.{◌≤◌, length};
ghost use Rattle.rt_elf.specs.Working.Checks.{HasSections};

use crate::elf_header::{check_kind, check_sections, has_sections};
use crate::sections::{section_count, section_header};

/// `SHT_RISCV_ATTRIBUTES`.
const ATTRIBUTES: u32 = 0x7000_0003;

/// Who says the attributes.
const VENDOR: &[u8] = b"riscv";

/// The tag of attributes of the whole file.
const OF_FILE: u64 = 1;

/// `Tag_RISCV_arch`.
const ARCHITECTURE: u64 = 5;

/// The most bytes of a number: it has seven bits in each.
const MOST_PLACES: usize = 9;

/// The first so many bytes, and what follows them.
fn cut(bytes: &[u8], len: u32) -> Option<(&[u8], &[u8])> {
    bytes.split_at_checked(len as usize)
}

/// The text up to the first 0, and what follows that.
fn text_at(bytes: &[u8]) -> Option<(&[u8], &[u8])> {
    let end = bytes.iter().position(|byte| *byte == 0)?;
    let (text, rest) = bytes.split_at_checked(end)?;
    Some((text, rest.get(1..)?))
}

/// The number in ULEB128 at the front, and what follows it.
fn number_at(bytes: &[u8]) -> Option<(u64, &[u8])> {
    let mut value = 0u64;
    let mut scale = 1u64;
    for place in 0..MOST_PLACES {
        let byte = *bytes.get(place)?;
        value = value.wrapping_add(u64::from(byte % 128).wrapping_mul(scale));
        scale = scale.wrapping_mul(128);
        if byte < 128 {
            return Some((value, bytes.get(place + 1..)?));
        }
    }
    None
}

/// The four bytes at the front as a number, low byte first.
fn length_at(bytes: &[u8]) -> Option<u32> {
    Some(u32::from_le_bytes(*bytes.first_chunk()?))
}

/// What a vendor says in the contents of a section: parts that begin with their length, and with the vendor's name.
fn part_of<'a>(contents: &'a [u8], vendor: &[u8]) -> Option<&'a [u8]> {
    let mut rest = contents;
    for _ in 0..contents.len() {
        let (part, after) = cut(rest, length_at(rest)?)?;
        let (name, said) = text_at(part.get(4..)?)?;
        if name == vendor {
            return Some(said);
        }
        rest = after;
    }
    None
}

/// The attributes of the whole file: parts that begin with a tag and their length.
fn of_file(said: &[u8]) -> Option<&[u8]> {
    let mut rest = said;
    for _ in 0..said.len() {
        let (tag, body) = number_at(rest)?;
        let (part, after) = cut(rest, length_at(body)?)?;
        if tag == OF_FILE {
            let (_, body) = number_at(part)?;
            return body.get(4..);
        }
        rest = after;
    }
    None
}

/// The text of a tag: those with odd numbers have texts, the others numbers.
fn text_of(attributes: &[u8], wanted: u64) -> Option<&[u8]> {
    let mut rest = attributes;
    for _ in 0..attributes.len() {
        let (tag, body) = number_at(rest)?;
        if tag % 2 == 0 {
            (_, rest) = number_at(body)?;
            continue;
        }
        let (text, after) = text_at(body)?;
        if tag == wanted {
            return Some(text);
        }
        rest = after;
    }
    None
}

/// The contents of the first section of attributes, without their format's version.
fn contents_of(file: &[u8]) -> Option<&[u8]>
    requires { HasSections file.now }
{
    for number in 0..section_count(file) {
        let header = section_header(file, number);
        if header.kind == ATTRIBUTES && !header.is_cut(file) {
            return header.contents(file).strip_prefix(b"A");
        }
    }
    None
}

/// What the file of a program names as the architecture that it was built for, as `rv32i2p1_m2p0`:
/// extensions with their versions. None where it names none that can be read.
#[tactic(auto, using(crate::proofs::RefusalLemmas::has_section_table))]
pub fn architecture(file: &[u8]) -> Option<&[u8]> {
    check_kind(file).ok()?;
    check_sections(file).ok()?;
    if !has_sections(file) {
        return None;
    }
    let said = part_of(contents_of(file)?, VENDOR)?;
    text_of(of_file(said)?, ARCHITECTURE)
}
