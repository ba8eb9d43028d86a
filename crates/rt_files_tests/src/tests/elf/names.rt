//! Which names are kept. The image is `ELF` with what stands before it, 4 bytes at LOW.

use super::files::ONE_SEGMENT;
use super::{refusal, refusal_with};
use crate::tests::same;
use rt_elf::{ElfFault, Told, elf_object, told_symbols};
use std::alloc::{AllocError, Global};
use std::process::Abort;
use std::test::Fail;

const LOW: u32 = 0x8000_0000;

/// An entry: `st_name`, `st_value`, `st_info` and `st_shndx`.
type Entry = (u32, u32, u8, u16);

/// A global label.
const GLOBAL: u8 = 0x10;

/// Appends a section header of these fields.
pub fn push_section(file: &mut Vec<u8>, kind: u32, place: [u32; 4]) -> Result<(), AllocError> {
    let [offset, size, link, entsize] = place;
    for field in [0, kind, 0, 0, offset, size, link, 0, 0, entsize] {
        file.extend_from_slice(&field.to_le_bytes())?;
    }
    Ok(())
}

/// The low half of a length.
pub fn low_half(len: usize) -> u32 {
    (len % 4_294_967_296) as u32
}

/// Writes other bytes over those from a place on.
pub fn overwrite(file: &mut [u8], place: usize, bytes: &[u8]) {
    for (there, byte) in file.iter_mut().skip(place).zip(bytes) {
        *there = *byte;
    }
}

/// What stands before the names in a file of one segment of so many bytes at an address, whose section headers are at a place.
fn front(alloc: Global, address: u32, size: u8, headers: u32) -> Result<Vec<u8>, AllocError> {
    let mut front = Vec::from_slice(alloc, &ONE_SEGMENT)?;
    overwrite(&mut front, 32, &headers.to_le_bytes());
    overwrite(&mut front, 48, &[3]);
    overwrite(&mut front, 56, &[0]);
    overwrite(&mut front, 60, &address.to_le_bytes());
    overwrite(&mut front, 64, &address.to_le_bytes());
    overwrite(&mut front, 68, &[size]);
    overwrite(&mut front, 72, &[size]);
    Ok(front)
}

/// Appends an entry.
fn push_entry(file: &mut Vec<u8>, entry: &Entry) -> Result<(), AllocError> {
    let (name, value, info, section) = *entry;
    file.extend_from_slice(&name.to_le_bytes())?;
    file.extend_from_slice(&value.to_le_bytes())?;
    file.extend_from_slice(&[0, 0, 0, 0, info, 0])?;
    file.extend_from_slice(&section.to_le_bytes())
}

fn push_entries(file: &mut Vec<u8>, entries: &[Entry]) -> Result<(), AllocError> {
    for entry in entries {
        push_entry(file, entry)?;
    }
    Ok(())
}

/// Appends the headers of a table of so many bytes at a place, and of the names before it.
fn push_headers(file: &mut Vec<u8>, table: u32, bytes: u32) -> Result<(), AllocError> {
    push_section(file, 0, [0, 0, 0, 0])?;
    push_section(file, 2, [table, bytes, 2, 16])?;
    push_section(file, 3, [88, table.wrapping_sub(88), 0, 0])
}

/// A file of one segment of so many bytes at an address, with these names and these entries.
fn file_at(
    alloc: Global,
    address: u32,
    size: u8,
    names: &[u8],
    entries: &[Entry],
) -> Result<Vec<u8>, AllocError> {
    let table = 88_u32.wrapping_add(low_half(names.len()));
    let bytes = low_half(entries.len()).wrapping_mul(16);
    let mut file = front(alloc, address, size, table.wrapping_add(bytes))?;
    file.extend_from_slice(names)?;
    push_entries(&mut file, entries)?;
    push_headers(&mut file, table, bytes)?;
    Ok(file)
}

/// The same, of four bytes at LOW.
fn file_of(alloc: Global, names: &[u8], entries: &[Entry]) -> Result<Vec<u8>, AllocError> {
    file_at(alloc, LOW, 4, names, entries)
}

/// Looks at the symbols of such a file as its object file spells them, and at how many are left out.
fn makes(
    rt: &impl Abort,
    alloc: Global,
    names: &[u8],
    entries: &[Entry],
    symbols: &[u8],
    left_out: u64,
) -> Result<(), Fail> {
    let file = file_of(alloc, names, entries)?;
    let made = elf_object(alloc, &file)?;
    same(rt, names, made.bytes.get(20..), Some(symbols));
    same(rt, names, made.left_out, left_out);
    Ok(())
}

/// How many bytes the symbols of such a file have, and how many are left out.
fn counts(alloc: Global, names: &[u8], entries: &[Entry]) -> Result<(usize, u64), Fail> {
    let file = file_of(alloc, names, entries)?;
    let made = elf_object(alloc, &file)?;
    Ok((made.bytes.len().saturating_sub(20), made.left_out))
}

/// The same of a name, which is told by a global label at LOW.
fn counts_of(alloc: Global, name: &[u8]) -> Result<(usize, u64), Fail> {
    let mut names = Vec::from_slice(alloc, name)?;
    names.push(0)?;
    counts(alloc, &names, &[(0, LOW, GLOBAL, 1)])
}

static HIDDEN: [&[u8]; 8] = [
    b"",
    b"$x",
    b"$d",
    b"$dx",
    b"$xrv32i2p1",
    b".L",
    b".L0 ",
    b".Lx",
];

static KEPT: [&[u8]; 6] = [b"$", b"$y", b".", b".l", b"main.cold", b"x$x"];

static LEFT_OUT: [&[u8]; 3] = [b"9", b"a-b", b"operator new"];

#[test]
fn which_names_are_kept(rt: HostRuntime) -> Result<(), Fail> {
    for name in &HIDDEN {
        same(&rt, *name, counts_of(rt.alloc(), name)?, (0, 0));
    }
    for name in &KEPT {
        same(
            &rt,
            *name,
            counts_of(rt.alloc(), name)?,
            (name.len() + 6, 0),
        );
    }
    for name in &LEFT_OUT {
        same(&rt, *name, counts_of(rt.alloc(), name)?, (0, 1));
    }
    Ok(())
}

#[test]
fn long_names(rt: HostRuntime) -> Result<(), Fail> {
    let long = [b'a'; 514];
    same(&rt, 512, counts_of(rt.alloc(), &long[..512])?, (518, 0));
    same(&rt, 513, counts_of(rt.alloc(), &long[..513])?, (0, 1));
    same(&rt, 514, counts_of(rt.alloc(), &long)?, (0, 1));
    Ok(())
}

/// Looks whether an entry of this `st_info` and `st_shndx` tells its name, `a`.
fn tells(rt: &impl Abort, alloc: Global, info: u8, section: u16, tells: bool) -> Result<(), Fail> {
    let found = counts(alloc, b"a\0", &[(0, LOW, info, section)])?;
    let expected = if tells { (7, 0) } else { (0, 0) };
    same(rt, (info, section), found, expected);
    Ok(())
}

static TELLING: [(u8, u16, bool); 11] = [
    (GLOBAL, 1, true),
    (GLOBAL + 1, 0xFEFF, true),
    (GLOBAL + 2, 0xFFF1, true),
    (GLOBAL, 0xFFFF, true),
    (0, 1, true),
    (0xF2, 1, true),
    (GLOBAL, 0, false),
    (GLOBAL, 0xFF00, false),
    (GLOBAL, 0xFFF0, false),
    (GLOBAL, 0xFFF2, false),
    (GLOBAL, 0xFFFE, false),
];

#[test]
fn which_entries_tell(rt: HostRuntime) -> Result<(), Fail> {
    for (info, section, does) in &TELLING {
        tells(&rt, rt.alloc(), *info, *section, *does)?;
    }
    for kind in 3..16 {
        tells(&rt, rt.alloc(), GLOBAL + kind, 1, false)?;
    }
    for section in 0xFF00..0xFFFF {
        tells(&rt, rt.alloc(), GLOBAL, section, section == 0xFFF1)?;
    }
    Ok(())
}

/// Two entries of one name, of which the one at LOW is kept.
static TWICE: [[Entry; 2]; 5] = [
    [(0, LOW + 4, 0, 1), (0, LOW, GLOBAL, 1)],
    [(0, 5, GLOBAL, 1), (0, LOW, 0, 1)],
    [(0, LOW, GLOBAL, 1), (0, LOW + 4, GLOBAL, 1)],
    [(0, LOW, 0, 1), (0, LOW + 4, 0, 1)],
    [(0, LOW, GLOBAL, 1), (0, LOW + 5, GLOBAL, 1)],
];

#[test]
fn one_of_a_name(rt: HostRuntime) -> Result<(), Fail> {
    for entries in &TWICE {
        let symbols = b"\x01\0a\0\0\0\x80";
        makes(&rt, rt.alloc(), b"a\0", entries, symbols, 1)?;
    }
    Ok(())
}

static ENDS: [Entry; 4] = [
    (1, LOW + 1, GLOBAL, 1),
    (0, LOW, 0, 1),
    (2, LOW + 4, GLOBAL, 1),
    (3, LOW, GLOBAL, 1),
];

#[test]
fn names_share_their_ends(rt: HostRuntime) -> Result<(), Fail> {
    let symbols = b"\x01\0_\x04\0\0\x80\x02\0a_\x01\0\0\x80\x03\0ba_\0\0\0\x80";
    makes(&rt, rt.alloc(), b"ba_\0", &ENDS, symbols, 0)
}

/// A global label.
const LABEL: Entry = (0, LOW, GLOBAL, 1);

/// Names with an entry that has no name there.
static NAMELESS: [(&[u8], Entry); 4] = [
    (b"", LABEL),
    (b"a", LABEL),
    (b"a\0", (2, LOW, GLOBAL, 1)),
    (b"a\0", (0xFFFF_FFFF, 0, 1, 1)),
];

/// The refusal of a file of these names and entries.
fn refusal_of(
    alloc: Global,
    names: &[u8],
    entries: &[Entry],
) -> Result<Option<ElfFault>, AllocError> {
    let file = file_of(alloc, names, entries)?;
    Ok(refusal(alloc, &file))
}

#[test]
fn entries_without_a_name(rt: HostRuntime) -> Result<(), Fail> {
    for (names, entry) in &NAMELESS {
        let found = refusal_of(rt.alloc(), names, &[*entry])?;
        same(&rt, *names, found, Some(ElfFault::BadSymbols));
    }
    // an entry that tells nothing needn't have a name
    let found = refusal_of(rt.alloc(), b"a\0", &[(9, LOW, 3, 1), LABEL])?;
    same(&rt, "a section", found, None);
    Ok(())
}

/// Places of a file of 226 bytes, each with another byte there and the refusal of that. They are counted from its end, where the last
/// header is that of the names.
static CHANGES: [(usize, u8, ElfFault); 10] = [
    (226 - 4 - 40, 24, ElfFault::BadSymbols),
    (226 - 20 - 40, 15, ElfFault::BadSymbols),
    (226 - 20 - 38, 1, ElfFault::Truncated),
    (226 - 16 - 40, 3, ElfFault::BadSymbols),
    (226 - 16 - 40, 1, ElfFault::BadSymbols),
    (226 - 36, 2, ElfFault::BadSymbols),
    (226 - 20, 255, ElfFault::Truncated),
    (226 - 22, 255, ElfFault::Truncated),
    (46, 41, ElfFault::BadHeader),
    (48, 4, ElfFault::Truncated),
];

#[test]
fn faulty_symbol_tables(rt: HostRuntime) -> Result<(), Fail> {
    let good = file_of(rt.alloc(), b"a\0", &[LABEL])?;
    same(&rt, "length", good.len(), 226);
    for (place, byte, fault) in &CHANGES {
        let found = refusal_with(rt.alloc(), &good, *place, *byte)?;
        same(&rt, (*place, *byte), found, Some(*fault));
    }
    Ok(())
}

static AT_THE_END: [Entry; 2] = [(0, 0x8010_0000, GLOBAL, 1), (1, 0x8010_0001, GLOBAL, 1)];

#[test]
fn the_end_of_ram_has_a_name(rt: HostRuntime) -> Result<(), Fail> {
    let file = file_at(rt.alloc(), 0x800F_FFFF, 1, b"ab\0", &AT_THE_END)?;
    let made = elf_object(rt.alloc(), &file)?;
    let symbols = b"\x02\0ab\0\0\x10\x80".as_slice();
    same(
        &rt,
        "symbols",
        made.bytes.get(16 + 1_048_576..),
        Some(symbols),
    );
    same(&rt, "left out", made.left_out, 1);
    Ok(())
}

/// So many names of six letters and a 0.
fn many_names(alloc: Global, count: u32) -> Result<Vec<u8>, AllocError> {
    let mut names = Vec::new(alloc);
    for number in 0..count {
        let name = format!(in alloc; "n{number:05}\0")?;
        names.extend_from_slice(name.as_bytes())?;
    }
    Ok(names)
}

/// Their entries, and the first of them once more.
fn many_entries(alloc: Global, count: u32) -> Result<Vec<Entry>, AllocError> {
    let mut entries = Vec::new(alloc);
    for number in 0..count {
        entries.push((number.wrapping_mul(7), LOW, GLOBAL, 1))?;
    }
    entries.push((0, LOW, 0, 1))?;
    Ok(entries)
}

fn refusal_of_many(alloc: Global, count: u32) -> Result<Option<ElfFault>, AllocError> {
    let names = many_names(alloc, count)?;
    let entries = many_entries(alloc, count)?;
    refusal_of(alloc, &names, &entries)
}

#[test]
fn one_name_too_many(rt: HostRuntime) -> Result<(), Fail> {
    let found = refusal_of_many(rt.alloc(), 65_536)?;
    same(&rt, "as many", found, None);
    let found = refusal_of_many(rt.alloc(), 65_537)?;
    same(&rt, "too many", found, Some(ElfFault::TooManySymbols));
    Ok(())
}

/// Entries that tell nothing count for their limit alone.
#[test]
fn one_entry_too_many(rt: HostRuntime) -> Result<(), Fail> {
    let mut entries: Vec<Entry> = vec![in rt.alloc(); (0, 0, 0, 0); 1_048_576]?;
    let found = refusal_of(rt.alloc(), b"\0", &entries)?;
    same(&rt, "as many", found, None);
    // the limit comes before an entry without a name
    entries.push((1, LOW, GLOBAL, 1))?;
    let found = refusal_of(rt.alloc(), b"\0", &entries)?;
    same(&rt, "too many", found, Some(ElfFault::TooManySymbols));
    Ok(())
}

/// Whether the symbols that a file tells have these names and addresses, in this order.
fn are_told(told: &Told<'_>, wanted: &[(&[u8], u32)]) -> bool {
    let are_those = told.symbols.iter().zip(wanted).all(|(symbol, (name, address))| symbol.name
        == *name
        && symbol.address == *address);
    told.symbols.len() == wanted.len() && are_those
}

/// The symbols that entries tell, whether an object may have them or not.
#[test]
fn told_symbols_are_listed(rt: HostRuntime) -> Result<(), Fail> {
    let entries = [
        (1, LOW, 0, 1),
        (3, LOW + 4, GLOBAL, 1),
        (6, LOW, GLOBAL, 1),
        (1, 0x9000_0000, GLOBAL, 1),
        (1, LOW, GLOBAL, 0),
    ];
    let file = file_of(rt.alloc(), b"\0a\0b-\0$x\0", &entries)?;
    let told = told_symbols(rt.alloc(), &file)?;
    same(&rt, "bytes", told.image_size, 4);
    let wanted: [(&[u8], u32); 3] = [(b"b-", LOW + 4), (b"a", 0x9000_0000), (b"a", LOW)];
    same(&rt, "names", are_told(&told, &wanted), true);
    Ok(())
}
