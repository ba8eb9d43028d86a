//! Where segments may lie. The bytes of a segment are those at the front of the file: 0x7F, `E`, `L`, `F`, 1, 1, 1 and zeros.

use super::files::ONE_SEGMENT;
use crate::tests::same;
use rt_elf::{ElfFault, elf_object};
use std::alloc::{AllocError, Global};
use std::process::Abort;
use std::test::Fail;

const LOW: u32 = 0x8000_0000;

const HIGH: u32 = 0x8010_0000;

/// A segment: `p_vaddr`, `p_paddr`, `p_filesz` and `p_memsz`.
type Segment = (u32, u32, u32, u32);

/// The first four bytes at LOW.
const FIRST: Segment = (LOW, LOW, 4, 4);

/// Appends the program header of a segment.
fn push_segment(file: &mut Vec<u8>, segment: &Segment) -> Result<(), AllocError> {
    let (vaddr, paddr, filesz, memsz) = *segment;
    for field in [1, 0, vaddr, paddr, filesz, memsz, 7, 4] {
        file.extend_from_slice(&field.to_le_bytes())?;
    }
    Ok(())
}

/// A file of these segments.
fn file_of(alloc: Global, segments: &[Segment]) -> Result<Vec<u8>, AllocError> {
    let mut file = Vec::from_slice(alloc, &ONE_SEGMENT[..44])?;
    file.extend_from_slice(&segments.len().to_le_bytes()[..2])?;
    file.extend_from_slice(&ONE_SEGMENT[46..52])?;
    for segment in segments {
        push_segment(&mut file, segment)?;
    }
    Ok(file)
}

/// Looks at the image of a file of these segments: at how many bytes it has, and at how it begins.
fn loads(
    rt: &impl Abort,
    alloc: Global,
    segments: &[Segment],
    len: usize,
    begin: &[u8],
) -> Result<(), Fail> {
    let file = file_of(alloc, segments)?;
    let made = elf_object(alloc, &file)?;
    let image = made.bytes.get(16..).unwrap_or(b"");
    same(rt, segments, image.len(), len);
    same(rt, segments, image.starts_with(begin), true);
    Ok(())
}

/// How many bytes the image of a file of these segments has, or why there is none.
fn image_len(alloc: Global, segments: &[Segment]) -> Result<Result<usize, ElfFault>, AllocError> {
    let file = file_of(alloc, segments)?;
    match elf_object(alloc, &file) {
        Ok(made) => Ok(Ok(made.bytes.len().saturating_sub(16))),
        Err(fault) => Ok(Err(fault)),
    }
}

static TOUCHING: [Segment; 2] = [FIRST, (LOW + 4, LOW + 4, 2, 2)];

static OVERLAPPING: [[Segment; 3]; 3] = [
    [FIRST, (LOW + 3, LOW + 3, 2, 2), (HIGH - 4, HIGH - 4, 4, 4)],
    [FIRST, FIRST, (HIGH - 4, HIGH - 4, 4, 4)],
    // the first and the third alone
    [
        (LOW, LOW, 32, 32),
        (LOW + 64, LOW + 64, 4, 4),
        (LOW + 8, LOW + 8, 4, 4),
    ],
];

#[test]
fn load_spans_may_touch(rt: HostRuntime) -> Result<(), Fail> {
    loads(&rt, rt.alloc(), &TOUCHING, 6, b"\x7fELF\x7fE")?;
    for segments in &OVERLAPPING {
        let found = image_len(rt.alloc(), segments)?;
        same(&rt, "overlapping", found, Err(ElfFault::Overlap));
    }
    Ok(())
}

static OVERLAY: [Segment; 3] = [FIRST, (LOW + 64, LOW + 4, 4, 8), (LOW + 64, LOW + 8, 4, 16)];

/// Zeros that run over loaded bytes.
static ZEROS: [Segment; 2] = [(LOW + 4, LOW + 4, 4, 4), (LOW, LOW, 1, 8)];

#[test]
fn run_spans_may_overlap(rt: HostRuntime) -> Result<(), Fail> {
    loads(&rt, rt.alloc(), &OVERLAY, 80, b"\x7fELF\x7fELF\x7fELF\0")?;
    // zeros don't cover loaded bytes
    loads(&rt, rt.alloc(), &ZEROS, 8, b"\x7f\0\0\0\x7fELF")
}

/// Files of one segment, each with how many bytes its image has.
static IN_RAM: [(Segment, Result<usize, ElfFault>); 10] = [
    ((HIGH - 1, HIGH - 1, 1, 1), Ok(1_048_576)),
    ((HIGH - 8, LOW, 4, 8), Ok(1_048_576)),
    ((HIGH - 4, LOW, 4, 8), Err(ElfFault::OutsideRam)),
    ((LOW + 4096, LOW, 4, 8), Ok(4104)),
    ((LOW, LOW - 4, 4, 8), Err(ElfFault::OutsideRam)),
    ((LOW - 4, LOW, 4, 8), Err(ElfFault::OutsideRam)),
    ((0x2000_0000, LOW, 4, 8), Err(ElfFault::OutsideRam)),
    ((0xFFFF_FFFC, LOW, 4, 8), Err(ElfFault::OutsideRam)),
    ((LOW, 0xFFFF_FFFC, 4, 8), Err(ElfFault::OutsideRam)),
    (
        (LOW, LOW, 0xFFFF_FFFF, 0xFFFF_FFFF),
        Err(ElfFault::Truncated),
    ),
];

#[test]
fn all_lies_in_ram(rt: HostRuntime) -> Result<(), Fail> {
    for (segment, len) in &IN_RAM {
        let found = image_len(rt.alloc(), &[*segment])?;
        same(&rt, *segment, found, *len);
    }
    Ok(())
}

static SKIPPED: [Segment; 2] = [(0, 0, 0, 0), FIRST];

static TOO_SHORT: [Segment; 2] = [FIRST, (0, 0, 4, 0)];

static VARIABLES: [Segment; 1] = [(LOW + 16, 0, 0, 64)];

static BOTH: [Segment; 2] = [FIRST, (LOW + 16, 0, 0, 64)];

#[test]
fn segments_without_bytes(rt: HostRuntime) -> Result<(), Fail> {
    let found = image_len(rt.alloc(), &SKIPPED)?;
    same(&rt, "skipped", found, Ok(4));
    let found = image_len(rt.alloc(), &TOO_SHORT)?;
    same(&rt, "too short", found, Err(ElfFault::BadSegment));
    let found = image_len(rt.alloc(), &VARIABLES)?;
    same(&rt, "variables", found, Err(ElfFault::Empty));
    let found = image_len(rt.alloc(), &BOTH)?;
    same(&rt, "both", found, Ok(80));
    Ok(())
}

/// A segment behind so many headers that say nothing.
fn last_segment(alloc: Global, count: usize) -> Result<Vec<Segment>, AllocError> {
    let mut segments: Vec<Segment> = vec![in alloc; (0, 0, 0, 0); count]?;
    segments.push(FIRST)?;
    Ok(segments)
}

#[test]
fn one_header_too_many(rt: HostRuntime) -> Result<(), Fail> {
    let segments = last_segment(rt.alloc(), 255)?;
    let found = image_len(rt.alloc(), &segments)?;
    same(&rt, "as many", found, Ok(4));
    let segments = last_segment(rt.alloc(), 256)?;
    let found = image_len(rt.alloc(), &segments)?;
    same(&rt, "too many", found, Err(ElfFault::BadHeader));
    Ok(())
}
