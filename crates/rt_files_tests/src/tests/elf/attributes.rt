//! The architecture that a section of attributes names.

use super::files::ONE_SEGMENT;
use super::names::{low_half, overwrite, push_section};
use crate::tests::same;
use rt_elf::architecture;
use std::alloc::{AllocError, Global};
use std::process::Abort;
use std::test::Fail;

/// The section that `as -march=rv32ima_zba` of binutils 2.40 makes.
static GNU: [u8; 52] = [
    0x41, 0x33, 0x00, 0x00, 0x00, 0x72, 0x69, 0x73, 0x63, 0x76, 0x00, 0x01, 0x29, 0x00, 0x00, 0x00,
    0x05, 0x72, 0x76, 0x33, 0x32, 0x69, 0x32, 0x70, 0x31, 0x5f, 0x6d, 0x32, 0x70, 0x30, 0x5f, 0x61,
    0x32, 0x70, 0x31, 0x5f, 0x7a, 0x6d, 0x6d, 0x75, 0x6c, 0x31, 0x70, 0x30, 0x5f, 0x7a, 0x62, 0x61,
    0x31, 0x70, 0x30, 0x00,
];

/// The section that `clang -march=rv32im` and lld 14 make, with the stack's alignment before the architecture.
static LLVM: [u8; 33] = [
    0x41, 0x20, 0x00, 0x00, 0x00, 0x72, 0x69, 0x73, 0x63, 0x76, 0x00, 0x01, 0x16, 0x00, 0x00, 0x00,
    0x04, 0x10, 0x05, 0x72, 0x76, 0x33, 0x32, 0x69, 0x32, 0x70, 0x30, 0x5f, 0x6d, 0x32, 0x70, 0x30,
    0x00,
];

/// The first file with a section of attributes of these contents, behind a section that isn't one.
fn file_with(alloc: Global, contents: &[u8]) -> Result<Vec<u8>, AllocError> {
    let mut file = Vec::from_slice(alloc, &ONE_SEGMENT)?;
    let end = 88_u32.wrapping_add(low_half(contents.len()));
    overwrite(&mut file, 32, &end.to_le_bytes());
    overwrite(&mut file, 48, &[2]);
    file.extend_from_slice(contents)?;
    push_section(&mut file, 1, [88, 4, 0, 0])?;
    push_section(&mut file, 0x7000_0003, [88, low_half(contents.len()), 0, 0])?;
    Ok(file)
}

/// Looks at the architecture that such a section names.
fn names(
    rt: &impl Abort,
    alloc: Global,
    contents: &[u8],
    named: Option<&[u8]>,
) -> Result<(), AllocError> {
    let file = file_with(alloc, contents)?;
    same(rt, contents, architecture(&file), named);
    Ok(())
}

#[test]
fn architectures_of_compilers(rt: HostRuntime) -> Result<(), Fail> {
    let gnu = b"rv32i2p1_m2p0_a2p1_zmmul1p0_zba1p0";
    names(&rt, rt.alloc(), &GNU, Some(gnu))?;
    names(&rt, rt.alloc(), &LLVM, Some(b"rv32i2p0_m2p0"))?;
    Ok(())
}

/// Sections that were made by hand, and what they name.
static SECTIONS: [(&[u8], Option<&[u8]>); 8] = [
    // another vendor before; attributes of a section before; a number of two bytes and another text before
    (
        b"A\x0a\0\0\0gnu\0\x01\x02\x25\0\0\0riscv\0\x02\x07\0\0\0\x03\0\x01\x14\0\0\0\x04\x80\x01\x07x\0\x05rv32e\0\x06\x01",
        Some(b"rv32e"),
    ),
    // a tag of three bytes before
    (
        b"A\x1a\0\0\0riscv\0\x01\x10\0\0\0\x80\x80\x01\x07\x05rv32e\0",
        Some(b"rv32e"),
    ),
    (b"", None),
    // another version of the format, another vendor alone, a section's attributes alone, no tag 5, numbers without an end
    (b"B\x16\0\0\0riscv\0\x01\x0c\0\0\0\x05rv32i\0", None),
    (b"A\x14\0\0\0gnu\0\x01\x0c\0\0\0\x05rv32i\0", None),
    (b"A\x16\0\0\0riscv\0\x02\x0c\0\0\0\x05rv32i\0", None),
    (b"A\x16\0\0\0riscv\0\x01\x0c\0\0\0\x07rv32i\0", None),
    (
        b"A\x16\0\0\0riscv\0\x01\x0c\0\0\0\xff\xff\xff\xff\xff\xff\xff",
        None,
    ),
];

#[test]
fn architectures_of_hand_made_sections(rt: HostRuntime) -> Result<(), Fail> {
    for (contents, named) in &SECTIONS {
        names(&rt, rt.alloc(), contents, *named)?;
    }
    Ok(())
}

/// A file that is cut anywhere names none.
fn cut_file(rt: &impl Abort, file: &[u8]) {
    for len in 0..file.len() {
        same(rt, len, architecture(&file[..len]), None);
    }
}

/// A section that is cut names none, wherever it is; nor does a file without one.
#[test]
fn sections_that_are_cut(rt: HostRuntime) -> Result<(), Fail> {
    for len in 0..GNU.len() {
        names(&rt, rt.alloc(), &GNU[..len], None)?;
    }
    let file = file_with(rt.alloc(), &GNU)?;
    cut_file(&rt, &file);
    same(&rt, "no section", architecture(&ONE_SEGMENT), None);
    Ok(())
}
