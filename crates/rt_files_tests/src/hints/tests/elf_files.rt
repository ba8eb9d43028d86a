//! ELF files that have no object.

use crate::hints::tests::same;
use rt_elf::{ElfFault, elf_object};
use rt_file_hints::{built_for, elf_hint, elf_left_out_hint};
use std::test::Fail;

/// The front of a header: a class, and a machine at byte 18.
const X86_64: &[u8] = b"\x7fELF\x02\x01\x01\0\0\0\0\0\0\0\0\0\x02\0\x3e\0";

/// A program of one word at 0x80000000: its header, a program header, the word, the names `a`, `b-` and `$x`, four entries (a local `a`;
/// `b-`, `$x`, and an `a` at 0x90000000), and three section headers.
const ELF: &[u8] = b"\x7fELF\x01\x01\x01\0\0\0\0\0\0\0\0\0\
    \x02\0\xf3\0\x01\0\0\0\0\0\0\x804\0\0\0\xa1\0\0\0\0\0\0\04\0\x20\0\x01\0(\0\x03\0\x02\0\
    \x01\0\0\0T\0\0\0\0\0\0\x80\0\0\0\x80\x04\0\0\0\x04\0\0\0\x05\0\0\0\x04\0\0\0\
    s\0\0\0\
    \0a\0b-\0$x\0\
    \x01\0\0\0\0\0\0\x80\0\0\0\0\0\0\x01\0\
    \x03\0\0\0\x04\0\0\x80\0\0\0\0\x10\0\x01\0\
    \x06\0\0\0\0\0\0\x80\0\0\0\0\x10\0\x01\0\
    \x01\0\0\0\0\0\0\x90\0\0\0\0\x10\0\x01\0\
    \0\0\0\0\0\0\0\0\0\0\0\0\0\0\0\0\0\0\0\0\0\0\0\0\0\0\0\0\0\0\0\0\0\0\0\0\0\0\0\0\
    \0\0\0\0\x02\0\0\0\0\0\0\0\0\0\0\0a\0\0\0@\0\0\0\x02\0\0\0\0\0\0\0\0\0\0\0\x10\0\0\0\
    \0\0\0\0\x03\0\0\0\0\0\0\0\0\0\0\0X\0\0\0\x09\0\0\0\0\0\0\0\0\0\0\0\0\0\0\0\0\0\0\0";

/// Files, their refusals, and what is said of each.
static FILES: [(&[u8], ElfFault, &str); 1] = [(
    b"\x7fELF",
    ElfFault::BadSymbols,
    "  a.elf: strip it: an object needs no symbols",
)];

#[test]
fn elf_files_that_are_refused(rt: HostRuntime) -> Result<(), Fail> {
    for (bytes, fault, wanted) in &FILES {
        let said = elf_hint(rt.alloc(), "a.elf", *bytes, *fault)?;
        same(&rt, *fault, said.as_deref(), Some(*wanted));
    }
    let said = elf_hint(rt.alloc(), "a.elf", X86_64, ElfFault::Memory)?;
    same(&rt, "memory", said.as_deref(), None);
    let said = built_for(rt.alloc(), X86_64)?;
    same(&rt, "built for", said.as_deref(), None);
    Ok(())
}

#[test]
fn names_that_are_left_out(rt: HostRuntime) -> Result<(), Fail> {
    let made = elf_object(rt.alloc(), ELF)?;
    same(&rt, "left out", made.left_out, 2);
    let said = elf_left_out_hint(rt.alloc(), ELF)?;
    same(&rt, "names", said.as_deref(), Some("  b- a"));
    let said = elf_left_out_hint(rt.alloc(), X86_64)?;
    same(&rt, "of another kind", said.as_deref(), None);
    Ok(())
}
