//! What to do about an ELF file that has no object.

use crate::kinds::kind_hint;
use rt_desk::reading::FileKind;
use rt_elf::ElfFault;
use rt_fault_lines::shown::{Escaped, Explanation, line};
use std::alloc::Global;

/// Machines that programs are often built for by mistake, by their numbers in the header of an ELF file.
const MACHINES: [(u8, &str); 4] = [
    (0x03, "built for x86: "),
    (0x28, "built for ARM: "),
    (0x3e, "built for x86-64: "),
    (0xb7, "built for AArch64: "),
];

/// How all parts of a program are to be made.
const BUILD: &str =
    "compile and link all parts, libgcc too, with -march=rv32i -mabi=ilp32 for RISC-V";

/// What a program is for, where it is for one of those and the fault is that it isn't for this one.
fn machine(bytes: &[u8], fault: ElfFault) -> &'static str {
    if matches!(fault, ElfFault::Not32Bit | ElfFault::NotRiscV) {
        for (number, name) in MACHINES {
            if bytes.get(18) == Some(&number) {
                return name;
            }
        }
    }
    ""
}

/// What to do where the file is of the right kind.
fn advice(fault: ElfFault) -> Option<&'static str> {
    match fault {
        ElfFault::TooLarge => Some("over 67108864 bytes: objcopy --strip-debug"),
        ElfFault::Truncated => Some("the file ends before what it says it has: make it again"),
        ElfFault::Not32Bit
        | ElfFault::NotLittleEndian
        | ElfFault::NotRiscV
        | ElfFault::Compressed
        | ElfFault::FloatAbi
        | ElfFault::OtherAbi => Some(BUILD),
        ElfFault::Relocatable => Some("an object of the compiler: link it"),
        ElfFault::Shared | ElfFault::Dynamic => Some("link it with -static -no-pie"),
        ElfFault::NotExecutable | ElfFault::Empty => {
            Some("no program, or one without bytes: name the file that the linker wrote")
        }
        ElfFault::OutsideRam => {
            Some("a segment lies outside of 80000000 to 80100000: use a linker script")
        }
        ElfFault::Overlap => Some("two segments lie at one address: mend the linker script"),
        ElfFault::BadSegment | ElfFault::BadHeader => {
            Some("mend the linker script, or the program that wrote the file")
        }
        ElfFault::BadSymbols | ElfFault::TooManySymbols => {
            Some("strip it: an object needs no symbols")
        }
        ElfFault::BadMagic | ElfFault::Memory => None,
    }
}

/// What to do about an ELF file, the bytes of the file at this path, that has no object.
pub fn elf_hint(alloc: Global, path: &str, bytes: &[u8], fault: ElfFault) -> Explanation {
    if fault == ElfFault::BadMagic {
        return kind_hint(alloc, path, bytes, FileKind::Elf);
    }
    let Some(advice) = advice(fault) else {
        return Ok(None);
    };
    let path = Escaped::line(path);
    let machine = machine(bytes, fault);
    line(alloc, format_args!("{path}: {machine}{advice}"))
}
