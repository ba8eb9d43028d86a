//! Why no statement has a name.

use crate::source_hints::extensions::extension_of;
use crate::source_hints::near::is_near;
use rt_fault_lines::shown::Printable;
use std::alloc::AllocError;

/// What stands here for directives or a pseudo-instruction of GNU `as`, each behind their names.
static INSTEAD: [(&[u8], &str); 10] = [
    (b".equ .set .equiv", "the number itself"),
    (b".balign", ".align with the power of 2"),
    (b".skip .fill .org .comm .lcomm", ".zero"),
    (b".short .hword", ".half"),
    (b".int .long", ".word"),
    (b".quad .8byte .dword", "two .word"),
    (b"sgt", "slt with the registers exchanged"),
    (b"sgtu", "sltu with the registers exchanged"),
    (b"zext.b", "andi with 255"),
    (b"lla", "la"),
];

/// The directives of GNU `as` for which nothing stands here.
const WITHOUT: &[u8] =
    b".section .data .bss .rodata .sdata .sbss .pushsection .popsection .previous \
.subsection .option .attribute .type .size .file .loc .ident .local .weak .hidden .extern .macro .endm \
.rept .endr .if .ifdef .ifndef .else .endif .include .incbin .end .float .double .uleb128";

/// Whether one of these names, with blanks between them, is this one.
fn has(names: &[u8], name: &[u8]) -> bool {
    names.split(|byte| *byte == b' ').any(|it| it == name)
}

/// What stands here for another assembler's name.
fn instead_of(name: &[u8]) -> Option<&'static str> {
    for (names, here) in &INSTEAD {
        if has(names, name) {
            return Some(*here);
        }
    }
    None
}

/// Writes why no statement has this name, which isn't among the names that statements have.
pub(crate) fn write_name_reason(
    text: &mut String,
    names: &[&[u8]],
    name: &[u8],
) -> Result<(), AllocError> {
    if let Some(extension) = extension_of(name) {
        return text.write(format_args!("an instruction of {extension}, which this machine lacks"));
    }
    if let Some(other) = names.iter().find(|it| name.eq_ignore_ascii_case(it)) {
        return text.write(format_args!("names are in lower case: {}", Printable(*other)));
    }
    if let Some(other) = instead_of(name) {
        let here = if name.starts_with(b".") {
            "no directive here, "
        } else {
            ""
        };
        return text.write(format_args!("{here}write {other}"));
    }
    if name.starts_with(b".cfi_") || has(WITHOUT, name) {
        return text.push_str("no directive here");
    }
    match names.iter().find(|it| is_near(name, it)) {
        Some(other) => text.write(format_args!("is {} meant?", Printable(*other))),
        None => text.push_str("no instruction or directive has this name"),
    }
}
