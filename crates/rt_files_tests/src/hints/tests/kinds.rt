//! Files of the wrong kind, and those that are broken.

use crate::hints::tests::same;
use rt_desk::reading::FileKind;
use rt_file_hints::kind_hint;
use std::test::Fail;

/// Files, what they were to be, and what is said of them.
static FILES: [(&[u8], FileKind, &str); 7] = [
    (
        b"\x7fELF",
        FileKind::Source,
        "  a.elf: this is an ELF file, wanted a source: rt_sim elf a.elf OUT",
    ),
    (
        b"\n  \r\n# a set\n  hyper\t12\n",
        FileKind::Object,
        "  a.elf: this is a set file, wanted an object: rt_sim pack a.elf OUT",
    ),
    (
        b"task 1 3 0 64 a.rti",
        FileKind::Source,
        "  a.elf: this is a set file, wanted a source: rt_sim pack a.elf OUT",
    ),
    (
        b"RTI1\0\0\0\x80",
        FileKind::Elf,
        "  a.elf: this is an object, wanted an ELF file: a set file for rt_sim pack names it",
    ),
    (
        b"RTS3\x0c\0\0\0",
        FileKind::System,
        "  a.elf: this is no file of rt_sim, wanted a system: a flat image? rt_sim image a.elf OUT",
    ),
    (
        b"hyperspace: nop\n",
        FileKind::System,
        "  a.elf: this is text, wanted a system: a source? rt_sim asm a.elf OUT",
    ),
    (
        b"# na\xc3\xafve\n\tnop\r\n",
        FileKind::Elf,
        "  a.elf: this is text, wanted an ELF file: a source? rt_sim asm a.elf OUT",
    ),
];

#[test]
fn files_of_the_wrong_kind(rt: HostRuntime) -> Result<(), Fail> {
    for (bytes, wanted, text) in &FILES {
        let said = kind_hint(rt.alloc(), "a.elf", *bytes, *wanted)?;
        same(&rt, "a file", said.as_deref(), Some(*text));
    }
    Ok(())
}

/// Files that are what they are to be.
static RIGHT: [(&[u8], FileKind); 8] = [
    (
        b"RTI1\0\0\0\x80\x04\0\0\0\0\0\0\0\x13\0\0\0",
        FileKind::Object,
    ),
    (b"RTS1\x0c\0\0\0\0\0\0\0", FileKind::System),
    (b"RTS2\x0c\0\0\0\0\0\0\0", FileKind::ObjectOrSystem),
    (b"RTI1", FileKind::ObjectOrSystem),
    (b"hyper 12\n", FileKind::Set),
    (b"_start: nop\n", FileKind::Source),
    (b"\x7fELF", FileKind::Elf),
    (b"\x13\0\0\0", FileKind::Image),
];

#[test]
fn of_a_right_file_nothing_is_said(rt: HostRuntime) -> Result<(), Fail> {
    for (bytes, wanted) in &RIGHT {
        let said = kind_hint(rt.alloc(), "a", *bytes, *wanted)?;
        same(&rt, *bytes, said.as_deref(), None);
    }
    Ok(())
}

#[test]
fn paths_are_shown_in_one_line(rt: HostRuntime) -> Result<(), Fail> {
    let said = kind_hint(rt.alloc(), "a\nb", b"\x7fELF", FileKind::Object)?;
    let wanted = "  a\\x0ab: this is an ELF file, wanted an object: rt_sim elf a\\x0ab OUT";
    same(&rt, "a path", said.as_deref(), Some(wanted));
    Ok(())
}
