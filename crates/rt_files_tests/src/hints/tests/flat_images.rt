//! Flat images that have no object.

use crate::hints::tests::same;
use rt_elf::flat::{Entry, FlatFault, flat_object};
use rt_file_hints::{FlatFiles, flat_hint, left_out_hint, start_hint};
use std::alloc::Global;
use std::test::Fail;

/// An image of 8 bytes with a list.
fn files<'a>(names: &'a [u8], entry: Entry<'a>) -> FlatFiles<'a> {
    FlatFiles {
        image: "a.bin",
        bytes: &[0; 8],
        object: "a.rti",
        list: Some("a.nm"),
        names,
        entry,
    }
}

const START: Entry<'static> = Entry::Address(0x8000_0000);

const MAIN: Entry<'static> = Entry::Name("main");

/// Lists and entries that an image of 8 bytes is refused for, and what is said of each.
static REFUSED: [(&[u8], Entry<'static>, &str); 5] = [
    (
        b"08000000 T main\n080001f4 T end\n08000100 t f\n",
        START,
        "  a.nm: addresses 08000000 to 080001f4; the image lies at 80000000 to 80000008: link it to 80000000",
    ),
    (
        b"90000000 T main\n",
        START,
        "  a.nm: addresses 90000000 to 90000000; the image lies at 80000000 to 80000008: link it to 80000000",
    ),
    (
        b"",
        Entry::Address(80_000_004),
        "  entry 04c4b404: the number is decimal; write 0x80000004",
    ),
    (
        b"",
        Entry::Address(90_000_000),
        "  entry 055d4a80: its word isn't in the image, 80000000 to 80000008",
    ),
    (
        b"80000000 T main\n",
        Entry::Name("mai"),
        "  a.nm: mai: no line has this name",
    ),
];

/// What is said of an image of 8 bytes that has no object.
fn said_of(alloc: Global, names: &[u8], entry: Entry<'_>) -> Result<Option<String>, Fail> {
    match flat_object(alloc, &[0; 8], entry, Some(names)) {
        Ok(_) => Ok(None),
        Err(fault) => Ok(flat_hint(alloc, fault, &files(names, entry))?),
    }
}

#[test]
fn images_that_are_refused(rt: HostRuntime) -> Result<(), Fail> {
    for (names, entry, wanted) in &REFUSED {
        let said = said_of(rt.alloc(), *names, *entry)?;
        same(&rt, *wanted, said.as_deref(), Some(*wanted));
    }
    Ok(())
}

/// What is said of an image of these bytes, without a list.
fn said_without_list(
    alloc: Global,
    fault: FlatFault,
    bytes: &[u8],
) -> Result<Option<String>, Fail> {
    let files = FlatFiles {
        image: "a.bin",
        bytes,
        object: "a.rti",
        list: None,
        names: b"",
        entry: MAIN,
    };
    Ok(flat_hint(alloc, fault, &files)?)
}

#[test]
fn images_without_a_list(rt: HostRuntime) -> Result<(), Fail> {
    let said = said_without_list(rt.alloc(), FlatFault::IsElf, b"")?;
    let wanted = "  this is an ELF file: rt_sim elf a.bin a.rti";
    same(&rt, "an ELF file", said.as_deref(), Some(wanted));
    let said = said_without_list(rt.alloc(), FlatFault::BadEntry, b"")?;
    let wanted = "  --entry main: a name needs a list of names, --symbols FILE";
    same(&rt, "a name", said.as_deref(), Some(wanted));
    let large = vec![in rt.alloc(); 0u8; 1_048_577]?;
    let said = said_without_list(rt.alloc(), FlatFault::TooLarge, &large)?;
    let wanted = "  a.bin: at least 1048577 bytes, an image has at most 1048576";
    same(&rt, "too large", said.as_deref(), Some(wanted));
    Ok(())
}

/// Lists, entries, and what is said of `_start`.
static STARTS: [(&[u8], Entry<'static>, Option<&str>); 6] = [
    (
        b"80000000 T a\n80000004 T _start\n",
        START,
        Some("  a.nm: _start is 80000004, the entry 80000000: --entry _start"),
    ),
    (b"80000000 T _start\n", START, None),
    (b"80000004 T _start\n", Entry::Name("a"), None),
    (b"80000008 T _start\n", START, None),
    (b"80000002 T _start\n", START, None),
    (b"90000000 T _start\n80000004 T start\n", START, None),
];

#[test]
fn starts_elsewhere(rt: HostRuntime) -> Result<(), Fail> {
    for (names, entry, wanted) in &STARTS {
        let said = start_hint(rt.alloc(), &files(*names, *entry))?;
        same(&rt, *names, said.as_deref(), *wanted);
    }
    Ok(())
}

/// Lists, and the names that the object of an image of 8 bytes doesn't have.
static LISTS: [(&[u8], Option<&str>); 4] = [
    (b"80000000 T a\n80000008 B end\n", None),
    (
        b"80000009 B beyond\n7ffffffc A below\n80000004 t a-1\n80000000 t a\n80000004 t a\n80000004 t $x\n",
        Some("  beyond below a-1 a"),
    ),
    (b"0 T a\n90000000 T b\n", None),
    (
        b"90000000 T a\n90000000 T b\n90000000 T c\n90000000 T d\n90000000 T e\n90000000 T f\n90000000 T g\n90000000 T h\n90000000 T i\n90000000 T j\n90000000 T k\n80000000 T x\n90000000 T \x1bl\n",
        Some("  a b c d e f g h i j and 2 more"),
    ),
];

#[test]
fn names_that_are_left_out(rt: HostRuntime) -> Result<(), Fail> {
    for (names, wanted) in &LISTS {
        let said = left_out_hint(rt.alloc(), 8, *names)?;
        same(&rt, *names, said.as_deref(), *wanted);
    }
    Ok(())
}

#[test]
fn as_many_names_are_left_out_as_are_counted(rt: HostRuntime) -> Result<(), Fail> {
    let names = b"80000009 B b\n80000004 t a-1\n80000000 t a\n80000004 t a\n";
    let flat = flat_object(rt.alloc(), &[0; 8], START, Some(names))?;
    same(&rt, "left out", flat.left_out, 3);
    let said = left_out_hint(rt.alloc(), 8, names)?;
    same(&rt, "names", said.as_deref(), Some("  b a-1 a"));
    Ok(())
}
