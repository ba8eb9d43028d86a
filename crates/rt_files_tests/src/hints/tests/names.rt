//! Faulty lines of lists of names.

use crate::hints::tests::same;
use rt_elf::flat::{Entry, FlatFault};
use rt_file_hints::{FlatFiles, flat_hint};
use std::alloc::Global;
use std::test::Fail;

/// Lines, and what is said of each.
static LINES: [(&[u8], &str); 7] = [
    (
        b"8000000g T a",
        "  a.nm:1:1: 8000000g: wanted 8 hexadecimal digits, a letter, a name, with single blanks\n    8000000g T a\n    ^~~~~~~~",
    ),
    (
        b" 80000000 T a",
        "  a.nm:1:1: a leading blank; a line begins with its first word\n     80000000 T a\n    ^",
    ),
    (
        b"80000000  T a",
        "  a.nm:1:10: two blanks; words are separated by one blank\n    80000000  T a\n             ^",
    ),
    (
        b"80000000 T\ta",
        "  a.nm:1:11: a tab; words are separated by one blank\n    80000000 T a\n              ^",
    ),
    (
        b"80000000 TT a",
        "  a.nm:1:10: TT: wanted 8 hexadecimal digits, a letter, a name, with single blanks\n    80000000 TT a\n             ^~",
    ),
    (
        b"80000000 T ",
        "  a.nm:1:12: the line ends; wanted 8 hexadecimal digits, a letter, a name, with single blanks\n    80000000 T \n               ^",
    ),
    (
        b"80000000",
        "  a.nm:1:9: the line ends; wanted 8 hexadecimal digits, a letter, a name, with single blanks\n    80000000\n            ^",
    ),
];

/// What is said of the line of this number of a list.
fn said_of(alloc: Global, names: &[u8], number: u64) -> Result<Option<String>, Fail> {
    let files = FlatFiles {
        image: "a.bin",
        bytes: &[0; 8],
        object: "a.rti",
        list: Some("a.nm"),
        names,
        entry: Entry::Address(0x8000_0000),
    };
    Ok(flat_hint(alloc, FlatFault::Names(number), &files)?)
}

#[test]
fn the_word_that_is_wrong_is_marked(rt: HostRuntime) -> Result<(), Fail> {
    for (names, wanted) in &LINES {
        let said = said_of(rt.alloc(), *names, 1)?;
        same(&rt, *names, said.as_deref(), Some(*wanted));
    }
    Ok(())
}

#[test]
fn a_right_line_is_one_symbol_too_many(rt: HostRuntime) -> Result<(), Fail> {
    let said = said_of(rt.alloc(), b"80000000 T a\n80000000 T b\n", 2)?;
    let wanted = "  a.nm:2:1: an object has at most 65536 symbols\n    80000000 T b\n    ^~~~~~~~";
    same(&rt, "one too many", said.as_deref(), Some(wanted));
    let said = said_of(rt.alloc(), b"x", 3)?;
    same(&rt, "no such line", said.as_deref(), None);
    Ok(())
}
