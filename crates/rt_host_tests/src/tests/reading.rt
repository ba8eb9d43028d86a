//! How much is read of a file.

use super::{ends, same};
use crate::host_in_memory::{Record, Setup, run_on};
use std::alloc::{AllocError, Global};
use std::process::{Abort, ExitCode};
use std::test::Fail;

/// A command line that reads a file which fails behind its first block: how the block begins, with zeros behind, and how it is refused.
struct TornFile {
    words: &'static [&'static str],
    head: &'static [u8],
    told: &'static str,
}

static TORN_FILES: [TornFile; 12] = [
    TornFile {
        words: &["rt_sim", "pack", "torn", "out"],
        head: b"",
        told: "rt_sim: set file line 1\n",
    },
    TornFile {
        words: &["rt_sim", "image", "flat", "out", "--symbols", "torn"],
        head: b"",
        told: "rt_sim: symbols line 1\n",
    },
    TornFile {
        words: &["rt_sim", "asm", "torn", "out"],
        head: b"",
        told: "rt_sim: line 1: LineTooLong\n",
    },
    TornFile {
        words: &["rt_sim", "dis", "torn"],
        head: b"",
        told: "rt_sim: image: BadMagic\n",
    },
    TornFile {
        words: &["rt_sim", "check", "torn"],
        head: b"",
        told: "rt_sim: image: BadMagic\n",
    },
    TornFile {
        words: &["rt_sim", "image", "torn", "out"],
        head: b"\x7fELF",
        told: "rt_sim: image: IsElf\n",
    },
    // a system of no task has 12 bytes, and none has 257
    TornFile {
        words: &["rt_sim", "check", "torn"],
        head: b"RTS1",
        told: "rt_sim: image: Trailing\n",
    },
    TornFile {
        words: &["rt_sim", "check", "torn"],
        head: b"RTS2\x0c\0\0\0\x01\x01\0\0",
        told: "rt_sim: image: BadField\n",
    },
    // a system of 255 tasks may have as many bytes, but none of its tasks a RAM of 0 bytes
    TornFile {
        words: &["rt_sim", "check", "torn"],
        head: b"RTS2\x0c\0\0\0\xff\0\0\0",
        told: "rt_sim: image: BadField\n",
    },
    // an object of no bytes and no symbols has 16 bytes, and none has an image of 2^20 + 1 bytes
    TornFile {
        words: &["rt_sim", "dis", "torn"],
        head: b"RTI1\0\0\0\x80",
        told: "rt_sim: image: Trailing\n",
    },
    TornFile {
        words: &["rt_sim", "dis", "torn"],
        head: b"RTI1\0\0\0\x80\x01\0\x10\0",
        told: "rt_sim: image: BadField\n",
    },
    // the second line is faulty, whatever follows
    TornFile {
        words: &["rt_sim", "pack", "torn", "out"],
        head: b"hyper 12\nhyper 12\n",
        told: "rt_sim: set file line 2\n",
    },
];

/// Looks at the refusal of a file that fails behind this text.
fn refuses_torn(rt: &impl Abort, memory: Global, torn: &TornFile, text: &[u8]) {
    let files = [("torn", text), ("flat", b"o\0\0\0".as_slice())];
    let record = Record::new(memory, usize::MAX);
    let (status, record) = run_on(memory, Setup::new(torn.words), &files, record);
    same(
        rt,
        torn.words,
        record.told.starts_with(torn.told.as_bytes()),
        true,
    );
    same(rt, torn.words, record.written.len(), 0);
    same(rt, torn.words, status == ExitCode::from(1), true);
}

/// Nothing is read behind what can matter.
#[test]
fn no_more_is_read_than_matters(rt: HostRuntime) -> Result<(), Fail> {
    for torn in &TORN_FILES {
        let text = repeated(rt.alloc(), torn.head, b"\0", 65_536)?;
        refuses_torn(&rt, rt.alloc(), torn, &text);
    }
    Ok(())
}

/// A source of which the first line is faulty, with empty lines behind it.
static FAULTY_SOURCE: TornFile = TornFile {
    words: &["rt_sim", "asm", "torn", "out"],
    head: b"frob\n",
    told: "rt_sim: line 1: UnknownName\n",
};

#[test]
fn no_more_is_read_than_a_faulty_line(rt: HostRuntime) -> Result<(), Fail> {
    let text = repeated(rt.alloc(), FAULTY_SOURCE.head, b"\n", 65_536)?;
    refuses_torn(&rt, rt.alloc(), &FAULTY_SOURCE, &text);
    Ok(())
}

/// Of an ELF file one byte more is read than it may have.
#[test]
fn no_more_of_an_elf_file_is_read(rt: HostRuntime) -> Result<(), Fail> {
    let zeros = vec![in rt.alloc(); 0u8; 67_108_865]?;
    let record = Record::new(rt.alloc(), usize::MAX);
    let setup = Setup::new(&["rt_sim", "elf", "torn", "out"]);
    let (status, record) = run_on(rt.alloc(), setup, &[("torn", zeros.as_slice())], record);
    ends(
        &rt,
        status,
        &record,
        1,
        "rt_sim: elf: TooLarge\n  torn: over 67108864 bytes: objcopy --strip-debug\n  rt_sim help TooLarge\n",
    );
    same(&rt, "written", record.written.len(), 0);
    Ok(())
}

/// A text, and behind it so many times a line.
fn repeated(memory: Global, first: &[u8], line: &[u8], count: u32) -> Result<Vec<u8>, AllocError> {
    let mut text = Vec::new(memory);
    text.extend_from_slice(first)?;
    for _ in 0..count {
        text.extend_from_slice(line)?;
    }
    Ok(text)
}
