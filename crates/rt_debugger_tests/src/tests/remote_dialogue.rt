//! Sessions byte for byte, whose input ends or comes in pieces, whose output fails, and which are refused memory.

mod ends;
mod memory;
mod rows;

use rt_dialogue::DebugFault;
use rt_dialogue::remote::serve;
use rt_programs::Admission;
use rt_sink::{Buffered, OverWrite, Sink};
use std::alloc::{AllocError, Global};
use std::fmt::Debug;
use std::io::BufReader;
use std::process::Abort;
use std::test::Fail;

/// What a session hears, and what it says to that.
type Row = (&'static [u8], &'static [u8]);

/// How many bytes one read gives, where all are to come at once.
const WHOLE: usize = 8192;

/// The set of examples/pair: task 0 runs the ticks 0 to 5 and 12, where it ends, task 1, which jumps to itself, all others.
static PAIR: &[u8] =
    b"RTS1\x0c\0\0\0\x02\0\0\0\x02\0\0\0\x04\0\0\0\0\0\0\0@\0\0\0E\0\0\0RTI1\0\0\0\x80\x1f\0\0\0\x02\0\0\0\x17\x05\0\0\x13\x05\xc5\x01\x93\x050\0\x93\x08\x10\0s\0\0\0\x93\x08\0\0s\0\0\0hi\n\x06\0_start\0\0\0\x80\x04\0word\x1c\0\0\x80\x06\0\0\0\x0c\0\0\0\0\0\0\0@\0\0\0 \0\0\0RTI1\0\0\0\x80\x04\0\0\0\x01\0\0\0o\0\0\0\x06\0_start\0\0\0\x80";

/// The task of examples/fault with 2 ticks of 4, beside one with 6 of 12 that jumps to itself. It loads from 80000034 at tick 25, and
/// faults at tick 41.
static FAULT: &[u8] =
    b"RTS1\x0c\0\0\0\x02\0\0\0\x02\0\0\0\x04\0\0\0\0\0\0\0@\0\0\0m\0\0\0RTI1\0\0\0\x80<\0\0\0\x03\0\0\0\x17\x05\0\0\x13\x05\xc5\x02\x93\x05@\0\x03&\x05\0\xb3\x86\xc6\0\x13\x05E\0\x93\x85\xf5\xff\xe3\x98\x05\xfe\x03'%\0\x93\x08\0\0s\0\0\0\x03\0\0\0\x05\0\0\0\x07\0\0\0\x0b\0\0\0\x06\0_start\0\0\0\x80\x04\0next\x0c\0\0\x80\x05\0table,\0\0\x80\x06\0\0\0\x0c\0\0\0\0\0\0\0@\0\0\0 \0\0\0RTI1\0\0\0\x80\x04\0\0\0\x01\0\0\0o\0\0\0\x06\0_start\0\0\0\x80";

/// Fails where both differ, and says both, and in which case.
fn same<N: Copy + Debug, T: Copy + PartialEq>(rt: &impl Abort, case: N, found: T, expected: T) {
    assert!(rt; found == expected, "{case:?}");
}

/// What a session hears in these rows, with this between them.
fn heard_in(alloc: Global, rows: &[Row], between: &[u8]) -> Result<Vec<u8>, AllocError> {
    let mut heard = Vec::new(alloc);
    for (hears, _) in rows {
        heard.extend_from_slice(between)?;
        heard.extend_from_slice(hears)?;
    }
    Ok(heard)
}

/// What a session says in these rows.
fn said_in(alloc: Global, rows: &[Row]) -> Result<Vec<u8>, AllocError> {
    let mut said = Vec::new(alloc);
    for (_, says) in rows {
        said.extend_from_slice(says)?;
    }
    Ok(said)
}

/// Serves an input on a system, where one read gives so many bytes. What is said has this room. Answers how it ended, and how many
/// bytes were said; or that there was no memory to begin with.
fn serve_on(
    rt: &impl Abort,
    alloc: Global,
    system: &[u8],
    heard: &[u8],
    piece: usize,
    room: &mut [u8],
) -> Result<(Result<(), DebugFault>, u64), AllocError> {
    let mut out = Buffered::new(alloc, OverWrite::new(room)).map_err(|_| AllocError)?;
    let mut input = BufReader::with_capacity(alloc, piece, heard).map_err(|_| AllocError)?;
    assert!(rt; !out.has_failed());
    let ended = serve(alloc, system, Admission::Required, &mut input, &mut out);
    Ok((ended, out.delivered()))
}

/// Fails unless a session says exactly this to an input, and ends well.
fn says(
    rt: &impl Abort,
    alloc: Global,
    system: &[u8],
    heard: &[u8],
    piece: usize,
    said: &[u8],
) -> Result<(), Fail> {
    let mut room = Vec::new(alloc);
    room.resize(said.len().saturating_add(64), 0)?;
    let (ended, count) = serve_on(rt, alloc, system, heard, piece, &mut room)?;
    same(rt, heard, room.starts_with(said), true);
    same(rt, heard, (ended, count), (Ok(()), said.len() as u64));
    Ok(())
}
