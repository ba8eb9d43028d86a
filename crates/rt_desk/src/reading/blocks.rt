//! Reading a file block by block.

ghost use Rattle.std.specs.Prelude.{◌≡◌, ◌<◌, ◌≤◌, [], length, IfOk, OnOk, MatchResult};
ghost use Rattle.rt_desk.specs.reading.Reads.{Reads, ReadsSome};
ghost use Rattle.rt_desk.specs.reading.Working.Blocks.{Gains};

use crate::reading::kind::FileKind;
use crate::reading::texts::BLOCK;
use crate::{Desk, Reason};
use std::alloc::{AllocError, Global};
use std::io::{self, ErrorKind, Read};

/// A file that can't be read or made, and why.
#[derive(Clone, Copy, PartialEq, Eq)]
pub struct FileFault<'a> {
    /// The path, as it was given.
    pub path: &'a str,
    /// Why.
    pub reason: Reason,
}

/// Reads some more bytes. Answers whether the file has ended.
fn read_more<F: Read>(file: &mut F, block: &mut [u8], bytes: &mut Vec<u8>) -> io::Result<bool>
    requires { 0 < length block.old }
    ensures gains { IfOk result (λ is_end. Gains (F.remaining file.old) (F.remaining file.new) bytes.old.items bytes.new.items is_end) }
    ensures block { length block.new ≡ length block.old }
{
    match file.read(block) {
        Ok(count) => {
            bytes.extend_from_slice(&block[..count])?;
            Ok(count == 0)
        }
        Err(error) if error.kind() == ErrorKind::Interrupted => Ok(false),
        Err(error) => Err(error),
    }
}

/// Reads an open file up to its end, or to where others can't matter.
#[tactic(auto, using(crate::proofs::reading::BlockLemmas::consumes_none, crate::proofs::reading::BlockLemmas::consumes_more))]
fn read_blocks<F: Read + Drop>(
    alloc: Global,
    mut file: F,
    kind: FileKind,
    block: &mut [u8],
    bytes: &mut Vec<u8>,
) -> io::Result<()>
    requires block { 0 < length block.old }
    requires none { bytes.old.items ≡ [] }
    ensures { OnOk result (ReadsSome kind (F.remaining file) bytes.new.items) }
{
    let mut next = BLOCK;
    for _ in 0..u64::MAX {
        if read_more(&mut file, block, bytes)? {
            return Ok(());
        }
        if bytes.len() >= next {
            if !kind.goes_on(alloc, bytes) {
                return Ok(());
            }
            next = kind.next(bytes.len());
        }
    }
    Err(io::Error::from(ErrorKind::Other))
}

/// A block of zeros.
fn new_block(alloc: Global) -> Result<Vec<u8>, AllocError>
    ensures { IfOk result (λ block. 0 < length block.items) }
{
    let mut block = Vec::with_capacity(alloc, BLOCK)?;
    block.resize(BLOCK, 0)?;
    Ok(block)
}

/// The bytes of an open file, so far as they matter.
fn read_open<F: Read + Drop>(alloc: Global, file: F, kind: FileKind) -> io::Result<Vec<u8>>
    ensures { IfOk result (λ bytes. ReadsSome kind (F.remaining file) bytes.items) }
{
    let mut block = new_block(alloc)?;
    let mut bytes = Vec::new(alloc);
    read_blocks(alloc, file, kind, &mut block, &mut bytes)?;
    Ok(bytes)
}

/// The bytes of the file of this path, so far as they can matter.
///
/// # Errors
///
/// It can't be opened or read, or there is no memory.
pub fn read_file<'a, D: Desk>(
    alloc: Global,
    desk: &D,
    path: &'a str,
    kind: FileKind,
) -> Result<Vec<u8>, FileFault<'a>>
    ensures { MatchResult result (λ bytes. Reads kind (D.files desk.now) path.now bytes.items) (λ fault. fault.path.now ≡ path.now) }
{
    let file = match desk.open(alloc, path) {
        Ok(file) => file,
        Err(reason) => return Err(FileFault { path, reason }),
    };
    match read_open(alloc, file, kind) {
        Ok(bytes) => Ok(bytes),
        Err(error) => Err(FileFault {
            path,
            reason: Reason::from(error.kind()),
        }),
    }
}
