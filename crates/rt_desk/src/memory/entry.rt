//! A file of a desk in memory.

ghost use Rattle.std.specs.Prelude.{Some};

use std::io::{self, Read};

/// A file by its path and its bytes.
#[derive(Drop)]
pub struct Entry {
    pub path: String,
    pub bytes: Vec<u8>,
}

/// What is left to read of a file.
#[derive(Drop)]
pub struct Unread {
    pub rest: Vec<u8>,
}

impl Read for Unread {
    ghost remaining = { λ file. Some file.rest.items };

    fn read(&mut self, buf: &mut [u8]) -> io::Result<usize> {
        let count = self.rest.len().min(buf.len());
        buf[..count].copy_from_slice(&self.rest[..count]);
        self.rest.drain(..count);
        Ok(count)
    }
}
