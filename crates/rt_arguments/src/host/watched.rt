//! A writer that is watched.

use crate::host::progress::Progress;
use rt_desk::Reason;
use std::cell::Cell;
use std::io::{self, Write};
use std::time::Clock;

/// A writer. Why it fails stands in a cell, where others see it; how far the run has come of which it takes the text is heard.
#[derive(Drop)]
pub struct Watched<'a, R, W> {
    writer: W,
    fault: &'a Cell<Option<Reason>>,
    progress: &'a Progress<'a, R>,
}

impl<'a, R, W: Write> Watched<'a, R, W> {
    pub fn new(
        writer: W,
        fault: &'a Cell<Option<Reason>>,
        progress: &'a Progress<'a, R>,
    ) -> Watched<'a, R, W> {
        Watched {
            writer,
            fault,
            progress,
        }
    }
}

impl<R: Eprint + Clock, W: Write> Write for Watched<'_, R, W> {
    fn write(&mut self, bytes: &[u8]) -> io::Result<usize> {
        self.progress.before_text();
        let written = self.writer.write(bytes);
        match &written {
            Ok(_) => self.progress.hear(bytes),
            Err(error) => self.fault.set(Some(Reason::from(error.kind()))),
        }
        written
    }

    fn flush(&mut self) -> io::Result<()> {
        self.writer.flush()
    }
}
