//! The desk of a host.

ghost use Rattle.std.specs.Prelude.{None, false};

use crate::host::host_disk::HostDisk;
use crate::host::progress::Progress;
use rt_desk::making::make_file;
use rt_desk::{Desk, MakeFault, Reason};
use std::alloc::{AllocError, Global};
use std::cell::Cell;
use std::env::{self, Env};
use std::fmt::Display;
use std::fs::{self, Metadata};
use std::io::{self, ErrorKind};
use std::os::unix::fs::MetadataExt;
use std::rt::Files;
use std::time::Clock;

/// The files and the standard error of a host. It tells nothing of what stands there: others may change it at any time.
#[derive(Drop)]
pub struct HostDesk<'a, R> {
    rt: &'a R,
    output_fault: &'a Cell<Option<Reason>>,
    is_filter: bool,
    progress: &'a Progress<'a, R>,
}

impl<'a, R> HostDesk<'a, R> {
    /// The desk of this host, where it stands why the standard output failed, and whether that goes without a word if its reader has gone. What
    /// shows how far a run has come makes way for its lines.
    pub fn new(
        rt: &'a R,
        output_fault: &'a Cell<Option<Reason>>,
        is_filter: bool,
        progress: &'a Progress<'a, R>,
    ) -> HostDesk<'a, R> {
        HostDesk {
            rt,
            output_fault,
            is_filter,
            progress,
        }
    }

    /// Whether it says nothing, as filters do whose reader has gone.
    pub fn is_quiet(&self) -> bool {
        self.is_filter && self.output_fault.get() == Some(Reason::NoReader)
    }
}

/// Whether both are of one plain file, by the numbers of the device and of the file on it.
fn is_one_plain_file(found: &Metadata, other: &Metadata) -> bool {
    found.is_file()
        && other.is_file()
        && found.ino() != 0
        && (found.dev(), found.ino()) == (other.dev(), other.ino())
}

/// Whether two paths, which needn't be spelled alike, lead to one plain file.
fn lead_to_one_file<R: Files>(rt: &R, path: &str, other: &str) -> io::Result<bool> {
    Ok(is_one_plain_file(&fs::metadata(rt, path)?, &fs::metadata(rt, other)?))
}

impl<R: Eprint + Files + AllocGlobal + Env + Clock> Desk for HostDesk<'_, R> {
    type File = R::File;

    ghost files = { λ _. None };

    ghost said = { λ _. None };

    ghost is_deaf = { λ _. false };

    fn open(&self, _alloc: Global, path: &str) -> Result<R::File, Reason> {
        Ok(fs::open(self.rt, path)?)
    }

    fn is_one_file(&self, path: &str, other: &str) -> bool {
        path == other || lead_to_one_file(self.rt, path, other).unwrap_or(false)
    }

    fn folder(&self, alloc: Global) -> Result<Option<String>, AllocError> {
        let folder = match env::current_dir(self.rt) {
            Ok(folder) => folder,
            Err(error) if error.kind() == ErrorKind::OutOfMemory => return Err(AllocError),
            Err(_) => return Ok(None),
        };
        match folder.to_str() {
            Some(folder) => Ok(Some(folder.to_string(alloc)?)),
            None => Ok(None),
        }
    }

    fn output_fault(&self) -> Option<Reason> {
        self.output_fault.get()
    }

    fn make(&mut self, alloc: Global, path: &str, bytes: &[u8]) -> Result<(), MakeFault> {
        make_file(&mut HostDisk::new(self.rt), alloc, path, bytes)
    }

    fn say<D: Display + Drop>(&mut self, line: D) {
        if self.is_quiet() {
            return;
        }
        self.progress.clear();
        // There is nothing left to do where this fails.
        let _ = eprintln!(self.rt; "{line}");
    }
}
