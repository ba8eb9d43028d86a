//! The desk.

ghost use Rattle.std.specs.Prelude.{◌≡◌, ◌∷◌, Some, None, [], map, false, string_bytes, MatchOption, OnOk, OnErr};
ghost use Rattle.rt_desk.specs.Desk.{Says};
ghost use Rattle.rt_desk.specs.memory.MemoryDesk.{DeskInMemory, entry_of, files_of};

use crate::memory::entry::{Entry, Unread};
use crate::{Desk, MakeFault, Reason};
use std::alloc::{AllocError, Global};
use std::fmt::Display;
use std::marker::Model;

/// Files in memory, and what was said. Where there is no memory for what is said, it is deaf.
#[derive(Drop)]
pub struct MemoryDesk {
    alloc: Global,
    entries: Vec<Entry>,
    said: String,
    is_deaf: bool,
}

impl Model for MemoryDesk {
    ghost Value = { DeskInMemory };

    ghost view = { λ d. record { entries = map entry_of d.entries.items; said = string_bytes d.said; is_deaf = d.is_deaf } };
}

impl MemoryDesk {
    /// A desk without files, to which nothing was said.
    pub fn new(alloc: Global) -> MemoryDesk
        ensures { result ≡ record { entries = []; said = []; is_deaf = false } }
    {
        MemoryDesk {
            alloc,
            entries: Vec::new(alloc),
            said: String::new(alloc),
            is_deaf: false,
        }
    }

    /// The bytes of the file of this path. None where there is no such file.
    pub fn bytes(&self, path: &str) -> Option<&[u8]>
        ensures { MatchOption result (files_of self.now.entries path.now ≡ None) (λ bytes. files_of self.now.entries path.now ≡ Some bytes.now) }
    {
        for entry in &self.entries {
            if entry.path.as_str() == path {
                return Some(&entry.bytes);
            }
        }
        None
    }

    /// What was said so far.
    pub fn said(&self) -> &str
        ensures { result.now ≡ self.now.said }
    {
        &self.said
    }

    /// Whether there was no memory for what was said.
    pub fn is_deaf(&self) -> bool
        ensures { result ≡ self.now.is_deaf }
    {
        self.is_deaf
    }

    /// Puts a file of this path and of these bytes before the others.
    fn put(&mut self, alloc: Global, path: &str, bytes: &[u8]) -> Result<(), AllocError>
        ensures put { OnOk result (self.new ≡ record self.old { entries = (path.now, bytes.now) ∷ self.old.entries }) }
        ensures kept { OnErr result (self.new ≡ self.old) }
    {
        let path = path.to_string(alloc)?;
        let mut copy = Vec::new(alloc);
        copy.extend_from_slice(bytes)?;
        Ok(self.entries.insert(0, Entry { path, bytes: copy })?)
    }

    /// Adds a line to what was said.
    fn add<D: Display + Drop>(&mut self, line: D) -> Result<(), AllocError>
        ensures said { OnOk result (Says (Some self.old.said) (D.output line) (Some self.new.said)) }
        ensures stays { self.new.entries ≡ self.old.entries }
        ensures hears { self.new.is_deaf ≡ self.old.is_deaf }
    {
        let text = format!(in self.alloc; "{line}")?;
        self.said.push_str(&text)?;
        self.said.push('\n')
    }
}

impl Desk for MemoryDesk {
    type File = Unread;

    ghost files = { λ d. Some (files_of d.entries) };

    ghost said = { λ d. Some d.said };

    ghost is_deaf = { λ d. d.is_deaf };

    fn open(&self, alloc: Global, path: &str) -> Result<Unread, Reason> {
        let Some(bytes) = self.bytes(path) else {
            return Err(Reason::Missing);
        };
        let mut rest = Vec::new(alloc);
        match rest.extend_from_slice(bytes) {
            Ok(()) => Ok(Unread { rest }),
            Err(_) => Err(Reason::Memory),
        }
    }

    fn is_one_file(&self, path: &str, other: &str) -> bool {
        path == other
    }

    fn folder(&self, _alloc: Global) -> Result<Option<String>, AllocError> {
        Ok(None)
    }

    fn output_fault(&self) -> Option<Reason> {
        None
    }

    fn make(&mut self, alloc: Global, path: &str, bytes: &[u8]) -> Result<(), MakeFault> {
        match self.put(alloc, path, bytes) {
            Ok(()) => Ok(()),
            Err(_) => Err(MakeFault::Refused(Reason::Memory)),
        }
    }

    fn say<D: Display + Drop>(&mut self, line: D) {
        if self.add(line).is_err() {
            self.is_deaf = true;
        }
    }
}
