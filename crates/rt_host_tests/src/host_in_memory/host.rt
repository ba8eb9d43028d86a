//! The host: what it is set up with, what it records, and what it answers.

ghost use Rattle.std.specs.Prelude.{◌≤◌, IfOk};

use std::alloc::{AllocError, Allocator, Global};
use std::cell::RefCell;
use std::env::{Env, FillError};
use std::fmt::Display;
use std::fs::{Metadata, OpenFile, OpenOptions, Permissions};
use std::io;
use std::io::{BufRead, ErrorKind, Input, Lines, Read, Seek, SeekFrom, Write};
use std::os::unix::fs::PermissionsExt;
use std::path::PathBuf;
use std::rt::Files;
use std::time::{Clock, Duration};

/// No file can be made or written at a path that begins so.
const LOCKED: &str = "locked";

/// No file can be moved to a path that begins so.
const STUCK: &str = "stuck";

/// The path of a file whose reads fail once its bytes are given.
const TORN: &str = "torn";

/// The path of a folder.
const FOLDER: &str = "folder";

/// How many links a path may lead over.
const LINKS: u32 = 40;

/// At most so many bytes are taken by one write.
const PIECE: usize = 16;

/// A symbolic link of a host.
#[derive(Clone, Copy)]
pub struct Link<'a> {
    pub path: &'a str,
    pub text: &'a str,
    /// How long it is said to be.
    pub len: u64,
    /// The path to which it leads.
    pub target: &'a str,
}

/// How the standard input comes.
#[derive(Clone, Copy, PartialEq, Eq)]
pub enum Pace {
    /// As many bytes a read as are asked for.
    Whole,
    /// One line a read. It is shown on the standard output, as a terminal does.
    Lines,
    /// Three bytes a read.
    Pieces,
}

/// What a program is run on: its command line and its standard streams, and why what fails does so.
#[derive(Clone, Copy)]
pub struct Setup<'a> {
    pub words: &'a [&'a str],
    pub links: &'a [Link<'a>],
    /// A word behind the others, which need not be text.
    pub last_word: Option<&'a [u8]>,
    /// The standard input.
    pub input: &'a [u8],
    pub pace: Pace,
    /// Why the input can't be read past its bytes. None where it ends there.
    pub input_fault: Option<ErrorKind>,
    /// Why `LOCKED` can't be made, `STUCK` not be moved to, and `TORN` not be read to its end.
    pub file_fault: ErrorKind,
    /// How many bytes the files and the standard output take.
    pub room: usize,
    /// Whether the standard input is typed at a terminal.
    pub is_typed: bool,
    /// Whether the standard output is shown by a terminal, as the standard error then is.
    pub is_shown: bool,
    /// How many milliseconds pass from one look at the clock to the next.
    pub pause: u64,
}

impl<'a> Setup<'a> {
    /// These words, an empty input that isn't typed, and room for all.
    pub fn new(words: &'a [&'a str]) -> Setup<'a> {
        Setup {
            words,
            links: &[],
            last_word: None,
            input: b"",
            pace: Pace::Lines,
            input_fault: None,
            file_fault: ErrorKind::Other,
            room: usize::MAX,
            is_typed: false,
            is_shown: false,
            pause: 0,
        }
    }
}

/// What a program did to its host.
#[derive(Drop)]
pub struct Record {
    /// A line for each file that was asked for: `read` or `write` and the path, `open` and the path of one that is to be changed;
    /// `mode` and what a file's mode was set to; `sync` where all of it was to be kept; `move` and the two paths where it took the
    /// place of another; `remove` and the path.
    pub asked: Vec<u8>,
    /// What the files took that were opened for writing, and weren't removed.
    pub written: Vec<u8>,
    /// What the standard output took, and at `Pace::Lines` each line of the standard input, where it was read.
    pub printed: Vec<u8>,
    /// What the standard error took.
    pub told: Vec<u8>,
    /// How many bytes the files and the standard output still take.
    pub room: usize,
    /// The time on the clock, in milliseconds.
    pub clock: u64,
}

impl Record {
    pub fn new(alloc: Global, room: usize) -> Record {
        Record {
            asked: Vec::new(alloc),
            written: Vec::new(alloc),
            printed: Vec::new(alloc),
            told: Vec::new(alloc),
            room,
            clock: 0,
        }
    }

    /// A record with room for all, which asks for no more memory as long as no part of it takes more bytes than this.
    pub fn with_capacity(alloc: Global, capacity: usize) -> Result<Record, AllocError> {
        Ok(Record {
            asked: Vec::with_capacity(alloc, capacity)?,
            written: Vec::with_capacity(alloc, capacity)?,
            printed: Vec::with_capacity(alloc, capacity)?,
            told: Vec::with_capacity(alloc, capacity)?,
            room: usize::MAX,
            clock: 0,
        })
    }

    /// Takes room for some of so many bytes. A full device takes none.
    fn take_room(&mut self, len: usize) -> io::Result<usize>
        ensures { IfOk result (λ n. n ≤ len) }
    {
        let count = len.min(self.room).min(PIECE);
        if count == 0 && len > 0 {
            return Err(io::Error::from(ErrorKind::StorageFull));
        }
        self.room -= count;
        Ok(count)
    }
}

/// A host with its files, and what is done to it.
#[derive(Clone, Copy)]
pub struct Host<'a> {
    pub memory: Global,
    pub setup: Setup<'a>,
    pub files: &'a [(&'a str, &'a [u8])],
    pub record: &'a RefCell<Record>,
}

impl Host<'_> {
    fn link(&self, path: &str) -> Option<Link<'_>> {
        self.setup
            .links
            .iter()
            .find(|link| link.path == path)
            .copied()
    }

    /// What stands at a path, whatever links there are.
    fn stands_at(&self, path: &str) -> io::Result<Metadata> {
        if path == FOLDER {
            return Ok(Metadata::of_dir());
        }
        match self.files.iter().find(|file| file.0 == path) {
            Some(file) => Ok(Metadata::of_file(file.1.len() as u64)),
            None => Err(io::Error::from(ErrorKind::NotFound)),
        }
    }
}

impl Alloc for Host<'_> {
    type A = Global;

    fn alloc(&self) -> Global {
        self.memory
    }
}

impl Env for Host<'_> {
    fn arg(&self, i: usize, buf: &mut [u8]) -> Result<usize, FillError> {
        let words = self.setup.words;
        let mut bytes = match words.get(i) {
            Some(word) => word.as_bytes(),
            None if i == words.len() => self.setup.last_word.ok_or(FillError::NotPresent)?,
            None => return Err(FillError::NotPresent),
        };
        if bytes.len() > buf.len() {
            return Err(FillError::TooLong);
        }
        bytes.read(buf).map_err(|_| FillError::TooLong)
    }

    fn var(&self, _name: &str, _buf: &mut [u8]) -> Result<usize, FillError> {
        Err(FillError::NotPresent)
    }

    fn var_at(&self, _i: usize, _buf: &mut [u8]) -> Result<usize, FillError> {
        Err(FillError::NotPresent)
    }
}

impl Clock for Host<'_> {
    fn monotonic(&self) -> io::Result<Duration> {
        let mut record = self.record.try_borrow_mut()?;
        record.clock = record.clock.saturating_add(self.setup.pause);
        Ok(Duration::from_millis(record.clock))
    }

    fn since_1970(&self) -> io::Result<Duration> {
        Err(io::Error::from(ErrorKind::Unsupported))
    }
}

impl Print for Host<'_> {
    fn print<D: Display + Drop>(&self, value: D) -> io::Result<()> {
        let text = format!(in self.memory; "{value}")?;
        self.write_all(text.as_bytes())
    }

    fn println<D: Display + Drop>(&self, value: D) -> io::Result<()> {
        let text = format!(in self.memory; "{value}\n")?;
        self.write_all(text.as_bytes())
    }

    fn write_all(&self, bytes: &[u8]) -> io::Result<()> {
        let mut record = self.record.try_borrow_mut()?;
        let count = bytes.len().min(record.room);
        record.room -= count;
        record.printed.extend_from_slice(&bytes[..count])?;
        if count < bytes.len() {
            return Err(io::Error::from(ErrorKind::StorageFull));
        }
        Ok(())
    }

    fn write_some(&self, bytes: &[u8]) -> io::Result<usize> {
        let mut record = self.record.try_borrow_mut()?;
        let count = record.take_room(bytes.len())?;
        record.printed.extend_from_slice(&bytes[..count])?;
        Ok(count)
    }
}

impl Eprint for Host<'_> {
    fn eprint<D: Display + Drop>(&self, value: D) -> io::Result<()> {
        self.record.try_borrow_mut()?.told.write_fmt(value)
    }

    fn eprintln<D: Display + Drop>(&self, value: D) -> io::Result<()> {
        self.record.try_borrow_mut()?.told.writeln(value)
    }
}

/// An open file: what is left to read of it, and where its bytes are written to.
#[derive(Drop)]
pub struct HostFile<'a> {
    rest: &'a [u8],
    /// Why the read behind the last byte fails. None where the file ends there.
    fault: Option<ErrorKind>,
    record: &'a RefCell<Record>,
}

impl Read for HostFile<'_> {
    fn read(&mut self, buf: &mut [u8]) -> io::Result<usize> {
        if let Some(kind) = self.fault
            && self.rest.is_empty()
        {
            return Err(io::Error::from(kind));
        }
        self.rest.read(buf)
    }
}

impl Write for HostFile<'_> {
    fn write(&mut self, buf: &[u8]) -> io::Result<usize> {
        let mut record = self.record.try_borrow_mut()?;
        let count = record.take_room(buf.len())?;
        record.written.extend_from_slice(&buf[..count])?;
        Ok(count)
    }

    fn flush(&mut self) -> io::Result<()> {
        Ok(())
    }
}

/// The standard input of a host: what is left to read of it.
#[derive(Drop)]
pub struct HostInput<'a> {
    rest: &'a [u8],
    pace: Pace,
    fault: Option<ErrorKind>,
    record: &'a RefCell<Record>,
}

impl HostInput<'_> {
    /// How many bytes one read gives at most.
    fn piece_len(&self) -> usize {
        match self.pace {
            Pace::Whole => usize::MAX,
            Pace::Pieces => 3,
            Pace::Lines => {
                let before = self.rest.iter().position(|byte| *byte == b'\n');
                before.map_or(usize::MAX, |len| len.saturating_add(1))
            }
        }
    }
}

impl Read for HostInput<'_> {
    fn read(&mut self, buf: &mut [u8]) -> io::Result<usize> {
        if let Some(kind) = self.fault
            && self.rest.is_empty()
        {
            return Err(io::Error::from(kind));
        }
        let room = buf.len().min(self.piece_len());
        let count = self.rest.read(&mut buf[..room])?;
        if self.pace == Pace::Lines {
            let mut record = self.record.try_borrow_mut()?;
            record.printed.extend_from_slice(&buf[..count])?;
        }
        Ok(count)
    }
}

impl BufRead for HostInput<'_> {
    fn fill_buf(&mut self) -> io::Result<&[u8]> {
        Err(io::Error::from(ErrorKind::Unsupported))
    }

    fn consume(&mut self, _amount: usize) {}
}

impl<'a> Input for Host<'a> {
    type Reader = HostInput<'a>;

    fn read_line<A: Allocator + Clone>(&self, _buf: &mut String<A>) -> io::Result<usize> {
        Err(io::Error::from(ErrorKind::Unsupported))
    }

    fn lines<A: Allocator>(&self, alloc: A) -> Lines<HostInput<'a>, A> {
        self.reader().lines(alloc)
    }

    fn reader(&self) -> HostInput<'a> {
        HostInput {
            rest: self.setup.input,
            pace: self.setup.pace,
            fault: self.setup.input_fault,
            record: self.record,
        }
    }
}

fn unsupported<T>() -> io::Result<T> {
    Err(io::Error::from(ErrorKind::Unsupported))
}

impl Seek for HostFile<'_> {
    fn seek(&mut self, _to: SeekFrom) -> io::Result<u64> {
        unsupported()
    }
}

impl OpenFile for HostFile<'_> {
    fn metadata(&self) -> io::Result<Metadata> {
        unsupported()
    }

    fn set_len(&self, _size: u64) -> io::Result<()> {
        unsupported()
    }

    fn sync_all(&self) -> io::Result<()> {
        self.record.try_borrow_mut()?.asked.write_all(b"sync\n")
    }

    fn sync_data(&self) -> io::Result<()> {
        unsupported()
    }

    fn set_permissions(&self, permissions: Permissions) -> io::Result<()> {
        let mode = permissions.mode() & 0o777;
        let mut record = self.record.try_borrow_mut()?;
        record.asked.writeln(format_args!("mode {mode:o}"))
    }
}

impl<'a> Files for Host<'a> {
    type File = HostFile<'a>;

    type Dir = &'a [u8];

    fn open_file(&self, how: &OpenOptions, path: &str) -> io::Result<HostFile<'a>> {
        let mut record = self.record.try_borrow_mut()?;
        let is_made = how.asks_create_new() || how.asks_create() && how.asks_truncate();
        let verb = match (is_made, how.asks_write()) {
            (true, _) => "write",
            (false, true) => "open",
            (false, false) => "read",
        };
        record.asked.writeln(format_args!("{verb} {path}"))?;
        let found = self.files.iter().find(|file| file.0 == path);
        let rest = match found {
            _ if how.asks_write() && path.starts_with(LOCKED) => return Err(io::Error::from(
                self.setup.file_fault,
            )),
            Some(_) if how.asks_create_new() => return Err(io::Error::from(
                ErrorKind::AlreadyExists,
            )),
            _ if is_made => &[],
            Some(file) => file.1,
            None => return Err(io::Error::from(ErrorKind::NotFound)),
        };
        let fault = (path == TORN).then_some(self.setup.file_fault);
        Ok(HostFile {
            rest,
            fault,
            record: self.record,
        })
    }

    fn open_dir(&self, _path: &str) -> io::Result<&'a [u8]> {
        unsupported()
    }

    fn metadata(&self, path: &str) -> io::Result<Metadata> {
        let mut at = path;
        for _ in 0..LINKS {
            match self.link(at) {
                Some(link) => at = link.target,
                None => return self.stands_at(at),
            }
        }
        Err(io::Error::from(ErrorKind::FilesystemLoop))
    }

    fn symlink_metadata(&self, path: &str) -> io::Result<Metadata> {
        match self.link(path) {
            Some(link) => Ok(Metadata::of_symlink(link.len)),
            None => self.stands_at(path),
        }
    }

    fn read_link<B: Allocator>(&self, alloc: B, path: &str) -> io::Result<PathBuf<B>> {
        match self.link(path) {
            Some(link) => Ok(PathBuf::from_str(alloc, link.text)?),
            None => Err(io::Error::from(ErrorKind::InvalidInput)),
        }
    }

    fn copy(&self, _from: &str, _to: &str) -> io::Result<u64> {
        unsupported()
    }

    fn rename(&self, from: &str, to: &str) -> io::Result<()> {
        let mut record = self.record.try_borrow_mut()?;
        record.asked.writeln(format_args!("move {from} {to}"))?;
        if to.starts_with(STUCK) {
            return Err(io::Error::from(self.setup.file_fault));
        }
        Ok(())
    }

    fn remove_file(&self, path: &str) -> io::Result<()> {
        let mut record = self.record.try_borrow_mut()?;
        record.written.clear();
        record.asked.writeln(format_args!("remove {path}"))
    }

    fn create_dir(&self, _path: &str) -> io::Result<()> {
        unsupported()
    }

    fn remove_dir(&self, _path: &str) -> io::Result<()> {
        unsupported()
    }

    fn remove_dir_all<B: Allocator>(&self, _alloc: B, _path: &str) -> io::Result<()> {
        unsupported()
    }
}
