//! The disk of a host.

ghost use Rattle.rt_desk.specs.making.Disk.{untold};

use rt_desk::Reason;
use rt_desk::making::{Disk, Way};
use std::alloc::Global;
use std::fs::{self, Metadata, OpenFile, OpenOptions, Permissions};
use std::io::{self, ErrorKind, Write};
use std::os::unix::fs::MetadataExt;
use std::rt::Files;

/// How many links a path may lead over.
const LINKS: u32 = 40;

/// The files of a host, and the one that is being made. It tells nothing of what stands there: others may change it at any time.
#[derive(Drop)]
pub struct HostDisk<'a, R: Files> {
    rt: &'a R,
    file: Option<R::File>,
}

impl<'a, R: Files> HostDisk<'a, R> {
    /// The disk of this host, on which no file is being made.
    pub fn new(rt: &'a R) -> HostDisk<'a, R> {
        HostDisk { rt, file: None }
    }
}

/// Whether the file of this path may be written, which is asked for without a change to it.
fn may_be_written<R: Files>(rt: &R, path: &str) -> io::Result<()> {
    let file = OpenOptions::new().write(true).open(rt, path)?;
    drop(file);
    Ok(())
}

/// The path that a link leads to. None where its text isn't that path, as that of an open file of a process isn't: it has another length.
fn behind_link<R: Files + AllocGlobal>(
    rt: &R,
    link: &str,
    found: &Metadata,
) -> io::Result<Option<String>> {
    let alloc = rt.alloc();
    let read = fs::read_link(rt, link)?;
    let text = read.as_str();
    if text.len() as u64 != found.len() {
        return Ok(None);
    }
    let path = match link.rsplit_once('/') {
        Some((folder, _)) if !text.starts_with('/') => format!(in alloc; "{folder}/{text}")?,
        _ => text.to_string(alloc)?,
    };
    Ok(Some(path))
}

/// The path behind all links that a path leads over, and what stands there if anything does. None where it can't be told.
fn behind_links<R: Files + AllocGlobal>(
    rt: &R,
    path: &str,
) -> io::Result<Option<(String, Option<Metadata>)>> {
    let mut at = path.to_string(rt.alloc())?;
    for _ in 0..LINKS {
        let found = match fs::symlink_metadata(rt, at.as_str()) {
            Ok(found) => found,
            Err(error) if error.kind() == ErrorKind::NotFound => return Ok(Some((at, None))),
            Err(error) => return Err(error),
        };
        if !found.is_symlink() {
            return Ok(Some((at, Some(found))));
        }
        match behind_link(rt, at.as_str(), &found)? {
            Some(next) => at = next,
            None => return Ok(None),
        }
    }
    Ok(None)
}

/// Whether both are of one file, or of none.
fn is_same(found: &Option<Metadata>, other: &Option<Metadata>) -> bool {
    match (found, other) {
        (Some(found), Some(other)) => (found.dev(), found.ino()) == (other.dev(), other.ino()),
        (None, None) => true,
        _ => false,
    }
}

/// What stands where a path leads.
fn what_stands_at<R: Files>(rt: &R, path: &str) -> io::Result<Option<Metadata>> {
    match fs::metadata(rt, path) {
        Ok(found) => Ok(Some(found)),
        Err(error) if error.kind() == ErrorKind::NotFound => Ok(None),
        Err(error) => Err(error),
    }
}

/// How the file of this path is written.
///
/// # Errors
///
/// It may not be written, by its mode or by its host; or there is no memory.
fn way_of<R: Files + AllocGlobal>(rt: &R, path: &str) -> io::Result<Way<Permissions>> {
    let Ok(found) = what_stands_at(rt, path) else {
        return Ok(Way::InPlace);
    };
    let target = match behind_links(rt, path) {
        Ok(Some((target, there))) if is_same(&found, &there) => target,
        Err(error) if error.kind() == ErrorKind::OutOfMemory => return Err(error),
        _ => return Ok(Way::InPlace),
    };
    let Some(found) = found else {
        return Ok(Way::Replace(target, None));
    };
    if !found.is_file() || found.nlink() > 1 {
        return Ok(Way::InPlace);
    }
    let permissions = found.permissions();
    if permissions.readonly() {
        return Err(io::Error::from(ErrorKind::PermissionDenied));
    }
    may_be_written(rt, target.as_str())?;
    Ok(Way::Replace(target, Some(permissions)))
}

impl<R: Files + AllocGlobal> Disk for HostDisk<'_, R> {
    type Permissions = Permissions;

    ghost standing = { λ _. untold };

    ghost clock = { λ _. record { counts_now = λ _ _ _ no. no; only_now = λ _ no. no } };

    fn way(&self, _alloc: Global, path: &str) -> Result<Way<Permissions>, Reason> {
        Ok(way_of(self.rt, path)?)
    }

    fn create_new(&mut self, path: &str) -> Result<bool, Reason> {
        let mut options = OpenOptions::new();
        match options.write(true).create_new(true).open(self.rt, path) {
            Ok(file) => {
                self.file = Some(file);
                Ok(true)
            }
            Err(error) if error.kind() == ErrorKind::AlreadyExists => Ok(false),
            Err(error) => Err(Reason::from(error)),
        }
    }

    fn open_in_place(&mut self, path: &str) -> Result<(), Reason> {
        self.file = Some(fs::create(self.rt, path)?);
        Ok(())
    }

    fn set_permissions(&mut self, _path: &str, permissions: Permissions) -> Result<(), Reason> {
        if let Some(file) = &self.file {
            file.set_permissions(permissions)?;
        }
        Ok(())
    }

    fn write(&mut self, _path: &str, bytes: &[u8]) -> Result<usize, Option<Reason>> {
        let written = match &mut self.file {
            Some(file) => file.write(bytes),
            None => Ok(0),
        };
        match written {
            Ok(count) if count > 0 && count <= bytes.len() => Ok(count),
            Ok(_) => Err(None),
            Err(error) => Err(Some(Reason::from(error))),
        }
    }

    fn sync(&mut self, _path: &str) -> Result<(), Reason> {
        if let Some(file) = self.file.take() {
            file.sync_all()?;
        }
        Ok(())
    }

    fn rename(&mut self, from: &str, to: &str) -> Result<(), Reason> {
        Ok(fs::rename(self.rt, from, to)?)
    }

    fn remove(&mut self, path: &str) -> Result<(), Reason> {
        Ok(fs::remove_file(self.rt, path)?)
    }
}
