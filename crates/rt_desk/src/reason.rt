//! Why a file isn't read or made.

use std::alloc::AllocError;
use std::fmt;
use std::io::{self, ErrorKind};

/// Why a file can't be opened, read or made.
#[derive(Clone, Copy, PartialEq, Eq)]
pub enum Reason {
    /// There was no memory.
    Memory,
    /// No file has this path.
    Missing,
    /// It is a link into a folder that isn't there.
    MissingTarget,
    /// It is a folder.
    Folder,
    /// A part of its path is no folder.
    NoFolder,
    /// Its path leads over too many links.
    Links,
    /// A name of its path is too long, or all of it.
    LongName,
    /// It may not be read or written.
    Forbidden,
    /// No file may be made or replaced in its folder.
    ForbiddenFolder,
    /// Its device can't be written.
    ReadOnly,
    /// Its device is full.
    NoRoom,
    /// Its owner has as much of the device as is allowed.
    Quota,
    /// It would be larger than a file may be.
    TooLarge,
    /// What reads it has gone.
    NoReader,
    /// Any other reason.
    Other,
}

impl From<ErrorKind> for Reason {
    fn from(kind: ErrorKind) -> Reason {
        match kind {
            ErrorKind::OutOfMemory => Reason::Memory,
            ErrorKind::NotFound => Reason::Missing,
            ErrorKind::IsADirectory => Reason::Folder,
            ErrorKind::NotADirectory => Reason::NoFolder,
            ErrorKind::FilesystemLoop => Reason::Links,
            ErrorKind::InvalidFilename => Reason::LongName,
            ErrorKind::PermissionDenied => Reason::Forbidden,
            ErrorKind::ReadOnlyFilesystem => Reason::ReadOnly,
            ErrorKind::StorageFull => Reason::NoRoom,
            ErrorKind::QuotaExceeded => Reason::Quota,
            ErrorKind::FileTooLarge => Reason::TooLarge,
            ErrorKind::BrokenPipe => Reason::NoReader,
            _ => Reason::Other,
        }
    }
}

impl From<AllocError> for Reason {
    ghost use Rattle.std.specs.Prelude.{◌≡◌};
    ghost use Rattle.rt_desk.specs.declared.reason.Reason.TheVariants.{Memory};

    ghost from_gives = { λ _ reason. reason ≡ Memory };

    fn from(_: AllocError) -> Reason {
        Reason::Memory
    }
}

impl From<io::Error> for Reason {
    fn from(error: io::Error) -> Reason {
        Reason::from(error.kind())
    }
}

impl fmt::Display for Reason {
    fn fmt<W: fmt::Write>(&self, f: &mut fmt::Formatter<W>) -> fmt::Result {
        f.write_str(match self {
            Reason::Memory => "no memory",
            Reason::Missing => "no such file",
            Reason::MissingTarget => "its link leads to no folder",
            Reason::Folder => "is a directory",
            Reason::NoFolder => "a part of its path is no folder",
            Reason::Links => "too many symbolic links",
            Reason::LongName => "its name is too long",
            Reason::Forbidden => "permission denied",
            Reason::ForbiddenFolder => "permission denied in its folder",
            Reason::ReadOnly => "its device is read-only",
            Reason::NoRoom => "no room on the device",
            Reason::Quota => "the quota is used up",
            Reason::TooLarge => "larger than a file may be",
            Reason::NoReader => "its reader has gone",
            Reason::Other => "can't be read or made",
        })
    }
}
