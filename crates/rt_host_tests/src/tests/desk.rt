//! How the desk of a host makes files, and why it doesn't.

use crate::host_in_memory::{Host, Link, Record, Setup, run_on};
use rt_arguments::host::{HostDesk, Progress, Request, Terminals};
use rt_desk::{Desk, Reason};
use std::alloc::Global;
use std::cell::{Cell, RefCell};
use std::io::ErrorKind;
use std::test::Fail;

/// The links of a host. The text of the last one isn't where it leads, by its length.
static LINKS: [Link<'static>; 7] = [
    Link {
        path: "link",
        text: "plain",
        len: 5,
        target: "plain",
    },
    Link {
        path: "far/link",
        text: "plain",
        len: 5,
        target: "far/plain",
    },
    Link {
        path: "far/whole",
        text: "/plain",
        len: 6,
        target: "/plain",
    },
    Link {
        path: "chain",
        text: "far/link",
        len: 8,
        target: "far/link",
    },
    Link {
        path: "to-new",
        text: "far/new",
        len: 7,
        target: "far/new",
    },
    Link {
        path: "to-folder",
        text: "folder",
        len: 6,
        target: "folder",
    },
    Link {
        path: "descriptor",
        text: "plain",
        len: 64,
        target: "plain",
    },
];

/// A link to itself.
const LOOP: Link<'static> = Link {
    path: "loop",
    text: "loop",
    len: 4,
    target: "loop",
};

/// What a desk asks a host for, which has plain files and these links, to make a file of this path.
fn asked(memory: Global, links: &[Link<'_>], path: &str) -> Result<Vec<u8>, Fail> {
    let record = RefCell::new(Record::new(memory, usize::MAX));
    let files: [(&str, &[u8]); 3] = [("plain", b"old"), ("far/plain", b"old"), ("/plain", b"old")];
    let setup = Setup {
        links,
        ..Setup::new(&[])
    };
    let host = Host {
        memory,
        setup,
        files: &files,
        record: &record,
    };
    let terminals = Terminals {
        input: false,
        output: false,
        error: false,
    };
    let request = Request::Pack {
        set: "set",
        system: path,
    };
    let progress = Progress::new(&host, request, terminals);
    let fault = Cell::new(None);
    let mut desk = HostDesk::new(&host, &fault, true, &progress);
    let made = desk.make(memory, path, b"bytes");
    made.map_err(|_| Fail::from("not made"))?;
    Ok(record.into_inner().asked)
}

/// Only a plain file, or one that is not there, gives its place to a new one: the path's own, or the one to which its links lead.
static WAYS: [(&str, &[u8]); 9] = [
    (
        "new",
        b"write .rt_sim.part0\nsync\nmove .rt_sim.part0 new\n",
    ),
    (
        "plain",
        b"open plain\nwrite .rt_sim.part0\nmode 644\nsync\nmove .rt_sim.part0 plain\n",
    ),
    (
        "link",
        b"open plain\nwrite .rt_sim.part0\nmode 644\nsync\nmove .rt_sim.part0 plain\n",
    ),
    (
        "chain",
        b"open far/plain\nwrite far/.rt_sim.part0\nmode 644\nsync\nmove far/.rt_sim.part0 far/plain\n",
    ),
    (
        "far/whole",
        b"open /plain\nwrite /.rt_sim.part0\nmode 644\nsync\nmove /.rt_sim.part0 /plain\n",
    ),
    (
        "to-new",
        b"write far/.rt_sim.part0\nsync\nmove far/.rt_sim.part0 far/new\n",
    ),
    ("descriptor", b"write descriptor\n"),
    ("folder", b"write folder\n"),
    ("to-folder", b"write to-folder\n"),
];

#[test]
fn plain_files_are_replaced_behind_their_links(rt: HostRuntime) -> Result<(), Fail> {
    for (path, wanted) in &WAYS {
        assert!(rt;
            asked(rt.alloc(), &LINKS, path)?.as_slice() == *wanted,
            "{path}"
        );
    }
    assert!(rt; asked(rt.alloc(), &[LOOP], "loop")?.as_slice() == b"write loop\n".as_slice());
    Ok(())
}

static REASONS: [(ErrorKind, Reason); 14] = [
    (ErrorKind::OutOfMemory, Reason::Memory),
    (ErrorKind::NotFound, Reason::Missing),
    (ErrorKind::IsADirectory, Reason::Folder),
    (ErrorKind::PermissionDenied, Reason::Forbidden),
    (ErrorKind::NotADirectory, Reason::NoFolder),
    (ErrorKind::FilesystemLoop, Reason::Links),
    (ErrorKind::InvalidFilename, Reason::LongName),
    (ErrorKind::ReadOnlyFilesystem, Reason::ReadOnly),
    (ErrorKind::StorageFull, Reason::NoRoom),
    (ErrorKind::QuotaExceeded, Reason::Quota),
    (ErrorKind::FileTooLarge, Reason::TooLarge),
    (ErrorKind::BrokenPipe, Reason::NoReader),
    (ErrorKind::AlreadyExists, Reason::Other),
    (ErrorKind::Other, Reason::Other),
];

#[test]
fn reasons_are_those_of_the_host(rt: HostRuntime) -> Result<(), Fail> {
    for (kind, reason) in &REASONS {
        assert!(rt; Reason::from(*kind) == *reason, "{reason}");
    }
    Ok(())
}

/// Why a file isn't made in a folder, to which a link may lead: no other may be made there, or there is none.
static FOLDERS: [(&str, ErrorKind, &str); 4] = [
    (
        "locked/out",
        ErrorKind::PermissionDenied,
        "rt_sim: file locked/out\n  permission denied in its folder\n",
    ),
    (
        "to-locked",
        ErrorKind::PermissionDenied,
        "rt_sim: file to-locked\n  permission denied in its folder\n",
    ),
    (
        "locked-file",
        ErrorKind::PermissionDenied,
        "rt_sim: file locked-file\n  permission denied\n",
    ),
    (
        "to-locked",
        ErrorKind::NotFound,
        "rt_sim: file to-locked\n  its link leads to no folder\n",
    ),
];

#[test]
fn folders_are_told_apart_from_files(rt: HostRuntime) {
    let files: [(&str, &[u8]); 2] = [("source", b"_start: nop\n"), ("locked-file", b"")];
    let links = [Link {
        path: "to-locked",
        text: "locked/out",
        len: 10,
        target: "locked/out",
    }];
    for (path, file_fault, wanted) in &FOLDERS {
        let words = ["rt_sim", "asm", "source", *path];
        let setup = Setup {
            links: &links,
            file_fault: *file_fault,
            ..Setup::new(&words)
        };
        let record = Record::new(rt.alloc(), usize::MAX);
        let (_, record) = run_on(rt.alloc(), setup, &files, record);
        assert!(rt; record.told.as_slice() == wanted.as_bytes(), "{path}");
    }
}

/// A device that fails at once is told with its path, in one line.
#[test]
fn paths_of_failed_devices_are_escaped(rt: HostRuntime) -> Result<(), Fail> {
    let files: [(&str, &[u8]); 1] = [("source", b"_start: nop\n")];
    let setup = Setup::new(&["rt_sim", "asm", "source", "no\x7f\u{202e}out"]);
    let (_, record) = run_on(rt.alloc(), setup, &files, Record::new(rt.alloc(), 0));
    let wanted: &[u8] =
        b"rt_sim: device after 0 bytes\n  no\\x7f\\u{202e}out: no room on the device\n";
    assert!(rt; record.told.as_slice() == wanted);
    Ok(())
}
