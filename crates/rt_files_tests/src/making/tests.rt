//! Files that are made on random disks.

use super::disk::{CrashDisk, Random, Stored, Turn};
use rt_desk::making::make_file;
use rt_desk::{MakeFault, Reason};
use std::alloc::{AllocError, Global};
use std::process::Abort;
use std::test::Fail;

/// Paths at which files may stand, and of which one is made: that of a part, too.
static PATHS: [&str; 7] = [
    "d/out",
    "d/.rt_sim.part1",
    "d/.rt_sim.part0",
    "d/.rt_sim.part2",
    "d/.rt_sim.part3",
    "d/other",
    "out",
];

/// A disk that is the same for the same seed.
fn disk_of(alloc: Global, seed: u64, calls: u32, turn: Turn) -> Result<CrashDisk, AllocError> {
    let mut random = Random { state: seed };
    let mut files = Vec::new(alloc);
    for path in &PATHS {
        if random.below(2) == 0 {
            let count = random.below(40);
            files.push(Stored {
                path: path.to_string(alloc)?,
                bytes: random.bytes(alloc, count)?,
                is_durable: true,
            })?;
        }
    }
    Ok(CrashDisk {
        alloc,
        files,
        taken: 0,
        random,
        calls,
        turn,
    })
}

fn bytes_at<'a>(files: &'a [Stored], path: &str) -> Option<&'a [u8]> {
    let file = files.iter().find(|file| file.path.as_str() == path)?;
    Some(file.bytes.as_slice())
}

/// How many files stand beside those that were there, whose paths are those of parts in the folder. None where another does.
fn parts_left(before: &[Stored], after: &[Stored], path: &str) -> Option<usize> {
    let mut parts = 0usize;
    for file in after {
        let at = file.path.as_str();
        if at != path && bytes_at(before, at).is_none() {
            if !at.starts_with("d/.rt_sim.part") {
                return None;
            }
            parts = parts.checked_add(1)?;
        }
    }
    Some(parts)
}

/// Looks at what is left: the file old or new, all others as they were, and one part at most.
fn look(rt: &impl Abort, before: &[Stored], after: &[Stored], path: &str, bytes: &[u8]) {
    for file in before {
        let at = file.path.as_str();
        let found = bytes_at(after, at);
        assert!(rt; at == path || found == Some(file.bytes.as_slice()), "{at}");
    }
    let found = bytes_at(after, path);
    assert!(rt;
        found == bytes_at(before, path) || found == Some(bytes),
        "{path}"
    );
    assert!(rt; parts_left(before, after, path).is_some_and(|parts| parts <= 1));
}

/// Makes a file on a disk that stops or fails behind so many calls. Whether it came to that.
fn make_once(
    rt: &impl Abort,
    alloc: Global,
    seed: u64,
    calls: u32,
    turn: Turn,
) -> Result<bool, AllocError> {
    let before = disk_of(alloc, seed, calls, turn)?;
    let mut disk = disk_of(alloc, seed, calls, turn)?;
    let path = if seed % 3 == 0 {
        "d/.rt_sim.part1"
    } else {
        "d/out"
    };
    let mut random = Random { state: seed };
    let count = 1 + random.below(60);
    let bytes = random.bytes(alloc, count)?;
    let made = make_file(&mut disk, alloc, path, &bytes);
    look(rt, &before.files, &disk.files, path, &bytes);
    let found = bytes_at(&disk.files, path);
    match made {
        Ok(()) => {
            assert!(rt; found == Some(bytes.as_slice()));
            assert!(rt; parts_left(&before.files, &disk.files, path) == Some(0));
        }
        Err(_) => {
            let left = parts_left(&before.files, &disk.files, path);
            assert!(rt; turn == Turn::Stops || found == bytes_at(&before.files, path));
            assert!(rt; turn != Turn::Fails || left == Some(0));
        }
    }
    Ok(made.is_err())
}

/// The machine stops before or behind each call in turn, and never leaves a part of the file.
#[test]
fn files_are_old_or_new_after_crashes(rt: HostRuntime) -> Result<(), Fail> {
    let mut crashes = 0u32;
    for seed in 1..1_500u64 {
        for calls in 0..100 {
            if !make_once(&rt, rt.alloc(), seed * 0x9e37_79b9, calls, Turn::Stops)? {
                break;
            }
            crashes = crashes.saturating_add(1);
        }
    }
    assert!(rt; crashes >= 10_000, "{crashes}");
    Ok(())
}

/// A call fails, alone or with all behind it, of which one would remove the part.
#[test]
fn files_are_as_they_were_after_faults(rt: HostRuntime) -> Result<(), Fail> {
    for turn in &[Turn::Fails, Turn::Gone] {
        for seed in 1..200u64 {
            for calls in 0..100 {
                if !make_once(&rt, rt.alloc(), seed * 0x9e37_79b9, calls, *turn)? {
                    break;
                }
            }
        }
    }
    Ok(())
}

/// Parts of earlier runs aren't in the way, unless each of 65,536 names is taken.
#[test]
fn parts_are_passed_over(rt: HostRuntime) -> Result<(), Fail> {
    for (taken, wanted) in [
        (65_535, Ok(())),
        (65_536, Err(MakeFault::Refused(Reason::Other))),
    ] {
        let mut disk = disk_of(rt.alloc(), 1, u32::MAX, Turn::Works)?;
        disk.taken = taken;
        let made = make_file(&mut disk, rt.alloc(), "out", b"bytes");
        assert!(rt; made == wanted, "{taken}");
    }
    Ok(())
}
