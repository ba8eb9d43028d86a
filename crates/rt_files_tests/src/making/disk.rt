//! A disk in memory.

ghost use Rattle.rt_desk.specs.making.Disk.{untold};

use rt_desk::Reason;
use rt_desk::making::{Disk, Way};
use std::alloc::{AllocError, Global};

/// Marsaglia's xorshift of 64 bits.
#[derive(Clone, Copy)]
pub struct Random {
    pub state: u64,
}

impl Random {
    /// A number below this one, or 0.
    pub fn below(&mut self, limit: usize) -> usize {
        self.state ^= self.state << 13;
        self.state ^= self.state >> 7;
        self.state ^= self.state << 17;
        ((self.state >> 32) as usize)
            .checked_rem(limit)
            .unwrap_or(0)
    }

    /// So many bytes.
    pub fn bytes(&mut self, alloc: Global, count: usize) -> Result<Vec<u8>, AllocError> {
        let mut bytes = Vec::new(alloc);
        for _ in 0..count {
            bytes.push(self.below(256) as u8)?;
        }
        Ok(bytes)
    }
}

/// A file, and whether a crash leaves its bytes.
#[derive(Drop)]
pub struct Stored {
    pub path: String,
    pub bytes: Vec<u8>,
    pub is_durable: bool,
}

/// What happens at the call whose turn it is.
#[derive(Clone, Copy, PartialEq, Eq)]
pub enum Turn {
    /// It does what it is to do.
    Works,
    /// It does nothing, and those behind it work.
    Fails,
    /// The machine stops before it or behind it.
    Stops,
    /// It does nothing, nor do those behind it.
    Gone,
}

/// Files, of which the first so many paths for parts are taken, and what happens at the call behind so many. It tells nothing, so that
/// what it does is judged by the test alone.
#[derive(Drop)]
pub struct CrashDisk {
    pub alloc: Global,
    pub files: Vec<Stored>,
    pub taken: u32,
    pub random: Random,
    pub calls: u32,
    pub turn: Turn,
}

impl CrashDisk {
    fn place(&self, path: &str) -> Option<usize> {
        self.files
            .iter()
            .position(|file| file.path.as_str() == path)
    }

    /// Whether the path is one of the first for parts.
    fn is_taken(&self, path: &str) -> bool {
        let number = path.strip_prefix(".rt_sim.part").unwrap_or("");
        number
            .parse::<u32>()
            .is_ok_and(|number| number < self.taken)
    }

    /// What happens at this call.
    fn next(&mut self) -> Turn {
        match self.calls.checked_sub(1) {
            Some(calls) => {
                self.calls = calls;
                Turn::Works
            }
            None if self.turn == Turn::Fails => {
                self.turn = Turn::Works;
                Turn::Fails
            }
            None => self.turn,
        }
    }

    /// Whether a call does what it is to do.
    fn acts(&mut self, turn: Turn) -> bool {
        turn == Turn::Works || turn == Turn::Stops && self.random.below(2) == 0
    }

    /// Ends a call. Where the machine stops, what isn't durable is lost in part.
    fn end(&mut self, turn: Turn) -> Result<(), Reason> {
        if turn == Turn::Stops {
            self.turn = Turn::Gone;
            for file in &mut self.files {
                if !file.is_durable {
                    file.bytes.truncate(self.random.below(20));
                    let more = self.random.below(9);
                    file.bytes
                        .append(&mut self.random.bytes(self.alloc, more)?)?;
                }
            }
        }
        match turn {
            Turn::Works => Ok(()),
            _ => Err(Reason::NoRoom),
        }
    }
}

impl Disk for CrashDisk {
    type Permissions = u32;

    ghost standing = { λ _. untold };

    ghost clock = { λ _. record { counts_now = λ _ _ _ no. no; only_now = λ _ no. no } };

    fn way(&self, alloc: Global, path: &str) -> Result<Way<u32>, Reason> {
        let permissions = self.place(path).map(|_| 0o644);
        Ok(Way::Replace(path.to_string(alloc)?, permissions))
    }

    fn create_new(&mut self, path: &str) -> Result<bool, Reason> {
        if self.place(path).is_some() || self.is_taken(path) {
            return Ok(false);
        }
        let turn = self.next();
        if self.acts(turn) {
            let file = Stored {
                path: path.to_string(self.alloc)?,
                bytes: Vec::new(self.alloc),
                is_durable: false,
            };
            self.files.push(file).map_err(|_| Reason::Memory)?;
        }
        self.end(turn)?;
        Ok(true)
    }

    fn open_in_place(&mut self, _path: &str) -> Result<(), Reason> {
        Err(Reason::Other)
    }

    fn set_permissions(&mut self, _path: &str, _permissions: u32) -> Result<(), Reason> {
        let turn = self.next();
        self.end(turn)
    }

    fn write(&mut self, path: &str, bytes: &[u8]) -> Result<usize, Option<Reason>> {
        let turn = self.next();
        let count = bytes.len().min(1 + self.random.below(16));
        if self.acts(turn)
            && let Some(place) = self.place(path)
            && let Some(file) = self.files.get_mut(place)
        {
            file.is_durable = false;
            file.bytes
                .extend_from_slice(&bytes[..count])
                .map_err(|_| Some(Reason::Memory))?;
        }
        self.end(turn).map_err(Some)?;
        Ok(count)
    }

    fn sync(&mut self, path: &str) -> Result<(), Reason> {
        let turn = self.next();
        if self.acts(turn)
            && let Some(place) = self.place(path)
            && let Some(file) = self.files.get_mut(place)
        {
            file.is_durable = true;
        }
        self.end(turn)
    }

    fn rename(&mut self, from: &str, to: &str) -> Result<(), Reason> {
        let turn = self.next();
        if self.acts(turn) {
            let path = to.to_string(self.alloc)?;
            self.files.retain(|file| file.path.as_str() != to);
            if let Some(place) = self.place(from)
                && let Some(file) = self.files.get_mut(place)
            {
                file.path = path;
            }
        }
        self.end(turn)
    }

    fn remove(&mut self, path: &str) -> Result<(), Reason> {
        let turn = self.next();
        if self.acts(turn) {
            self.files.retain(|file| file.path.as_str() != path);
        }
        self.end(turn)
    }
}
