//! Places that are marked, so that one look tells a tick from them.

ghost use Rattle.std.specs.Prelude.{◌≡◌, ℕ, ◌<◌, ◌||◌, [], length, get_or, OnOk, OnErr, false};
ghost use Rattle.rt_points.specs.Marks.{word_of, is_marked, share_mark};

use std::alloc::{AllocError, Global};

/// The words of the largest RAM.
const WORDS: u32 = 262_144;

/// The tasks that have a bit of their own.
const TASKS: u32 = 64;

/// How many words of marks are made at a time.
const BLOCK: usize = 1024;

/// A task at a pc.
#[derive(Clone, Copy, PartialEq, Eq)]
pub struct Place {
    pub task: u32,
    pub pc: u32,
}

/// For each word of a RAM, from the first one on, the tasks that have a mark there, as bits.
///
/// Any place may be marked. Those at which a task of a machine may execute an instruction have marks of their own; a place beyond
/// RAM or between words, or of a task that isn't there, shares the mark of such a one.
#[derive(Drop)]
pub struct Marks {
    words: Vec<u64>,
}

/// The word of a RAM that has the mark.
#[inline(always)]
fn word_of(pc: u32) -> usize
    ensures { result ≡ word_of pc }
{
    ((pc >> 2) % WORDS) as usize
}

impl Marks {
    /// No marks.
    pub fn new(alloc: Global) -> Marks
        ensures { result.words.items ≡ [] }
    {
        Marks {
            words: Vec::new(alloc),
        }
    }

    /// Whether there is a mark at this place.
    #[inline(always)]
    pub fn has(&self, task: u32, pc: u32) -> bool
        ensures { result ≡ is_marked self.now.words.items task pc }
    {
        match self.words.get(word_of(pc)) {
            Some(tasks) => tasks >> (task % TASKS) & 1 == 1,
            None => false,
        }
    }

    /// Whether two places have one mark.
    pub fn share(place: Place, other: Place) -> bool
        ensures { result ≡ share_mark place.task place.pc other.task other.pc }
    {
        word_of(place.pc) == word_of(other.pc) && place.task % TASKS == other.task % TASKS
    }

    /// Makes words up to this one, as yet without marks.
    fn reach(&mut self, word: usize) -> Result<(), AllocError>
        requires { word < WORDS }
        ensures same { (k : ℕ) → get_or self.new.words.items k 0 ≡ get_or self.old.words.items k 0 }
        ensures made { OnOk result (word < length self.new.words.items) }
    {
        if self.words.len() <= word {
            self.words.resize((word / BLOCK + 1) * BLOCK, 0)?;
        }
        Ok(())
    }

    /// Marks a place, also those that share the mark. For want of memory no mark comes or goes.
    pub fn add(&mut self, place: Place) -> Result<(), AllocError>
        ensures added { OnOk result ((task pc : ℕ) → is_marked self.new.words.items task pc ≡ (share_mark place.task place.pc task pc || is_marked self.old.words.items task pc)) }
        ensures same { OnErr result ((task pc : ℕ) → is_marked self.new.words.items task pc ≡ is_marked self.old.words.items task pc) }
    {
        let word = word_of(place.pc);
        self.reach(word)?;
        self.words[word] |= 1 << (place.task % TASKS);
        Ok(())
    }

    /// Takes a mark away, also from the places that share it.
    pub fn remove(&mut self, place: Place)
        ensures kept { (task pc : ℕ) → share_mark place.task place.pc task pc ≡ false → is_marked self.new.words.items task pc ≡ is_marked self.old.words.items task pc }
        ensures gone { is_marked self.new.words.items place.task place.pc ≡ false }
    {
        if let Some(tasks) = self.words.get_mut(word_of(place.pc)) {
            *tasks &= !(1 << (place.task % TASKS));
        }
    }
}
