//! Pseudo-random programs that store into their own code, with each fetcher.

use crate::tests::exec::fetchers::Runner;
use crate::tests::exec::{same, set};
use rt_exec::{Outcome, Plain, Predecoded, Stepped};
use rt_isa::{Imm12, Ins, Off13, Off21, Reg, encode};
use rt_words::RAM_BASE;
use std::alloc::Global;
use std::process::Abort;
use std::test::Fail;

/// Marsaglia's xorshift of 64 bits.
#[derive(Drop)]
struct Random {
    state: u64,
}

impl Random {
    fn word(&mut self) -> u32 {
        self.state ^= self.state << 13;
        self.state ^= self.state >> 7;
        self.state ^= self.state << 17;
        (self.state >> 32) as u32
    }

    fn below(&mut self, limit: u16) -> u16 {
        (self.word() % u32::from(limit)) as u16
    }

    /// One of the registers x6 to x8.
    fn register(&mut self) -> Result<Reg, Fail> {
        let number = 6 + self.below(3) as u8;
        Ok(Reg::new(number).ok_or("a register")?)
    }

    /// How far from x5 on a unit of so many bytes lies: in 64 bytes, and seldom between two units or
    /// outside.
    fn place(&mut self, bytes: u16) -> Result<Imm12, Fail> {
        let aside = match self.below(200) {
            0 => self.below(4) as i16,
            1 => 64,
            2 => -4,
            _ => 0,
        };
        let place = self.below(64) / bytes * bytes;
        Ok(Imm12::new(place as i16 + aside).ok_or("an immediate")?)
    }

    /// A multiple of 128: added to a word, it leaves the row's opcode.
    fn high(&mut self) -> Result<Imm12, Fail> {
        Ok(Imm12::new(self.below(16) as i16 * 128).ok_or("an immediate")?)
    }

    /// Of the forms that don't jump, with x5 as the base. Where accesses are split, some are at any byte.
    fn straight(&mut self, split: bool) -> Result<Ins, Fail> {
        let base = Reg::new(5).ok_or("x5")?;
        let (target, value) = (self.register()?, self.register()?);
        let (half, word) = if split && self.below(4) == 0 {
            (1, 1)
        } else {
            (2, 4)
        };
        Ok(match self.below(9) {
            0 | 1 | 2 => Ins::Sb(base, value, self.place(1)?),
            3 | 4 => Ins::Sh(base, value, self.place(half)?),
            5 | 6 => Ins::Sw(base, value, self.place(word)?),
            7 => Ins::Lw(target, base, self.place(word)?),
            _ => Ins::Addi(target, value, self.high()?),
        })
    }

    /// A jump or a branch back by up to 7 words.
    fn back(&mut self) -> Result<Ins, Fail> {
        let distance = -4 - 4 * self.below(7) as i16;
        if self.below(2) == 0 {
            let offset = Off13::new(distance).ok_or("a distance")?;
            return Ok(Ins::Bne(self.register()?, self.register()?, offset));
        }
        let offset = Off21::new(i32::from(distance)).ok_or("a distance")?;
        Ok(Ins::Jal(Reg::new(0).ok_or("x0")?, offset))
    }

    /// The word of an instruction, or seldom any word.
    fn code(&mut self, split: bool, jumps: bool) -> Result<u32, Fail> {
        if self.below(500) == 0 {
            return Ok(self.word());
        }
        Ok(encode(if jumps {
            self.back()?
        } else {
            self.straight(split)?
        }))
    }
}

/// What each word was when it last ran, and how often one ran again after a change.
#[derive(Drop)]
struct Seen {
    words: [Option<u32>; 16],
    changes: u32,
}

impl Seen {
    fn saw(&mut self, pc: u32, word: u32) {
        if let Some(last) = self.words.get_mut(pc.wrapping_sub(RAM_BASE) as usize / 4) {
            if last.is_some_and(|before| before != word) {
                self.changes = self.changes.saturating_add(1);
            }
            *last = Some(word);
        }
    }

    /// Sees an attempt at pc, unless it faulted.
    fn goes_on(&mut self, pc: u32, stepped: Stepped) -> bool {
        if matches!(stepped.outcome, Outcome::Fault(_)) {
            return false;
        }
        if let Some(word) = stepped.word {
            self.saw(pc, word);
        }
        true
    }
}

/// Looks whether both are in the same state.
fn agree(rt: &impl Abort, name: u32, plain: &Runner<Plain>, predecoded: &Runner<Predecoded>) {
    let (hart, other) = (&plain.hart, &predecoded.hart);
    same(rt, name, other.pc(), hart.pc());
    same(rt, name, other.x().as_slice(), hart.x().as_slice());
    same(rt, name, predecoded.ram.bytes(), plain.ram.bytes());
}

/// Steps both up to a fault, and looks whether they agree after each step.
fn run_both(
    rt: &impl Abort,
    plain: &mut Runner<Plain>,
    predecoded: &mut Runner<Predecoded>,
    name: u32,
) -> u32 {
    let mut seen = Seen {
        words: [None; 16],
        changes: 0,
    };
    for _ in 0..48 {
        let pc = plain.hart.pc();
        let stepped = plain.step();
        same(rt, name, predecoded.step(), stepped);
        agree(rt, name, plain, predecoded);
        if !seen.goes_on(pc, stepped) {
            break;
        }
    }
    seen.changes
}

/// A program's words, the last of each half a jump.
fn some_words(random: &mut Random, split: bool) -> Result<[u32; 16], Fail> {
    let mut words = [0u32; 16];
    for (place, word) in words.iter_mut().enumerate() {
        *word = random.code(split, place % 8 == 7)?;
    }
    Ok(words)
}

/// Runs a program, and counts how often a word that had run ran again after a change.
fn run_program(
    rt: &impl Abort,
    alloc: Global,
    split: bool,
    random: &mut Random,
    name: u32,
) -> Result<u32, Fail> {
    let words = some_words(random, split)?;
    let mut plain: Runner<Plain> = Runner::load(alloc, split, &words)?;
    set(&mut plain.hart, 5, RAM_BASE)?;
    for number in 6..9u8 {
        set(&mut plain.hart, number, random.code(split, false)?)?;
    }
    let mut predecoded: Runner<Predecoded> = Runner::load(alloc, split, &words)?;
    predecoded.hart = plain.hart;
    Ok(run_both(rt, &mut plain, &mut predecoded, name))
}

/// Runs this many programs, and sums what it counts.
fn run_wild(rt: &impl Abort, alloc: Global, split: bool, programs: u32) -> Result<u32, Fail> {
    let mut random = Random {
        state: 0x9e37_79b9_7f4a_7c15,
    };
    let mut changes = 0u32;
    for name in 0..programs {
        let more = run_program(rt, alloc, split, &mut random, name)?;
        changes = changes.saturating_add(more);
    }
    Ok(changes)
}

#[test]
fn wild_programs_run_as_with_plain(rt: HostRuntime) -> Result<(), Fail> {
    let changes = run_wild(&rt, rt.alloc(), false, 10_000)?;
    // the programs do run code that was changed after it ran
    same(&rt, changes, changes > 1_000, true);
    Ok(())
}

#[test]
fn wild_programs_with_split_accesses_run_as_with_plain(rt: HostRuntime) -> Result<(), Fail> {
    let changes = run_wild(&rt, rt.alloc(), true, 5_000)?;
    same(&rt, changes, changes > 300, true);
    Ok(())
}
