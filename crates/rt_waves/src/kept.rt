//! The lines of pcs that were written lately.

ghost use Rattle.std.specs.Prelude.{◌≡◌, ◌+◌, ◌≤◌, ◌<◌, ◌++◌, length, codes, decimal, IfOk};
ghost use Rattle.rt_admit.specs.Limits.{task_limit};
ghost use Rattle.rt_waves.specs.declared.signals.Value.TheVariants.{Number};
ghost use Rattle.rt_waves.specs.WavesText.{wave, line};
ghost use Rattle.rt_waves.specs.Working.PcLines.{IsPcLine};

use crate::page::{PAGE_LEN, Page, place_number};
use std::alloc::{AllocError, Global};
use std::marker::Model;

/// How many lines are kept.
const KEPT: usize = 1024;

/// The line of a pc of a task.
#[derive(Clone, Copy)]
struct PcLine {
    number: u32,
    pc: u32,
    /// How many bytes of the text count.
    len: usize,
    text: [u8; 80],
}

impl PcLine {
    /// That of task `number` at a pc.
    fn new(number: u32, pc: u32) -> PcLine
        requires { number < task_limit }
        ensures sound { IsPcLine result }
        ensures task { result.number ≡ number }
        ensures pc { result.pc ≡ pc }
    {
        let mut text = [0; 80];
        let len = place_number(&mut text, 0, b'p', number, u64::from(pc));
        PcLine {
            number,
            pc,
            len,
            text,
        }
    }
}

impl PcLine {
    /// Appends the line: at most 48 bytes.
    #[inline(always)]
    fn put(&self, page: &mut Page<'_>)
        requires sound { IsPcLine self.now }
        requires room { length page.old + 48 ≤ PAGE_LEN }
        ensures text { page.new ≡ page.old ++ line (wave (codes "p" ++ decimal self.now.number) (Number self.now.pc)) }
        ensures short { length page.new ≤ length page.old + 48 }
    {
        page.put_front(&self.text, self.len);
    }
}

/// Where a line is kept: tasks whose programs lie at the same addresses have places of their own.
#[inline(always)]
fn slot_of(number: u32, pc: u32) -> usize
    ensures { result < KEPT }
{
    (pc / 4).wrapping_add(number.wrapping_mul(112)) as usize % KEPT
}

/// Lines of pcs of tasks, each at its place, where another one replaces it.
#[derive(Drop)]
pub(crate) struct PcLines {
    lines: Vec<PcLine>,
}

impl Model for PcLines {
    ghost use Rattle.std.specs.Prelude.{◌≡◌, All, length};
    ghost use Rattle.rt_waves.specs.Working.PcLines.{IsPcLine};

    ghost Value = { Unit {0} };

    ghost view = { λ _. record {} };

    ghost invariant = { λ kept. (length kept.lines.items ≡ 1024) × All IsPcLine kept.lines.items };
}

impl PcLines {
    /// All room that they need is taken here, 96 KiB.
    ///
    /// # Errors
    ///
    /// There is no memory for it.
    pub(crate) fn new(alloc: Global) -> Result<PcLines, AllocError> {
        let mut lines = Vec::new(alloc);
        lines.resize(KEPT, PcLine::new(0, 0))?;
        Ok(PcLines { lines })
    }

    /// Appends the line of task `number` at a pc, which isn't kept, and keeps it.
    #[cold]
    #[inline(never)]
    fn put_new(&mut self, number: u32, pc: u32, page: &mut Page<'_>)
        requires task { number < task_limit }
        requires room { length page.old + 80 ≤ PAGE_LEN }
        ensures text { page.new ≡ page.old ++ line (wave (codes "p" ++ decimal number) (Number pc)) }
        ensures short { length page.new ≤ length page.old + 48 }
    {
        let made = PcLine::new(number, pc);
        made.put(page);
        self.lines[slot_of(number, pc)] = made;
    }

    /// Appends the line of task `number` at a pc: at most 48 bytes.
    #[inline(always)]
    pub(crate) fn put(&mut self, number: u32, pc: u32, page: &mut Page<'_>)
        requires task { number < task_limit }
        requires room { length page.old + 80 ≤ PAGE_LEN }
        ensures text { page.new ≡ page.old ++ line (wave (codes "p" ++ decimal number) (Number pc)) }
        ensures short { length page.new ≤ length page.old + 48 }
    {
        let kept = &self.lines[slot_of(number, pc)];
        if kept.number == number && kept.pc == pc {
            kept.put(page);
        } else {
            self.put_new(number, pc, page);
        }
    }
}
