//! The lines of a task's values.

ghost use Rattle.std.specs.Prelude.{◌≡◌, ◌+◌, ◌≤◌, ◌<◌, ◌++◌, ◌∷◌, [], length, codes, decimal};
ghost use Rattle.rt_admit.specs.Limits.{task_limit};
ghost use Rattle.rt_waves.specs.declared.block.Telling.TheVariants.{Changes};
ghost use Rattle.rt_waves.specs.declared.signals.Value.TheVariants.{Wire, Number};
ghost use Rattle.rt_waves.specs.WavesText.{wave, line};
ghost use Rattle.rt_waves.specs.Working.Telling.{told_line};
ghost use Rattle.rt_waves.specs.Working.Stepped.{lines_of};

use crate::block::Telling;
use crate::kept::PcLines;
use crate::page::{PAGE_LEN, Page};
use crate::signals::TaskWaves;

/// The most bytes of the line of a value, with what is stored behind it.
const VALUE_LEN: usize = 96;

/// The most bytes of the lines of a task.
pub(crate) const LINES_LEN: usize = 1056;

/// Appends the line of a wire of task `number`, where it is written.
#[inline(always)]
pub(crate) fn put_wire(
    page: &mut Page<'_>,
    telling: Telling,
    letter: u8,
    number: u32,
    before: bool,
    now: bool,
)
    requires task { number < task_limit }
    requires room { length page.old + VALUE_LEN ≤ PAGE_LEN }
    ensures text { page.new ≡ page.old ++ told_line telling (Wire before) (wave (letter ∷ [] ++ decimal number) (Wire now)) }
    ensures short { length page.new ≤ length page.old + VALUE_LEN }
{
    match telling {
        Telling::Nothing => {}
        Telling::All => page.put_wire(letter, number, now),
        Telling::Changes => {
            if before != now {
                page.put_wire(letter, number, now);
            }
        }
    }
}

/// Appends the line of a number of task `number`, where it is written.
#[inline(always)]
pub(crate) fn put_number(
    page: &mut Page<'_>,
    telling: Telling,
    letter: u8,
    number: u32,
    before: u64,
    now: u64,
)
    requires task { number < task_limit }
    requires room { length page.old + VALUE_LEN ≤ PAGE_LEN }
    ensures text { page.new ≡ page.old ++ told_line telling (Number before) (wave (letter ∷ [] ++ decimal number) (Number now)) }
    ensures short { length page.new ≤ length page.old + VALUE_LEN }
{
    match telling {
        Telling::Nothing => {}
        Telling::All => page.put_number(letter, number, now),
        Telling::Changes => {
            if before != now {
                page.put_number(letter, number, now);
            }
        }
    }
}

/// Appends the line of a number below 2^32 of task `number`, where it changes.
#[inline(always)]
pub(crate) fn put_word(page: &mut Page<'_>, letter: u8, number: u32, before: u32, now: u32)
    requires task { number < task_limit }
    requires room { length page.old + VALUE_LEN ≤ PAGE_LEN }
    ensures text { page.new ≡ page.old ++ told_line Changes (Number before) (wave (letter ∷ [] ++ decimal number) (Number now)) }
    ensures short { length page.new ≤ length page.old + VALUE_LEN }
{
    if before != now {
        page.put_number(letter, number, u64::from(now));
    }
}

/// Appends the line of the pc of task `number`, where it is written.
#[inline(always)]
fn put_pc(
    page: &mut Page<'_>,
    kept: &mut PcLines,
    telling: Telling,
    number: u32,
    before: u32,
    now: u32,
)
    requires task { number < task_limit }
    requires room { length page.old + VALUE_LEN ≤ PAGE_LEN }
    ensures text { page.new ≡ page.old ++ told_line telling (Number before) (wave (codes "p" ++ decimal number) (Number now)) }
    ensures short { length page.new ≤ length page.old + VALUE_LEN }
{
    match telling {
        Telling::Nothing => {}
        Telling::All => kept.put(number, now, page),
        Telling::Changes => {
            if before != now {
                kept.put(number, now, page);
            }
        }
    }
}

/// Appends the lines of the values of task `number`, as far as they are written.
#[inline(always)]
pub(crate) fn put_lines(
    page: &mut Page<'_>,
    kept: &mut PcLines,
    telling: Telling,
    number: u32,
    before: &TaskWaves,
    now: &TaskWaves,
)
    requires task { number < task_limit }
    requires room { length page.old + LINES_LEN ≤ PAGE_LEN }
    ensures text { page.new ≡ page.old ++ lines_of telling number before.now now.now }
    ensures short { length page.new ≤ length page.old + LINES_LEN }
{
    put_wire(page, telling, b'r', number, before.running, now.running);
    put_number(
        page,
        telling,
        b'm',
        number,
        before.mode.number(),
        now.mode.number(),
    );
    put_pc(page, kept, telling, number, before.pc, now.pc);
    put_number(
        page,
        telling,
        b's',
        number,
        u64::from(before.part),
        u64::from(now.part),
    );
    put_number(
        page,
        telling,
        b'c',
        number,
        u64::from(before.c),
        u64::from(now.c),
    );
    put_number(page, telling, b'd', number, before.d, now.d);
    put_number(
        page,
        telling,
        b'o',
        number,
        u64::from(before.out),
        u64::from(now.out),
    );
    put_wire(page, telling, b'f', number, before.fresh, now.fresh);
    put_wire(page, telling, b'k', number, before.kept, now.kept);
    put_wire(page, telling, b'x', number, before.postponed, now.postponed);
    put_wire(page, telling, b'j', number, before.finish, now.finish);
}
