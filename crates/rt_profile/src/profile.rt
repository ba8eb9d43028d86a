//! The profile: what it keeps, and how it is given a history.

ghost use Rattle.std.specs.Prelude.{◌≡◌, ℕ, ◌+◌, ◌-◌, ◌^◌, ◌<◌, ◌≤◌, false, length, IfOk};
ghost use Rattle.rt_image.specs.SystemFile.{TaskSet, IsSystem, task_set};
ghost use Rattle.rt_history.specs.Entries.{start_of, ticks_of, IsEntryOf, GoesOnBy};
ghost use Rattle.rt_history.specs.Legal.{legal};
ghost use Rattle.rt_history.specs.declared.record.Attempt.{Attempt};
ghost use Rattle.rt_sink.specs.Sink.{Counts};
ghost use Rattle.rt_profile.specs.ProfileText.{profile_text};
ghost use Rattle.rt_profile.specs.Standing.{profile_at, added};
ghost use Rattle.rt_profile.specs.Counted.{counted_at};
ghost use Rattle.rt_profile.specs.Working.Told.{kept_form};

use crate::callgrind::{CALLGRIND_HEADER, Totals};
use crate::form::ProfileForm;
use crate::needs_text::NEEDS_HEADER;
use crate::task_profile::TaskProfile;
use crate::task_text::{CostLines, NeedLines, RowLines};
use crate::text::HEADER;
use rt_history::{Attempt, Entry};
use rt_image::System;
use rt_report::IdleLine;
use rt_sink::{DeviceFault, Sink};
use rt_text_out::{Each, plain, write};
use rt_words::MAX_TICKS;
use std::alloc::{AllocError, Global};
use std::marker::Model;

/// Where the ticks of each task of a system went, up to a tick.
///
/// It keeps no history: it is given the entries of one, the first from tick 0 on. Contracts see the tick, how many ticks were
/// idle, and what is kept of each task.
#[derive(Drop)]
pub struct Profile<'s, 'b> {
    clock: u64,
    idle: u64,
    tasks: Vec<TaskProfile<'s, 'b>>,
}

impl<'s, 'b> Model for Profile<'s, 'b> {
    ghost use Rattle.rt_profile.specs.Standing.{ProfileState};
    ghost use Rattle.rt_profile.specs.Counted.{IsSoundProfile};

    ghost Value = { ProfileState };

    ghost view = { λ p. record { tick = p.clock; idle = p.idle; tasks = p.tasks.items } };

    ghost invariant = { λ p. IsSoundProfile p.clock p.idle p.tasks.items };
}

impl<'s, 'b> Profile<'s, 'b> {
    /// The profile of a system before its first tick. All room that it needs is taken here: for each byte of RAM 3 bytes, for each
    /// symbol 56, and for each task 5 KiB more.
    ///
    /// # Errors
    ///
    /// There is no memory for it.
    pub fn new(alloc: Global, system: &'s System<'b>) -> Result<Profile<'s, 'b>, AllocError>
        requires { IsSystem (task_set system.now) }
        ensures count { IfOk result (λ profile. length profile.tasks ≡ length system.now.tasks.items) }
        ensures clock { IfOk result (λ profile. profile.tick ≡ 0) }
        ensures stands { IfOk result (λ profile. profile ≡ profile_at (task_set system.now) 0) }
    {
        let mut tasks = Vec::new(alloc);
        for task in &system.tasks {
            tasks.push(TaskProfile::new(alloc, task)?)?;
        }
        Ok(Profile {
            clock: 0,
            idle: 0,
            tasks,
        })
    }

    /// Takes a record of the coming tick.
    #[inline(always)]
    fn take_busy(&mut self, attempt: &Attempt)
        requires limit { self.old.tick + 1 ≤ MAX_TICKS }
        requires task { attempt.now.task < length self.old.tasks }
        ensures { self.new ≡ record self.old { tick = self.old.tick + 1; tasks = counted_at attempt.now self.old.tasks attempt.now.task } }
    {
        self.tasks[attempt.task as usize].take(attempt.pc, attempt.outcome);
        self.clock += 1;
    }

    /// Takes `n` idle ticks.
    fn take_idle(&mut self, n: u64)
        requires { self.old.tick + n ≤ MAX_TICKS }
        ensures { self.new ≡ record self.old { tick = self.old.tick + n; idle = self.old.idle + n } }
    {
        self.clock += n;
        self.idle += n;
    }

    /// Takes an entry.
    #[inline(always)]
    fn take(&mut self, entry: Entry)
        requires limit { self.old.tick + ticks_of entry ≤ MAX_TICKS }
        requires task { IsEntryOf (length self.old.tasks) entry }
        ensures { self.new ≡ added entry self.old }
    {
        match entry {
            Entry::Busy { rec, .. } => self.take_busy(&rec),
            Entry::Idle { n, .. } => self.take_idle(n),
        }
    }

    /// Takes the entry that comes next: it begins at the tick where the one before ended, the first at 0, it ends at 2^40 at
    /// most, and its task is of the set. A stretch of idle ticks may be cut anywhere, and is one step. Takes no memory.
    #[inline(always)]
    pub fn add(&mut self, entry: Entry)
        requires start { start_of entry ≡ self.old.tick }
        requires limit { self.old.tick + ticks_of entry ≤ MAX_TICKS }
        requires task { IsEntryOf (length self.old.tasks) entry }
        ensures clock { self.new.tick ≡ self.old.tick + ticks_of entry }
        ensures count { length self.new.tasks ≡ length self.old.tasks }
        ensures stands { (set : TaskSet) (t : ℕ) → self.old ≡ profile_at set t → GoesOnBy set t entry → self.new ≡ profile_at set (t + ticks_of entry) }
    {
        self.take(entry);
    }

    /// Writes the text of this form, from what is kept.
    fn write_form<S: Sink>(&self, form: ProfileForm, out: &mut S) -> Result<u64, DeviceFault>
        requires { (S.seen out.old).failed ≡ false }
        ensures { Counts S.seen out.old (kept_form form self.now) result out.new }
    {
        let items: &[TaskProfile<'s, 'b>] = &self.tasks;
        match form {
            ProfileForm::Rows => {
                let rows = Each {
                    items,
                    by: RowLines,
                };
                write(&(plain(HEADER), rows, IdleLine(self.idle)), out)
            }
            ProfileForm::Needs => {
                let needs = Each {
                    items,
                    by: NeedLines,
                };
                write(&(plain(NEEDS_HEADER), needs), out)
            }
            ProfileForm::Callgrind => {
                let costs = Each {
                    items,
                    by: CostLines,
                };
                let busy = Totals(self.clock - self.idle);
                write(&(plain(CALLGRIND_HEADER), costs, busy), out)
            }
        }
    }

    /// Writes the text of this form to a sink, and answers its length in bytes. Takes no memory.
    ///
    /// # Errors
    ///
    /// The sink failed. `written` is how many of the first bytes of the text it took.
    pub fn write_text<S: Sink>(&self, form: ProfileForm, out: &mut S) -> Result<u64, DeviceFault>
        requires { (S.seen out.old).failed ≡ false }
        ensures { (set : TaskSet) (t : ℕ) → self.now ≡ profile_at set t →
            Counts S.seen out.old (profile_text form set (legal set t)) result out.new }
    {
        // it is read so that the proof has its bound
        let _clock = self.clock;
        self.write_form(form, out)
    }
}
