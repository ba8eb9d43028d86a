//! What hears a run while its text is written.

ghost use Rattle.std.specs.Prelude.{◌≡◌, ℕ, ◌+◌, ◌*◌, ◌≤◌, ◌<◌, length, true, false};
ghost use Rattle.rt_image.specs.SystemFile.{TaskSet};
ghost use Rattle.rt_history.specs.Entries.{start_of, ticks_of, IsEntryOf, GoesOnBy};
ghost use Rattle.rt_history.specs.Legal.{state_at};
ghost use Rattle.rt_trace.specs.Working.Cut.{IsTold};

use crate::page::Page;
use rt_core::Machine;
use rt_exec::Fetcher;
use rt_follow::{Listener, tell_plain};
use rt_history::Entry;
use rt_queue::MinQueue;
use rt_sink::LINE_LEN;
use rt_words::MAX_TICKS;
use std::convert::Infallible;

/// Goes on with a machine whose plain ticks a page shows, and hears what happens, or doesn't.
pub trait Hearer {
    ghost use Rattle.std.specs.Prelude.{ℕ};
    ghost use Rattle.rt_image.specs.SystemFile.{TaskSet};

    /// It has heard a history of so many ticks, of so many tasks.
    ghost is_at: { Self → ℕ → ℕ → Type 0 };

    /// It has heard the legal history of a set up to a tick: what was the first before tick 0 has become the second.
    ghost heard: { Self → Self → TaskSet → ℕ → Type 0 };

    /// Goes on by plain ticks before tick `n`, whose lines the page takes. Whether the entry that comes next comes by itself.
    fn go<Q: MinQueue, F: Fetcher>(
        &mut self,
        machine: &mut Machine<Q, F>,
        n: u64,
        page: &mut Page<'_>,
    ) -> bool
        requires limit { n ≤ MAX_TICKS }
        requires before { machine.old.tick ≤ n }
        requires at { is_at self.old machine.old.tick (length machine.old.tasks) }
        ensures later { machine.old.tick ≤ machine.new.tick }
        ensures onward { result ≡ false → machine.old.tick < machine.new.tick }
        ensures within { machine.new.tick ≤ n }
        ensures short { length page.new.text + LINE_LEN * machine.old.tick ≤ length page.old.text + LINE_LEN * machine.new.tick }
        ensures told { (set : TaskSet) (t : ℕ) → IsTold set n t page.old.text machine.old → IsTold set n t page.new.text machine.new }
        ensures at { is_at self.new machine.new.tick (length machine.new.tasks) }
        ensures stands { (set : TaskSet) → machine.old ≡ state_at set machine.old.tick → machine.new ≡ state_at set machine.new.tick }
        ensures heard { (first : Self) (set : TaskSet) → machine.old ≡ state_at set machine.old.tick → heard first self.old set machine.old.tick →
            heard first self.new set machine.new.tick };

    /// Hears the entry that comes next, behind which the machine stands.
    fn hear<Q: MinQueue, F: Fetcher>(&mut self, entry: Entry, machine: &Machine<Q, F>)
        requires at { is_at self.old (start_of entry) (length machine.now.tasks) }
        requires some { 1 ≤ ticks_of entry }
        requires limit { start_of entry + ticks_of entry ≤ MAX_TICKS }
        requires task { IsEntryOf (length machine.now.tasks) entry }
        requires behind { machine.now.tick ≡ start_of entry + ticks_of entry }
        ensures at { is_at self.new machine.now.tick (length machine.now.tasks) }
        ensures heard { (first : Self) (set : TaskSet) → heard first self.old set (start_of entry) → GoesOnBy set (start_of entry) entry →
            machine.now ≡ state_at set machine.now.tick → heard first self.new set machine.now.tick };
}

/// It hears nothing, so that it may go on by the ticks of several tasks at once.
#[derive(Drop)]
pub struct Unheard;

impl Hearer for Unheard {
    ghost is_at = { λ _ _ _. Unit {0} };

    ghost heard = { λ _ _ _ _. Unit {0} };

    #[inline(always)]
    fn go<Q: MinQueue, F: Fetcher>(
        &mut self,
        machine: &mut Machine<Q, F>,
        n: u64,
        page: &mut Page<'_>,
    ) -> bool {
        machine.go_turns(n - machine.now(), page).stopped
    }

    #[inline(always)]
    fn hear<Q: MinQueue, F: Fetcher>(&mut self, _entry: Entry, _machine: &Machine<Q, F>) {}
}

/// A listener hears it, which never stops and takes plain ticks together.
#[derive(Drop)]
pub struct Heard<L> {
    pub listener: L,
}

impl<L: Listener<Fault = Infallible>> Hearer for Heard<L> {
    ghost use Rattle.std.specs.Prelude.{◌≡◌, true};

    ghost is_at = { λ h t count. (L.plain ≡ true) × L.in_step h.listener × (L.tick h.listener ≡ t) × (L.count h.listener ≡ count) };

    ghost heard = { λ a b set t. L.told a.listener b.listener set t };

    #[inline(always)]
    fn go<Q: MinQueue, F: Fetcher>(
        &mut self,
        machine: &mut Machine<Q, F>,
        n: u64,
        page: &mut Page<'_>,
    ) -> bool {
        let ticks = machine.show_plain(n - machine.now(), page);
        match tell_plain(&mut self.listener, ticks.task, ticks.count) {
            Ok(()) => ticks.stopped,
        }
    }

    #[inline(always)]
    fn hear<Q: MinQueue, F: Fetcher>(&mut self, entry: Entry, machine: &Machine<Q, F>) {
        match self.listener.add(entry, machine) {
            Ok(()) => {}
        }
    }
}
