//! What receives a history.

ghost use Rattle.std.specs.Prelude.{◌≡◌, ℕ, ◌+◌, ◌<◌, ◌≤◌, Bool, true, length, IfOk, OnOk, OnErr};
ghost use Rattle.rt_image.specs.SystemFile.{TaskSet};
ghost use Rattle.rt_history.specs.Entries.{start_of, ticks_of, IsEntryOf, GoesOnBy};
ghost use Rattle.rt_history.specs.Legal.{state_at};
ghost use Rattle.rt_history.specs.Plain.{ArePlain};

use rt_core::Machine;
use rt_exec::Fetcher;
use rt_history::Entry;
use rt_queue::MinQueue;
use rt_words::MAX_TICKS;

/// Receives a history from tick 0 on, entry by entry, until it takes no more.
pub trait Listener {
    ghost use Rattle.std.specs.Prelude.{ℕ, Bool};
    ghost use Rattle.rt_image.specs.SystemFile.{TaskSet};

    /// Why it takes no more.
    type Fault: Drop;

    /// What no entry changes.
    ghost Kept: { Type 0 };

    ghost kept: { Self → Kept };

    /// The tick up to which it has received the history, and how many tasks it knows.
    ghost tick: { Self → ℕ };

    ghost count: { Self → ℕ };

    /// What listens in it has received as much.
    ghost in_step: { Self → Type 0 } = { λ _. Unit {0} };

    /// Told the legal history of a set up to a tick, what was the first before tick 0 has become the second.
    ghost told: { Self → Self → TaskSet → ℕ → Type 0 };

    /// The same, of one that has just said that it takes no more.
    ghost stopped: { Self → Self → TaskSet → ℕ → Type 0 };

    /// Whether plain ticks of one task come together. Else each comes as an entry.
    ghost plain: { Bool };

    fn takes_plain(&self) -> bool
        ensures { result ≡ plain };

    /// Takes the entry that comes next, behind which the machine stands.
    fn add<Q: MinQueue, F: Fetcher>(
        &mut self,
        entry: Entry,
        machine: &Machine<Q, F>,
    ) -> Result<(), Self::Fault>
        requires in_step { in_step self.old }
        requires start { start_of entry ≡ tick self.old }
        requires some { 1 ≤ ticks_of entry }
        requires limit { tick self.old + ticks_of entry ≤ MAX_TICKS }
        requires task { IsEntryOf (count self.old) entry }
        requires behind { machine.now.tick ≡ tick self.old + ticks_of entry }
        requires tasks { length machine.now.tasks ≡ count self.old }
        ensures in_step { OnOk result (in_step self.new) }
        ensures clock { OnOk result (tick self.new ≡ tick self.old + ticks_of entry) }
        ensures count { count self.new ≡ count self.old }
        ensures kept { kept self.new ≡ kept self.old }
        ensures told { OnOk result ((first : Self) (set : TaskSet) (t : ℕ) → told first self.old set t → GoesOnBy set t entry → machine.now ≡ state_at set (t + ticks_of entry) →
            told first self.new set (t + ticks_of entry)) }
        ensures stopped { OnErr result ((first : Self) (set : TaskSet) (t : ℕ) → told first self.old set t → GoesOnBy set t entry → machine.now ≡ state_at set (t + ticks_of entry) →
            stopped first self.new set (t + ticks_of entry)) };

    /// Takes plain ticks of a task, 1 to `n` of them, and answers how many. It isn't called where they come as entries.
    fn add_plain(&mut self, task: u32, n: u64) -> Result<u64, Self::Fault>
        requires in_step { in_step self.old }
        requires some { 1 ≤ n }
        requires limit { tick self.old + n ≤ MAX_TICKS }
        requires task { task < count self.old }
        ensures some { IfOk result (λ k. 1 ≤ k) }
        ensures within { IfOk result (λ k. k ≤ n) }
        ensures in_step { plain ≡ true → OnOk result (in_step self.new) }
        ensures clock { plain ≡ true → IfOk result (λ k. tick self.new ≡ tick self.old + k) }
        ensures count { count self.new ≡ count self.old }
        ensures kept { kept self.new ≡ kept self.old }
        ensures told { plain ≡ true → IfOk result (λ k. (first : Self) (set : TaskSet) (t : ℕ) → told first self.old set t → ArePlain set t task k → told first self.new set (t + k)) }
        ensures stopped { plain ≡ true → OnErr result ((first : Self) (set : TaskSet) (t : ℕ) → told first self.old set t → ArePlain set t task n → stopped first self.new set (t + n)) };
}
