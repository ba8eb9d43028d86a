//! The loop that tells a listener what a machine does.

ghost use Rattle.std.specs.Prelude.{◌≡◌, ◌+◌, ◌<◌, ◌≤◌, ℕ, length, true, false, IfOk, OnOk, OnErr};
ghost use Rattle.rt_image.specs.SystemFile.{TaskSet};
ghost use Rattle.rt_history.specs.Legal.{state_at};
ghost use Rattle.rt_history.specs.Plain.{ArePlain};

use crate::listener::Listener;
use rt_core::{BEAT_TICKS, Beat, Machine};
use rt_exec::Fetcher;
use rt_queue::MinQueue;
use rt_words::MAX_TICKS;

/// Tells plain ticks, in as many steps as the listener takes.
#[inline(always)]
pub fn tell_plain<L: Listener>(listener: &mut L, task: u32, n: u64) -> Result<(), L::Fault>
    requires takes { L.plain ≡ true }
    requires in_step { L.in_step listener.old }
    requires limit { L.tick listener.old + n ≤ MAX_TICKS }
    requires task { 1 ≤ n → task < L.count listener.old }
    ensures in_step { OnOk result (L.in_step listener.new) }
    ensures clock { OnOk result (L.tick listener.new ≡ L.tick listener.old + n) }
    ensures count { L.count listener.new ≡ L.count listener.old }
    ensures kept { L.kept listener.new ≡ L.kept listener.old }
    ensures told { OnOk result ((first : L) (set : TaskSet) (t : ℕ) → L.told first listener.old set t → ArePlain set t task n →
        L.told first listener.new set (t + n)) }
    ensures stopped { OnErr result ((first : L) (set : TaskSet) (t : ℕ) → L.told first listener.old set t → ArePlain set t task n →
        L.stopped first listener.new set (t + n)) }
{
    let mut done = 0;
    'steps: while done < n {
        done += listener.add_plain(task, n - done)?;
    }
    Ok(())
}

/// Goes on by plain ticks before tick `n`, and tells them, where the listener takes them together. Whether the next entry comes by itself.
#[inline(always)]
fn go_plain<Q: MinQueue, F: Fetcher, L: Listener>(
    machine: &mut Machine<Q, F>,
    listener: &mut L,
    n: u64,
) -> Result<bool, L::Fault>
    requires limit { n ≤ MAX_TICKS }
    requires before { machine.old.tick ≤ n }
    requires in_step { L.in_step listener.old }
    requires together { L.tick listener.old ≡ machine.old.tick }
    requires count { L.count listener.old ≡ length machine.old.tasks }
    ensures within { machine.new.tick ≤ n }
    ensures later { machine.old.tick ≤ machine.new.tick }
    ensures onward { IfOk result (λ alone. alone ≡ false → machine.old.tick < machine.new.tick) }
    ensures in_step { OnOk result (L.in_step listener.new) }
    ensures together { OnOk result (L.tick listener.new ≡ machine.new.tick) }
    ensures counts { L.count listener.new ≡ length machine.new.tasks }
    ensures kept { L.kept listener.new ≡ L.kept listener.old }
    ensures stands { (set : TaskSet) → machine.old ≡ state_at set machine.old.tick → machine.new ≡ state_at set machine.new.tick }
    ensures told { OnOk result ((first : L) (set : TaskSet) → machine.old ≡ state_at set machine.old.tick → L.told first listener.old set machine.old.tick →
        L.told first listener.new set machine.new.tick) }
    ensures stopped { OnErr result ((first : L) (set : TaskSet) → machine.old ≡ state_at set machine.old.tick → L.told first listener.old set machine.old.tick →
        L.stopped first listener.new set machine.new.tick) }
{
    if !listener.takes_plain() {
        return Ok(true);
    }
    let ticks = machine.go_plain(n - machine.now());
    tell_plain(listener, ticks.task, ticks.count)?;
    Ok(ticks.stopped)
}

/// Goes on by the entry that comes next before tick `n`, and tells it.
#[inline(always)]
fn tell_entry<Q: MinQueue, F: Fetcher, L: Listener>(
    machine: &mut Machine<Q, F>,
    listener: &mut L,
    n: u64,
) -> Result<(), L::Fault>
    requires limit { n ≤ MAX_TICKS }
    requires before { machine.old.tick ≤ n }
    requires in_step { L.in_step listener.old }
    requires together { L.tick listener.old ≡ machine.old.tick }
    requires count { L.count listener.old ≡ length machine.old.tasks }
    ensures within { machine.new.tick ≤ n }
    ensures later { machine.old.tick ≤ machine.new.tick }
    ensures onward { machine.old.tick < n → machine.old.tick < machine.new.tick }
    ensures in_step { OnOk result (L.in_step listener.new) }
    ensures together { OnOk result (L.tick listener.new ≡ machine.new.tick) }
    ensures counts { L.count listener.new ≡ length machine.new.tasks }
    ensures kept { L.kept listener.new ≡ L.kept listener.old }
    ensures stands { (set : TaskSet) → machine.old ≡ state_at set machine.old.tick → machine.new ≡ state_at set machine.new.tick }
    ensures told { OnOk result ((first : L) (set : TaskSet) → machine.old ≡ state_at set machine.old.tick → L.told first listener.old set machine.old.tick →
        L.told first listener.new set machine.new.tick) }
    ensures stopped { OnErr result ((first : L) (set : TaskSet) → machine.old ≡ state_at set machine.old.tick → L.told first listener.old set machine.old.tick →
        L.stopped first listener.new set machine.new.tick) }
{
    match machine.advance(n - machine.now()) {
        Some(entry) => listener.add(entry, machine),
        None => Ok(()),
    }
}

/// Goes on to tick `n`, and tells a listener what happens: plain ticks of one task at once, and each other entry.
fn follow_part<Q: MinQueue, F: Fetcher, L: Listener>(
    machine: &mut Machine<Q, F>,
    listener: &mut L,
    n: u64,
) -> Result<(), L::Fault>
    requires limit { n ≤ MAX_TICKS }
    requires before { machine.old.tick ≤ n }
    requires in_step { L.in_step listener.old }
    requires together { L.tick listener.old ≡ machine.old.tick }
    requires count { L.count listener.old ≡ length machine.old.tasks }
    ensures arrives { OnOk result (machine.new.tick ≡ n) }
    ensures in_step { OnOk result (L.in_step listener.new) }
    ensures together { OnOk result (L.tick listener.new ≡ n) }
    ensures within { machine.new.tick ≤ n }
    ensures counts { L.count listener.new ≡ length machine.new.tasks }
    ensures kept { L.kept listener.new ≡ L.kept listener.old }
    ensures stands { (set : TaskSet) → machine.old ≡ state_at set machine.old.tick → machine.new ≡ state_at set machine.new.tick }
    ensures told { OnOk result ((first : L) (set : TaskSet) → machine.old ≡ state_at set machine.old.tick → L.told first listener.old set machine.old.tick →
        L.told first listener.new set n) }
    ensures stopped { OnErr result ((first : L) (set : TaskSet) → machine.old ≡ state_at set machine.old.tick → L.told first listener.old set machine.old.tick →
        L.stopped first listener.new set machine.new.tick) }
{
    'ticks: while machine.now() < n {
        if go_plain(machine, listener, n)? {
            tell_entry(machine, listener, n)?;
        }
    }
    Ok(())
}

/// Runs a machine to tick `n`, and tells a listener its history: plain ticks of one task at once, and each other entry. It beats on the way.
///
/// # Errors
///
/// The listener took no more. The machine stands where it said so.
pub fn follow<Q: MinQueue, F: Fetcher, L: Listener, B: Beat>(
    machine: &mut Machine<Q, F>,
    listener: &mut L,
    n: u64,
    beat: &B,
) -> Result<(), L::Fault>
    requires limit { n ≤ MAX_TICKS }
    requires before { machine.old.tick ≤ n }
    requires in_step { L.in_step listener.old }
    requires together { L.tick listener.old ≡ machine.old.tick }
    requires count { L.count listener.old ≡ length machine.old.tasks }
    ensures arrives { OnOk result (machine.new.tick ≡ n) }
    ensures in_step { OnOk result (L.in_step listener.new) }
    ensures together { OnOk result (L.tick listener.new ≡ n) }
    ensures within { machine.new.tick ≤ n }
    ensures counts { L.count listener.new ≡ length machine.new.tasks }
    ensures kept { L.kept listener.new ≡ L.kept listener.old }
    ensures stands { (set : TaskSet) → machine.old ≡ state_at set machine.old.tick → machine.new ≡ state_at set machine.new.tick }
    ensures told { OnOk result ((first : L) (set : TaskSet) → machine.old ≡ state_at set machine.old.tick → L.told first listener.old set machine.old.tick →
        L.told first listener.new set n) }
    ensures stopped { OnErr result ((first : L) (set : TaskSet) → machine.old ≡ state_at set machine.old.tick → L.told first listener.old set machine.old.tick →
        L.stopped first listener.new set machine.new.tick) }
{
    'parts: while machine.now() < n {
        let until = n.min(machine.now() + BEAT_TICKS);
        follow_part(machine, listener, until)?;
        beat.beat(until);
    }
    Ok(())
}

/// Goes on to tick `n`, and tells nobody.
fn go_part<Q: MinQueue, F: Fetcher>(machine: &mut Machine<Q, F>, n: u64)
    requires limit { n ≤ MAX_TICKS }
    requires before { machine.old.tick ≤ n }
    ensures arrives { machine.new.tick ≡ n }
    ensures stands { (set : TaskSet) → machine.old ≡ state_at set machine.old.tick → machine.new ≡ state_at set n }
{
    'quiet: while machine.now() < n {
        if machine.go_plain(n - machine.now()).stopped {
            machine.advance(n - machine.now());
        }
    }
}

/// Runs a machine to tick `n`, and tells nobody its history. It beats on the way.
pub fn go_to<Q: MinQueue, F: Fetcher, B: Beat>(machine: &mut Machine<Q, F>, n: u64, beat: &B)
    requires limit { n ≤ MAX_TICKS }
    requires before { machine.old.tick ≤ n }
    ensures arrives { machine.new.tick ≡ n }
    ensures stands { (set : TaskSet) → machine.old ≡ state_at set machine.old.tick → machine.new ≡ state_at set n }
{
    'parts: while machine.now() < n {
        let until = n.min(machine.now() + BEAT_TICKS);
        go_part(machine, until);
        beat.beat(until);
    }
}
