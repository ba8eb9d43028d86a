//! A program is run alone, once, and its jobs are compared with limits.
ghost use Rattle.std.specs.Prelude.{◌≡◌, ℕ, ◌+◌, ◌^◌, ◌<◌, ◌≤◌, ◌⊎◌, [], ◌∷◌, length, slice_get, true, false, Some, None, IfSome, OnOk, IfOk, IfErr};
ghost use Rattle.rt_image.specs.SystemFile.{SetTask, TaskSet};
ghost use Rattle.rt_history.specs.Legal.{legal, state_at};
ghost use Rattle.rt_history.specs.OwnPart.{own, TaskState};
ghost use Rattle.rt_history.specs.Program.{origin};
ghost use Rattle.rt_certify.specs.Opened.{most_ticks};
ghost use Rattle.rt_certify.specs.Certified.{IsCertificate};
ghost use Rattle.rt_certify.specs.Extremes.{IsPlacedCertificate};
ghost use Rattle.rt_certify.specs.Refused.{IsRefused};
ghost use Rattle.rt_certify.specs.Working.Trying.{StandsAt, IsStopAt, EndsBy};

use crate::certificate::{Certificate, Limits, NotCertified, PlacedCertificate};
use crate::trial::{Stop, Trial};
use rt_core::{BEAT_TICKS, Beat, Machine};
use rt_exec::Fetcher;
use rt_history::Entry;
use rt_queue::MinQueue;
use rt_words::MAX_TICKS;

/// The address of the next instruction of the one task.
fn pc_of<Q: MinQueue, F: Fetcher>(machine: &Machine<Q, F>) -> u32
    requires { length machine.now.tasks ≡ 1 }
    ensures { (x : TaskState) → slice_get machine.now.tasks 0 ≡ Some x → x.program.state.pc ≡ result }
{
    match machine.view(0) {
        Some(view) => view.pc,
        None => 0,
    }
}

/// Tells a trial the entry that comes next.
fn tell_entry<Q: MinQueue, F: Fetcher>(
    machine: &mut Machine<Q, F>,
    trial: &mut Trial,
) -> Result<(), Stop>
    requires one { length machine.old.tasks ≡ 1 }
    requires some { trial.old.ticks < most_ticks trial.old.limits }
    requires room { trial.old.jobs + 1 < 2 ^ 64 }
    ensures one { length machine.new.tasks ≡ 1 }
    ensures within { machine.new.tick ≤ MAX_TICKS }
    ensures later { machine.old.tick ≤ machine.new.tick }
    ensures onward { machine.old.tick < MAX_TICKS → machine.old.tick < machine.new.tick }
    ensures limits { trial.new.limits ≡ trial.old.limits }
    ensures jobs { trial.new.jobs ≤ trial.old.jobs + 1 }
    ensures machine { (set : TaskSet) → machine.old ≡ state_at set machine.old.tick → machine.new ≡ state_at set machine.new.tick }
    ensures stands { OnOk result ((set : TaskSet) (s : SetTask) → machine.old ≡ state_at set machine.old.tick → set.tasks ≡ s ∷ [] →
        StandsAt set s trial.old.limits machine.old.tick trial.old → StandsAt set s trial.old.limits machine.new.tick trial.new) }
    ensures ended { IfErr result (EndsBy (trial.old.jobs + 1)) }
    ensures stops { IfErr result (λ stop. (set : TaskSet) (s : SetTask) → machine.old ≡ state_at set machine.old.tick → set.tasks ≡ s ∷ [] →
        StandsAt set s trial.old.limits machine.old.tick trial.old → IsStopAt set s trial.old.limits stop) }
{
    let Some(entry) = machine.advance(MAX_TICKS) else {
        return Ok(());
    };
    match entry {
        Entry::Busy { rec, .. } => trial.add(rec.pc, rec.outcome),
        Entry::Idle { .. } => Ok(()),
    }
}

/// Goes on by plain ticks of the open job, as many as it may still have, and tells them to a trial. Whether the entry that comes next is
/// better reported by itself.
fn tell_plain<Q: MinQueue, F: Fetcher>(machine: &mut Machine<Q, F>, trial: &mut Trial) -> bool
    requires { length machine.old.tasks ≡ 1 }
    ensures one { length machine.new.tasks ≡ 1 }
    ensures within { machine.new.tick ≤ MAX_TICKS }
    ensures later { machine.old.tick ≤ machine.new.tick }
    ensures onward { result ≡ false → machine.old.tick < machine.new.tick }
    ensures limits { trial.new.limits ≡ trial.old.limits }
    ensures jobs { trial.new.jobs ≡ trial.old.jobs }
    ensures ticks { trial.new.ticks + machine.old.tick ≡ trial.old.ticks + machine.new.tick }
    ensures machine { (set : TaskSet) → machine.old ≡ state_at set machine.old.tick → machine.new ≡ state_at set machine.new.tick }
    ensures stands { (set : TaskSet) (s : SetTask) → machine.old ≡ state_at set machine.old.tick → set.tasks ≡ s ∷ [] →
        StandsAt set s trial.old.limits machine.old.tick trial.old → StandsAt set s trial.old.limits machine.new.tick trial.new }
{
    let ticks = machine.go_plain(trial.left().min(BEAT_TICKS));
    trial.add_plain(ticks.count);
    ticks.stopped
}

/// Goes on by some ticks, and tells them to a trial. Whether the open job may have one more is tested before an attempt.
fn go_on<Q: MinQueue, F: Fetcher>(
    machine: &mut Machine<Q, F>,
    trial: &mut Trial,
) -> Result<(), Stop>
    requires one { length machine.old.tasks ≡ 1 }
    requires before { machine.old.tick < MAX_TICKS }
    requires room { trial.old.jobs + 1 < 2 ^ 64 }
    ensures one { length machine.new.tasks ≡ 1 }
    ensures within { machine.new.tick ≤ MAX_TICKS }
    ensures onward { OnOk result (machine.old.tick < machine.new.tick) }
    ensures limits { trial.new.limits ≡ trial.old.limits }
    ensures jobs { trial.new.jobs ≤ trial.old.jobs + 1 }
    ensures machine { (set : TaskSet) → machine.old ≡ state_at set machine.old.tick → machine.new ≡ state_at set machine.new.tick }
    ensures stands { OnOk result ((set : TaskSet) (s : SetTask) → machine.old ≡ state_at set machine.old.tick → set.tasks ≡ s ∷ [] →
        StandsAt set s trial.old.limits machine.old.tick trial.old → StandsAt set s trial.old.limits machine.new.tick trial.new) }
    ensures ended { IfErr result (EndsBy (trial.old.jobs + 1)) }
    ensures stops { IfErr result (λ stop. (set : TaskSet) (s : SetTask) → machine.old ≡ state_at set machine.old.tick → set.tasks ≡ s ∷ [] →
        StandsAt set s trial.old.limits machine.old.tick trial.old → IsStopAt set s trial.old.limits stop) }
{
    if trial.left() == 0 {
        return Err(Stop::Refused(trial.over_budget(pc_of(machine))));
    }
    if tell_plain(machine, trial) && trial.left() > 0 {
        return tell_entry(machine, trial);
    }
    Ok(())
}

/// Goes on until so many jobs are finished, or to the last tick. It beats on the way.
fn run<Q: MinQueue, F: Fetcher, B: Beat>(
    machine: &mut Machine<Q, F>,
    trial: &mut Trial,
    jobs: u64,
    beat: &B,
) -> Result<(), Stop>
    requires one { length machine.old.tasks ≡ 1 }
    requires few { trial.old.jobs ≤ jobs }
    ensures limits { trial.new.limits ≡ trial.old.limits }
    ensures jobs { OnOk result (trial.new.jobs ≤ jobs) }
    ensures done { OnOk result ((trial.new.jobs ≡ jobs) ⊎ (machine.new.tick ≡ MAX_TICKS)) }
    ensures stands { OnOk result ((set : TaskSet) (s : SetTask) → machine.old ≡ state_at set machine.old.tick → set.tasks ≡ s ∷ [] →
        StandsAt set s trial.old.limits machine.old.tick trial.old → StandsAt set s trial.old.limits machine.new.tick trial.new) }
    ensures ended { IfErr result (EndsBy jobs) }
    ensures stops { IfErr result (λ stop. (set : TaskSet) (s : SetTask) → machine.old ≡ state_at set machine.old.tick → set.tasks ≡ s ∷ [] →
        StandsAt set s trial.old.limits machine.old.tick trial.old → IsStopAt set s trial.old.limits stop) }
{
    let mut next = BEAT_TICKS;
    'jobs: while trial.jobs() < jobs && machine.now() < MAX_TICKS {
        go_on(machine, trial)?;
        if machine.now() >= next {
            beat.beat(machine.now());
            next = machine.now() + BEAT_TICKS;
        }
    }
    Ok(())
}

/// Runs the one task of a machine from its first tick on, until `jobs` jobs are finished, and compares each with the limits. The start is
/// that of the task, a tick. The certificate holds of the task's program alone, so in each set. It covers fewer jobs only where the
/// program has ended, or where tick 2^40 is reached. The jobs that have its numbers are told beside it. Takes no memory. It beats on the way.
///
/// # Errors
///
/// The first attempt that would break the limits, or that yields, faults, or asks for an answer; before it the budget is tested. The
/// program is certified for the jobs before it, and not for its own.
pub fn certify_where<Q: MinQueue, F: Fetcher, B: Beat>(
    machine: &mut Machine<Q, F>,
    start: u32,
    limits: Limits,
    jobs: u64,
    beat: &B,
) -> Result<PlacedCertificate, NotCertified>
    requires { length machine.old.tasks ≡ 1 }
    ensures jobs { IfOk result (λ p. p.certificate.jobs ≤ jobs) }
    ensures all { IfOk result (λ p. (p.certificate.jobs ≡ jobs) ⊎ ((p.certificate.next ≡ None) ⊎ (machine.new.tick ≡ MAX_TICKS))) }
    ensures certified { IfOk result (λ p. (set : TaskSet) (s : SetTask) → machine.old ≡ state_at set 0 → set.tasks ≡ s ∷ [] → s.start ≡ start →
        (k : ℕ) × IsPlacedCertificate (origin s) start limits k p × IfSome p.certificate.next (λ w. k ≡ length (own 0 (legal set machine.new.tick)))) }
    ensures refused { IfErr result (λ e. (set : TaskSet) (s : SetTask) → machine.old ≡ state_at set 0 → set.tasks ≡ s ∷ [] → s.start ≡ start →
        (k : ℕ) × IsRefused (origin s) start limits k e) }
{
    let mut trial = Trial::begin(start, limits);
    match run(machine, &mut trial, jobs, beat) {
        Ok(()) => Ok(trial.so_far()),
        Err(Stop::Ended(placed)) => Ok(placed),
        Err(Stop::Refused(fault)) => Err(fault),
    }
}

/// The certificate alone.
///
/// # Errors
///
/// As those of `certify_where`.
pub fn certify<Q: MinQueue, F: Fetcher, B: Beat>(
    machine: &mut Machine<Q, F>,
    start: u32,
    limits: Limits,
    jobs: u64,
    beat: &B,
) -> Result<Certificate, NotCertified>
    requires { length machine.old.tasks ≡ 1 }
    ensures jobs { IfOk result (λ c. c.jobs ≤ jobs) }
    ensures all { IfOk result (λ c. (c.jobs ≡ jobs) ⊎ ((c.next ≡ None) ⊎ (machine.new.tick ≡ MAX_TICKS))) }
    ensures certified { IfOk result (λ c. (set : TaskSet) (s : SetTask) → machine.old ≡ state_at set 0 → set.tasks ≡ s ∷ [] → s.start ≡ start →
        (k : ℕ) × IsCertificate (origin s) start limits k c × IfSome c.next (λ w. k ≡ length (own 0 (legal set machine.new.tick)))) }
    ensures refused { IfErr result (λ e. (set : TaskSet) (s : SetTask) → machine.old ≡ state_at set 0 → set.tasks ≡ s ∷ [] → s.start ≡ start →
        (k : ℕ) × IsRefused (origin s) start limits k e) }
{
    Ok(certify_where(machine, start, limits, jobs, beat)?.certificate)
}
