//! Ticks in which a task waits, cut where its job comes to be over its period.

ghost use Rattle.std.specs.Prelude.{◌≡◌, ◌+◌, ◌^◌, ◌-◌, ◌<◌, ◌≤◌, ◌++◌, ℕ, min, length, vec_len, vec_capacity};
ghost use Rattle.arrayvec.specs.ArrayVec.{array_vec_len};
ghost use Rattle.rt_words.specs.Limits.{tick_limit};
ghost use Rattle.rt_drawing.specs.Waits as waits;

use crate::job::Job;
use crate::stretch::Stretch;
use crate::window::Window;
use arrayvec::ArrayVec;

/// A wait, of which a part may be over the period.
pub type Wait = ArrayVec<Stretch, 2>;

/// Adds ticks from one on up to another, if there are any.
fn push_part(out: &mut Wait, over: bool, job: Job, from: u64, to: u64)
    requires { array_vec_len out.old < 2 }
    ensures parts { out.new.items ≡ out.old.items ++ waits.part over job from to }
    ensures room { array_vec_len out.new ≤ array_vec_len out.old + 1 }
{
    if from < to {
        out.push(Stretch {
            from,
            to,
            over,
            job,
        });
    }
}

/// The part of a wait up to tick `to` that a window shows: of a job that has waited since tick `since`, and is over its period from
/// tick `over_from` on, if ticks come so far.
pub(crate) fn wait_shown(window: &Window, over_from: u64, job: Job, since: u64, to: u64) -> Wait
    requires { to ≤ tick_limit }
    ensures { (first : ℕ) → over_from ≡ min first (2 ^ 64 - 1) → result.items ≡ waits.wait window.now first job since to }
{
    let from = since.max(window.from);
    let mut out = Wait::new();
    push_part(&mut out, false, job, from, to.min(over_from));
    push_part(&mut out, true, job, from.max(over_from), to);
    out
}

/// Adds ticks from one on up to another, if there are any, to stretches that have room for one more.
#[inline(always)]
fn keep_part(stretches: &mut Vec<Stretch>, over: bool, job: Job, from: u64, to: u64)
    requires { vec_len stretches.old < vec_capacity stretches.old }
    ensures parts { stretches.new.items ≡ stretches.old.items ++ waits.part over job from to }
    ensures len { vec_len stretches.new ≤ vec_len stretches.old + 1 }
    ensures capacity { vec_capacity stretches.new ≡ vec_capacity stretches.old }
{
    if from < to {
        stretches.push_reserved(Stretch {
            from,
            to,
            over,
            job,
        });
    }
}

/// Adds the same part of a wait to stretches that have room for two more.
#[inline(always)]
pub(crate) fn keep_wait(
    stretches: &mut Vec<Stretch>,
    window: &Window,
    over_from: u64,
    job: Job,
    since: u64,
    to: u64,
)
    requires limit { to ≤ tick_limit }
    requires room { vec_len stretches.old + 2 ≤ vec_capacity stretches.old }
    ensures parts { (first : ℕ) → over_from ≡ min first (2 ^ 64 - 1) → stretches.new.items ≡ stretches.old.items ++ waits.wait window.now first job since to }
    ensures len { length stretches.new.items ≤ length stretches.old.items + 2 }
{
    let from = since.max(window.from);
    keep_part(stretches, false, job, from, to.min(over_from));
    keep_part(stretches, true, job, from.max(over_from), to);
}
