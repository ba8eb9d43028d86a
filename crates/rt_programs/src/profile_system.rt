//! Where the ticks of a system went.

ghost use Rattle.std.specs.Prelude.{◌≡◌, ℕ, ◌<◌, ◌≤◌, length, false};
ghost use Rattle.rt_image.specs.SystemFile.{TaskSet};
ghost use Rattle.rt_history.specs.Legal.{state_at};
ghost use Rattle.rt_profile.specs.Standing.{profile_at};
ghost use Rattle.rt_opening.specs.Ends.{Ends};
ghost use Rattle.rt_programs.specs.Profiling.{ProfileMeans};

use rt_core::Machine;
use rt_exec::Fetcher;
use rt_follow::{BEAT_TICKS, Beat};
use rt_history::params_of;
use rt_image::read_system;
use rt_opening::{Admission, SimFault, answer, open_set};
use rt_profile::{Profile, ProfileForm};
use rt_queue::MinQueue;
use rt_sink::Sink;
use rt_words::MAX_TICKS;
use std::alloc::Global;

/// Goes on to tick `n`, and tells a profile each entry.
fn tell_part<Q: MinQueue, F: Fetcher>(
    machine: &mut Machine<Q, F>,
    profile: &mut Profile<'_, '_>,
    n: u64,
)
    requires limit { n ≤ MAX_TICKS }
    requires before { machine.old.tick ≤ n }
    requires together { profile.old.tick ≡ machine.old.tick }
    requires count { length profile.old.tasks ≡ length machine.old.tasks }
    ensures arrives { machine.new.tick ≡ n }
    ensures together { profile.new.tick ≡ n }
    ensures counts { length profile.new.tasks ≡ length machine.new.tasks }
    ensures stands { (set : TaskSet) → machine.old ≡ state_at set machine.old.tick → machine.new ≡ state_at set machine.new.tick }
    ensures told { (set : TaskSet) → machine.old ≡ state_at set machine.old.tick → profile.old ≡ profile_at set machine.old.tick →
        profile.new ≡ profile_at set machine.new.tick }
{
    'ticks: while machine.now() < n {
        if let Some(entry) = machine.advance(n - machine.now()) {
            profile.add(entry);
        }
    }
}

/// Runs a machine to tick `n`, and tells a profile each entry of its history. It beats on the way.
fn tell_entries<Q: MinQueue, F: Fetcher, B: Beat>(
    machine: &mut Machine<Q, F>,
    profile: &mut Profile<'_, '_>,
    n: u64,
    beat: &B,
)
    requires limit { n ≤ MAX_TICKS }
    requires before { machine.old.tick ≤ n }
    requires together { profile.old.tick ≡ machine.old.tick }
    requires count { length profile.old.tasks ≡ length machine.old.tasks }
    ensures { (set : TaskSet) → machine.old ≡ state_at set machine.old.tick → profile.old ≡ profile_at set machine.old.tick → profile.new ≡ profile_at set n }
{
    'parts: while machine.now() < n {
        let until = n.min(machine.now() + BEAT_TICKS);
        tell_part(machine, profile, until);
        beat.beat(until);
    }
}

/// Runs the system of a file (RTS1 or RTS2) for `n` ticks, at most 2^40, and writes where the ticks of each task went, in this
/// form. It beats while it runs. The answer is the text's length in bytes. No history is kept.
///
/// # Errors
///
/// In this order: the refusal of the file, that of admission, `ImageTooBig` or `BadEntry` of the first task with such a fault; or
/// there is no memory. Then the sink has taken nothing. `Device` where the sink failed: it took so many of the first bytes of the
/// text.
pub fn profile<S: Sink, B: Beat>(
    alloc: Global,
    bytes: &[u8],
    admission: Admission,
    n: u64,
    form: ProfileForm,
    out: &mut S,
    beat: &B,
) -> Result<u64, SimFault>
    requires { (S.seen out.old).failed ≡ false }
    ensures { Ends S.seen (ProfileMeans bytes.now admission n form) out.old result out.new }
{
    let system = read_system(alloc, bytes)?;
    let params = params_of(alloc, &system.tasks)?;
    let mut opened = open_set(alloc, admission, &system, &params)?;
    let mut profile = Profile::new(alloc, &system)?;
    tell_entries(&mut opened.machine, &mut profile, n.min(MAX_TICKS), beat);
    answer(profile.write_text(form, out))
}
