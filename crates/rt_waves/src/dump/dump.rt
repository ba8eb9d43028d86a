//! The waves of a run, as the machine goes on.

ghost use Rattle.std.specs.Prelude.{◌≡◌, ℕ, ◌+◌, ◌-◌, ◌*◌, ◌^◌, ◌<◌, ◌≤◌, ◌++◌, [], length, slice_get, Some, false};
ghost use Rattle.std.specs.List.{flat_map, range_with_len};
ghost use Rattle.rt_image.specs.SystemFile.{TaskSet};
ghost use Rattle.rt_history.specs.declared.record.Entry.TheVariants as entries;
ghost use Rattle.rt_history.specs.Entries.{GoesOnBy};
ghost use Rattle.rt_history.specs.Legal.{state_at};
ghost use Rattle.rt_history.specs.OwnPart.{TaskState};
ghost use Rattle.rt_sink.specs.Offers.{Offers};
ghost use Rattle.rt_waves.specs.Standing.{waves_at, told_block};
ghost use Rattle.rt_waves.specs.dump.Dumping.{Dumps};
ghost use Rattle.rt_waves.specs.dump.Working.Filling.{IsDumped};

use crate::{PAGE_LEN, Page, Place, Scale, TIMES_ROOM, Waves};
use rt_core::{BEAT_TICKS, Beat, Machine};
use rt_exec::Fetcher;
use rt_history::{Attempt, Entry};
use rt_names::TaskNames;
use rt_queue::MinQueue;
use rt_sink::{DeviceFault, Sink, Writer};
use rt_words::MAX_TICKS;

/// Where a task of a machine stands.
#[inline(always)]
fn place_of<Q: MinQueue, F: Fetcher>(machine: &Machine<Q, F>, task: u32) -> Place
    requires { task < length machine.now.tasks }
    ensures { (x : TaskState) → slice_get machine.now.tasks task ≡ Some x → (result.pc ≡ x.program.state.pc) × (result.output ≡ length x.program.output) }
{
    let view = machine.view(task).unwrap();
    let output = machine.output(task).unwrap();
    Place {
        pc: view.pc,
        output: output.len() as u32,
    }
}

/// Puts the block of a busy tick, with whose record the machine has gone on.
#[inline(always)]
fn put_busy<Q: MinQueue, F: Fetcher>(
    machine: &Machine<Q, F>,
    waves: &mut Waves<'_, '_>,
    attempt: &Attempt,
    page: &mut Page<'_>,
)
    requires limit { waves.old.tick < MAX_TICKS }
    requires count { length waves.old.tasks ≡ length machine.now.tasks }
    requires task { attempt.now.task < length machine.now.tasks }
    requires room { length page.old + TIMES_ROOM ≤ PAGE_LEN }
    ensures clock { waves.new.tick ≡ waves.old.tick + 1 }
    ensures counts { length waves.new.tasks ≡ length waves.old.tasks }
    ensures short { length page.new ≤ length page.old + TIMES_ROOM }
    ensures stands { (set : TaskSet) (from t : ℕ) → waves.old ≡ waves_at set from t → GoesOnBy set t (entries.Busy t attempt.now) → machine.now ≡ state_at set (t + 1) →
        waves.new ≡ waves_at set from (t + 1) }
    ensures text { (set : TaskSet) (from t : ℕ) → waves.old ≡ waves_at set from t → GoesOnBy set t (entries.Busy t attempt.now) → machine.now ≡ state_at set (t + 1) →
        page.new ≡ page.old ++ flat_map (told_block set from) (range_with_len t (machine.now.tick - t)) }
{
    let place = place_of(machine, attempt.task);
    waves.add_busy(attempt, place, page);
}

/// Goes on by the entry that comes next before tick `end`, and puts the blocks of its times.
#[inline(always)]
fn put_entry<Q: MinQueue, F: Fetcher>(
    machine: &mut Machine<Q, F>,
    waves: &mut Waves<'_, '_>,
    end: u64,
    page: &mut Page<'_>,
)
    requires limit { end ≤ MAX_TICKS }
    requires before { machine.old.tick ≤ end }
    requires together { waves.old.tick ≡ machine.old.tick }
    requires count { length waves.old.tasks ≡ length machine.old.tasks }
    requires room { length page.old + TIMES_ROOM ≤ PAGE_LEN }
    ensures within { machine.new.tick ≤ end }
    ensures onward { machine.old.tick < end → machine.old.tick < machine.new.tick }
    ensures together { waves.new.tick ≡ machine.new.tick }
    ensures counts { length waves.new.tasks ≡ length machine.new.tasks }
    ensures short { length page.new ≤ length page.old + TIMES_ROOM }
    ensures stands { (set : TaskSet) → machine.old ≡ state_at set machine.old.tick → machine.new ≡ state_at set machine.new.tick }
    ensures told { (set : TaskSet) (from : ℕ) → machine.old ≡ state_at set machine.old.tick → waves.old ≡ waves_at set from machine.old.tick →
        waves.new ≡ waves_at set from machine.new.tick }
    ensures text { (set : TaskSet) (from : ℕ) → machine.old ≡ state_at set machine.old.tick → waves.old ≡ waves_at set from machine.old.tick →
        page.new ≡ page.old ++ flat_map (told_block set from) (range_with_len machine.old.tick (machine.new.tick - machine.old.tick)) }
{
    match machine.advance(end - machine.now()) {
        Some(Entry::Busy { rec, .. }) => {
            put_busy(machine, waves, &rec, page);
        }
        Some(Entry::Idle { n, .. }) => waves.add_idle(n, page),
        None => {}
    }
}

/// Runs a machine on towards tick `end`, and fills an empty page with the blocks of the times.
#[inline(always)]
fn fill_page<Q: MinQueue, F: Fetcher>(
    machine: &mut Machine<Q, F>,
    waves: &mut Waves<'_, '_>,
    end: u64,
    page: &mut Page<'_>,
)
    requires empty { page.old ≡ [] }
    requires limit { end ≤ MAX_TICKS }
    requires before { machine.old.tick < end }
    requires together { waves.old.tick ≡ machine.old.tick }
    requires count { length waves.old.tasks ≡ length machine.old.tasks }
    ensures within { machine.new.tick ≤ end }
    ensures onward { machine.old.tick < machine.new.tick }
    ensures together { waves.new.tick ≡ machine.new.tick }
    ensures counts { length waves.new.tasks ≡ length machine.new.tasks }
    ensures short { length page.new + TIMES_ROOM * machine.old.tick ≤ TIMES_ROOM * machine.new.tick }
    ensures told { (set : TaskSet) (from : ℕ) → machine.old ≡ state_at set machine.old.tick → waves.old ≡ waves_at set from machine.old.tick →
        IsDumped set from machine.old.tick page.new machine.new waves.new }
{
    'ticks: while machine.now() < end && page.has_room() {
        put_entry(machine, waves, end, page);
    }
}

/// Runs a machine to tick `end`, and offers the blocks of all times in the window. It stops where the sink fails, and beats on the way.
fn offer_blocks<Q: MinQueue, F: Fetcher, S: Sink, B: Beat>(
    machine: &mut Machine<Q, F>,
    waves: &mut Waves<'_, '_>,
    end: u64,
    room: &mut [u8; PAGE_LEN],
    writer: &mut Writer<'_, S>,
    beat: &B,
)
    requires limit { end ≤ MAX_TICKS }
    requires start { machine.old.tick ≡ 0 }
    requires together { waves.old.tick ≡ 0 }
    requires count { length waves.old.tasks ≡ length machine.old.tasks }
    requires room { writer.old.written ≤ 2 ^ 17 }
    ensures bound { writer.new.written ≤ 2 ^ 59 }
    ensures same { writer.new.sink.ghost_name ≡ writer.old.sink.ghost_name }
    ensures end { (S.seen writer.new.sink.now).failed ≡ false → waves.new.tick ≡ end }
    ensures offers { (set : TaskSet) (from : ℕ) → machine.old ≡ state_at set 0 → waves.old ≡ waves_at set from 0 →
        Offers S.seen writer.old.written writer.old.sink.now (flat_map (told_block set from) (range_with_len 0 end)) writer.new.written writer.new.sink.now }
{
    let mut page = Page::new(room);
    'pages: while machine.now() < end && !writer.has_failed() {
        let until = end.min(machine.now() + BEAT_TICKS);
        fill_page(machine, waves, until, &mut page);
        writer.put(page.text());
        page.clear();
        beat.beat(machine.now());
    }
}

/// Runs a machine from tick 0 to tick `end`, and offers the whole text of its waves.
fn offer_text<Q: MinQueue, F: Fetcher, S: Sink, B: Beat>(
    machine: &mut Machine<Q, F>,
    waves: &mut Waves<'_, '_>,
    scale: &Scale,
    names: &TaskNames<'_>,
    end: u64,
    room: &mut [u8; PAGE_LEN],
    writer: &mut Writer<'_, S>,
    beat: &B,
) -> Result<u64, DeviceFault>
    requires limit { end ≤ MAX_TICKS }
    requires start { machine.old.tick ≡ 0 }
    requires together { waves.old.tick ≡ 0 }
    requires count { length waves.old.tasks ≡ length machine.old.tasks }
    requires written { writer.old.written ≡ 0 }
    requires is_open { (S.seen writer.old.sink.now).failed ≡ false }
    ensures same { writer.new.sink.ghost_name ≡ writer.old.sink.ghost_name }
    ensures counts { Dumps S.seen writer.old.sink.now scale.now names.now machine.old waves.old end result writer.new.sink.now }
{
    waves.offer_head(scale, names, writer);
    offer_blocks(machine, waves, end, room, writer, beat);
    waves.offer_end(writer);
    writer.end()
}

/// Runs a machine from tick 0 to tick `end`, at most 2^40, and writes the text of its waves to a sink: the head, whose scopes have the
/// tasks' names if no two are the same, the blocks of the times in the window, which ends there, and the last line. The answer is the text's length in bytes. The run ends where the sink fails.
/// Takes no memory: the text is gathered in this room. It beats on the way.
///
/// # Errors
///
/// The sink failed. `written` is how many of the first bytes of the text it took.
pub fn write_waves<Q: MinQueue, F: Fetcher, S: Sink, B: Beat>(
    machine: &mut Machine<Q, F>,
    waves: &mut Waves<'_, '_>,
    scale: &Scale,
    names: &TaskNames<'_>,
    end: u64,
    room: &mut [u8; PAGE_LEN],
    out: &mut S,
    beat: &B,
) -> Result<u64, DeviceFault>
    requires limit { end ≤ MAX_TICKS }
    requires start { machine.old.tick ≡ 0 }
    requires together { waves.old.tick ≡ 0 }
    requires count { length waves.old.tasks ≡ length machine.old.tasks }
    requires is_open { (S.seen out.old).failed ≡ false }
    ensures { Dumps S.seen out.old scale.now names.now machine.old waves.old end result out.new }
{
    let mut writer = Writer {
        sink: out,
        written: 0,
    };
    offer_text(machine, waves, scale, names, end, room, &mut writer, beat)
}
