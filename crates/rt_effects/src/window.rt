//! The lines of a window of ticks, as a machine goes on.

ghost use Rattle.std.specs.Prelude.{◌≡◌, ℕ, ◌+◌, ◌-◌, ◌*◌, ◌<◌, ◌≤◌, ◌++◌, [], length, slice_get, false, Some};
ghost use Rattle.rt_sink.specs.Offers.{Offers};
ghost use Rattle.rt_sink.specs.Sink.{Counts};
ghost use Rattle.rt_image.specs.SystemFile.{SetTask, TaskSet};
ghost use Rattle.rt_history.specs.OwnPart.{TaskState};
ghost use Rattle.rt_history.specs.Legal.{record_at, state_at};
ghost use Rattle.rt_history.specs.declared.record.Attempt.{Attempt};
ghost use Rattle.rt_history.specs.declared.record.Record.TheVariants as records;
ghost use Rattle.rt_effects.specs.TraceText.{words_in, state_before, attempt_line, idle_line, is_asked, entry_line, trace_text};
ghost use Rattle.rt_effects.specs.Working.Window.{IsCut, IsTold, Ends, text_to};
ghost use Rattle.rt_history.specs.Entries.{IsEntryOf, start_of};

use crate::page::{LINE_ROOM, PAGE_LEN, Page};
use crate::scratch::Scratch;
use crate::teller::Teller;
use crate::trace_line::{TRACE_LINE_LEN, TraceLine, push_idle};
use rt_core::{Machine, Next};
use rt_exec::Fetcher;
use rt_history::{Attempt, Entry};
use rt_queue::MinQueue;
use rt_sink::{DeviceFault, Sink, Writer};
use rt_words::MAX_TICKS;

/// Copies the registers of a task, where there is one.
#[inline(always)]
fn copy_registers<Q: MinQueue, F: Fetcher>(machine: &Machine<Q, F>, task: u32, x: &mut [u32; 32])
    ensures { (s : TaskState) → slice_get machine.now.tasks task ≡ Some s → x.new ≡ s.program.state.x }
{
    if let Some(view) = machine.view(task) {
        *x = *view.x;
    }
}

/// Copies the registers of the task that is named, where one is.
#[inline(always)]
fn copy_named<Q: MinQueue, F: Fetcher>(machine: &Machine<Q, F>, x: &mut [u32; 32])
    ensures { (a : Attempt) (s : TaskState) → machine.now.tick < MAX_TICKS → records.Busy a ≡ record_at machine.now →
        slice_get machine.now.tasks a.task ≡ Some s → x.new ≡ s.program.state.x }
{
    match machine.next() {
        Next::Run { task, .. } => copy_registers(machine, task, x),
        Next::Idle => {}
    }
}

/// Whether a task is the one that is asked for.
#[inline(never)]
fn is_the_one(asked: Option<u32>, task: u32) -> bool
    ensures { result ≡ is_asked asked task }
{
    match asked {
        Some(one) => one == task,
        None => true,
    }
}

/// Whether the ticks of a task are asked for: of all tasks, or of one.
#[inline(always)]
fn is_asked(asked: Option<u32>, task: u32) -> bool
    ensures { result ≡ is_asked asked task }
{
    match asked {
        Some(_) => is_the_one(asked, task),
        None => true,
    }
}

/// Puts the line of the attempt of tick `t`, after which the machine stands.
#[inline(always)]
fn put_attempt<Q: MinQueue, F: Fetcher>(
    page: &mut Page<'_>,
    scratch: &mut Scratch,
    teller: &mut Teller<'_, '_>,
    machine: &Machine<Q, F>,
    t: u64,
    rec: Attempt,
)
    requires limit { t ≤ MAX_TICKS }
    requires task { rec.task < length machine.now.tasks }
    requires count { length teller.old ≡ length machine.now.tasks }
    requires room { length page.old + LINE_ROOM ≤ PAGE_LEN }
    ensures words { teller.new ≡ teller.old }
    ensures text { (set : TaskSet) (s : SetTask) → teller.old ≡ words_in set → slice_get set.tasks rec.task ≡ Some s →
        machine.now ≡ state_at set (t + 1) → scratch.old.before ≡ (state_before set t rec.task s).x → page.new ≡ page.old ++ attempt_line set t rec s }
    ensures short { length page.new ≤ length page.old + TRACE_LINE_LEN }
{
    let view = machine.view(rec.task).unwrap();
    teller.put_tick(page, scratch, t, rec, view.pc, view.x);
}

/// Builds up the line of an idle stretch.
#[cold]
#[inline(never)]
fn tell_idle(line: &mut TraceLine, t: u64, n: u64)
    ensures { line.new.items ≡ idle_line t n }
{
    line.clear();
    push_idle(line, t, n);
}

/// Puts the line of an entry, after which the machine stands, if it is asked for.
#[inline(always)]
fn put_entry<Q: MinQueue, F: Fetcher>(
    page: &mut Page<'_>,
    scratch: &mut Scratch,
    teller: &mut Teller<'_, '_>,
    machine: &Machine<Q, F>,
    asked: Option<u32>,
    entry: Entry,
)
    requires limit { start_of entry ≤ MAX_TICKS }
    requires task { IsEntryOf (length machine.now.tasks) entry }
    requires count { length teller.old ≡ length machine.now.tasks }
    requires room { length page.old + LINE_ROOM ≤ PAGE_LEN }
    ensures words { teller.new ≡ teller.old }
    ensures text { (set : TaskSet) → teller.old ≡ words_in set → Ends set entry machine.now scratch.old.before → page.new ≡ page.old ++ entry_line set asked entry }
    ensures short { length page.new ≤ length page.old + TRACE_LINE_LEN }
{
    match entry {
        Entry::Busy { t, rec } => {
            if is_asked(asked, rec.task) {
                put_attempt(page, scratch, teller, machine, t, rec);
            }
        }
        Entry::Idle { t, n } => {
            if asked.is_none() {
                tell_idle(&mut scratch.line, t, n);
                page.put_text(&scratch.line);
            }
        }
    }
}

/// Goes on by the entry that comes next before tick `n`, and puts its line, if it is asked for.
#[inline(always)]
fn put_next<Q: MinQueue, F: Fetcher>(
    page: &mut Page<'_>,
    scratch: &mut Scratch,
    teller: &mut Teller<'_, '_>,
    machine: &mut Machine<Q, F>,
    asked: Option<u32>,
    n: u64,
)
    requires limit { n ≤ MAX_TICKS }
    requires before { machine.old.tick < n }
    requires count { length teller.old ≡ length machine.old.tasks }
    requires room { length page.old + LINE_ROOM ≤ PAGE_LEN }
    ensures within { machine.new.tick ≤ n }
    ensures onward { machine.old.tick < machine.new.tick }
    ensures count { length machine.new.tasks ≡ length machine.old.tasks }
    ensures words { teller.new ≡ teller.old }
    ensures short { length page.new ≤ length page.old + TRACE_LINE_LEN }
    ensures told { (set : TaskSet) (from t : ℕ) → teller.old ≡ words_in set → from ≤ machine.old.tick →
        IsTold set asked from n t page.old machine.old → IsTold set asked from n t page.new machine.new }
{
    copy_named(machine, &mut scratch.before);
    if let Some(entry) = machine.advance(n - machine.now()) {
        put_entry(page, scratch, teller, machine, asked, entry);
    }
}

/// Runs a machine on towards tick `n`, and fills an empty page with the lines that are asked for.
#[inline(always)]
fn fill_page<Q: MinQueue, F: Fetcher>(
    page: &mut Page<'_>,
    scratch: &mut Scratch,
    teller: &mut Teller<'_, '_>,
    machine: &mut Machine<Q, F>,
    asked: Option<u32>,
    n: u64,
)
    requires empty { page.old ≡ [] }
    requires limit { n ≤ MAX_TICKS }
    requires before { machine.old.tick < n }
    requires count { length teller.old ≡ length machine.old.tasks }
    ensures within { machine.new.tick ≤ n }
    ensures onward { machine.old.tick < machine.new.tick }
    ensures count { length machine.new.tasks ≡ length machine.old.tasks }
    ensures words { teller.new ≡ teller.old }
    ensures short { length page.new + TRACE_LINE_LEN * machine.old.tick ≤ TRACE_LINE_LEN * machine.new.tick }
    ensures told { (set : TaskSet) (from : ℕ) → teller.old ≡ words_in set → from ≤ machine.old.tick → machine.old ≡ state_at set machine.old.tick →
        IsCut set from machine.old.tick → IsTold set asked from n machine.old.tick page.new machine.new }
{
    'ticks: while machine.now() < n && page.has_room() {
        put_next(page, scratch, teller, machine, asked, n);
    }
}

/// Runs a machine to tick `n`, and offers the lines that are asked for. It stops where the sink fails.
fn offer_ticks<Q: MinQueue, F: Fetcher, S: Sink>(
    writer: &mut Writer<'_, S>,
    teller: &mut Teller<'_, '_>,
    machine: &mut Machine<Q, F>,
    asked: Option<u32>,
    n: u64,
)
    requires limit { n ≤ MAX_TICKS }
    requires before { machine.old.tick ≤ n }
    requires start { writer.old.written ≡ 0 }
    requires count { length teller.old ≡ length machine.old.tasks }
    ensures same { writer.new.sink.ghost_name ≡ writer.old.sink.ghost_name }
    ensures words { teller.new ≡ teller.old }
    ensures offers { (set : TaskSet) → teller.old ≡ words_in set → machine.old ≡ state_at set machine.old.tick →
        Offers S.seen 0 writer.old.sink.now (text_to set asked machine.old.tick n) writer.new.written writer.new.sink.now }
{
    let mut bytes = [0; PAGE_LEN];
    let mut page = Page::new(&mut bytes);
    let mut scratch = Scratch::new();
    'pages: while machine.now() < n && !writer.has_failed() {
        fill_page(&mut page, &mut scratch, teller, machine, asked, n);
        writer.put(page.text());
        page.clear();
    }
}

/// Runs a machine to tick `n`, offers the lines that are asked for, and answers how much of them was taken.
fn offer_window<Q: MinQueue, F: Fetcher, S: Sink>(
    writer: &mut Writer<'_, S>,
    teller: &mut Teller<'_, '_>,
    machine: &mut Machine<Q, F>,
    asked: Option<u32>,
    n: u64,
) -> Result<u64, DeviceFault>
    requires limit { n ≤ MAX_TICKS }
    requires before { machine.old.tick ≤ n }
    requires start { writer.old.written ≡ 0 }
    requires count { length teller.old ≡ length machine.old.tasks }
    requires is_open { (S.seen writer.old.sink.now).failed ≡ false }
    ensures same { writer.new.sink.ghost_name ≡ writer.old.sink.ghost_name }
    ensures words { teller.new ≡ teller.old }
    ensures counts { (set : TaskSet) → teller.old ≡ words_in set → machine.old ≡ state_at set machine.old.tick →
        Counts S.seen writer.old.sink.now (trace_text set machine.old.tick (n - machine.old.tick) asked) result writer.new.sink.now }
{
    offer_ticks(writer, teller, machine, asked, n);
    writer.end()
}

/// Runs a machine from its tick to tick `n`, at most 2^40, and writes what each of these ticks did: a line for each attempt, of all tasks
/// or of the one that is asked for, and for all tasks one for each idle stretch too. The answer is the text's length in bytes. Takes no
/// memory.
///
/// # Errors
///
/// The sink failed: it took so many of the first bytes of the text, and the run has stopped there.
pub fn write_ticks<Q: MinQueue, F: Fetcher, S: Sink>(
    machine: &mut Machine<Q, F>,
    teller: &mut Teller<'_, '_>,
    n: u64,
    asked: Option<u32>,
    out: &mut S,
) -> Result<u64, DeviceFault>
    requires limit { n ≤ MAX_TICKS }
    requires before { machine.old.tick ≤ n }
    requires count { length teller.old ≡ length machine.old.tasks }
    requires is_open { (S.seen out.old).failed ≡ false }
    ensures words { teller.new ≡ teller.old }
    ensures counts { (set : TaskSet) → teller.old ≡ words_in set → machine.old ≡ state_at set machine.old.tick →
        Counts S.seen out.old (trace_text set machine.old.tick (n - machine.old.tick) asked) result out.new }
{
    let mut writer = Writer {
        sink: out,
        written: 0,
    };
    offer_window(&mut writer, teller, machine, asked, n)
}
