//! The text of a run, as the machine goes on.

ghost use Rattle.std.specs.Prelude.{◌≡◌, ℕ, ◌+◌, ◌*◌, ◌≤◌, ◌<◌, ◌^◌, [], length, false, IfOk};
ghost use Rattle.rt_image.specs.SystemFile.{TaskSet};
ghost use Rattle.rt_history.specs.Legal.{legal, state_at};
ghost use Rattle.rt_sink.specs.Offers.{Offers};
ghost use Rattle.rt_sink.specs.Sink.{Counts};
ghost use Rattle.rt_trace.specs.HistoryText.{history_text};
ghost use Rattle.rt_trace.specs.Working.Cut.{IsCut, IsTold};
ghost use Rattle.rt_trace.specs.RunText.{tasks_text, end_text, run_text};

use crate::hearing::Hearer;
use crate::page::{PAGE_LEN, Page};
use crate::task_lines::TaskLines;
use crate::telling::Telling;
use rt_core::{Machine, Next};
use rt_exec::Fetcher;
use rt_queue::MinQueue;
use rt_sink::{DeviceFault, LINE_LEN, Sink, Writer};
use rt_text_out::{Decimal, Out, Text, offer_to, word, write};
use rt_words::MAX_TICKS;

/// Goes on by the entry that comes next before tick `n`, appends its line, where the page has room for it, and lets it be heard.
#[inline(always)]
fn put_entry<Q: MinQueue, F: Fetcher, H: Hearer>(
    machine: &mut Machine<Q, F>,
    hearer: &mut H,
    n: u64,
    page: &mut Page<'_>,
)
    requires limit { n ≤ MAX_TICKS }
    requires before { machine.old.tick ≤ n }
    requires at { H.is_at hearer.old machine.old.tick (length machine.old.tasks) }
    ensures later { machine.old.tick ≤ machine.new.tick }
    ensures onward { length page.old.text + LINE_LEN ≤ PAGE_LEN → machine.old.tick < n → machine.old.tick < machine.new.tick }
    ensures within { machine.new.tick ≤ n }
    ensures short { length page.new.text + LINE_LEN * machine.old.tick ≤ length page.old.text + LINE_LEN * machine.new.tick }
    ensures told { (set : TaskSet) (t : ℕ) → IsTold set n t page.old.text machine.old → IsTold set n t page.new.text machine.new }
    ensures at { H.is_at hearer.new machine.new.tick (length machine.new.tasks) }
    ensures stands { (set : TaskSet) → machine.old ≡ state_at set machine.old.tick → machine.new ≡ state_at set machine.new.tick }
    ensures heard { (first : H) (set : TaskSet) → machine.old ≡ state_at set machine.old.tick → H.heard first hearer.old set machine.old.tick →
        H.heard first hearer.new set machine.new.tick }
{
    if page.has_room_for_line()
        && let Some(entry) = machine.advance(n - machine.now())
    {
        page.put(&entry);
        hearer.hear(entry, machine);
    }
}

/// The same, and then by an idle stretch, if that is what follows: a task that sleeps often leaves one.
#[inline(always)]
fn put_stop<Q: MinQueue, F: Fetcher, H: Hearer>(
    machine: &mut Machine<Q, F>,
    hearer: &mut H,
    n: u64,
    page: &mut Page<'_>,
)
    requires limit { n ≤ MAX_TICKS }
    requires before { machine.old.tick ≤ n }
    requires at { H.is_at hearer.old machine.old.tick (length machine.old.tasks) }
    ensures later { machine.old.tick ≤ machine.new.tick }
    ensures onward { length page.old.text + LINE_LEN ≤ PAGE_LEN → machine.old.tick < n → machine.old.tick < machine.new.tick }
    ensures within { machine.new.tick ≤ n }
    ensures short { length page.new.text + LINE_LEN * machine.old.tick ≤ length page.old.text + LINE_LEN * machine.new.tick }
    ensures told { (set : TaskSet) (t : ℕ) → IsTold set n t page.old.text machine.old → IsTold set n t page.new.text machine.new }
    ensures at { H.is_at hearer.new machine.new.tick (length machine.new.tasks) }
    ensures stands { (set : TaskSet) → machine.old ≡ state_at set machine.old.tick → machine.new ≡ state_at set machine.new.tick }
    ensures heard { (first : H) (set : TaskSet) → machine.old ≡ state_at set machine.old.tick → H.heard first hearer.old set machine.old.tick →
        H.heard first hearer.new set machine.new.tick }
{
    put_entry(machine, hearer, n, page);
    if matches!(machine.next(), Next::Idle) {
        put_entry(machine, hearer, n, page);
    }
}

/// Runs a machine on towards tick `n`, fills an empty page with the lines of what it does, and lets that be heard.
#[inline(always)]
fn fill_page<Q: MinQueue, F: Fetcher, H: Hearer>(
    machine: &mut Machine<Q, F>,
    hearer: &mut H,
    n: u64,
    page: &mut Page<'_>,
)
    requires empty { page.old.text ≡ [] }
    requires limit { n ≤ MAX_TICKS }
    requires before { machine.old.tick < n }
    requires at { H.is_at hearer.old machine.old.tick (length machine.old.tasks) }
    ensures onward { machine.old.tick < machine.new.tick }
    ensures within { machine.new.tick ≤ n }
    ensures short { length page.new.text + LINE_LEN * machine.old.tick ≤ LINE_LEN * machine.new.tick }
    ensures told { (set : TaskSet) → machine.old ≡ state_at set machine.old.tick → IsCut set machine.old.tick →
        IsTold set n machine.old.tick page.new.text machine.new }
    ensures at { H.is_at hearer.new machine.new.tick (length machine.new.tasks) }
    ensures heard { (first : H) (set : TaskSet) → machine.old ≡ state_at set machine.old.tick → H.heard first hearer.old set machine.old.tick →
        H.heard first hearer.new set machine.new.tick }
{
    'ticks: while machine.now() < n && page.has_room() {
        if hearer.go(machine, n, page) {
            put_stop(machine, hearer, n, page);
        }
    }
}

/// Runs a machine from tick 0 to tick `n`, offers the lines of its history, and lets it be heard. It stops where the sink fails.
fn offer_history<Q: MinQueue, F: Fetcher, S: Sink, H: Hearer>(
    machine: &mut Machine<Q, F>,
    hearer: &mut H,
    n: u64,
    writer: &mut Writer<'_, S>,
)
    requires start { machine.old.tick ≡ 0 }
    requires limit { n ≤ MAX_TICKS }
    requires is_open { (S.seen writer.old.sink.now).failed ≡ false }
    requires count { writer.old.written ≡ 0 }
    requires at { H.is_at hearer.old 0 (length machine.old.tasks) }
    ensures same { writer.new.sink.ghost_name ≡ writer.old.sink.ghost_name }
    ensures short { writer.new.written ≤ LINE_LEN * n }
    ensures stands { (set : TaskSet) → machine.old ≡ state_at set 0 → (S.seen writer.new.sink.now).failed ≡ false → machine.new ≡ state_at set n }
    ensures at { H.is_at hearer.new machine.new.tick (length machine.new.tasks) }
    ensures heard { (set : TaskSet) → machine.old ≡ state_at set 0 → (S.seen writer.new.sink.now).failed ≡ false → H.heard hearer.old hearer.old set 0 →
        H.heard hearer.old hearer.new set n }
    ensures offers { (set : TaskSet) → machine.old ≡ state_at set 0 →
        Offers S.seen writer.old.written writer.old.sink.now (history_text (legal set n)) writer.new.written writer.new.sink.now }
{
    let mut bytes = [0; PAGE_LEN];
    let mut page = Page::new(&mut bytes);
    'pages: while machine.now() < n && !writer.has_failed() {
        fill_page(machine, hearer, n, &mut page);
        writer.put(page.text());
        page.clear();
    }
}

/// What is reported of a machine after its ticks: how many they are, and how each task stands.
#[derive(Clone, Copy)]
struct End<'m, Q: MinQueue, F: Fetcher> {
    machine: &'m Machine<Q, F>,
    telling: Telling,
}

impl<'m, Q: MinQueue, F: Fetcher> Text for End<'m, Q, F> {
    ghost text = { λ x. end_text x.telling x.machine.now };

    ghost most = { 601295421500000 };

    fn offer<O: Out>(&self, out: &mut O) {
        let (machine, telling) = (self.machine, self.telling);
        let ticks = Decimal(machine.now());
        (word(b"after "), ticks, word(b"\n")).offer(out);
        for number in 0..machine.count() {
            let view = machine.view(number).unwrap();
            let output = machine.output(number).unwrap();
            let lines = TaskLines {
                telling,
                number,
                view,
                output,
            };
            lines.offer(out);
        }
    }
}

/// Runs a machine from tick 0 to tick `n`, offers the text of the run, and lets it be heard.
fn offer_run<Q: MinQueue, F: Fetcher, S: Sink, H: Hearer>(
    machine: &mut Machine<Q, F>,
    hearer: &mut H,
    telling: Telling,
    n: u64,
    writer: &mut Writer<'_, S>,
) -> Result<u64, DeviceFault>
    requires start { machine.old.tick ≡ 0 }
    requires limit { n ≤ MAX_TICKS }
    requires is_open { (S.seen writer.old.sink.now).failed ≡ false }
    requires count { writer.old.written ≡ 0 }
    requires at { H.is_at hearer.old 0 (length machine.old.tasks) }
    ensures same { writer.new.sink.ghost_name ≡ writer.old.sink.ghost_name }
    ensures counts { (set : TaskSet) → machine.old ≡ state_at set 0 →
        Counts S.seen writer.old.sink.now (run_text telling set n) result writer.new.sink.now }
    ensures stands { (set : TaskSet) → machine.old ≡ state_at set 0 → IfOk result (λ _. machine.new ≡ state_at set n) }
    ensures at { H.is_at hearer.new machine.new.tick (length machine.new.tasks) }
    ensures heard { (set : TaskSet) → machine.old ≡ state_at set 0 → H.heard hearer.old hearer.old set 0 → IfOk result (λ _. H.heard hearer.old hearer.new set n) }
{
    offer_history(machine, hearer, n, writer);
    if writer.has_failed() {
        return writer.end();
    }
    offer_to(&End { machine, telling }, writer);
    writer.end()
}

/// Runs a machine from tick 0 to tick `n`, at most 2^40, and writes the text of the run to a sink: the lines of its history,
/// and then how each task stands. The history is heard. The answer is the text's length in bytes. Takes no memory.
///
/// # Errors
///
/// The sink failed. `written` is how many of the first bytes of the text it took.
pub fn write_run<Q: MinQueue, F: Fetcher, S: Sink, H: Hearer>(
    machine: &mut Machine<Q, F>,
    hearer: &mut H,
    telling: Telling,
    n: u64,
    out: &mut S,
) -> Result<u64, DeviceFault>
    requires start { machine.old.tick ≡ 0 }
    requires limit { n ≤ MAX_TICKS }
    requires is_open { (S.seen out.old).failed ≡ false }
    requires at { H.is_at hearer.old 0 (length machine.old.tasks) }
    ensures counts { (set : TaskSet) → machine.old ≡ state_at set 0 → Counts S.seen out.old (run_text telling set n) result out.new }
    ensures stands { (set : TaskSet) → machine.old ≡ state_at set 0 → IfOk result (λ _. machine.new ≡ state_at set n) }
    ensures at { H.is_at hearer.new machine.new.tick (length machine.new.tasks) }
    ensures heard { (set : TaskSet) → machine.old ≡ state_at set 0 → H.heard hearer.old hearer.old set 0 → IfOk result (λ _. H.heard hearer.old hearer.new set n) }
{
    let mut writer = Writer {
        sink: out,
        written: 0,
    };
    offer_run(machine, hearer, telling, n, &mut writer)
}

/// Writes what is reported of a machine after its ticks to a sink: how many they are, and how each task stands. The answer is the text's
/// length in bytes. Takes no memory.
///
/// # Errors
///
/// The sink failed. `written` is how many of the first bytes of the text it took.
pub fn write_end<Q: MinQueue, F: Fetcher, S: Sink>(
    machine: &Machine<Q, F>,
    telling: Telling,
    out: &mut S,
) -> Result<u64, DeviceFault>
    requires { (S.seen out.old).failed ≡ false }
    ensures { Counts S.seen out.old (end_text telling machine.now) result out.new }
{
    write(&End { machine, telling }, out)
}
