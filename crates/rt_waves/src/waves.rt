//! The waves: what they keep, and how they are given a history.

ghost use Rattle.std.specs.Prelude.{◌≡◌, ◌≢◌, ℕ, ◌+◌, ◌*◌, ◌^◌, ◌<◌, ◌≤◌, ◌++◌, length, Some, true, false, IfOk, IfSome};
ghost use Rattle.std.specs.List.{flat_map, range_with_len};
ghost use Rattle.rt_image.specs.SystemFile.{TaskSet, set_tasks};
ghost use Rattle.rt_history.specs.declared.record.Record.TheVariants as records;
ghost use Rattle.rt_history.specs.declared.record.Entry.TheVariants as entries;
ghost use Rattle.rt_history.specs.Admitted.{task_params};
ghost use Rattle.rt_history.specs.Entries.{GoesOnBy};
ghost use Rattle.rt_report.specs.Rows.{is_idle};
ghost use Rattle.rt_sink.specs.Offers.{Offers};
ghost use Rattle.rt_waves.specs.WavesText.{idle_value, head_text, time_line, timed};
ghost use Rattle.rt_waves.specs.Standing.{waves_at, IsAtPlace, told_block};
ghost use Rattle.rt_waves.specs.declared.signals.Value.TheVariants.{Wire};
ghost use Rattle.rt_waves.specs.declared.block.Telling.TheVariants.{All};
ghost use Rattle.rt_waves.specs.Working.Going.{IsGoing};
ghost use Rattle.rt_waves.specs.Working.Visiting.{runs};
ghost use Rattle.rt_waves.specs.Working.Telling.{told_line, block_of};
ghost use Rattle.rt_history.specs.declared.record.AttemptOutcome.TheVariants.{Next};
ghost use Rattle.rt_waves.specs.Working.Stepped.{visited_all, lines_at, lines_all, gone_at, gone_by, plain_of, offered, block_by, passed_idle, passed_text};

use crate::block::{Telling, offer_time};
use crate::head::Head;
use crate::kept::PcLines;
use crate::lines::LINES_LEN;
use crate::page::{BLOCK_ROOM, PAGE_LEN, Page, TIMES_ROOM};
use crate::scale::Scale;
use crate::track::{Place, Track};
use crate::visiting::{Moment, visit_due};
use rt_admit::Runnable;
use rt_history::{Attempt, AttemptOutcome, Record};
use rt_image::Task;
use rt_names::TaskNames;
use rt_sink::{Sink, Writer};
use rt_text_out::offer_to;
use rt_words::MAX_TICKS;
use std::alloc::{AllocError, Global};
use std::marker::Model;

/// The line that tells whether a tick is idle, where it is reported.
fn idle_line(telling: Telling, before: bool, now: bool) -> &'static [u8]
    ensures text { result.now ≡ told_line telling (Wire before) (idle_value now) }
    ensures few { length result.now ≤ 3 }
{
    if telling == Telling::Nothing || telling == Telling::Changes && before == now {
        b""
    } else if now {
        b"1i\n"
    } else {
        b"0i\n"
    }
}

/// Appends the line that tells whether a tick is idle, where it is reported.
#[inline(always)]
fn put_idle(telling: Telling, before: bool, now: bool, page: &mut Page<'_>)
    requires { length page.old + 3 ≤ PAGE_LEN }
    ensures text { page.new ≡ page.old ++ told_line telling (Wire before) (idle_value now) }
    ensures short { length page.new ≤ length page.old + 3 }
{
    let line = idle_line(telling, before, now);
    if !line.is_empty() {
        page.put_text(line);
    }
}

/// Whether the signals of all tasks are visited: some are unsettled, one wakes, or all are written.
#[inline(always)]
fn may_all_change(unsettled: bool, wakes: bool, telling: Telling) -> bool
    ensures { result ≡ false → (unsettled ≡ false) × (wakes ≡ false) × (telling ≢ All) }
{
    telling.is_all() || unsettled || wakes
}

/// Whether the signals of tasks other than this one may change, where those of others than the one that ran last may.
#[inline(always)]
fn are_unsettled(unsettled: bool, last: Option<u32>, task: u32) -> bool
    ensures { result ≡ false → (unsettled ≡ false) × (last ≡ Some task) }
{
    match last {
        Some(number) if number == task => unsettled,
        _ => true,
    }
}

/// Whether this is the record of an instruction that is no call, of the task that is going, where no task wakes at this tick.
#[inline(always)]
fn keeps_going(going: Option<u32>, clock: u64, next_wake: u64, attempt: &Attempt) -> bool
    ensures going { result ≡ true → going ≡ Some attempt.now.task }
    ensures early { result ≡ true → clock < next_wake }
    ensures plain { result ≡ true → attempt.now.outcome ≡ Next }
{
    match (attempt.outcome, going) {
        (AttemptOutcome::Next, Some(number)) => number == attempt.task && clock < next_wake,
        _ => false,
    }
}

/// Whether this is the record of an instruction that is no call, behind the first time of the window that begins at `from`.
#[inline(always)]
fn is_plain_within(from: u64, clock: u64, attempt: &Attempt) -> bool
    ensures begun { result ≡ true → from < clock }
    ensures plain { result ≡ true → attempt.now.outcome ≡ Next }
{
    from < clock && matches!(attempt.outcome, AttemptOutcome::Next)
}

/// Whether a task, whose record of this tick has gone, goes on within the window that begins at `from`, where no other task's signals
/// change.
fn goes_on(from: u64, clock: u64, idle: bool, unsettled: bool, task: &Track<'_, '_>) -> bool
    ensures begun { result ≡ true → from ≤ clock }
    ensures busy { result ≡ true → idle ≡ false }
    ensures calm { result ≡ true → unsettled ≡ false }
    ensures going { result ≡ true → IsGoing task.now }
{
    from <= clock && !idle && !unsettled && task.is_going()
}

/// The number of the task that is going, if it is.
#[inline(always)]
fn going_if(is_going: bool, number: u32) -> Option<u32>
    ensures { (i : ℕ) → result ≡ Some i → (is_going ≡ true) × (number ≡ i) }
{
    if is_going { Some(number) } else { None }
}

/// Forgets the task that is going, if it isn't any more.
#[inline(always)]
fn keep_if(going: &mut Option<u32>, is_going: bool)
    ensures { (i : ℕ) → going.new ≡ Some i → (is_going ≡ true) × (going.old ≡ Some i) }
{
    if !is_going {
        *going = None;
    }
}

/// The waves of a set, of a window that begins at a tick and has no end yet.
///
/// It keeps no history: it is given the entries of one, the first from tick 0 on, and offers what is written of the times in the
/// window. Contracts see where the window begins, the tick, whether the last one was idle, and what is kept of each task.
#[derive(Drop)]
pub struct Waves<'s, 'b> {
    from: u64,
    clock: u64,
    idle: bool,
    /// Ticks before this one wake no task.
    next_wake: u64,
    /// The task that ran last, unless the tick was idle.
    last: Option<u32>,
    /// Whether the signals of other tasks may change at the coming time.
    unsettled: bool,
    /// The task that ran last, within the window, where it is going and the signals of other tasks don't change.
    going: Option<u32>,
    kept: PcLines,
    tasks: Vec<Track<'s, 'b>>,
}

impl<'s, 'b> Model for Waves<'s, 'b> {
    ghost use Rattle.rt_waves.specs.Standing.{WavesState};
    ghost use Rattle.rt_waves.specs.Working.Stepped.{IsSoundWaves};
    ghost use Rattle.rt_waves.specs.Working.Going.{IsKeptGoing};

    ghost Value = { WavesState };

    ghost view = { λ w. record { from = w.from; tick = w.clock; idle = w.idle; tasks = w.tasks.items } };

    ghost invariant = { λ w. IsSoundWaves w.clock w.next_wake w.unsettled w.last w.tasks.items × IsKeptGoing w.from w.clock w.idle w.unsettled w.last w.tasks.items w.going };
}

impl<'s, 'b> Waves<'s, 'b> {
    /// The waves of the tasks of a set from tick `from` on, before the first tick. All room that they need is taken here:
    /// for each symbol 4 bytes, for each task some 200 more, and 96 KiB for lines.
    ///
    /// # Errors
    ///
    /// There is no memory for it.
    pub fn new(
        alloc: Global,
        runnable: &Runnable<'_>,
        tasks: &'s [Task<'b>],
        from: u64,
    ) -> Result<Waves<'s, 'b>, AllocError>
        requires { task_params (set_tasks tasks.now) ≡ runnable.now.tasks }
        ensures count { IfOk result (λ waves. length waves.tasks ≡ length tasks.now) }
        ensures clock { IfOk result (λ waves. waves.tick ≡ 0) }
        ensures from { IfOk result (λ waves. waves.from ≡ from) }
        ensures stands { IfOk result (λ waves. (set : TaskSet) → set.tasks ≡ set_tasks tasks.now → waves ≡ waves_at set from 0) }
    {
        let _params = runnable.params();
        let kept = PcLines::new(alloc)?;
        let mut tracks = Vec::new(alloc);
        for task in tasks {
            tracks.push(Track::new(alloc, task)?)?;
        }
        Ok(Waves {
            from,
            clock: 0,
            idle: false,
            next_wake: 0,
            last: None,
            unsettled: true,
            going: None,
            kept,
            tasks: tracks,
        })
    }

    /// Visits the tasks whose signals may change at the coming time, and appends the lines of what is written of them.
    #[inline(always)]
    fn put_tasks(&mut self, moment: &Moment, page: &mut Page<'_>)
        requires limit { self.old.tick < MAX_TICKS }
        requires now { moment.now.tick ≡ self.old.tick }
        requires runs { IfSome (runs moment.now.of) (λ i. i < length self.old.tasks) }
        requires room { length page.old + LINES_LEN * 64 ≤ PAGE_LEN }
        ensures stands { self.new ≡ record self.old { tasks = visited_all self.old.tick moment.now.of self.old.tasks } }
        ensures short { length page.new ≤ length page.old + LINES_LEN * 64 }
        ensures text { page.new ≡ page.old ++ lines_all moment.now.telling self.old.tick moment.now.of self.old.tasks }
    {
        let wakes = self.next_wake <= self.clock;
        let is_all = may_all_change(self.unsettled, wakes, moment.telling);
        self.next_wake = visit_due(
            &mut self.tasks,
            self.last,
            is_all,
            self.next_wake,
            moment,
            &mut self.kept,
            page,
        );
        self.last = moment.running();
        self.unsettled = wakes;
        self.going = None;
    }

    /// Appends the lines of the coming time.
    #[inline(always)]
    fn put_lines(&mut self, moment: &Moment, page: &mut Page<'_>)
        requires limit { self.old.tick < MAX_TICKS }
        requires now { moment.now.tick ≡ self.old.tick }
        requires runs { IfSome (runs moment.now.of) (λ i. i < length self.old.tasks) }
        requires room { length page.old + LINES_LEN * 65 ≤ PAGE_LEN }
        ensures stands { self.new ≡ record self.old { idle = is_idle moment.now.of; tasks = visited_all self.old.tick moment.now.of self.old.tasks } }
        ensures short { length page.new ≤ length page.old + LINES_LEN * 65 }
        ensures text { page.new ≡ page.old ++ lines_at moment.now.telling self.old.tick moment.now.of self.old.idle self.old.tasks }
    {
        let idle = moment.is_idle();
        put_idle(moment.telling, self.idle, idle, page);
        self.idle = idle;
        self.going = None;
        self.put_tasks(moment, page);
    }

    /// Appends the block of the coming time, which is the first of the window.
    #[cold]
    #[inline(never)]
    fn put_first_block(&mut self, moment: &Moment, page: &mut Page<'_>)
        requires limit { self.old.tick < MAX_TICKS }
        requires now { moment.now.tick ≡ self.old.tick }
        requires runs { IfSome (runs moment.now.of) (λ i. i < length self.old.tasks) }
        requires room { length page.old + BLOCK_ROOM ≤ PAGE_LEN }
        ensures stands { self.new ≡ record self.old { idle = is_idle moment.now.of; tasks = visited_all self.old.tick moment.now.of self.old.tasks } }
        ensures short { length page.new ≤ length page.old + BLOCK_ROOM }
        ensures text { page.new ≡ page.old ++ block_of All self.old.tick (lines_at moment.now.telling self.old.tick moment.now.of self.old.idle self.old.tasks) }
    {
        page.put_time(self.clock);
        page.put_text(b"$dumpvars\n");
        self.put_lines(moment, page);
        page.put_text(b"$end\n");
    }

    /// Appends the block of the coming time, which is no first one: its line is taken away again where there are no others.
    #[inline(always)]
    fn put_later_block(&mut self, moment: &Moment, page: &mut Page<'_>)
        requires limit { self.old.tick < MAX_TICKS }
        requires now { moment.now.tick ≡ self.old.tick }
        requires runs { IfSome (runs moment.now.of) (λ i. i < length self.old.tasks) }
        requires room { length page.old + BLOCK_ROOM ≤ PAGE_LEN }
        ensures stands { self.new ≡ record self.old { idle = is_idle moment.now.of; tasks = visited_all self.old.tick moment.now.of self.old.tasks } }
        ensures short { length page.new ≤ length page.old + BLOCK_ROOM }
        ensures text { page.new ≡ page.old ++ timed self.old.tick (lines_at moment.now.telling self.old.tick moment.now.of self.old.idle self.old.tasks) }
    {
        let before = page.len();
        page.put_time(self.clock);
        let begun = page.len();
        self.put_lines(moment, page);
        if page.len() == begun {
            page.cut(before);
        }
    }

    /// Appends the block of the coming time.
    #[inline(always)]
    fn put_block(&mut self, of: Record, page: &mut Page<'_>)
        requires limit { self.old.tick < MAX_TICKS }
        requires runs { IfSome (runs of) (λ i. i < length self.old.tasks) }
        requires room { length page.old + BLOCK_ROOM ≤ PAGE_LEN }
        ensures stands { self.new ≡ offered of self.old }
        ensures short { length page.new ≤ length page.old + BLOCK_ROOM }
        ensures text { page.new ≡ page.old ++ block_by of self.old }
    {
        let moment = Moment {
            tick: self.clock,
            telling: Telling::at(self.from, self.clock),
            of,
        };
        if moment.telling.is_all() {
            // Made anew here, so that the moment itself stays in registers.
            let moment = Moment { ..moment };
            self.put_first_block(&moment, page);
        } else {
            self.put_later_block(&moment, page);
        }
    }

    /// Takes the record of the coming tick, which left its task at this place.
    #[inline(always)]
    fn go_on(&mut self, attempt: &Attempt, place: Place)
        requires limit { self.old.tick < MAX_TICKS }
        requires task { attempt.now.task < length self.old.tasks }
        ensures { self.new ≡ record self.old { tick = self.old.tick + 1; tasks = gone_at self.old.tick attempt.now place self.old.tasks } }
    {
        let task = &mut self.tasks[attempt.task as usize];
        task.go_on(self.clock, attempt.outcome, place);
        self.next_wake = self.next_wake.min(task.wake_tick());
        self.unsettled = are_unsettled(self.unsettled, self.last, attempt.task);
        let is_going = goes_on(self.from, self.clock, self.idle, self.unsettled, task);
        self.going = going_if(is_going, attempt.task);
        self.last = Some(attempt.task);
        self.clock += 1;
    }

    /// Lets ticks pass up to this one.
    fn pass_to(&mut self, tick: u64)
        requires later { self.old.tick ≤ tick }
        requires limit { tick ≤ MAX_TICKS }
        ensures { self.new ≡ record self.old { tick = tick } }
    {
        self.clock = tick;
    }

    /// Takes so many idle ticks, at least one, and appends the block of the first, and of the one where the window begins.
    #[inline(never)]
    fn pass_idle(&mut self, n: u64, page: &mut Page<'_>)
        requires some { 1 ≤ n }
        requires limit { self.old.tick + n ≤ MAX_TICKS }
        requires room { length page.old + TIMES_ROOM ≤ PAGE_LEN }
        ensures short { length page.new ≤ length page.old + TIMES_ROOM }
        ensures stands { self.new ≡ passed_idle n self.old }
        ensures text { page.new ≡ page.old ++ passed_text n self.old }
    {
        let end = self.clock + n;
        self.put_block(Record::Idle, page);
        if self.clock < self.from && self.from < end {
            self.pass_to(self.from);
            self.put_block(Record::Idle, page);
        }
        self.pass_to(end);
    }

    /// Takes the record of the coming tick, which left its task at this place, and appends the block of the tick's time.
    #[inline(never)]
    fn step_any(&mut self, attempt: &Attempt, place: Place, page: &mut Page<'_>)
        requires limit { self.old.tick < MAX_TICKS }
        requires task { attempt.now.task < length self.old.tasks }
        requires room { length page.old + BLOCK_ROOM ≤ PAGE_LEN }
        ensures stands { self.new ≡ gone_by attempt.now place (offered (records.Busy attempt.now) self.old) }
        ensures text { page.new ≡ page.old ++ block_by (records.Busy attempt.now) self.old }
        ensures short { length page.new ≤ length page.old + BLOCK_ROOM }
    {
        self.put_block(Record::Busy(*attempt), page);
        self.go_on(attempt, place);
    }

    /// Does the same behind the first time of the window, where task `number` attempts an instruction that is no call.
    #[inline(never)]
    fn step_plain(&mut self, number: u32, place: Place, page: &mut Page<'_>)
        requires begun { self.old.from < self.old.tick }
        requires limit { self.old.tick < MAX_TICKS }
        requires task { number < length self.old.tasks }
        requires room { length page.old + BLOCK_ROOM ≤ PAGE_LEN }
        ensures stands { self.new ≡ gone_by (plain_of number) place (offered (records.Busy (plain_of number)) self.old) }
        ensures text { page.new ≡ page.old ++ block_by (records.Busy (plain_of number)) self.old }
        ensures short { length page.new ≤ length page.old + BLOCK_ROOM }
    {
        // Waves see no more of such a record.
        let attempt = Attempt {
            task: number,
            pc: 0,
            word: None,
            outcome: AttemptOutcome::Next,
        };
        let moment = Moment {
            tick: self.clock,
            telling: Telling::Changes,
            of: Record::Busy(attempt),
        };
        self.put_later_block(&moment, page);
        self.go_on(&attempt, place);
    }

    /// Does the same, quickly where the task that ran last goes on with an instruction that is no call.
    #[inline(always)]
    fn step(&mut self, attempt: &Attempt, place: Place, page: &mut Page<'_>)
        requires limit { self.old.tick < MAX_TICKS }
        requires task { attempt.now.task < length self.old.tasks }
        requires room { length page.old + BLOCK_ROOM ≤ PAGE_LEN }
        ensures stands { self.new ≡ gone_by attempt.now place (offered (records.Busy attempt.now) self.old) }
        ensures text { page.new ≡ page.old ++ block_by (records.Busy attempt.now) self.old }
        ensures short { length page.new ≤ length page.old + BLOCK_ROOM }
    {
        let number = attempt.task as usize;
        if keeps_going(self.going, self.clock, self.next_wake, attempt) {
            page.put_time(self.clock);
            let Waves {
                tasks,
                kept,
                going,
                clock,
                ..
            } = self;
            let is_going = tasks[number].keep_going(attempt.task, place, kept, page);
            keep_if(going, is_going);
            *clock += 1;
        } else if is_plain_within(self.from, self.clock, attempt) {
            self.step_plain(attempt.task, place, page);
        } else {
            // Made anew here, so that the attempt itself stays in registers.
            let attempt = Attempt { ..*attempt };
            self.step_any(&attempt, place, page);
        }
    }

    /// Takes the record of the coming tick, of a task of the set, which left the task at this place, and appends the block of the
    /// tick's time. Takes no memory.
    #[inline(always)]
    pub fn add_busy(&mut self, attempt: &Attempt, place: Place, page: &mut Page<'_>)
        requires limit { self.old.tick < MAX_TICKS }
        requires task { attempt.now.task < length self.old.tasks }
        requires room { length page.old + TIMES_ROOM ≤ PAGE_LEN }
        ensures clock { self.new.tick ≡ self.old.tick + 1 }
        ensures count { length self.new.tasks ≡ length self.old.tasks }
        ensures from { self.new.from ≡ self.old.from }
        ensures short { length page.new ≤ length page.old + TIMES_ROOM }
        ensures stands { (set : TaskSet) (from t : ℕ) → self.old ≡ waves_at set from t → GoesOnBy set t (entries.Busy t attempt.now) → IsAtPlace set (t + 1) attempt.now.task place →
            self.new ≡ waves_at set from (t + 1) }
        ensures text { (set : TaskSet) (from t : ℕ) → self.old ≡ waves_at set from t → GoesOnBy set t (entries.Busy t attempt.now) →
            page.new ≡ page.old ++ told_block set from t }
    {
        self.step(attempt, place, page);
    }

    /// Takes the idle ticks that come next, and appends the blocks of their times: one step, however many they are. A stretch may be
    /// cut anywhere. Takes no memory.
    pub fn add_idle(&mut self, n: u64, page: &mut Page<'_>)
        requires limit { self.old.tick + n ≤ MAX_TICKS }
        requires room { length page.old + TIMES_ROOM ≤ PAGE_LEN }
        ensures clock { self.new.tick ≡ self.old.tick + n }
        ensures count { length self.new.tasks ≡ length self.old.tasks }
        ensures from { self.new.from ≡ self.old.from }
        ensures short { length page.new ≤ length page.old + TIMES_ROOM }
        ensures stands { (set : TaskSet) (from t : ℕ) → self.old ≡ waves_at set from t → GoesOnBy set t (entries.Idle t n) → self.new ≡ waves_at set from (t + n) }
        ensures text { (set : TaskSet) (from t : ℕ) → self.old ≡ waves_at set from t → GoesOnBy set t (entries.Idle t n) →
            page.new ≡ page.old ++ flat_map (told_block set from) (range_with_len t n) }
    {
        if n > 0 {
            self.pass_idle(n, page);
        }
    }

    /// Offers the head of the text, which names the scopes and the signals, of tasks with these names. Takes no memory.
    pub fn offer_head<S: Sink>(
        &self,
        scale: &Scale,
        names: &TaskNames<'_>,
        writer: &mut Writer<'_, S>,
    )
        requires { writer.old.written ≤ 2 ^ 60 }
        ensures bound { writer.new.written ≤ writer.old.written + 2 ^ 17 }
        ensures same { writer.new.sink.ghost_name ≡ writer.old.sink.ghost_name }
        ensures offers { Offers S.seen writer.old.written writer.old.sink.now (head_text scale.now names.now (length self.now.tasks)) writer.new.written writer.new.sink.now }
    {
        let count = self.tasks.len() as u32;
        let head = Head {
            scale,
            names,
            count,
        };
        offer_to(&head, writer);
    }

    /// Offers the last line, where the ticks so far end. Takes no memory.
    pub fn offer_end<S: Sink>(&self, writer: &mut Writer<'_, S>)
        requires { writer.old.written ≤ 2 ^ 63 }
        ensures bound { writer.new.written ≤ writer.old.written + 32 }
        ensures same { writer.new.sink.ghost_name ≡ writer.old.sink.ghost_name }
        ensures offers { Offers S.seen writer.old.written writer.old.sink.now (time_line self.now.tick) writer.new.written writer.new.sink.now }
    {
        let end = self.clock;
        offer_time(end, writer);
    }
}
