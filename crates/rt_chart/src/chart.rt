//! The picture of a schedule: what it keeps, how it is given a history, and how it is written.

ghost use Rattle.std.specs.Prelude.{◌≡◌, ℕ, List, ◌+◌, ◌^◌, ◌<◌, ◌≤◌, length, All, false, IfOk, OnOk, OnErr};
ghost use Rattle.std.specs.List.{flat_map};
ghost use Rattle.rt_image.specs.ObjectFile.{IsObject, object_value};
ghost use Rattle.rt_image.specs.SystemFile.{TaskSet, set_tasks};
ghost use Rattle.rt_history.specs.Admitted.{task_params};
ghost use Rattle.rt_history.specs.Entries.{start_of, ticks_of, IsEntryOf, GoesOnBy};
ghost use Rattle.rt_history.specs.Legal.{legal};
ghost use Rattle.rt_history.specs.Plain.{ArePlain};
ghost use Rattle.rt_sink.specs.Offers.{Offers};
ghost use Rattle.rt_sink.specs.Sink.{Counts};
ghost use Rattle.rt_chart.specs.ChartText.{row_text, text_of, chart_text};
ghost use Rattle.rt_chart.specs.Looks.{mark_style, look_of};
ghost use Rattle.rt_chart.specs.Standing.{all_finished, chart_at};
ghost use Rattle.rt_chart.specs.Working.Drawn.{drawn_at, added, added_plain};

use crate::crowding::all_have_room;
use crate::frame::{offer_axis, offer_head};
use crate::label::longest_of;
use crate::look::{Look, MarkStyle};
use crate::page::PAGE_LEN;
use crate::row_text::offer_row;
use crate::scale::{Scale, width};
use crate::style::Style;
use rt_admit::Runnable;
use rt_drawing::{Sketch, Window};
use rt_history::{AttemptOutcome, Entry};
use rt_image::Task;
use rt_sink::{DeviceFault, Sink, Writer};
use rt_words::MAX_TICKS;
use std::alloc::{AllocError, Global};
use std::marker::Model;

/// A picture of a window of a history, as it is drawn.
///
/// It is given the entries of the history, the first from tick 0 on, also those before the window: a deadline that they set may lie
/// in it. Contracts see the window, the style, the tick, and what is kept of each task.
#[derive(Drop)]
pub struct Chart<'b> {
    window: Window,
    style: Style,
    clock: u64,
    tasks: Vec<Sketch<'b>>,
}

impl<'b> Model for Chart<'b> {
    ghost use Rattle.rt_chart.specs.Standing.{ChartState};
    ghost use Rattle.rt_chart.specs.Working.Drawn.{IsSoundChart};

    ghost Value = { ChartState };

    ghost view = { λ c. record { window = c.window; style = c.style; tick = c.clock; tasks = c.tasks.items } };

    ghost invariant = { λ c. IsSoundChart (record { window = c.window; style = c.style; tick = c.clock; tasks = c.tasks.items }) };
}

impl<'b> Chart<'b> {
    /// The picture of the tasks of a set before its first tick. Of those that are excepted nothing is over the period.
    ///
    /// # Errors
    ///
    /// There is no memory for it.
    pub fn new(
        alloc: Global,
        runnable: &Runnable<'_>,
        tasks: &[Task<'b>],
        window: Window,
        style: Style,
        except: &[usize],
    ) -> Result<Chart<'b>, AllocError>
        requires params { task_params (set_tasks tasks.now) ≡ runnable.now.tasks }
        requires spelled { All (λ t. IsObject (object_value t.object)) tasks.now }
        ensures window { IfOk result (λ chart. chart.window ≡ window) }
        ensures style { IfOk result (λ chart. chart.style ≡ style) }
        ensures clock { IfOk result (λ chart. chart.tick ≡ 0) }
        ensures count { IfOk result (λ chart. length chart.tasks ≡ length tasks.now) }
        ensures stands { IfOk result (λ chart. (set : TaskSet) → set.tasks ≡ set_tasks tasks.now → chart ≡ chart_at window style except.now set 0) }
    {
        let _params = runnable.params();
        let mut sketches = Vec::new(alloc);
        for (number, task) in tasks.iter().enumerate() {
            sketches.push(Sketch::new(alloc, number as u32, task, except))?;
        }
        Ok(Chart {
            window,
            style,
            clock: 0,
            tasks: sketches,
        })
    }

    /// Takes a record of the coming tick.
    fn take_busy(&mut self, task: u32, outcome: AttemptOutcome) -> Result<(), AllocError>
        requires limit { self.old.tick + 1 ≤ MAX_TICKS }
        requires task { task < length self.old.tasks }
        ensures ok { OnOk result (self.new ≡ record self.old { tick = self.old.tick + 1; tasks = drawn_at self.old.window self.old.tick outcome self.old.tasks task }) }
        ensures err { OnErr result (self.new ≡ self.old) }
    {
        self.tasks[task as usize].take(&self.window, self.clock, outcome)?;
        self.clock += 1;
        Ok(())
    }

    /// Takes `n` idle ticks.
    fn take_idle(&mut self, n: u64)
        requires limit { self.old.tick + n ≤ MAX_TICKS }
        ensures { self.new ≡ record self.old { tick = self.old.tick + n } }
    {
        self.clock += n;
    }

    /// Takes an entry.
    fn take(&mut self, entry: Entry) -> Result<(), AllocError>
        requires limit { self.old.tick + ticks_of entry ≤ MAX_TICKS }
        requires task { IsEntryOf (length self.old.tasks) entry }
        ensures ok { OnOk result (self.new ≡ added entry self.old) }
        ensures err { OnErr result (self.new ≡ self.old) }
    {
        match entry {
            Entry::Busy { rec, .. } => self.take_busy(rec.task, rec.outcome),
            Entry::Idle { n, .. } => {
                self.take_idle(n);
                Ok(())
            }
        }
    }

    /// Takes the entry that comes next: it begins at the tick where the one before ended, the first at 0, it ends at 2^40 at
    /// most, and its task is of the set. A stretch of idle ticks may be cut anywhere, and is one step.
    ///
    /// # Errors
    ///
    /// There is no memory for what it draws. Then the picture is as it was.
    pub fn add(&mut self, entry: Entry) -> Result<(), AllocError>
        requires start { start_of entry ≡ self.old.tick }
        requires limit { self.old.tick + ticks_of entry ≤ MAX_TICKS }
        requires task { IsEntryOf (length self.old.tasks) entry }
        ensures clock { OnOk result (self.new.tick ≡ self.old.tick + ticks_of entry) }
        ensures count { length self.new.tasks ≡ length self.old.tasks }
        ensures window { self.new.window ≡ self.old.window }
        ensures style { self.new.style ≡ self.old.style }
        ensures stands { OnOk result ((except : List ℕ) (set : TaskSet) (t : ℕ) → self.old ≡ chart_at self.old.window self.old.style except set t → GoesOnBy set t entry → self.new ≡ chart_at self.old.window self.old.style except set (t + ticks_of entry)) }
        ensures err { OnErr result (self.new ≡ self.old) }
    {
        self.take(entry)
    }

    /// Takes plain ticks of a task.
    #[inline(always)]
    fn take_plain(&mut self, task: u32, n: u64) -> Result<u64, AllocError>
        requires some { 1 ≤ n }
        requires limit { self.old.tick + n ≤ MAX_TICKS }
        requires task { task < length self.old.tasks }
        ensures some { IfOk result (λ k. 1 ≤ k) }
        ensures within { IfOk result (λ k. k ≤ n) }
        ensures ok { IfOk result (λ k. self.new ≡ added_plain task k self.old) }
        ensures err { OnErr result (self.new ≡ self.old) }
    {
        let taken = self.tasks[task as usize].take_plain(&self.window, self.clock, n)?;
        self.clock += taken;
        Ok(taken)
    }

    /// Takes plain ticks of a task of the set from the coming tick on, each of which carried out an instruction that is no call,
    /// and answers how many: 1 to `n`. They end at 2^40 at most. Those that the task's budget allows are one step, and the one that
    /// uses it up is another.
    ///
    /// # Errors
    ///
    /// There is no memory for what it draws. Then the picture is as it was.
    #[inline(always)]
    pub fn add_plain(&mut self, task: u32, n: u64) -> Result<u64, AllocError>
        requires some { 1 ≤ n }
        requires limit { self.old.tick + n ≤ MAX_TICKS }
        requires task { task < length self.old.tasks }
        ensures some { IfOk result (λ k. 1 ≤ k) }
        ensures within { IfOk result (λ k. k ≤ n) }
        ensures clock { IfOk result (λ k. self.new.tick ≡ self.old.tick + k) }
        ensures count { length self.new.tasks ≡ length self.old.tasks }
        ensures window { self.new.window ≡ self.old.window }
        ensures style { self.new.style ≡ self.old.style }
        ensures stands { IfOk result (λ k. (except : List ℕ) (set : TaskSet) (t : ℕ) → self.old ≡ chart_at self.old.window self.old.style except set t → ArePlain set t task k → self.new ≡ chart_at self.old.window self.old.style except set (t + k)) }
        ensures err { OnErr result (self.new ≡ self.old) }
    {
        self.take_plain(task, n)
    }

    /// How its marks are drawn: as shapes where it is not compact and every row has room for them.
    fn mark_style(&self) -> MarkStyle
        ensures { result ≡ mark_style self.now.window self.now.style (all_finished self.now.window self.now.tasks) }
    {
        if self.style.is_compact {
            return MarkStyle::LowLines;
        }
        let width = width(&self.window, &self.style);
        if all_have_room(&self.window, width, &self.tasks) {
            MarkStyle::Shapes
        } else {
            MarkStyle::Lines
        }
    }

    /// How it looks.
    fn look(&self) -> Look
        ensures { result ≡ look_of self.now.window self.now.style (all_finished self.now.window self.now.tasks) }
    {
        Look {
            window: self.window,
            style: self.style,
            marks: self.mark_style(),
            labels: longest_of(&self.window, &self.tasks),
        }
    }

    /// Offers the row of each task.
    fn offer_rows<S: Sink>(&self, writer: &mut Writer<'_, S>, scale: &Scale)
        requires room { writer.old.written ≤ 2 ^ 58 }
        requires window { scale.now.look.window ≡ self.now.window }
        ensures bound { writer.new.written ≤ writer.old.written + 2 ^ 60 }
        ensures same { writer.new.sink.ghost_name ≡ writer.old.sink.ghost_name }
        ensures offers { Offers S.seen writer.old.written writer.old.sink.now (flat_map (row_text scale.now.look) (all_finished self.now.window self.now.tasks)) writer.new.written writer.new.sink.now }
    {
        let mut room = [0; PAGE_LEN];
        for (task, sketch) in self.tasks.iter().enumerate() {
            offer_row(writer, &mut room, scale, task as u32, sketch);
        }
    }

    /// Offers the text.
    fn offer_text<S: Sink>(&self, writer: &mut Writer<'_, S>)
        requires { writer.old.written ≡ 0 }
        ensures same { writer.new.sink.ghost_name ≡ writer.old.sink.ghost_name }
        ensures offers { Offers S.seen writer.old.written writer.old.sink.now (text_of self.now.window self.now.style (all_finished self.now.window self.now.tasks)) writer.new.written writer.new.sink.now }
    {
        let scale = Scale::new(self.look());
        let count = self.tasks.len() as u32;
        offer_head(writer, &scale, count);
        self.offer_rows(writer, &scale);
        offer_axis(writer, &scale, count);
    }

    /// Offers the text to a sink behind a new writer, and answers how much of it was taken.
    fn write_offered<S: Sink>(&self, writer: &mut Writer<'_, S>) -> Result<u64, DeviceFault>
        requires is_open { (S.seen writer.old.sink.now).failed ≡ false }
        requires count { writer.old.written ≡ 0 }
        ensures same { writer.new.sink.ghost_name ≡ writer.old.sink.ghost_name }
        ensures counts { Counts S.seen writer.old.sink.now (text_of self.now.window self.now.style (all_finished self.now.window self.now.tasks)) result writer.new.sink.now }
        ensures legal { (except : List ℕ) (set : TaskSet) → self.now ≡ chart_at self.now.window self.now.style except set self.now.window.to →
            Counts S.seen writer.old.sink.now (chart_text self.now.window self.now.style except set (legal set self.now.window.to)) result writer.new.sink.now }
    {
        self.offer_text(writer);
        writer.end()
    }

    /// Writes the picture to a sink: a head, a row for each task, and the axis. The answer is its length in bytes. Takes no memory.
    ///
    /// # Errors
    ///
    /// The sink failed. `written` is how many of the first bytes of the text it took.
    pub fn write_text<S: Sink>(&self, out: &mut S) -> Result<u64, DeviceFault>
        requires { (S.seen out.old).failed ≡ false }
        ensures value { Counts S.seen out.old (text_of self.now.window self.now.style (all_finished self.now.window self.now.tasks)) result out.new }
        ensures legal { (except : List ℕ) (set : TaskSet) → self.now ≡ chart_at self.now.window self.now.style except set self.now.window.to →
            Counts S.seen out.old (chart_text self.now.window self.now.style except set (legal set self.now.window.to)) result out.new }
    {
        let mut writer = Writer {
            sink: out,
            written: 0,
        };
        self.write_offered(&mut writer)
    }
}
