//! What is kept of one task of a picture.

ghost use Rattle.std.specs.Prelude.{◌≡◌, ◌+◌, ◌-◌, ◌^◌, ◌<◌, ◌≤◌, ◌⊎◌, ◌++◌, nat_le, min, max, unwrap_or, length, IfOk, OnOk, OnErr};
ghost use Rattle.std.specs.Option.{option_or};
ghost use Rattle.rt_history.specs.declared.mode.Mode.TheVariants.{Active};
ghost use Rattle.rt_history.specs.Serving.{due};
ghost use Rattle.rt_image.specs.ObjectFile.{IsObject, object_value};
ghost use Rattle.rt_image.specs.SystemFile.{SetTask, set_task};
ghost use Rattle.rt_words.specs.Limits.{tick_limit};
ghost use Rattle.rt_drawing.specs.Drawing.{in_window, allowed_of};
ghost use Rattle.rt_drawing.specs.Jobs as jobs;
ghost use Rattle.rt_drawing.specs.Marks.{woken_marks};
ghost use Rattle.rt_drawing.specs.Waits as waits;
ghost use Rattle.rt_drawing.specs.Misses as misses;
ghost use Rattle.rt_drawing.specs.Standing as standing;
ghost use Rattle.rt_drawing.specs.Drawn as drawings;
ghost use Rattle.rt_drawing.specs.Drawn.{first_drawing, drawn, drawn_for, IsSound};
ghost use Rattle.rt_drawing.specs.Working.Shown.{shown_of, plain_miss};

use crate::job::Job;
use crate::mark::{Mark, RecordMarks, keep_charge, last_marks, push_record};
use crate::miss::{Miss, miss_by};
use crate::stretch::{Stretch, make_room, show_ticks};
use crate::wait::{Wait, keep_wait, wait_shown};
use crate::window::Window;
use rt_admit::Params;
use rt_history::{AttemptOutcome, Mode, TaskServer};
use rt_image::Task;
use rt_names::TaskName;
use rt_words::MAX_TICKS;
use std::alloc::{AllocError, Global};
use std::marker::Model;

/// How many ticks a response of task `number` may take before it is over: those of its period; of a task that is excepted, as many as
/// there are.
fn allowed_of(except: &[usize], number: u32, period: u32) -> u64
    ensures { (s : SetTask) → s.period ≡ period → result ≡ allowed_of except.now number s }
{
    if except.contains(&(number as usize)) {
        MAX_TICKS
    } else {
        u64::from(period)
    }
}

/// What is kept of a task while it is drawn: its name, how many ticks its responses may take before they are over, how its server stands
/// without the wakes since its last record, its budget at the begin of the picture once that is taken, its open job, the tick behind
/// that record, what is drawn so far, and the first deadline that it missed up to that record.
#[derive(Drop)]
pub struct Sketch<'b> {
    name: TaskName<'b>,
    params: Params,
    allowed: u64,
    serving: TaskServer,
    budget: Option<u32>,
    job: Job,
    behind: u64,
    waits: Vec<Stretch>,
    stretches: Vec<Stretch>,
    marks: Vec<Mark>,
    miss: Option<Miss>,
}

impl<'b> Model for Sketch<'b> {
    ghost use Rattle.rt_drawing.specs.Standing.{TaskDrawing};

    ghost Value = { TaskDrawing };

    ghost view = { λ t. record {
      name = t.name;
      params = t.params;
      allowed = t.allowed;
      serving = t.serving;
      budget = t.budget;
      job = t.job;
      behind = t.behind;
      waits = t.waits.items;
      stretches = t.stretches.items;
      marks = t.marks.items;
      miss = t.miss;
    } };
}

impl<'b> Sketch<'b> {
    /// What is kept of task `number` before its first record. Of those that are excepted no response is over the period.
    pub fn new(alloc: Global, number: u32, task: &Task<'b>, except: &[usize]) -> Sketch<'b>
        requires positive { 1 ≤ task.now.budget }
        requires within { task.now.budget ≤ task.now.period }
        requires spelled { IsObject (object_value task.now.object) }
        ensures { result ≡ first_drawing (allowed_of except.now number (set_task task.now)) number (set_task task.now) }
    {
        Sketch {
            name: TaskName::of(number, &task.object),
            params: Params {
                budget: task.budget,
                period: task.period,
                start: task.start,
            },
            allowed: allowed_of(except, number, task.period),
            serving: TaskServer::new(task.budget, task.period, task.start),
            budget: None,
            job: Job {
                number: 0,
                release: u64::from(task.start),
                ticks: 0,
            },
            behind: 0,
            waits: Vec::new(alloc),
            stretches: Vec::new(alloc),
            marks: Vec::new(alloc),
            miss: None,
        }
    }

    /// Its name.
    pub fn name(&self) -> &TaskName<'b>
        ensures { result.now ≡ self.now.name }
    {
        &self.name
    }

    /// Its period, in ticks.
    pub fn period(&self) -> u32
        ensures { result ≡ self.now.params.period }
    {
        self.params.period
    }

    /// Its budget at the begin of a window, as it stands now, in ticks.
    fn coming_budget(&self, window: &Window) -> u32
        ensures { result ≡ (due window.now.from self.now.serving).account.q }
    {
        let mut serving = self.serving;
        serving.wake_due(window.from);
        serving.server().q()
    }

    /// Its budget at the begin of a window once a record of tick `u` is taken, in ticks.
    #[inline(always)]
    fn noted(&self, window: &Window, u: u64) -> Option<u32>
        ensures { result ≡ drawings.noted window.now.from u self.now.budget self.now.serving }
    {
        match self.budget {
            Some(budget) => Some(budget),
            None if window.from <= u => Some(self.coming_budget(window)),
            None => None,
        }
    }

    /// Its budget at the begin of a window, in ticks.
    pub fn budget(&self, window: &Window) -> u32
        ensures { result ≡ unwrap_or self.now.budget (due window.now.from self.now.serving).account.q }
    {
        match self.budget {
            Some(budget) => budget,
            None => self.coming_budget(window),
        }
    }

    /// When it waited, up to its last record.
    pub fn waits(&self) -> &[Stretch]
        ensures { result.now ≡ self.now.waits }
    {
        &self.waits
    }

    /// When it ran.
    pub fn stretches(&self) -> &[Stretch]
        ensures { result.now ≡ self.now.stretches }
    {
        &self.stretches
    }

    /// What happened to it.
    pub fn marks(&self) -> &[Mark]
        ensures { result.now ≡ self.now.marks }
    {
        &self.marks
    }

    /// The first deadline that it missed up to the end of a window, where that window shows it.
    pub fn shown_miss(&self, window: &Window) -> Option<Miss>
        ensures { result ≡ misses.shown_miss window.now (option_or self.now.miss (misses.miss_by self.now.behind (window.now.to - 1) self.now.serving)) }
    {
        let miss = self
            .miss
            .or(miss_by(self.behind, window.to - 1, &self.serving))?;
        if window.contains(miss.tick) {
            Some(miss)
        } else {
            None
        }
    }

    /// The first deadline that it missed once a record of tick `u` is taken.
    fn missed_by(&self, u: u64) -> Option<Miss>
        requires { u < tick_limit }
        ensures { result ≡ option_or self.now.miss (misses.miss_by self.now.behind u self.now.serving) }
    {
        self.miss.or(miss_by(self.behind, u, &self.serving))
    }

    /// The first deadline that it missed once `n` plain records from tick `u` on are taken: as many as its budget has ticks at most.
    #[inline(always)]
    fn missed_in(&self, u: u64, n: u64) -> Option<Miss>
        requires { u + n ≤ tick_limit }
        ensures { result ≡ option_or self.now.miss (plain_miss self.now.behind u n self.now.serving.account) }
    {
        let server = self.serving.server();
        let tick = self.behind.max(server.d());
        if self.miss.is_some() || tick >= u + n {
            return self.miss;
        }
        Some(Miss {
            tick,
            deadline: server.d(),
            unspent: u64::from(server.c()).saturating_sub(tick.saturating_sub(u)),
        })
    }

    /// The marks of its wake by the end of a window.
    pub fn last_marks(&self, window: &Window) -> RecordMarks
        ensures { result.items ≡ in_window window.now (woken_marks window.now.to self.now.serving) }
    {
        last_marks(window, window.to, &self.serving)
    }

    /// The first tick that is over the period of its open job, if ticks come so far.
    #[inline(always)]
    fn over_from(&self) -> u64
        ensures { result ≡ min (standing.over_from self.now) (2 ^ 64 - 1) }
    {
        self.job.release.saturating_add(self.allowed)
    }

    /// Whether tick `u` is over the period of its open job.
    #[inline(always)]
    fn is_over(&self, u: u64) -> bool
        requires { u < tick_limit }
        ensures { result ≡ waits.is_over (standing.next_turn u self.now) }
    {
        self.over_from() <= u
    }

    /// The tick since which its open job waits.
    #[inline(always)]
    fn since(&self) -> u64
        ensures { result ≡ standing.since self.now }
    {
        self.behind.max(self.job.release)
    }

    /// How its open job waits up to tick `to`, as far as a window shows it.
    fn wait(&self, window: &Window, to: u64) -> Wait
        requires { to ≤ tick_limit }
        ensures { result.items ≡ waits.turn_waits window.now (standing.next_turn to self.now) }
    {
        wait_shown(window, self.over_from(), self.job, self.since(), to)
    }

    /// How it stands at the end of a window.
    pub fn last_mode(&self, window: &Window) -> Mode
        ensures { result ≡ (due window.now.to self.now.serving).mode }
    {
        let mut serving = self.serving;
        serving.wake_due(window.to);
        serving.mode()
    }

    /// How its open job waits up to the end of a window.
    pub fn last_wait(&self, window: &Window) -> Wait
        ensures { result.items ≡ waits.last_wait window.now (due window.now.to self.now.serving).mode (standing.next_turn window.now.to self.now) }
    {
        match self.last_mode(window) {
            Mode::Active => self.wait(window, window.to),
            _ => Wait::new(),
        }
    }

    /// Draws the wait of its open job up to tick `u` where it is shown.
    #[inline(always)]
    fn draw_wait(&mut self, window: &Window, u: u64) -> Result<(), AllocError>
        requires limit { u < tick_limit }
        ensures ok { OnOk result (self.new ≡ record self.old { waits = self.old.waits ++ waits.turn_waits window.now (standing.next_turn u self.old) }) }
        ensures count { OnOk result (length self.new.waits ≤ length self.old.waits + 2) }
        ensures err { OnErr result (self.new ≡ self.old) }
    {
        if self.behind >= u || window.from >= u {
            return Ok(());
        }
        let over_from = self.over_from();
        let since = self.since();
        make_room(&mut self.waits)?;
        keep_wait(&mut self.waits, window, over_from, self.job, since, u);
        Ok(())
    }

    /// Draws `n` ticks from `u` on and the wait before them where they are shown: all or, where there is no memory, none.
    #[inline(always)]
    fn show(&mut self, window: &Window, u: u64, n: u64) -> Result<(), AllocError>
        requires some { 1 ≤ n }
        requires limit { u + n ≤ tick_limit }
        requires ticks { self.old.job.ticks ≤ u }
        ensures ok { OnOk result (self.new ≡ shown_of window.now u n self.old) }
        ensures waits { OnOk result (length self.new.waits ≤ length self.old.waits + 2) }
        ensures stretches { OnOk result (length self.new.stretches ≤ length self.old.stretches + 1) }
        ensures err { OnErr result (self.new ≡ self.old) }
    {
        let count = self.waits.len();
        let over = self.is_over(u);
        let job = self.job.ticked(n);
        self.draw_wait(window, u)?;
        if let Err(fault) = show_ticks(&mut self.stretches, window, u, u + n, over, job) {
            self.waits.truncate(count);
            return Err(fault);
        }
        Ok(())
    }

    /// Draws tick `u` and the wait before it where they are shown, and these marks: all or, where there is no memory, none.
    fn draw(&mut self, window: &Window, u: u64, marks: &[Mark]) -> Result<(), AllocError>
        requires limit { u < tick_limit }
        requires ticks { self.old.job.ticks ≤ u }
        ensures ok { OnOk result (self.new ≡ record (shown_of window.now u 1 self.old) { marks = self.old.marks ++ marks.now }) }
        ensures waits { OnOk result (length self.new.waits ≤ length self.old.waits + 2) }
        ensures stretches { OnOk result (length self.new.stretches ≤ length self.old.stretches + 1) }
        ensures err { OnErr result (self.new ≡ self.old) }
    {
        let count = self.marks.len();
        self.marks.extend_from_slice(marks)?;
        if let Err(fault) = self.show(window, u, 1) {
            self.marks.truncate(count);
            return Err(fault);
        }
        Ok(())
    }

    /// Takes a record of tick `u`.
    pub fn take(
        &mut self,
        window: &Window,
        u: u64,
        outcome: AttemptOutcome,
    ) -> Result<(), AllocError>
        requires limit { u < tick_limit }
        requires sound { IsSound u self.old }
        ensures ok { OnOk result (self.new ≡ drawn window.now u outcome self.old) }
        ensures sound { OnOk result (IsSound (u + 1) self.new) }
        ensures err { OnErr result (self.new ≡ self.old) }
    {
        let mut marks = RecordMarks::new();
        let after = push_record(&mut marks, window, u, outcome, &self.serving);
        let budget = self.noted(window, u);
        let miss = self.missed_by(u);
        self.draw(window, u, &marks)?;
        self.serving = after;
        self.budget = budget;
        self.miss = miss;
        self.job = self.job.behind(outcome);
        self.behind = u + 1;
        Ok(())
    }

    /// How many of the `n` ticks from `u` on are over the period of its open job as tick `u` is, or are before it as that is.
    #[inline(always)]
    fn alike(&self, u: u64, n: u64) -> u64
        requires some { 1 ≤ n }
        requires limit { u + n ≤ tick_limit }
        ensures some { 1 ≤ result }
        ensures within { result ≤ n }
        ensures alike { (standing.over_from self.now ≤ u) ⊎ (u + result ≤ standing.over_from self.now) }
    {
        let over_from = self.over_from();
        if over_from <= u {
            return n;
        }
        n.min(over_from - u)
    }

    /// Takes `n` plain records from tick `u` on, of a task that is active: as many as its budget has ticks at most, so that only
    /// the last may leave marks, and all of them over the period of its open job, or none.
    #[inline(always)]
    fn go_on(&mut self, window: &Window, u: u64, n: u64) -> Result<(), AllocError>
        requires some { 1 ≤ n }
        requires limit { u + n ≤ tick_limit }
        requires sound { IsSound u self.old }
        requires active { self.old.serving.mode ≡ Active }
        requires budget { n ≤ max self.old.serving.account.c 1 }
        requires alike { (standing.over_from self.old ≤ u) ⊎ (u + n ≤ standing.over_from self.old) }
        ensures ok { OnOk result (self.new ≡ drawn_for window.now u n self.old) }
        ensures sound { OnOk result (IsSound (u + n) self.new) }
        ensures err { OnErr result (self.new ≡ self.old) }
    {
        let to = u + n;
        let mut serving = self.serving;
        serving.spend_for(n);
        let budget = self.noted(window, to - 1);
        let miss = self.missed_in(u, n);
        let marked = self.marks.len();
        make_room(&mut self.marks)?;
        keep_charge(
            &mut self.marks,
            window,
            to - 1,
            self.serving.server(),
            serving.server(),
        );
        if let Err(fault) = self.show(window, u, n) {
            self.marks.truncate(marked);
            return Err(fault);
        }
        self.serving = serving;
        self.budget = budget;
        self.miss = miss;
        self.job = self.job.ticked(n);
        self.behind = to;
        Ok(())
    }

    /// Takes plain records from tick `u` on, of a task that is active, and answers how many: at most `n`, no more than its budget
    /// has ticks, and none beyond the end of its open job's period, but where all are.
    #[inline(always)]
    fn spend_plain(&mut self, window: &Window, u: u64, n: u64) -> Result<u64, AllocError>
        requires some { 1 ≤ n }
        requires limit { u + n ≤ tick_limit }
        requires sound { IsSound u self.old }
        requires active { self.old.serving.mode ≡ Active }
        ensures some { IfOk result (λ k. 1 ≤ k) }
        ensures within { IfOk result (λ k. k ≤ n) }
        ensures ok { IfOk result (λ k. self.new ≡ drawn_for window.now u k self.old) }
        ensures sound { IfOk result (λ k. IsSound (u + k) self.new) }
        ensures err { OnErr result (self.new ≡ self.old) }
    {
        let budget = u64::from(self.serving.server().c()).max(1);
        let count = self.alike(u, n.min(budget));
        self.go_on(window, u, count)?;
        Ok(count)
    }

    /// Takes the plain record of tick `u` that makes a task active, and answers that it is one.
    #[cold]
    #[inline(never)]
    fn begin_plain(&mut self, window: &Window, u: u64) -> Result<u64, AllocError>
        requires limit { u < tick_limit }
        requires sound { IsSound u self.old }
        ensures one { IfOk result (λ k. k ≡ 1) }
        ensures ok { OnOk result (self.new ≡ drawn_for window.now u 1 self.old) }
        ensures sound { OnOk result (IsSound (u + 1) self.new) }
        ensures err { OnErr result (self.new ≡ self.old) }
    {
        self.take(window, u, AttemptOutcome::Next)?;
        Ok(1)
    }

    /// Takes plain records from tick `u` on, and answers how many: at most `n`.
    #[inline(always)]
    pub fn take_plain(&mut self, window: &Window, u: u64, n: u64) -> Result<u64, AllocError>
        requires some { 1 ≤ n }
        requires limit { u + n ≤ tick_limit }
        requires sound { IsSound u self.old }
        ensures some { IfOk result (λ k. 1 ≤ k) }
        ensures within { IfOk result (λ k. k ≤ n) }
        ensures ok { IfOk result (λ k. self.new ≡ drawn_for window.now u k self.old) }
        ensures sound { IfOk result (λ k. IsSound (u + k) self.new) }
        ensures err { OnErr result (self.new ≡ self.old) }
    {
        match self.serving.mode() {
            Mode::Active => self.spend_plain(window, u, n),
            _ => self.begin_plain(window, u),
        }
    }
}
