//! What is kept of one task.

ghost use Rattle.std.specs.Prelude.{◌≡◌, ◌≢◌, ℕ, ◌<◌, ◌≤◌, ◌+◌, ◌^◌, ◌++◌, length, true, false, Some, None, codes, decimal, IfOk};
ghost use Rattle.rt_admit.specs.Limits.{task_limit};
ghost use Rattle.rt_history.specs.declared.mode.Mode.TheVariants.{Active};
ghost use Rattle.rt_history.specs.declared.record.AttemptOutcome.TheVariants.{Next};
ghost use Rattle.rt_server.specs.Recharge.{spent};
ghost use Rattle.rt_waves.specs.declared.block.Telling.TheVariants.{Changes};
ghost use Rattle.rt_waves.specs.declared.signals.Value.TheVariants.{Wire, Number};
ghost use Rattle.rt_waves.specs.declared.signals.ModeSignal.TheVariants as signals;
ghost use Rattle.rt_waves.specs.WavesText.{mode_number, wave};
ghost use Rattle.rt_waves.specs.Working.Telling.{told_line};
ghost use Rattle.rt_waves.specs.Working.Going.{going_told, IsGoing, IsLeft};
ghost use Rattle.std.specs.Option.{is_some, option_map_or};
ghost use Rattle.rt_words.specs.Limits.{tick_limit};
ghost use Rattle.rt_history.specs.Job.{ends_job};
ghost use Rattle.rt_history.specs.Serving.{due};
ghost use Rattle.rt_history.specs.Working.Bounded.{IsBounded, taken};
ghost use Rattle.rt_image.specs.SystemFile.{set_task};
ghost use Rattle.rt_report.specs.WideRows.{postpones, wakes_afresh, wakes_kept};
ghost use Rattle.rt_waves.specs.Waves.{part_begin};
ghost use Rattle.rt_waves.specs.Working.Stepped.{first_standing, seen, visited, gone_on, lines_of, rest, WakesFrom};

use crate::block::Telling;
use crate::kept::PcLines;
use crate::lines::{LINES_LEN, put_lines, put_number, put_wire, put_word};
use crate::page::{PAGE_LEN, Page};
use crate::parts::Parts;
use crate::signals::{ModeSignal, TaskWaves};
use rt_history::{AttemptOutcome, Mode, TaskServer, taken_by};
use rt_image::Task;
use rt_server::Spent;
use std::alloc::{AllocError, Global};
use std::marker::Model;

/// Where a task stands behind a tick.
#[derive(Clone, Copy, PartialEq, Eq)]
pub struct Place {
    /// The address of its next instruction.
    pub pc: u32,
    /// How many bytes it has written.
    pub output: u32,
}

/// How a task wakes at a tick.
#[derive(Clone, Copy, PartialEq, Eq)]
struct Woken {
    fresh: bool,
    kept: bool,
}

/// What is known of the signals that were written of a task.
#[derive(Clone, Copy, PartialEq, Eq)]
pub(crate) enum Stance {
    /// It is active, and they are written as they stay while it doesn't run.
    Rests,
    /// It is active, and but for its pc, the part and the budget they are written as those of a task that runs, with no pulse.
    Runs,
    /// Nothing.
    Other,
}

/// A task's server with the wakes of the ticks so far and without those of the coming one, its place, and its signals at the time
/// before.
#[derive(Drop)]
pub(crate) struct Track<'s, 'b> {
    serving: TaskServer,
    place: Place,
    parts: Parts<'s, 'b>,
    told: TaskWaves,
    stance: Stance,
}

impl<'s, 'b> Model for Track<'s, 'b> {
    ghost use Rattle.rt_waves.specs.Standing.{TaskStanding};
    ghost use Rattle.rt_waves.specs.Working.Going.{IsStance};

    ghost Value = { TaskStanding };

    ghost view = { λ t. record { serving = t.serving; pc = t.place.pc; out = t.place.output; labels = t.parts; told = t.told } };

    ghost invariant = { λ t. IsStance t.stance (record { serving = t.serving; pc = t.place.pc; out = t.place.output; labels = t.parts; told = t.told }) };
}

impl<'s, 'b> Track<'s, 'b> {
    /// What is kept of a task before the first tick. All room that it needs is taken here.
    ///
    /// # Errors
    ///
    /// There is no memory for it.
    pub(crate) fn new(alloc: Global, task: &'s Task<'b>) -> Result<Track<'s, 'b>, AllocError>
        requires positive { 1 ≤ task.now.budget }
        requires within { task.now.budget ≤ task.now.period }
        ensures { IfOk result (λ track. track ≡ first_standing (set_task task.now)) }
    {
        Ok(Track {
            serving: TaskServer::new(task.budget, task.period, task.start),
            place: Place {
                pc: task.object.entry,
                output: 0,
            },
            parts: Parts::new(alloc, task.object.symbols.as_slice())?,
            told: TaskWaves::untold(),
            stance: Stance::Other,
        })
    }

    /// The tick at which the task wakes, where it is asleep, and else the last of all numbers.
    pub(crate) fn wake_tick(&self) -> u64
        ensures { WakesFrom result self.now }
    {
        match self.serving.mode() {
            Mode::Asleep(w) => w,
            _ => u64::MAX,
        }
    }

    /// Applies the wake of tick `u`, and answers how the task woke.
    #[inline(always)]
    fn wake_due(&mut self, u: u64) -> Woken
        requires { u ≤ tick_limit }
        ensures stands { self.new ≡ record self.old { serving = due u self.old.serving } }
        ensures fresh { result.fresh ≡ wakes_afresh u self.old.serving }
        ensures kept { result.kept ≡ wakes_kept u self.old.serving }
    {
        match self.serving.mode() {
            Mode::Asleep(w) if w <= u => {
                let fresh = self.serving.server().is_fresh_at(w);
                self.stance = Stance::Other;
                self.serving.wake_due(u);
                Woken {
                    fresh,
                    kept: !fresh,
                }
            }
            _ => Woken {
                fresh: false,
                kept: false,
            },
        }
    }

    /// Whether a record that came out so would move the deadline on.
    #[inline(always)]
    fn is_postponed_by(&self, u: u64, outcome: AttemptOutcome) -> bool
        requires limit { u < tick_limit }
        requires sound { IsBounded u self.now.serving.account }
        ensures { let a = self.now.serving.account in result ≡ postpones (taken outcome a) a }
    {
        let mut next = self.serving;
        next.take(u, taken_by(self.serving.server(), outcome));
        self.serving.server().d() < next.server().d()
    }

    /// Whether the record that came out so, if any, moves the deadline on.
    #[inline(always)]
    fn is_postponed(&self, u: u64, outcome: Option<AttemptOutcome>) -> bool
        requires limit { u < tick_limit }
        requires sound { IsBounded u self.now.serving.account }
        ensures { let a = self.now.serving.account in result ≡ option_map_or (λ o. postpones (taken o a) a) outcome false }
    {
        match outcome {
            Some(outcome) => self.is_postponed_by(u, outcome),
            None => false,
        }
    }

    /// Applies the wakes of time `u`, takes the signals of that time, of which a record of the task came out so, or none is its own,
    /// and appends the lines of what is written of them. The task has this number.
    #[inline(never)]
    fn visit_any(
        &mut self,
        u: u64,
        telling: Telling,
        number: u32,
        outcome: Option<AttemptOutcome>,
        kept: &mut PcLines,
        page: &mut Page<'_>,
    )
        requires limit { u < tick_limit }
        requires sound { IsBounded u self.old.serving.account }
        requires task { number < task_limit }
        requires room { length page.old + LINES_LEN ≤ PAGE_LEN }
        ensures stands { self.new ≡ visited u outcome self.old }
        ensures text { page.new ≡ page.old ++ lines_of telling number self.old.told (seen u outcome self.old) }
        ensures short { length page.new ≤ length page.old + LINES_LEN }
    {
        let woken = self.wake_due(u);
        let postponed = self.is_postponed(u, outcome);
        let server = *self.serving.server();
        let now = TaskWaves {
            running: outcome.is_some(),
            mode: ModeSignal::of(self.serving.mode()),
            pc: self.place.pc,
            part: self.parts.begin_of(self.place.pc),
            c: server.c(),
            d: server.d(),
            out: self.place.output,
            fresh: woken.fresh,
            kept: woken.kept,
            postponed,
            finish: is_finished_by(outcome),
        };
        put_lines(page, kept, telling, number, &self.told, &now);
        self.stance = Stance::Other;
        self.told = now;
    }

    /// Its signals at time `u`, where it is active, and attempts an instruction that is no call.
    #[inline(always)]
    fn active_waves(&mut self, u: u64) -> TaskWaves
        requires limit { u < tick_limit }
        requires sound { IsBounded u self.old.serving.account }
        requires mode { self.old.serving.mode ≡ Active }
        ensures same { self.new ≡ self.old }
        ensures value { result ≡ seen u (Some Next) self.old }
    {
        let server = *self.serving.server();
        TaskWaves {
            running: true,
            mode: ModeSignal::Active,
            pc: self.place.pc,
            part: self.parts.begin_of(self.place.pc),
            c: server.c(),
            d: server.d(),
            out: self.place.output,
            fresh: false,
            kept: false,
            postponed: self.is_postponed_by(u, AttemptOutcome::Next),
            finish: false,
        }
    }

    /// Visits the task as `visit` does, where it is active, attempts an instruction that is no call, and changes are written.
    #[inline(never)]
    fn visit_active(&mut self, u: u64, number: u32, kept: &mut PcLines, page: &mut Page<'_>)
        requires limit { u < tick_limit }
        requires sound { IsBounded u self.old.serving.account }
        requires mode { self.old.serving.mode ≡ Active }
        requires task { number < task_limit }
        requires room { length page.old + LINES_LEN ≤ PAGE_LEN }
        ensures stands { self.new ≡ visited u (Some Next) self.old }
        ensures text { page.new ≡ page.old ++ lines_of Changes number self.old.told (seen u (Some Next) self.old) }
        ensures short { length page.new ≤ length page.old + LINES_LEN }
    {
        let now = self.active_waves(u);
        put_lines(page, kept, Telling::Changes, number, &self.told, &now);
        self.stance = Stance::Other;
        self.told = now;
    }

    /// Has the task written as active and not running, and appends the lines of what changes by that.
    #[inline(always)]
    fn put_stop(&mut self, number: u32, page: &mut Page<'_>)
        requires task { number < task_limit }
        requires room { length page.old + 192 ≤ PAGE_LEN }
        ensures stands { self.new ≡ record self.old { told = record self.old.told { running = false; mode = signals.Active } } }
        ensures text { page.new ≡ page.old ++ told_line Changes (Wire self.old.told.running) (wave (codes "r" ++ decimal number) (Wire false))
            ++ told_line Changes (Number (mode_number self.old.told.mode)) (wave (codes "m" ++ decimal number) (Number (mode_number signals.Active))) }
        ensures short { length page.new ≤ length page.old + 192 }
    {
        let TaskWaves { running, mode, .. } = self.told;
        let active = ModeSignal::Active;
        put_wire(page, Telling::Changes, b'r', number, running, false);
        put_number(
            page,
            Telling::Changes,
            b'm',
            number,
            mode.number(),
            active.number(),
        );
        self.stance = Stance::Other;
        self.told.running = false;
        self.told.mode = active;
    }

    /// Takes the budget, the deadline and how much is written, and appends the lines of those that change.
    #[inline(always)]
    fn put_account(&mut self, number: u32, page: &mut Page<'_>)
        requires task { number < task_limit }
        requires room { length page.old + 288 ≤ PAGE_LEN }
        ensures stands { let a = self.old.serving.account in self.new ≡ record self.old { told = record self.old.told { c = a.c; d = a.d; out = self.old.out } } }
        ensures text { let a = self.old.serving.account in page.new ≡ page.old ++ told_line Changes (Number self.old.told.c) (wave (codes "c" ++ decimal number) (Number a.c))
            ++ told_line Changes (Number self.old.told.d) (wave (codes "d" ++ decimal number) (Number a.d))
            ++ told_line Changes (Number self.old.told.out) (wave (codes "o" ++ decimal number) (Number self.old.out)) }
        ensures short { length page.new ≤ length page.old + 288 }
    {
        self.stance = Stance::Other;
        let c = self.serving.server().c();
        put_word(page, b'c', number, self.told.c, c);
        self.told.c = c;
        let d = self.serving.server().d();
        put_number(page, Telling::Changes, b'd', number, self.told.d, d);
        self.told.d = d;
        put_word(page, b'o', number, self.told.out, self.place.output);
        self.told.out = self.place.output;
    }

    /// Ends all pulses, and appends the lines of those that there were.
    #[inline(always)]
    fn end_pulses(&mut self, number: u32, page: &mut Page<'_>)
        requires task { number < task_limit }
        requires room { length page.old + 384 ≤ PAGE_LEN }
        ensures stands { self.new ≡ record self.old { told = record self.old.told { fresh = false; kept = false; postponed = false; finish = false } } }
        ensures text { page.new ≡ page.old ++ told_line Changes (Wire self.old.told.fresh) (wave (codes "f" ++ decimal number) (Wire false))
            ++ told_line Changes (Wire self.old.told.kept) (wave (codes "k" ++ decimal number) (Wire false))
            ++ told_line Changes (Wire self.old.told.postponed) (wave (codes "x" ++ decimal number) (Wire false))
            ++ told_line Changes (Wire self.old.told.finish) (wave (codes "j" ++ decimal number) (Wire false)) }
        ensures short { length page.new ≤ length page.old + 384 }
    {
        put_wire(page, Telling::Changes, b'f', number, self.told.fresh, false);
        put_wire(page, Telling::Changes, b'k', number, self.told.kept, false);
        put_wire(
            page,
            Telling::Changes,
            b'x',
            number,
            self.told.postponed,
            false,
        );
        put_wire(
            page,
            Telling::Changes,
            b'j',
            number,
            self.told.finish,
            false,
        );
        self.stance = Stance::Other;
        self.told.fresh = false;
        self.told.kept = false;
        self.told.postponed = false;
        self.told.finish = false;
    }

    /// Visits the task as `visit` does, where it is active, attempts nothing, and changes are written.
    #[inline(always)]
    fn visit_resting(&mut self, u: u64, number: u32, kept: &mut PcLines, page: &mut Page<'_>)
        requires limit { u < tick_limit }
        requires sound { IsBounded u self.old.serving.account }
        requires mode { self.old.serving.mode ≡ Active }
        requires task { number < task_limit }
        requires room { length page.old + LINES_LEN ≤ PAGE_LEN }
        ensures stands { self.new ≡ visited u None self.old }
        ensures text { page.new ≡ page.old ++ lines_of Changes number self.old.told (seen u None self.old) }
        ensures short { length page.new ≤ length page.old + LINES_LEN }
    {
        self.put_stop(number, page);
        self.put_place(number, kept, page);
        self.put_account(number, page);
        self.end_pulses(number, page);
        self.stance = Stance::Rests;
    }

    /// Whether an instruction that is no call uses the budget up, so that the deadline moves on.
    #[tactic(auto, using(crate::proofs::GoingLaws::last_tick))]
    #[inline(always)]
    fn has_last_tick(&self) -> bool
        requires { 1 ≤ self.now.serving.account.p }
        ensures { result ≡ postpones Next self.now.serving.account }
    {
        self.serving.server().c() <= 1
    }

    /// Visits the task as `visit` does, where it has rested, attempts an instruction that is no call, and changes are written.
    #[inline(always)]
    fn begin(&mut self, u: u64, number: u32, page: &mut Page<'_>)
        requires limit { u < tick_limit }
        requires sound { IsBounded u self.old.serving.account }
        requires mode { self.old.serving.mode ≡ Active }
        requires told { self.old.told ≡ rest self.old }
        requires task { number < task_limit }
        requires room { length page.old + LINES_LEN ≤ PAGE_LEN }
        ensures stands { self.new ≡ visited u (Some Next) self.old }
        ensures text { page.new ≡ page.old ++ lines_of Changes number self.old.told (seen u (Some Next) self.old) }
        ensures short { length page.new ≤ length page.old + LINES_LEN }
    {
        let moves_on = self.has_last_tick();
        page.put_wire(b'r', number, true);
        self.told.running = true;
        self.told.postponed = moves_on;
        if moves_on {
            page.put_wire(b'x', number, true);
            self.stance = Stance::Other;
        } else {
            self.stance = Stance::Runs;
        }
    }

    /// Whether it has rested.
    #[inline(always)]
    fn has_rested(&self) -> bool
        ensures mode { result ≡ true → self.now.serving.mode ≡ Active }
        ensures told { result ≡ true → self.now.told ≡ rest self.now }
    {
        self.stance == Stance::Rests
    }

    /// Visits the task as `visit` does, where it is active, attempts an instruction that is no call, and changes are written.
    #[inline(always)]
    fn visit_running(&mut self, u: u64, number: u32, kept: &mut PcLines, page: &mut Page<'_>)
        requires limit { u < tick_limit }
        requires sound { IsBounded u self.old.serving.account }
        requires mode { self.old.serving.mode ≡ Active }
        requires task { number < task_limit }
        requires room { length page.old + LINES_LEN ≤ PAGE_LEN }
        ensures stands { self.new ≡ visited u (Some Next) self.old }
        ensures text { page.new ≡ page.old ++ lines_of Changes number self.old.told (seen u (Some Next) self.old) }
        ensures short { length page.new ≤ length page.old + LINES_LEN }
    {
        if self.has_rested() {
            self.begin(u, number, page);
        } else {
            self.visit_active(u, number, kept, page);
        }
    }

    /// Whether it is active.
    #[inline(always)]
    fn is_active(&self) -> bool
        ensures { result ≡ true → self.now.serving.mode ≡ Active }
    {
        matches!(self.serving.mode(), Mode::Active)
    }

    /// Applies the wakes of time `u`, takes the signals of that time, of which a record of the task came out so, or none is its own,
    /// and appends the lines of what is written of them. The task has this number.
    #[inline(always)]
    pub(crate) fn visit(
        &mut self,
        u: u64,
        telling: Telling,
        number: u32,
        outcome: Option<AttemptOutcome>,
        kept: &mut PcLines,
        page: &mut Page<'_>,
    )
        requires limit { u < tick_limit }
        requires sound { IsBounded u self.old.serving.account }
        requires task { number < task_limit }
        requires room { length page.old + LINES_LEN ≤ PAGE_LEN }
        ensures stands { self.new ≡ visited u outcome self.old }
        ensures text { page.new ≡ page.old ++ lines_of telling number self.old.told (seen u outcome self.old) }
        ensures short { length page.new ≤ length page.old + LINES_LEN }
    {
        let is_quick = telling == Telling::Changes && self.is_active();
        match outcome {
            None if is_quick => self.visit_resting(u, number, kept, page),
            None => self.visit_any(u, telling, number, None, kept, page),
            Some(AttemptOutcome::Next) if is_quick => self.visit_running(u, number, kept, page),
            Some(other) => self.visit_any(u, telling, number, Some(other), kept, page),
        }
    }

    /// Whether it is active, and its signals are written as those of a task that ran, with no pulse, where but for its pc, the part and
    /// the budget they are as they were written, and the budget isn't.
    pub(crate) fn is_going(&self) -> bool
        ensures { result ≡ true → IsGoing self.now }
    {
        self.has_budget_to_tell() && (self.runs() || self.seems_to_run())
    }

    /// Whether it is known to be active, and its signals to be written as those of a task that runs.
    #[inline(always)]
    fn runs(&self) -> bool
        ensures mode { result ≡ true → self.now.serving.mode ≡ Active }
        ensures told { result ≡ true → self.now.told ≡ going_told self.now }
    {
        self.stance == Stance::Runs
    }

    /// Whether it is active, and its signals are written as those of a task that runs.
    #[inline(never)]
    fn seems_to_run(&self) -> bool
        ensures mode { result ≡ true → self.now.serving.mode ≡ Active }
        ensures told { result ≡ true → self.now.told ≡ going_told self.now }
    {
        self.is_active() && is_running_calmly(&self.told) && self.is_told()
    }

    /// Whether there is a budget, which isn't written.
    #[inline(always)]
    fn has_budget_to_tell(&self) -> bool
        ensures some { result ≡ true → 1 ≤ self.now.serving.account.c }
        ensures less { result ≡ true → self.now.told.c ≢ self.now.serving.account.c }
    {
        let c = self.serving.server().c();
        c > 0 && self.told.c != c
    }

    /// Whether its deadline and how much it has written are written.
    #[inline(always)]
    fn is_told(&self) -> bool
        ensures d { result ≡ true → self.now.told.d ≡ self.now.serving.account.d }
        ensures out { result ≡ true → self.now.told.out ≡ self.now.out }
    {
        self.told.d == self.serving.server().d() && self.told.out == self.place.output
    }

    /// Takes the pc and the part, and appends the lines of those that change.
    #[inline(always)]
    fn put_place(&mut self, number: u32, kept: &mut PcLines, page: &mut Page<'_>)
        requires task { number < task_limit }
        requires room { length page.old + 192 ≤ PAGE_LEN }
        ensures stands { self.new ≡ record self.old { told = record self.old.told { pc = self.old.pc; part = part_begin self.old.labels self.old.pc } } }
        ensures text { page.new ≡ page.old ++ told_line Changes (Number self.old.told.pc) (wave (codes "p" ++ decimal number) (Number self.old.pc))
            ++ told_line Changes (Number self.old.told.part) (wave (codes "s" ++ decimal number) (Number (part_begin self.old.labels self.old.pc))) }
        ensures short { length page.new ≤ length page.old + 160 }
    {
        let pc = self.place.pc;
        if pc != self.told.pc {
            kept.put(number, pc, page);
            self.told.pc = pc;
        }
        let part = self.parts.begin_of(pc);
        if part != self.told.part {
            page.put_number(b's', number, u64::from(part));
            self.told.part = part;
        }
    }

    /// Takes the budget, which isn't written, and one tick of it, appends its line, and that of the deadline's pulse where it moves on.
    /// Answers whether it doesn't.
    #[inline(always)]
    fn put_budget(&mut self, number: u32, page: &mut Page<'_>) -> bool
        requires task { number < task_limit }
        requires room { length page.old + 192 ≤ PAGE_LEN }
        requires some { 1 ≤ self.old.serving.account.c }
        requires less { self.old.told.c ≢ self.old.serving.account.c }
        requires period { 1 ≤ self.old.serving.account.p }
        requires deadline { self.old.serving.account.d + self.old.serving.account.p < 2 ^ 63 }
        requires told { self.old.told.postponed ≡ false }
        ensures stands { let a = self.old.serving.account in self.new ≡ record self.old {
          serving = record self.old.serving { account = spent a };
          told = record self.old.told { c = a.c; postponed = postpones Next a };
        } }
        ensures text { let a = self.old.serving.account in page.new ≡ page.old ++ told_line Changes (Number self.old.told.c) (wave (codes "c" ++ decimal number) (Number a.c))
            ++ told_line Changes (Wire false) (wave (codes "x" ++ decimal number) (Wire (postpones Next a))) }
        ensures more { length page.old < length page.new }
        ensures short { length page.new ≤ length page.old + 160 }
        ensures going { result ≡ true → IsLeft self.old.serving.account }
    {
        let c = self.serving.server().c();
        page.put_number(b'c', number, u64::from(c));
        self.stance = Stance::Other;
        self.told.c = c;
        if self.serving.spend() == Spent::Same {
            return true;
        }
        page.put_wire(b'x', number, true);
        self.told.postponed = true;
        false
    }

    /// Takes the signals of a time at which the task, which is going, attempts an instruction that is no call, and appends the lines
    /// of those that change. Takes the record of that, which left the task at this place. Answers whether it is still going.
    #[inline(always)]
    pub(crate) fn keep_going(
        &mut self,
        number: u32,
        place: Place,
        kept: &mut PcLines,
        page: &mut Page<'_>,
    ) -> bool
        requires task { number < task_limit }
        requires room { length page.old + LINES_LEN ≤ PAGE_LEN }
        requires going { IsGoing self.old }
        requires period { 1 ≤ self.old.serving.account.p }
        requires deadline { self.old.serving.account.d + self.old.serving.account.p < 2 ^ 63 }
        ensures stands { (u : ℕ) → self.new ≡ gone_on u Next place (visited u (Some Next) self.old) }
        ensures text { (u : ℕ) → page.new ≡ page.old ++ lines_of Changes number self.old.told (seen u (Some Next) self.old) }
        ensures more { length page.old < length page.new }
        ensures short { length page.new ≤ length page.old + LINES_LEN }
        ensures going { result ≡ true → IsGoing self.new }
    {
        self.put_place(number, kept, page);
        let has_left = self.put_budget(number, page);
        let is_told = place.output == self.place.output;
        self.stance = Stance::Other;
        self.place = place;
        has_left && is_told
    }

    /// Takes the record of tick `u`, which came out so and left the task at this place.
    #[inline(always)]
    pub(crate) fn go_on(&mut self, u: u64, outcome: AttemptOutcome, place: Place)
        requires limit { u < tick_limit }
        requires sound { IsBounded (u + 1) self.old.serving.account }
        ensures { self.new ≡ gone_on u outcome place self.old }
    {
        match outcome {
            AttemptOutcome::Next if self.has_budget() => self.spend(place),
            _ => self.take(u, outcome, place),
        }
    }

    /// Whether it is active, and some of its budget is left.
    #[inline(always)]
    fn has_budget(&self) -> bool
        ensures mode { result ≡ true → self.now.serving.mode ≡ Active }
        ensures some { result ≡ true → 1 ≤ self.now.serving.account.c }
    {
        self.is_active() && self.serving.server().c() > 0
    }

    /// Takes the record of an instruction that is no call, which left the task, which is active, at this place.
    #[inline(always)]
    fn spend(&mut self, place: Place)
        requires mode { self.old.serving.mode ≡ Active }
        requires some { 1 ≤ self.old.serving.account.c }
        requires deadline { self.old.serving.account.d + self.old.serving.account.p < 2 ^ 63 }
        ensures { self.new ≡ record self.old { serving = record self.old.serving { account = spent self.old.serving.account }; pc = place.pc; out = place.output } }
    {
        let stays = self.stance == Stance::Runs && place.output == self.place.output;
        self.stance = Stance::Other;
        let spent = self.serving.spend();
        self.place = place;
        if stays && spent == Spent::Same {
            self.stance = Stance::Runs;
        }
    }

    /// Takes the record of tick `u`, which came out so and left the task at this place, whatever it is.
    #[inline(never)]
    fn take(&mut self, u: u64, outcome: AttemptOutcome, place: Place)
        requires limit { u < tick_limit }
        requires sound { IsBounded (u + 1) self.old.serving.account }
        ensures { self.new ≡ gone_on u outcome place self.old }
    {
        self.stance = Stance::Other;
        self.serving
            .take(u, taken_by(self.serving.server(), outcome));
        self.place = place;
    }
}

/// Whether these are the signals of an active task that ran, with no pulse.
#[inline(always)]
fn is_running_calmly(told: &TaskWaves) -> bool
    ensures { result ≡ true → told.now ≡ record told.now { running = true; mode = ModeSignal.Active; fresh = false; kept = false; postponed = false; finish = false } }
{
    let has_pulse = told.fresh || told.kept || told.postponed || told.finish;
    told.running && told.mode == ModeSignal::Active && !has_pulse
}

/// Whether the record that came out so, if any, is the last of a job.
#[inline(always)]
fn is_finished_by(outcome: Option<AttemptOutcome>) -> bool
    ensures { result ≡ option_map_or ends_job outcome false }
{
    matches!(
        outcome,
        Some(AttemptOutcome::End) | Some(AttemptOutcome::Sleep(_))
    )
}
