//! Wakes: which tasks wake when, and how idle ticks pass until one does.

ghost use Rattle.std.specs.Prelude.{◌≡◌, ◌+◌, ◌<◌, ◌≤◌, true, false, map, None};
ghost use Rattle.rt_queue.specs.Least.{IsLeast};
ghost use Rattle.rt_history.specs.Named.{deadline};
ghost use Rattle.rt_history.specs.Working.Step.{woken_task};
ghost use Rattle.rt_core.specs.Working.Tied.{wake_at, count_some};
ghost use Rattle.rt_core.specs.Working.Going.{Idles};
ghost use Rattle.rt_core.specs.Working.PlainSteps.{IsQuiet};

use crate::machine::Machine;
use rt_exec::Fetcher;
use rt_queue::MinQueue;
use rt_words::MAX_TICKS;

impl<Q: MinQueue, F: Fetcher> Machine<Q, F> {
    /// Wakes the task of the least timer, if its tick has come.
    fn wake_first(&mut self) -> bool
        ensures same { map (woken_task self.old.tick) self.new.tasks ≡ map (woken_task self.old.tick) self.old.tasks }
        ensures others { self.new ≡ record self.old { tasks = self.new.tasks } }
        ensures woken { result ≡ true → count_some (map wake_at self.new.tasks) < count_some (map wake_at self.old.tasks) }
        ensures all { result ≡ false → map (woken_task self.old.tick) self.new.tasks ≡ self.new.tasks }
    {
        match self.timers.least() {
            Some((w, number)) if w <= self.clock => {
                self.timers.remove(number);
                let task = &mut self.tasks[number as usize];
                task.wake(w);
                let deadline = task.deadline();
                self.ready.insert(number, deadline);
                true
            }
            _ => false,
        }
    }

    /// Applies the wakes of the tick that comes next.
    #[inline(always)]
    pub(super) fn wake_due(&mut self)
        ensures { self.new ≡ record self.old { tasks = map (woken_task self.old.tick) self.old.tasks } }
    {
        if self.is_wake_due() {
            self.wake_all();
        }
    }

    /// Whether a task wakes at the tick that comes next.
    #[inline(always)]
    fn is_wake_due(&self) -> bool
        ensures { result ≡ false → map (woken_task self.now.tick) self.now.tasks ≡ self.now.tasks }
    {
        match self.timers.least() {
            Some((w, _)) => w <= self.clock,
            None => false,
        }
    }

    /// Wakes the tasks whose tick has come.
    #[cold]
    #[inline(never)]
    pub(super) fn wake_all(&mut self)
        ensures { self.new ≡ record self.old { tasks = map (woken_task self.old.tick) self.old.tasks } }
    {
        while self.wake_first() {}
    }

    /// The least tick at which a task wakes, and the task's number.
    #[inline]
    pub(super) fn next_wake(&self) -> Option<(u64, u32)>
        ensures { IsLeast (map wake_at self.now.tasks) result }
    {
        self.timers.least()
    }

    /// Lets `n` ticks pass, whose wakes are still to be applied.
    pub(super) fn pass(&mut self, n: u64)
        requires { self.old.tick + n ≤ MAX_TICKS }
        ensures { self.new ≡ record self.old { tick = self.old.tick + n } }
    {
        self.clock += n;
    }

    /// The longest stretch of idle ticks, at most `most`: it ends where the first task wakes.
    #[cold]
    #[inline(never)]
    pub(super) fn idle(&mut self, most: u64) -> u64
        requires some { 0 < most }
        requires limit { self.old.tick + most ≤ MAX_TICKS }
        requires idle { IsLeast (map deadline self.old.tasks) None }
        ensures { Idles most result self.old self.new }
    {
        let now = self.clock;
        let end = now + most;
        let until = match self.next_wake() {
            Some((w, _)) => w.max(now + 1).min(end),
            None => end,
        };
        self.pass(until - now);
        self.wake_due();
        until - now
    }

    /// How many ticks there are, at most `limit`, before a task may wake.
    #[inline(always)]
    pub(super) fn quiet_ticks(&self, limit: u64) -> u64
        ensures within { result ≤ limit }
        ensures quiet { IsQuiet result self.now }
    {
        match self.timers.least() {
            Some((w, _)) => limit.min(w.saturating_sub(self.clock)),
            None => limit,
        }
    }
}
