//! On to a stop, and back.

ghost use Rattle.std.specs.Prelude.{◌≡◌, true, false};
ghost use Rattle.std.specs.List.{flat_map, list_all};
ghost use Rattle.circular_buffer.specs.Buffer.{keep_last};
ghost use Rattle.rt_trace.specs.HistoryText.{line};
ghost use Rattle.rt_remote.specs.Chosen.{is_id, resumed_by};
ghost use Rattle.rt_remote.specs.Runs.{RunsOn, RunsBack, BacksBy, StepsOneBack, IfAny, Halts, halted, last_line, with_told, stop_said};

use crate::chosen::are_any;
use crate::said::{Answered, Console};
use crate::selection::Direction;
use crate::session::Session;
use crate::stops::{Actions, Backward, OneBack, Onward, Told, general, go_back, go_on, step_back};
use rt_debug::reply::happened_line;
use rt_exec::Fetcher;
use rt_packet::answer::{Refused, Stop, stop_answer};
use rt_packet::request::Resumed;
use rt_queue::MinQueue;
use rt_sink::LineBuffer;
use rt_trace::push_line;
use rt_walk::{Happening, Pace};

impl<'s, 'd, Q: MinQueue, F: Fetcher> Session<'s, 'd, Q, F> {
    /// The line of the last tick, where it ended a task or made it fault, or the event that happened.
    fn last_line(&self, told: Told) -> Console
        ensures { result ≡ last_line told.stop told.task self.now.walk.shown.ring.items }
    {
        match told.stop {
            Stop::Ended | Stop::Faulted(_) => self.ring_line(),
            Stop::Happened(event, job) => {
                let task = told.task;
                Console::line(happened_line(Happening { event, task, job }))
            }
            _ => Console::silent(),
        }
    }

    /// The line of the last entry.
    fn ring_line(&self) -> Console
        ensures { result ≡ flat_map line (keep_last 1 self.now.walk.shown.ring.items) }
    {
        let ring = self.walk.shown().ring();
        let mut text = LineBuffer::new();
        if !ring.is_empty() {
            push_line(&mut text, ring.get(ring.len() - 1).unwrap());
        }
        Console::line(text)
    }

    /// Tells a stop.
    fn tell(&mut self, direction: Direction, told: Told) -> Answered
        ensures selection { self.new ≡ record self.old { selection = with_told direction told self.old.selection } }
        ensures said { result ≡ stop_said self.new told }
    {
        let line = self.last_line(told);
        self.selection.tell(direction, told);
        Answered::behind(line, stop_answer(self.selection.ids, told.stop, told.task))
    }

    /// What is told of a way of these tasks that is interrupted where it begins.
    fn interrupted(&self, actions: &Actions) -> Told
        ensures { result ≡ halted self.now actions.now }
    {
        let shown = self.selection.shown;
        general(actions, shown, self.machine(), Stop::Interrupted)
    }

    /// Tells the interrupt that is kept, where a request was to go that way, and forgets it.
    fn halt(&mut self, direction: Direction, told: Told) -> Answered
        ensures { Halts self.old direction told result self.new }
    {
        self.forget_interrupt();
        self.tell(direction, told)
    }

    /// Goes on to the first stop of these tasks.
    #[inline(never)]
    pub(crate) fn run_on<P: Pace>(&mut self, actions: &Actions, pace: &mut P) -> Answered
        ensures runs { P.has_paused pace.old ≡ false → RunsOn self.old actions.now (P.has_paused pace.new) result self.new }
        ensures goes { P.goes pace.old pace.new }
        ensures held { self.old.has_interrupt ≡ true → pace.new ≡ pace.old }
    {
        if !are_any(actions) {
            return Answered::refusal(Refused::Malformed);
        }
        if self.has_interrupt {
            return self.halt(Direction::On, self.interrupted(actions));
        }
        let passes = self.selection.passes(Direction::On);
        let way = Onward {
            actions,
            points: &self.points,
            events: &self.selection.events,
            shown: self.selection.shown,
            told: self.selection.last.task,
            passes,
            tick_stop: self.selection.tick_stop,
        };
        let told = go_on(&mut self.walk, way, pace);
        self.tell(Direction::On, told)
    }

    /// Goes on as `vCont` says.
    #[inline(never)]
    pub(crate) fn resume<P: Pace>(&mut self, resumed: &Resumed, pace: &mut P) -> Answered
        ensures runs { P.has_paused pace.old ≡ false → IfAny (list_all (λ part. is_id self.old part.1) resumed.now) self.old result self.new
            (RunsOn self.old (resumed_by self.old resumed.now) (P.has_paused pace.new) result self.new) }
        ensures goes { P.goes pace.old pace.new }
        ensures held { self.old.has_interrupt ≡ true → pace.new ≡ pace.old }
    {
        if !resumed.are_among(&self.listing()) {
            return Answered::refusal(Refused::Malformed);
        }
        let actions = self.resumed_by(resumed);
        self.run_on(&actions, pace)
    }

    /// Goes back to the last stop.
    #[inline(never)]
    pub(crate) fn run_back<P: Pace>(&mut self, pace: &mut P) -> Answered
        ensures runs { RunsBack self.old (P.has_paused pace.new) result self.new }
        ensures goes { P.goes pace.old pace.new }
        ensures held { self.old.has_interrupt ≡ true → pace.new ≡ pace.old }
    {
        let actions = self.continued_back();
        self.back_to_stop(&actions, pace)
    }

    /// Goes back to the last stop of these tasks.
    fn back_to_stop<P: Pace>(&mut self, actions: &Actions, pace: &mut P) -> Answered
        ensures runs { BacksBy self.old actions.now (P.has_paused pace.new) result self.new }
        ensures goes { P.goes pace.old pace.new }
        ensures held { self.old.has_interrupt ≡ true → pace.new ≡ pace.old }
    {
        if !are_any(actions) {
            return Answered::refusal(Refused::Malformed);
        }
        if self.has_interrupt {
            return self.halt(Direction::Back, self.interrupted(actions));
        }
        let passes = self.selection.passes(Direction::Back);
        let way = Backward {
            actions,
            points: &self.points,
            events: &self.selection.events,
            shown: self.selection.shown,
            passes,
            tick_stop: self.selection.tick_stop,
        };
        match go_back(&mut self.walk, way, pace) {
            Ok(told) => self.tell(Direction::Back, told),
            Err(_) => Answered::refusal(Refused::NoMemory),
        }
    }

    /// Goes back by one instruction.
    #[inline(never)]
    pub(crate) fn step_back(&mut self) -> Answered
        ensures { StepsOneBack self.old result self.new }
    {
        let task = self.selection.stepped();
        if !self.is_listed(task) {
            return Answered::refusal(Refused::Malformed);
        }
        if self.has_interrupt {
            let stop = Stop::Interrupted;
            return self.halt(Direction::Back, Told { stop, task });
        }
        let way = OneBack {
            task,
            points: &self.points,
            passes: self.selection.passes(Direction::Back),
        };
        match step_back(&mut self.walk, way) {
            Ok(told) => self.tell(Direction::Back, told),
            Err(_) => Answered::refusal(Refused::NoMemory),
        }
    }
}
