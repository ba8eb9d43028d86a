//! The lines of replies, as texts.

ghost use Rattle.std.specs.Prelude.{◌≡◌, ◌+◌, ◌≤◌, ◌++◌, length};
ghost use Rattle.rt_debug.specs.reply.ReplyText.{job_suffix, happened_text, event_text, stopped_text, next_text, tick_text, refusal_text};

use crate::reply::reply::Stopped;
use rt_command::Refusal;
use rt_core::Next;
use rt_points::Event;
use rt_sink::LineBuffer;
use rt_text_out::{Byte, Decimal, Hex, Out, Text, word};
use rt_walk::Happening;

/// The end of the line of an event: the job to which it happened, if it did to one.
#[derive(Clone, Copy)]
struct JobWords(Option<u64>);

impl Text for JobWords {
    ghost text = { λ x. job_suffix x.0 };

    ghost most = { 26 };

    fn offer<O: Out>(&self, out: &mut O) {
        match self.0 {
            Some(job) => {
                word(b" job ").offer(out);
                (Decimal(job), Byte(b'\n')).offer(out);
            }
            None => Byte(b'\n').offer(out),
        }
    }
}

/// The line of an event that happened.
#[derive(Clone, Copy)]
struct HappenedLine(Happening);

impl Text for HappenedLine {
    ghost text = { λ x. happened_text x.0 };

    ghost most = { 78 };

    fn offer<O: Out>(&self, out: &mut O) {
        let task = Decimal(u64::from(self.0.task));
        let name = word(self.0.event.name());
        (name, word(b": task "), task, JobWords(self.0.job)).offer(out);
    }
}

/// The line of an event that is asked for, or no more.
#[derive(Clone, Copy)]
pub(crate) struct EventLine {
    pub(crate) event: Event,
    pub(crate) task: Option<u32>,
    pub(crate) is_asked: bool,
}

impl Text for EventLine {
    ghost text = { λ x. event_text x.event x.task x.is_asked };

    ghost most = { 54 };

    fn offer<O: Out>(&self, out: &mut O) {
        let verb = word(if self.is_asked { b"stop " } else { b"unstop " });
        let front = (verb, word(self.event.name()));
        match self.task {
            Some(task) => {
                let task = Decimal(u64::from(task));
                (front, Byte(b' '), task, Byte(b'\n')).offer(out);
            }
            None => (front, Byte(b'\n')).offer(out),
        }
    }
}

/// Why a session stopped.
impl Text for Stopped {
    ghost text = { stopped_text };

    ghost most = { 78 };

    fn offer<O: Out>(&self, out: &mut O) {
        match *self {
            Stopped::Unasked => word(b"").offer(out),
            Stopped::NoStop => word(b"no stop ").offer(out),
            Stopped::At(number) => {
                let number = Decimal(u64::from(number));
                (word(b"stop "), number, Byte(b' ')).offer(out);
            }
            Stopped::Happened(happening) => HappenedLine(happening).offer(out),
        }
    }
}

/// What the coming tick is to be.
#[derive(Clone, Copy)]
struct NextWords(Next);

impl Text for NextWords {
    ghost text = { λ x. next_text x.0 };

    ghost most = { 29 };

    fn offer<O: Out>(&self, out: &mut O) {
        match self.0 {
            Next::Idle => word(b"idle").offer(out),
            Next::Run { task, pc } => {
                (Decimal(u64::from(task)), Byte(b' '), Hex(pc)).offer(out);
            }
        }
    }
}

/// The tick line.
#[derive(Clone, Copy)]
pub(crate) struct TickLine {
    pub(crate) stop: Stopped,
    pub(crate) t: u64,
    pub(crate) next: Next,
}

impl Text for TickLine {
    ghost text = { λ x. tick_text x.stop x.t x.next };

    ghost most = { 160 };

    fn offer<O: Out>(&self, out: &mut O) {
        let tick = (self.stop, word(b"tick "), Decimal(self.t));
        let next = NextWords(self.next);
        (tick, word(b" next "), next, Byte(b'\n')).offer(out);
    }
}

/// The line of a refusal.
#[derive(Clone, Copy)]
pub(crate) struct RefusalLine(pub(crate) Refusal);

impl Text for RefusalLine {
    ghost text = { λ x. refusal_text x.0 };

    ghost most = { 54 };

    fn offer<O: Out>(&self, out: &mut O) {
        let number = Decimal(u64::from(self.0.number()));
        let front = (word(b"refused "), number, Byte(b' '));
        (front, word(self.0.name()), Byte(b'\n')).offer(out);
    }
}

/// The tick line, in memory.
pub fn tick_line(stop: Stopped, t: u64, next: Next) -> LineBuffer
    ensures { result.items ≡ tick_text stop t next }
{
    let mut line = LineBuffer::new();
    TickLine { stop, t, next }.offer(&mut line);
    line
}

/// The line of an event that happened, in memory.
pub fn happened_line(happening: Happening) -> LineBuffer
    ensures { result.items ≡ happened_text happening }
{
    let mut line = LineBuffer::new();
    HappenedLine(happening).offer(&mut line);
    line
}

/// The line of an event that is asked for, or no more, in memory.
pub fn event_line(event: Event, task: Option<u32>, is_asked: bool) -> LineBuffer
    ensures { result.items ≡ event_text event task is_asked }
{
    let mut line = LineBuffer::new();
    EventLine {
        event,
        task,
        is_asked,
    }
    .offer(&mut line);
    line
}

/// The line of a refusal, in memory.
pub fn refusal_line(refusal: Refusal) -> LineBuffer
    ensures { result.items ≡ refusal_text refusal }
{
    let mut line = LineBuffer::new();
    RefusalLine(refusal).offer(&mut line);
    line
}
