//! The lines of `monitor`.

ghost use Rattle.std.specs.Prelude.{◌≡◌, ◌≤◌, ◌⊎◌, length, IfOk, false};
ghost use Rattle.rt_core.specs.Next.{next_of};
ghost use Rattle.rt_debug.specs.declared.reply.reply.Stopped.TheVariants.{Unasked};
ghost use Rattle.rt_debug.specs.Looking.{view_of};
ghost use Rattle.rt_debug.specs.Whose.{meant};
ghost use Rattle.rt_debug.specs.reply.ReplyText.{tick_text};
ghost use Rattle.rt_packet.specs.declared.answer.replies.Refused.TheVariants.{NoMemory};
ghost use Rattle.rt_remote.specs.Said.{prints, refuses};
ghost use Rattle.rt_packet.specs.request.MonitorLine.{monitor_of};
ghost use Rattle.rt_remote.specs.Monitors.{at_text, AsksEvent, help_text, wanted_text, refused_text, task_in, unknown_text, task_text, nobody_text, ram_text, outside_text, range_text, Monitors, look_text, is_where};

use crate::said::{Answered, Console};
use crate::session::Session;
use arrayvec::ArrayVec;
use rt_command::{Command, Refusal, Whose};
use rt_debug::reply::{Stopped, Text, event_line, refusal_line, tick_line};
use rt_debug::{look, meant};
use rt_exec::Fetcher;
use rt_packet::answer::Refused;
use rt_packet::request::{HexLine, Monitor, ROOM, Wanted, parse_monitor};
use rt_points::Event;
use rt_queue::MinQueue;
use rt_sink::{LineBuffer, push_decimal, push_text};
use std::alloc::AllocError;

/// The tick stop, as a line.
fn at_line(tick_stop: Option<u64>) -> Console
    ensures { result ≡ at_text tick_stop }
{
    let mut line = LineBuffer::new();
    push_text(&mut line, b"at ");
    match tick_stop {
        Some(tick) => push_decimal(&mut line, tick),
        None => push_text(&mut line, b"none"),
    }
    push_text(&mut line, b"\n");
    Console::line(line)
}

/// What goes with a first word, or the lines that there are: at most 120 bytes.
fn wanted_text(want: Wanted) -> &'static [u8]
    ensures value { result.now ≡ wanted_text want }
    ensures short { length result.now ≤ 120 }
{
    match want {
        Wanted::Line => {
            b"where, regs i, server i, mem i a n, list i a n, out i, trace n, at, at t, at none, stop w i, unstop w i, help\n"
        }
        Wanted::At => b"at TICK, 0 to 1099511627776, or at none\n",
        Wanted::Where => b"where\n",
        Wanted::Regs => b"regs TASK, a number from 0\n",
        Wanted::Server => b"server TASK, a number from 0\n",
        Wanted::Mem => b"mem TASK ADDRESS COUNT, as mem 0 0x80000000 16; 1 to 256 bytes\n",
        Wanted::List => b"list TASK ADDRESS COUNT, as list 0 0x80000000 4; 1 to 64 words\n",
        Wanted::Out => b"out TASK, a number from 0\n",
        Wanted::Trace => b"trace COUNT, 1 to 256\n",
        Wanted::Stop =>
            b"stop or unstop, wake, dispatch, postponed, finish, over or fault, and TASK, a number or a name, or none\n",
    }
}

/// The lines that there are.
fn help_line() -> Console
    ensures { result ≡ help_text }
{
    let mut line = LineBuffer::new();
    push_text(&mut line, wanted_text(Wanted::Line));
    Console::line(line)
}

/// The refusal of a line, and what is wanted in its place.
fn refused_line(want: Wanted) -> Console
    ensures { result ≡ refused_text want }
{
    let mut line = LineBuffer::new();
    push_text(&mut line, b"refused 1 UnknownCommand\nwanted: ");
    push_text(&mut line, wanted_text(want));
    Console::line(line)
}

/// The refusal of a task in a machine of so many, without its end.
fn unknown_task(count: u32) -> LineBuffer
    ensures text { result.items ≡ unknown_text count }
    ensures room { length result.items ≤ 70 }
{
    let mut line = LineBuffer::new();
    push_text(
        &mut line,
        b"refused 2 UnknownTask\nwanted: a task from 0 to ",
    );
    push_decimal(&mut line, u64::from(count).saturating_sub(1));
    line
}

/// The refusal where a number is wanted.
fn task_line(count: u32) -> LineBuffer
    ensures { result.items ≡ task_text count }
{
    let mut line = unknown_task(count);
    push_text(&mut line, b"\n");
    line
}

/// The refusal where a name serves too.
fn nobody_line(count: u32) -> LineBuffer
    ensures { result.items ≡ nobody_text count }
{
    let mut line = unknown_task(count);
    push_text(&mut line, b", or a name that one task has\n");
    line
}

/// The refusal of bytes outside of a RAM of so many.
fn ram_line(count: u64) -> LineBuffer
    ensures { result.items ≡ ram_text count }
{
    let mut line = LineBuffer::new();
    push_text(&mut line, b"refused 4 BadAddress\nwanted: of the ");
    push_decimal(&mut line, count);
    push_text(
        &mut line,
        b" bytes from 0x80000000 on, words at multiples of 4\n",
    );
    line
}

/// The task of whose RAM a command shows a part.
fn task_in(command: &Command) -> u32
    ensures { result ≡ task_in command.now }
{
    match *command {
        Command::Mem { task, .. } | Command::List { task, .. } => task,
        _ => 0,
    }
}

impl<'s, 'd, Q: MinQueue, F: Fetcher> Session<'s, 'd, Q, F> {
    /// Where the session stands, as a line.
    fn tick_line(&self) -> Console
        ensures { result ≡ tick_text Unasked self.now.walk.shown.machine.tick (next_of self.now.walk.shown.machine) }
    {
        let shown = self.walk.shown();
        Console::line(tick_line(Stopped::Unasked, shown.now(), shown.next()))
    }

    /// The refusal of an address of this task.
    fn outside(&self, task: u32) -> LineBuffer
        ensures { result.items ≡ outside_text (view_of self.now.walk.shown.machine task) }
    {
        match self.machine().view(task) {
            Some(view) => ram_line(view.ram.len() as u64),
            None => LineBuffer::new(),
        }
    }

    /// The refusal of a command that shows, with the range of the number for which it is refused.
    fn refused(&self, command: &Command, refusal: Refusal) -> Console
        ensures { result ≡ range_text self.now.walk.shown.machine command.now refusal }
    {
        Console::line(match refusal {
            Refusal::UnknownTask => task_line(self.machine().count()),
            Refusal::BadAddress => self.outside(task_in(command)),
            _ => refusal_line(refusal),
        })
    }

    /// What a command shows, or its refusal.
    fn looked(&self, command: &Command) -> Result<Console, AllocError>
        requires { is_where command.now ≡ false }
        ensures { IfOk result (λ console. console ≡ look_text self.now command.now) }
    {
        let shown = self.walk.shown();
        match look(&[], shown.machine(), shown.ring(), command) {
            Ok(shown) => Ok(Console::lines(Text::of(self.alloc, &shown)?)),
            Err(refusal) => Ok(self.refused(command, refusal)),
        }
    }

    /// What is printed of a command that only shows.
    #[inline(never)]
    fn print(&self, command: &Command) -> Answered
        ensures { (result ≡ prints (look_text self.now command.now)) ⊎ (result ≡ refuses NoMemory) }
    {
        if let Command::Shown = command {
            return Answered::printed(self.tick_line());
        }
        match self.looked(command) {
            Ok(console) => Answered::printed(console),
            Err(AllocError) => Answered::refusal(Refused::NoMemory),
        }
    }

    /// Asks for an event, or no more.
    fn ask(&mut self, event: Event, whose: &Whose, is_asked: bool) -> Answered
        ensures { AsksEvent (meant self.old.names self.old.walk.shown.machine whose.now) self.old event is_asked result self.new }
    {
        match meant(self.tasks, self.machine(), whose) {
            Ok(task) => {
                self.selection.events = self.selection.events.with(event, task, is_asked);
                Answered::printed(Console::line(event_line(event, task, is_asked)))
            }
            Err(_) => Answered::printed(Console::line(nobody_line(self.machine().count()))),
        }
    }

    /// Does a line.
    #[inline(never)]
    fn do_line(&mut self, line: &[u8]) -> Answered
        ensures { Monitors self.old (monitor_of line.now) result self.new }
    {
        match parse_monitor(line) {
            Monitor::At(tick_stop) => {
                self.selection.tick_stop = tick_stop;
                Answered::printed(at_line(tick_stop))
            }
            Monitor::Asked => Answered::printed(at_line(self.selection.tick_stop)),
            Monitor::Events {
                event,
                whose,
                is_asked,
            } => self.ask(event, &whose, is_asked),
            Monitor::Help => Answered::printed(help_line()),
            Monitor::Look(command) => self.print(&command),
            Monitor::Unknown(want) => Answered::printed(refused_line(want)),
        }
    }

    /// Does a line that is written in digits.
    #[inline(never)]
    pub(crate) fn monitor(&mut self, digits: &HexLine) -> Answered
        ensures { Monitors self.old (monitor_of digits.now) result self.new }
    {
        let mut line = ArrayVec::<u8, ROOM>::new();
        digits.keep(&mut line);
        self.do_line(&line)
    }
}
