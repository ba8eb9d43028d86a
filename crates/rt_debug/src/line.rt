//! One command line of a session, from its bytes to the text of its answer.

ghost use Rattle.std.specs.Prelude.{◌≡◌, ◌^◌, ◌<◌, length, false, IfOk, Result};
ghost use Rattle.rt_words.specs.Chain.{mapped};
ghost use Rattle.rt_image.specs.SystemFile.{task_set};
ghost use Rattle.rt_sink.specs.Sink.{Counts};
ghost use Rattle.rt_command.specs.CommandLine.{command_of};
ghost use Rattle.rt_command.specs.declared.refusal.Refusal.{Refusal};
ghost use Rattle.rt_debug.specs.reply.ShownText.{bytes_lent, shown_text};
ghost use Rattle.rt_debug.specs.declared.reply.reply.Reply.TheVariants.{Text};
ghost use Rattle.rt_debug.specs.declared.stops.AnyStop.TheVariants.{Place};
ghost use Rattle.rt_debug.specs.StopSlots.{meets_of};
ghost use Rattle.rt_debug.specs.Stopping.{stopping};
ghost use Rattle.rt_debug.specs.Looking.{shows};
ghost use Rattle.rt_debug.specs.Answer.{answer_text, after_of};
ghost use Rattle.rt_debug.specs.Line.{Obeys, Tells};
ghost use Rattle.rt_debug.specs.declared.line.Answer.{Answer};
ghost use Rattle.rt_debug.specs.declared.line.Answer.TheVariants as answers;
ghost use Rattle.std.specs.Prelude.{Ok};

use crate::looking::{look, place_pc, shows};
use crate::reply::{Reply, Shown, write_break, write_refusal, write_reply, write_shown};
use crate::session::Session;
use crate::stops::Stop;
use rt_command::{Command, Refusal, parse_command};
use rt_exec::Fetcher;
use rt_points::Place as PlaceStop;
use rt_queue::MinQueue;
use rt_sink::{DeviceFault, Sink};

/// What a line is answered.
#[derive(Drop)]
pub enum Answer {
    /// A reply.
    Reply(Reply),
    /// The number of a stop that was added, and its place.
    Added { number: u32, place: PlaceStop },
}

/// What is to follow a command line.
#[derive(Clone, Copy, PartialEq, Eq)]
pub enum After {
    /// The next line.
    NextLine,
    /// The end.
    End,
}

/// How a command line went.
#[derive(Clone, Copy, PartialEq, Eq)]
pub struct Done {
    /// How many bytes its answer has.
    pub written: u64,
    /// What is to follow.
    pub after: After,
}

/// What is to follow an answer.
fn after_of(answer: &Result<Answer, Refusal>) -> After
    ensures { result ≡ after_of answer.now }
{
    match answer {
        Ok(Answer::Reply(Reply::Quit)) => After::End,
        _ => After::NextLine,
    }
}

/// Writes the text of an answer.
fn write_answer<S: Sink>(sink: &mut S, answer: &Result<Answer, Refusal>) -> Result<u64, DeviceFault>
    requires { (S.seen sink.old).failed ≡ false }
    ensures { Counts S.seen sink.old (answer_text answer.now) result sink.new }
{
    match answer {
        Ok(Answer::Reply(reply)) => write_reply(sink, reply),
        Ok(Answer::Added { number, place }) => write_break(sink, *number, place.task, place.pc),
        Err(refusal) => write_refusal(sink, *refusal),
    }
}

/// Writes an answer, and tells what is to follow it.
fn tell<S: Sink>(sink: &mut S, answer: &Result<Answer, Refusal>) -> Result<Done, DeviceFault>
    requires { (S.seen sink.old).failed ≡ false }
    ensures { Tells S.seen sink.old answer.now result sink.new }
{
    Ok(Done {
        written: write_answer(sink, answer)?,
        after: after_of(answer),
    })
}

/// Writes the text of what a command shows, or of its refusal.
fn write_looked<S: Sink>(sink: &mut S, looked: &Result<Shown, Refusal>) -> Result<u64, DeviceFault>
    requires is_open { (S.seen sink.old).failed ≡ false }
    requires few { IfOk looked.now (λ shown. length (bytes_lent shown) < 2 ^ 34) }
    ensures { Counts S.seen sink.old (answer_text (mapped (λ shown. answers.Reply (Text (shown_text shown))) looked.now)) result sink.new }
{
    match looked {
        Ok(shown) => write_shown(sink, shown),
        Err(refusal) => write_refusal(sink, *refusal),
    }
}

/// Writes what a command shows, or its refusal. The next line is to follow.
fn show<S: Sink>(sink: &mut S, looked: &Result<Shown, Refusal>) -> Result<Done, DeviceFault>
    requires is_open { (S.seen sink.old).failed ≡ false }
    requires few { IfOk looked.now (λ shown. length (bytes_lent shown) < 2 ^ 34) }
    ensures { Tells S.seen sink.old (mapped (λ shown. answers.Reply (Text (shown_text shown))) looked.now) result sink.new }
{
    Ok(Done {
        written: write_looked(sink, looked)?,
        after: After::NextLine,
    })
}

impl<'s, 'd, Q: MinQueue, F: Fetcher> Session<'s, 'd, Q, F> {
    /// Executes a command that shows neither a task nor the ring. A `break` adds its stop.
    fn obey(&mut self, command: Command) -> Result<Answer, Refusal>
        requires { shows command ≡ false }
        ensures obeys { Obeys Place (meets_of (λ b. (⟦<dyn Stop as Stop>⟧ b.vtable).meets b.value)) (task_set self.old.system.now) self.old.walk (stopping self.old.stops.slots.items self.old.events)
            (Ok command.entry) result self.new.walk (stopping self.new.stops.slots.items self.new.events) }
        ensures system { self.new.system.now ≡ self.old.system.now }
    {
        match command {
            Command::Break { task, place } => {
                let pc = place_pc(self.system, self.shown(), task, &place)?;
                let place = PlaceStop { task, pc };
                let number = self.add_place(place)?;
                Ok(Answer::Added { number, place })
            }
            command => Ok(Answer::Reply(self.act(command)?)),
        }
    }

    /// Executes a command line, without its end, and writes what it answers to a sink that hasn't failed. A `break` adds its stop.
    /// It takes no memory for the answer.
    ///
    /// # Errors
    ///
    /// The sink failed. `written` is how many of the first bytes of the answer it took. The command was executed all the same.
    pub fn run_line<S: Sink>(&mut self, line: &[u8], sink: &mut S) -> Result<Done, DeviceFault>
        requires { (S.seen sink.old).failed ≡ false }
        ensures runs { (answer : Result Answer Refusal)
            × Obeys Place (meets_of (λ b. (⟦<dyn Stop as Stop>⟧ b.vtable).meets b.value)) (task_set self.old.system.now) self.old.walk (stopping self.old.stops.slots.items self.old.events)
            (command_of line.now) answer self.new.walk (stopping self.new.stops.slots.items self.new.events) × Tells S.seen sink.old answer result sink.new }
        ensures system { self.new.system.now ≡ self.old.system.now }
    {
        match parse_command(line) {
            Ok(command) if shows(&command) => {
                let looked = look(&self.system.tasks, self.shown(), self.ring(), &command);
                show(sink, &looked)
            }
            Ok(command) => tell(sink, &self.obey(command)),
            Err(refusal) => tell(sink, &Err(refusal)),
        }
    }
}
