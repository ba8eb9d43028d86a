//! Requests that only look.

ghost use Rattle.std.specs.Prelude.{◌≡◌};
ghost use Rattle.std.specs.Option.{option_map};
ghost use Rattle.rt_core.specs.View.{lent};
ghost use Rattle.rt_packet.specs.answer.Description.{piece_text};
ghost use Rattle.rt_packet.specs.answer.Ids.{task_text, tasks_text};
ghost use Rattle.rt_packet.specs.answer.Stops.{stop_text};
ghost use Rattle.rt_remote.specs.Chosen.{listed, one_task};
ghost use Rattle.rt_remote.specs.Said.{says};
ghost use Rattle.rt_remote.specs.Shows.{one_said, task_said, registers_said, NumberOf, shown_view, memory_said, without_end};

use crate::said::Answered;
use crate::session::Session;
use rt_core::View;
use rt_debug::reply::server_line;
use rt_exec::Fetcher;
use rt_packet::answer::{
    Refused, TaskNumbers, bytes_answer, description_answer, memory_answer, register_answer,
    registers_answer, stop_answer, task_answer, tasks_answer,
};
use rt_packet::request::Tasks;
use rt_queue::MinQueue;

/// A line without its end.
fn without_end(line: &[u8]) -> &[u8]
    ensures { result.now ≡ without_end line.now }
{
    &line[..line.len().saturating_sub(1)]
}

/// A part of the description of the target.
#[inline(never)]
pub(crate) fn say_description(offset: u64, count: u64) -> Answered
    ensures { result ≡ says (piece_text offset count) }
{
    Answered::payload(description_answer(offset, count))
}

impl<'s, 'd, Q: MinQueue, F: Fetcher> Session<'s, 'd, Q, F> {
    /// The last stop.
    #[inline(never)]
    pub(crate) fn say_stop(&self) -> Answered
        ensures { result ≡ says (stop_text self.now.selection.ids self.now.selection.last.stop self.now.selection.last.task) }
    {
        let last = self.selection.last;
        Answered::payload(stop_answer(self.selection.ids, last.stop, last.task))
    }

    /// The id of the shown task.
    #[inline(never)]
    pub(crate) fn say_current(&self) -> Answered
        ensures { result ≡ says (task_text self.now.selection.ids self.now.selection.shown) }
    {
        Answered::payload(task_answer(self.selection.ids, self.selection.shown))
    }

    /// The ids of the listed tasks.
    #[inline(never)]
    pub(crate) fn say_tasks(&self) -> Answered
        ensures { result ≡ says (tasks_text self.now.selection.ids (listed self.now)) }
    {
        Answered::payload(tasks_answer(self.selection.ids, &self.listed()))
    }

    /// The line of the mode and server of the task that an id means, if it means one.
    #[inline(never)]
    pub(crate) fn say_task(&self, tasks: Tasks) -> Answered
        ensures { result ≡ one_said (one_task self.now tasks) (task_said self.now) }
    {
        match self.one_task(tasks) {
            Some(task) => self.say_line(task),
            None => Answered::refusal(Refused::Malformed),
        }
    }

    /// The line of a task's mode and server.
    #[inline(never)]
    fn say_line(&self, task: u32) -> Answered
        ensures { result ≡ task_said self.now task }
    {
        match self.machine().view(task) {
            Some(view) => Answered::payload(bytes_answer(without_end(&server_line(task, &view)))),
            None => Answered::refusal(Refused::Malformed),
        }
    }

    /// What is shown of the shown task.
    pub(crate) fn view(&self) -> Option<View<'_>>
        ensures { option_map lent result ≡ shown_view self.now }
    {
        self.machine().view(self.selection.shown)
    }

    /// The shown task's registers.
    #[inline(never)]
    pub(crate) fn say_registers(&self) -> Answered
        ensures { result ≡ registers_said self.now }
    {
        match self.view() {
            Some(view) => Answered::payload(registers_answer(view.x, view.pc)),
            None => Answered::refusal(Refused::Malformed),
        }
    }

    /// One of its registers or of its server's numbers.
    #[inline(never)]
    pub(crate) fn say_register(&self, number: u64) -> Answered
        ensures { NumberOf self.now number result (shown_view self.now) }
    {
        let Some(view) = self.view() else {
            return Answered::refusal(Refused::Malformed);
        };
        let numbers = TaskNumbers {
            x: view.x,
            pc: view.pc,
            tick: self.machine().now(),
            budget: view.c,
            deadline: view.d,
        };
        Answered::payload_or(Refused::Malformed, register_answer(&numbers, number))
    }

    /// Bytes of its RAM.
    #[inline(never)]
    pub(crate) fn say_memory(&self, address: u64, count: u64) -> Answered
        ensures { result ≡ memory_said self.now address count }
    {
        match self.view() {
            Some(view) => {
                Answered::payload_or(Refused::NotInRam, memory_answer(view.ram, address, count))
            }
            None => Answered::refusal(Refused::NotInRam),
        }
    }
}
