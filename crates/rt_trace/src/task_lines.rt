//! The lines that stand below a history.

ghost use Rattle.std.specs.Prelude.{◌≡◌, ◌+◌, ◌≤◌, ◌<◌, ◌^◌, ◌++◌, length};
ghost use Rattle.rt_history.specs.Calls.{output_limit};
ghost use Rattle.rt_core.specs.View.{lent};
ghost use Rattle.rt_trace.specs.TaskText.{mode_text, server_text, task_line, task_text};

use crate::out_line::{Digits, OutLine};
use crate::regs_line::RegsLine;
use crate::telling::Telling;
use rt_core::View;
use rt_history::Mode;
use rt_text_out::{Decimal, Hex, Out, Text, word};

/// How many bytes a task can write.
const MAX_OUTPUT: usize = 65_536;

/// The words of a mode.
#[derive(Clone, Copy)]
pub struct ModeWords(pub Mode);

impl Text for ModeWords {
    ghost text = { λ x. mode_text x.0 };

    ghost most = { 36 };

    fn offer<O: Out>(&self, out: &mut O) {
        match self.0 {
            Mode::Active => word(b"active").offer(out),
            Mode::Asleep(w) => (word(b"asleep "), Decimal(w)).offer(out),
            Mode::Ended => word(b"ended").offer(out),
            Mode::Faulted(fault) => (word(b"faulted "), word(fault.name())).offer(out),
        }
    }
}

/// The current budget and the deadline of a task, where they are reported.
#[derive(Clone, Copy)]
struct ServerWords<'v>(Telling, View<'v>);

impl<'v> Text for ServerWords<'v> {
    ghost text = { λ x. server_text x.0 (lent x.1) };

    ghost most = { 72 };

    fn offer<O: Out>(&self, out: &mut O) {
        match self.0 {
            Telling::WithServers => {
                let left = (word(b" c "), Decimal(u64::from(self.1.c)));
                (left, word(b" d "), Decimal(self.1.d)).offer(out);
            }
            Telling::Alone => word(b"").offer(out),
        }
    }
}

/// The line of a task, its registers and its output.
#[derive(Clone, Copy)]
pub(crate) struct TaskLines<'v> {
    pub(crate) telling: Telling,
    pub(crate) number: u32,
    pub(crate) view: View<'v>,
    pub(crate) output: &'v [u8],
    ghost short: { length output.now ≤ output_limit },
}

impl<'v> Text for TaskLines<'v> {
    ghost text = { λ x. task_text x.telling x.number (lent x.view) x.output.now };

    ghost most = { 140000 };

    fn offer<O: Out>(&self, out: &mut O) {
        let task = (word(b"task "), Decimal(u64::from(self.number)), word(b" "));
        let mode = (task, ModeWords(self.view.mode));
        let server = (mode, ServerWords(self.telling, self.view));
        let line = (server, word(b" pc "), Hex(self.view.pc), word(b"\n"));
        let bytes = Digits::<'_, MAX_OUTPUT> { bytes: self.output };
        (line, RegsLine(self.view.x), OutLine(bytes)).offer(out);
    }
}
