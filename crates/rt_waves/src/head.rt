//! The head of the text: which signals there are.

ghost use Rattle.std.specs.Prelude.{◌≡◌, ◌+◌, ◌≤◌, ◌++◌, length};
ghost use Rattle.arrayvec.specs.ArrayVec.{array_vec_len};
ghost use Rattle.rt_admit.specs.Limits.{task_limit};
ghost use Rattle.rt_waves.specs.Scale as scales;
ghost use Rattle.rt_waves.specs.WavesText as text;

use crate::scale::Scale;
use crate::scopes::{Scope, all_differ};
use arrayvec::ArrayVec;
use rt_names::TaskNames;
use rt_sink::{push_decimal, push_text};
use rt_text_out::{Byte, Out, Text, plain, word};

/// The most bytes of the lines of a task's signals.
const SIGNALS_LEN: usize = 1024;

/// The lines of a task's signals as they are built up.
type SignalLines = ArrayVec<u8, SIGNALS_LEN>;

/// What stands before the tasks, behind the scale.
const OPENING: &[u8] = b"$scope module system $end\n$var wire 1 i idle $end\n";

/// What stands behind the tasks.
const CLOSING: &[u8] = b"$upscope $end\n$enddefinitions $end\n";

/// Appends the line of a signal of task `number`: what stands before the number of its code, its name, and which bits it has.
#[tactic(auto, unfolding(crate::specs::WavesText::variable))]
fn push_variable(out: &mut SignalLines, front: &[u8], name: &[u8], number: u32, bits: &[u8])
    requires { array_vec_len out.old + length front.now + length name.now + length bits.now + 52 ≤ SIGNALS_LEN }
    ensures text { out.new.items ≡ out.old.items ++ text.variable front.now name.now number bits.now }
    ensures room { array_vec_len out.new ≤ array_vec_len out.old + length front.now + length name.now + length bits.now + 52 }
{
    push_text(out, b"$var ");
    push_text(out, front);
    push_decimal(out, u64::from(number));
    push_text(out, b" ");
    push_text(out, name);
    push_decimal(out, u64::from(number));
    push_text(out, bits);
    push_text(out, b" $end\n");
}

/// Appends the lines of the signals of task `number`, and the end of its scope.
fn push_variables(out: &mut SignalLines, number: u32)
    requires { array_vec_len out.old ≡ 0 }
    ensures { out.new.items ≡ out.old.items ++ text.variables number }
{
    push_variable(out, b"wire 1 r", b"running", number, b"");
    push_variable(out, b"reg 2 m", b"mode", number, b" [1:0]");
    push_variable(out, b"reg 32 p", b"pc", number, b" [31:0]");
    push_variable(out, b"reg 32 s", b"part", number, b" [31:0]");
    push_variable(out, b"integer 32 c", b"c", number, b"");
    push_variable(out, b"integer 64 d", b"d", number, b"");
    push_variable(out, b"integer 32 o", b"out", number, b"");
    push_variable(out, b"wire 1 f", b"fresh", number, b"");
    push_variable(out, b"wire 1 k", b"kept", number, b"");
    push_variable(out, b"wire 1 x", b"postponed", number, b"");
    push_variable(out, b"wire 1 j", b"finish", number, b"");
    push_text(out, b"$upscope $end\n");
}

/// The signals of the task of this number, and the end of its scope.
#[derive(Clone, Copy)]
struct Signals(u32);

impl Text for Signals {
    ghost text = { λ x. text.variables x.0 };

    ghost most = { 1024 };

    fn offer<O: Out>(&self, out: &mut O) {
        let mut lines = SignalLines::new();
        push_variables(&mut lines, self.0);
        out.put(&lines);
    }
}

/// The head of the task of this scope.
#[derive(Clone, Copy)]
struct TaskPart<'n, 'a>(Scope<'n, 'a>);

impl<'n, 'a> Text for TaskPart<'n, 'a> {
    ghost text = { λ x. text.task_head (text.scope_name x.0.are_used x.0.names.now x.0.task) x.0.task };

    ghost most = { 1588 };

    fn offer<O: Out>(&self, out: &mut O) {
        let (scope, signals) = (self.0, Signals(self.0.task));
        (word(b"$scope module "), scope, word(b" $end\n"), signals).offer(out);
    }
}

/// The line that says how long a tick is shown.
impl Text for Scale {
    ghost text = { scales.scale_line };

    ghost most = { 65 };

    fn offer<O: Out>(&self, out: &mut O) {
        let count = (word(b"$timescale "), word(self.count.word()), Byte(b' '));
        (count, word(self.unit.word()), word(b" $end\n")).offer(out);
    }
}

/// The head of the text of so many tasks, which have these names.
#[derive(Clone, Copy)]
pub(crate) struct Head<'s, 'n, 'a> {
    pub(crate) scale: &'s Scale,
    pub(crate) names: &'n TaskNames<'a>,
    pub(crate) count: u32,
    ghost few: { count ≤ task_limit },
}

impl<'s, 'n, 'a> Text for Head<'s, 'n, 'a> {
    ghost text = { λ x. text.head_text x.scale.now x.names.now x.count };

    ghost most = { 131072 };

    fn offer<O: Out>(&self, out: &mut O) {
        let scale = *self.scale;
        let names = self.names;
        let are_used = all_differ(names, self.count);
        (scale, plain(OPENING)).offer(out);
        for task in 0..self.count {
            let scope = Scope {
                names,
                are_used,
                task,
            };
            TaskPart(scope).offer(out);
        }
        plain(CLOSING).offer(out);
    }
}
