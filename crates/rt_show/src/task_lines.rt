//! The lines of a task.

ghost use Rattle.std.proofs.Props.{props};
ghost use Rattle.std.specs.Prelude.{◌≡◌, ◌≤◌, length, decimal};
ghost use Rattle.rt_image.specs.ObjectFile.{IsObject, object_value};
ghost use Rattle.rt_image.specs.SystemFile.{set_task};
ghost use Rattle.rt_set.specs.SetFile.{task_word};
ghost use Rattle.rt_show.specs.SetShown.{whole_weight, weight_cell, task_shown};

use crate::image_remark::ImageRemark;
use rt_image::Task;
use rt_text_out::{Byte, Decimal, Gathered, Line, Out, Text, word};

/// The most bytes of the lines of a task.
const LINES_LEN: usize = 1024;

/// The word with which a task's line begins.
fn task_word(split: bool) -> &'static [u8]
    ensures text { result.now ≡ task_word split }
    ensures short { length result.now ≤ 10 }
{
    if split { b"task-split" } else { b"task" }
}

/// What a task asks for in a hyperperiod, in ticks; none where its period doesn't divide it.
fn whole_weight(hyper: u32, task: &Task<'_>) -> Option<u64>
    ensures { result ≡ whole_weight hyper (set_task task.now) }
{
    if task.period == 0 || hyper % task.period != 0 {
        return None;
    }
    Some(u64::from(task.budget) * u64::from(hyper / task.period))
}

/// A number, or a hyphen.
#[derive(Clone, Copy)]
struct WeightCell(Option<u64>);

impl Text for WeightCell {
    ghost text = { λ x. weight_cell x.0 };

    ghost most = { 32 };

    fn offer<O: Out>(&self, out: &mut O) {
        match self.0 {
            Some(ticks) => Decimal(ticks).offer(out),
            None => word(b"-").offer(out),
        }
    }
}

/// The lines of a task of a set of this hyperperiod.
#[derive(Clone, Copy)]
pub(crate) struct TaskLines(pub(crate) u32);

impl<'a> Line<Task<'a>> for TaskLines {
    ghost may = { λ by task. IsObject (object_value task.object) };

    ghost fact = { λ by task. Prim.hlevel props };

    ghost line = { λ by number task. task_shown by.0 number (set_task task) };

    ghost most = { 1024 };

    fn offer_line<O: Out>(&self, number: u32, task: &Task<'a>, out: &mut O) {
        let kind = (word(task_word(task.split)), Byte(b' '));
        let budget = (kind, Decimal(u64::from(task.budget)), Byte(b' '));
        let period = (budget, Decimal(u64::from(task.period)), Byte(b' '));
        let start = (period, Decimal(u64::from(task.start)), Byte(b' '));
        let ram = (start, Decimal(u64::from(task.ram)), Byte(b' '));
        let path = (word(b"task"), Decimal(u64::from(number)), word(b".rti"));
        let remark = ImageRemark {
            object: &task.object,
        };
        let weight = WeightCell(whole_weight(self.0, task));
        let remark = (remark, word(b", weight "), weight);
        let lines = ((ram, path), Byte(b'\n'), remark, Byte(b'\n'));
        Gathered::<_, LINES_LEN> { pieces: lines }.offer(out);
    }
}
