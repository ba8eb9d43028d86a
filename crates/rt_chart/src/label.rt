//! The labels of rows.

ghost use Rattle.std.specs.Prelude.{◌≡◌, ◌≤◌, max, length};
ghost use Rattle.rt_admit.specs.Limits.{task_limit};
ghost use Rattle.rt_chart.specs.Labels.{label, longest};
ghost use Rattle.rt_chart.specs.Standing.{all_finished};
ghost use Rattle.rt_drawing.specs.Standing.{finished};

use arrayvec::ArrayVec;
use rt_drawing::{Sketch, Window};
use rt_names::TASK_NAME_LEN;
use rt_sink::{push_decimal, push_text};

/// The most bytes of a label: a task's name, and three numbers with what stands between them.
const LABEL_LEN: usize = TASK_NAME_LEN + 64;

/// A label as it is written.
type LabelText = ArrayVec<u8, LABEL_LEN>;

/// The label of a task's row: the task's number and name, and its budget and period, in ticks.
#[tactic(auto, unfolding(crate::specs::Labels::label_text))]
fn label_of(window: &Window, task: u32, sketch: &Sketch<'_>) -> LabelText
    ensures { result.items ≡ label (finished window.now task sketch.now) }
{
    let mut label = LabelText::new();
    push_decimal(&mut label, u64::from(task));
    push_text(&mut label, b" ");
    sketch.name().push(&mut label);
    push_text(&mut label, b"  ");
    push_decimal(&mut label, u64::from(sketch.budget(window)));
    push_text(&mut label, b"/");
    push_decimal(&mut label, u64::from(sketch.period()));
    label
}

/// The greater of two lengths.
fn longer(one: u32, other: u32) -> u32
    ensures { result ≡ max one other }
{
    one.max(other)
}

/// How many bytes the longest of the labels of some tasks has.
pub(crate) fn longest_of(window: &Window, sketches: &[Sketch<'_>]) -> u32
    requires { length sketches.now ≤ task_limit }
    ensures { result ≡ longest (all_finished window.now sketches.now) }
{
    let mut longest = 0;
    for (task, sketch) in sketches.iter().enumerate() {
        longest = longer(longest, label_of(window, task as u32, sketch).len() as u32);
    }
    longest
}
