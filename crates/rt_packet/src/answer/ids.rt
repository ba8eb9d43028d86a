//! The ids of tasks.

ghost use Rattle.std.specs.Prelude.{◌≡◌, ◌+◌, ◌*◌, ◌≤◌, ◌++◌, length, take};
ghost use Rattle.std.specs.List.{flat_map};
ghost use Rattle.arrayvec.specs.ArrayVec.{array_vec_len};
ghost use Rattle.rt_packet.specs.answer.Ids.{id_text, other_text, task_text, tasks_text};

use crate::MAX_PAYLOAD;
use crate::answer::payload::{Payload, first_of, push_number};
use rt_sink::push_text;

/// How ids name tasks.
#[derive(Clone, Copy, PartialEq, Eq)]
pub enum Ids {
    /// Each task as a process with one thread, both of the task's number.
    Processes,
    /// Each task as a thread.
    Threads,
}

/// The most tasks that an answer names behind the first.
const MAX_OTHERS: usize = 63;

/// Appends the id of a task, from 0: at most 34 bytes.
pub(crate) fn push_id(out: &mut Payload, ids: Ids, task: u32)
    requires { array_vec_len out.old + 34 ≤ MAX_PAYLOAD }
    ensures text { out.new.items ≡ out.old.items ++ id_text ids task }
    ensures room { array_vec_len out.new ≤ array_vec_len out.old + 34 }
{
    let number = u64::from(task) + 1;
    if let Ids::Processes = ids {
        push_text(out, b"p");
        push_number(out, number);
        push_text(out, b".");
    }
    push_number(out, number);
}

/// Names the current task, from 0: `QC` and its id. Allocates nothing.
pub fn task_answer(ids: Ids, task: u32) -> Payload
    ensures { result.items ≡ task_text ids task }
{
    let mut out = Payload::new();
    push_text(&mut out, b"QC");
    push_id(&mut out, ids, task);
    out
}

/// Appends the ids of more tasks, each behind a comma: at most 35 bytes for each.
#[tactic(auto, using(crate::proofs::answer::PairLemmas::flat_map_take_more))]
fn push_others(out: &mut Payload, ids: Ids, tasks: &[u32])
    requires { array_vec_len out.old + 35 * length tasks.now ≤ MAX_PAYLOAD }
    ensures { out.new.items ≡ out.old.items ++ flat_map (other_text ids) tasks.now }
{
    for task in tasks {
        push_text(out, b",");
        push_id(out, ids, *task);
    }
}

/// Names tasks, each from 0: `m` and the ids of the first 64 of these, in their order, or `l` where there are none. Allocates
/// nothing.
pub fn tasks_answer(ids: Ids, tasks: &[u32]) -> Payload
    ensures { result.items ≡ tasks_text ids tasks.now }
{
    let mut out = Payload::new();
    match tasks {
        [] => push_text(&mut out, b"l"),
        [first, others @ ..] => {
            push_text(&mut out, b"m");
            push_id(&mut out, ids, *first);
            push_others(&mut out, ids, first_of(others, MAX_OTHERS));
        }
    }
    out
}
