//! The rows of a task.

ghost use Rattle.std.specs.Prelude.{◌≡◌, ◌+◌, ◌*◌, ◌^◌, ◌<◌, ◌≤◌, length, map};
ghost use Rattle.std.specs.List.{flat_map};
ghost use Rattle.rt_profile.specs.Rows.{begins as begins_after};
ghost use Rattle.rt_profile.specs.Working.Told.{kept_lines};

use crate::task_profile::TaskProfile;
use crate::text::offer_row;
use rt_text_out::Out;

/// Whether an address of this part isn't in the part of the address before, or has none before.
pub(crate) fn begins(before: Option<u32>, part: u32) -> bool
    ensures { result ≡ begins_after before part }
{
    match before {
        Some(last) => last != part,
        None => true,
    }
}

/// Offers the lines of a task's rows, the task having this number.
pub(crate) fn offer_rows<O: Out>(out: &mut O, number: u32, task: &TaskProfile<'_, '_>)
    ensures offers { O.offers out.old (kept_lines number task.now) out.new }
    ensures short { length (kept_lines number task.now) ≤ 2 ^ 30 }
{
    let mut walk = task.walk();
    let mut before = None;
    'rows: while let Some(address) = walk.next() {
        let part = task.part_at(address);
        if begins(before, part) {
            offer_row(out, &task.row_of(number, address));
        }
        before = Some(part);
    }
}
