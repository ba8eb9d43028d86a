//! What is shown of each task, in each form of the profile.

ghost use Rattle.std.proofs.Props.{props};
ghost use Rattle.std.specs.Prelude.{◌≡◌, ⊤, ◌≤◌, length, All};
ghost use Rattle.rt_words.specs.Limits.{tick_limit};
ghost use Rattle.rt_profile.specs.Working.Told.{kept_lines, kept_costs};
ghost use Rattle.rt_profile.specs.Working.NeedsTold.{kept_need_lines};

use crate::callgrind::offer_task;
use crate::needs_text::offer_needs;
use crate::rows::offer_rows;
use crate::task_profile::TaskProfile;
use rt_text_out::{Line, Out};

/// Its rows.
#[derive(Clone, Copy)]
pub(crate) struct RowLines;

impl<'s, 'b> Line<TaskProfile<'s, 'b>> for RowLines {
    ghost may = { λ by x. ⊤ };

    ghost fact = { λ by x. Prim.hlevel props };

    ghost line = { λ by number x. kept_lines number x };

    ghost most = { 1073741824 };

    fn offer_line<O: Out>(&self, number: u32, item: &TaskProfile<'s, 'b>, out: &mut O) {
        offer_rows(out, number, item);
    }
}

/// Its needs.
#[derive(Clone, Copy)]
pub(crate) struct NeedLines;

impl<'s, 'b> Line<TaskProfile<'s, 'b>> for NeedLines {
    ghost may = { λ by x. All (λ n. n ≤ tick_limit) x.needs.counts };

    ghost fact = { λ by x. Prim.hlevel props };

    ghost line = { λ by number x. kept_need_lines number x.needs };

    ghost most = { 1073741824 };

    fn offer_line<O: Out>(&self, number: u32, item: &TaskProfile<'s, 'b>, out: &mut O) {
        offer_needs(out, number, item.needs());
    }
}

/// Its ticks by address.
#[derive(Clone, Copy)]
pub(crate) struct CostLines;

impl<'s, 'b> Line<TaskProfile<'s, 'b>> for CostLines {
    ghost may = { λ by x. ⊤ };

    ghost fact = { λ by x. Prim.hlevel props };

    ghost line = { λ by number x. kept_costs number x };

    ghost most = { 1073741824 };

    fn offer_line<O: Out>(&self, number: u32, item: &TaskProfile<'s, 'b>, out: &mut O) {
        offer_task(out, number, item);
    }
}
