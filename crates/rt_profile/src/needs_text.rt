//! The lines of a profile's needs.

ghost use Rattle.std.specs.Prelude.{◌≡◌, ◌*◌, ◌^◌, ◌<◌, ◌≤◌, ◌++◌, length, All};
ghost use Rattle.rt_words.specs.Limits.{tick_limit};
ghost use Rattle.rt_profile.specs.NeedsText.{need_text};
ghost use Rattle.rt_profile.specs.NeedCounts.{bracket_count};
ghost use Rattle.rt_profile.specs.Working.NeedsTold.{kept_need, kept_need_lines};

use crate::bracket::{first_number, last_number};
use crate::need_counts::NeedCounts;
use crate::need_row::NeedRow;
use rt_report::{Cell, Number};
use rt_text_out::{Byte, InOne, Out, Text};

/// The first line.
pub(crate) const NEEDS_HEADER: &[u8] =
    b"task          from            to          jobs        within\n";

/// The row of a bracket.
fn row_of(task: u32, bracket: usize, jobs: u64, within: u64) -> NeedRow
    requires { bracket < bracket_count }
    ensures { result ≡ kept_need task bracket jobs within }
{
    NeedRow {
        task,
        from: first_number(bracket),
        to: last_number(bracket),
        jobs,
        within,
    }
}

/// The line of a row.
impl Text for NeedRow {
    ghost text = { need_text };

    ghost most = { 101 };

    fn offer<O: Out>(&self, out: &mut O) {
        let task = Number {
            places: 4,
            number: u64::from(self.task),
        };
        let front = (task, Cell(self.from), Cell(self.to));
        let line = (front, Cell(self.jobs), Cell(self.within), Byte(b'\n'));
        InOne { pieces: line }.offer(out);
    }
}

/// Offers the lines of a task's needs, the task having this number.
pub(crate) fn offer_needs<O: Out>(out: &mut O, number: u32, needs: &NeedCounts)
    requires { All (λ n. n ≤ tick_limit) needs.now.counts }
    ensures offers { O.offers out.old (kept_need_lines number needs.now) out.new }
    ensures short { length (kept_need_lines number needs.now) ≤ 2 ^ 29 }
{
    let mut within = 0;
    for (bracket, jobs) in needs.counts().iter().enumerate() {
        if *jobs > 0 {
            within += *jobs;
            row_of(number, bracket, *jobs, within).offer(out);
        }
    }
}
