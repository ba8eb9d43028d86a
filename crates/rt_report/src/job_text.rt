//! The lines of the finished jobs.

ghost use Rattle.std.specs.Prelude.{◌≡◌, ◌≤◌, ◌++◌, length};
ghost use Rattle.rt_report.specs.JobText.{bool_text, number_cell, bool_cell, job_line};

use crate::finished_job::FinishedJob;
use rt_text_out::{Byte, Decimal, InOne, Out, Text};

/// The first line of the finished jobs.
pub const JOBS_HEADER: &[u8] = b"task,job,release,finish,response,ticks,fresh,calm,hard,late\n";

/// A number, and a comma.
#[derive(Clone, Copy)]
pub(crate) struct NumberCell(pub(crate) u64);

impl Text for NumberCell {
    ghost text = { λ x. number_cell x.0 };

    ghost most = { 21 };

    #[inline(always)]
    fn offer<O: Out>(&self, out: &mut O) {
        (Decimal(self.0), Byte(b',')).offer(out);
    }
}

/// `true` or `false`.
#[derive(Clone, Copy)]
struct Truth(bool);

impl Text for Truth {
    ghost text = { λ x. bool_text x.0 };

    ghost most = { 5 };

    #[inline(always)]
    fn offer<O: Out>(&self, out: &mut O) {
        if self.0 {
            out.put(b"true");
        } else {
            out.put(b"false");
        }
    }
}

/// `true` or `false`, and a comma.
#[derive(Clone, Copy)]
pub(crate) struct BoolCell(pub(crate) bool);

impl Text for BoolCell {
    ghost text = { λ x. bool_cell x.0 };

    ghost most = { 6 };

    #[inline(always)]
    fn offer<O: Out>(&self, out: &mut O) {
        (Truth(self.0), Byte(b',')).offer(out);
    }
}

/// The line of a finished job.
impl Text for FinishedJob {
    ghost text = { job_line };

    ghost most = { 150 };

    #[inline(always)]
    fn offer<O: Out>(&self, out: &mut O) {
        let name = (
            NumberCell(u64::from(self.task)),
            NumberCell(self.number),
            NumberCell(self.release),
        );
        let times = (
            name,
            NumberCell(self.finish),
            NumberCell(self.response),
            NumberCell(self.ticks),
        );
        let kinds = (times, BoolCell(self.fresh), BoolCell(self.calm));
        let line = (kinds, BoolCell(self.hard), Truth(self.late), Byte(b'\n'));
        InOne { pieces: line }.offer(out);
    }
}
