//! The lines of a detailed list of jobs, and of the jobs that aren't finished.

ghost use Rattle.std.specs.Prelude.{◌≡◌, ◌≤◌, ◌++◌, length, codes};
ghost use Rattle.rt_report.specs.DetailText.{job_cells, detail_cells, detailed_line, unfinished_cells, unfinished_rest, unfinished_line};

use crate::csv_text::{OptionalCell, SumCell};
use crate::detailed_job::{DetailedJob, JobDetail, UnfinishedJob};
use crate::finished_job::FinishedJob;
use crate::job_text::{BoolCell, NumberCell};
use crate::name_text::NameEnd;
use rt_names::TaskNames;
use rt_text_out::{Byte, InOne, Out, Text, plain};

/// The first line of the detailed list.
pub const DETAILED_HEADER: &[u8] =
    b"task,job,release,finish,response,ticks,fresh,calm,hard,late,start,budget,deadline,interrupted,period,over,name\n";

/// The columns of the list without details.
#[derive(Clone, Copy)]
struct JobCells(FinishedJob);

impl Text for JobCells {
    ghost text = { λ x. job_cells x.0 };

    ghost most = { 150 };

    #[inline(always)]
    fn offer<O: Out>(&self, out: &mut O) {
        let job = self.0;
        let name = (
            NumberCell(u64::from(job.task)),
            NumberCell(job.number),
            NumberCell(job.release),
        );
        let times = (
            name,
            NumberCell(job.finish),
            NumberCell(job.response),
            NumberCell(job.ticks),
        );
        let kinds = (times, BoolCell(job.fresh), BoolCell(job.calm));
        (kinds, BoolCell(job.hard), BoolCell(job.late)).offer(out);
    }
}

/// Those behind them, and the period.
#[derive(Clone, Copy)]
struct DetailCells(JobDetail, u32);

impl Text for DetailCells {
    ghost text = { λ x. detail_cells x.0 x.1 };

    ghost most = { 125 };

    #[inline(always)]
    fn offer<O: Out>(&self, out: &mut O) {
        let detail = self.0;
        (
            OptionalCell(detail.start),
            NumberCell(u64::from(detail.budget)),
            SumCell(detail.deadline),
            NumberCell(detail.interrupted),
            NumberCell(u64::from(self.1)),
        )
            .offer(out);
    }
}

/// The line of a finished job with its details and the name of its task.
#[derive(Clone, Copy)]
pub struct DetailedLine<'n, 'a> {
    pub names: &'n TaskNames<'a>,
    pub detailed: DetailedJob,
}

impl<'n, 'a> Text for DetailedLine<'n, 'a> {
    ghost text = { λ x. detailed_line x.names.now x.detailed };

    ghost most = { 1024 };

    #[inline(always)]
    fn offer<O: Out>(&self, out: &mut O) {
        let job = JobCells(self.detailed.job);
        let period = self.detailed.period;
        let is_over = self.detailed.job.response > u64::from(period);
        let detail = (DetailCells(self.detailed.detail, period), BoolCell(is_over));
        let name = NameEnd(self.names, self.detailed.job.task);
        (InOne { pieces: job }, InOne { pieces: detail }, name).offer(out);
    }
}

/// The columns of a job that isn't finished.
#[derive(Clone, Copy)]
struct UnfinishedCells(UnfinishedJob);

impl Text for UnfinishedCells {
    ghost text = { λ x. unfinished_cells x.0 };

    ghost most = { 640 };

    fn offer<O: Out>(&self, out: &mut O) {
        let job = self.0;
        let name = (
            NumberCell(u64::from(job.task)),
            NumberCell(job.number),
            NumberCell(job.release),
        );
        let so_far = (name, plain(b",,"), NumberCell(job.ticks));
        (so_far, BoolCell(job.fresh), BoolCell(job.calm), Byte(b',')).offer(out);
    }
}

/// The line of a job that isn't finished, with its details and the name of its task or without.
#[derive(Clone, Copy)]
pub(crate) struct UnfinishedLine<'n, 'a> {
    pub(crate) details: bool,
    pub(crate) names: &'n TaskNames<'a>,
    pub(crate) job: UnfinishedJob,
}

impl<'n, 'a> Text for UnfinishedLine<'n, 'a> {
    ghost text = { λ x. unfinished_line x.details x.names.now x.job };

    ghost most = { 2048 };

    fn offer<O: Out>(&self, out: &mut O) {
        UnfinishedCells(self.job).offer(out);
        if self.details {
            let name = NameEnd(self.names, self.job.task);
            let detail = DetailCells(self.job.detail, self.job.period);
            (Byte(b','), detail, Byte(b','), name).offer(out);
        } else {
            out.put(b"\n");
        }
    }
}
