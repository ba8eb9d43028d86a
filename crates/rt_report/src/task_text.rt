//! What is shown of each task, in each form of the report.

ghost use Rattle.std.proofs.Props.{props};
ghost use Rattle.std.specs.Prelude.{◌≡◌, ⊤, ◌≤◌, ◌++◌, length};
ghost use Rattle.std.specs.List.{flat_map};
ghost use Rattle.rt_words.specs.Limits.{tick_limit};
ghost use Rattle.rt_report.specs.ReportText.{row_text};
ghost use Rattle.rt_report.specs.WideText.{wide_row_text};
ghost use Rattle.rt_report.specs.CsvText.{csv_line};
ghost use Rattle.rt_report.specs.DetailText.{unfinished_line};
ghost use Rattle.rt_report.specs.Standing.{wide_row_at};
ghost use Rattle.rt_report.specs.Working.Tallied.{IsSound};
ghost use Rattle.rt_report.specs.Working.Detailing.{unfinished_at};

use crate::csv_text::CsvCells;
use crate::detail_text::UnfinishedLine;
use crate::lazy_tally::LazyTally;
use crate::name_text::NameEnd;
use rt_names::TaskNames;
use rt_text_out::{Byte, InOne, Line, Out, Text};

/// Its row.
#[derive(Clone, Copy)]
pub(crate) struct NarrowLine;

impl Line<LazyTally> for NarrowLine {
    ghost may = { λ by x. ⊤ };

    ghost fact = { λ by x. Prim.hlevel props };

    ghost line = { λ by number x. row_text x.row };

    ghost most = { 141 };

    fn offer_line<O: Out>(&self, _number: u32, item: &LazyTally, out: &mut O) {
        let line = (item.row(), Byte(b'\n'));
        InOne { pieces: line }.offer(out);
    }
}

/// Its wide row at a tick, with its name.
#[derive(Clone, Copy)]
pub(crate) struct WideLine<'n, 'a> {
    pub(crate) names: &'n TaskNames<'a>,
    pub(crate) tick: u64,
    ghost limit: { tick ≤ tick_limit },
}

impl<'n, 'a> Line<LazyTally> for WideLine<'n, 'a> {
    ghost may = { λ by x. IsSound by.tick x };

    ghost fact = { λ by x. Prim.hlevel props };

    ghost line = { λ by number x. wide_row_text by.names.now (wide_row_at by.tick x) };

    ghost most = { 4096 };

    fn offer_line<O: Out>(&self, _number: u32, item: &LazyTally, out: &mut O) {
        let wide = item.wide_row(self.tick);
        (wide, NameEnd(self.names, wide.row.task)).offer(out);
    }
}

/// That as comma-separated values.
#[derive(Clone, Copy)]
pub(crate) struct CsvLine<'n, 'a> {
    pub(crate) names: &'n TaskNames<'a>,
    pub(crate) tick: u64,
    ghost limit: { tick ≤ tick_limit },
}

impl<'n, 'a> Line<LazyTally> for CsvLine<'n, 'a> {
    ghost may = { λ by x. IsSound by.tick x };

    ghost fact = { λ by x. Prim.hlevel props };

    ghost line = { λ by number x. csv_line by.names.now (wide_row_at by.tick x) };

    ghost most = { 4096 };

    fn offer_line<O: Out>(&self, _number: u32, item: &LazyTally, out: &mut O) {
        let wide = item.wide_row(self.tick);
        let name = NameEnd(self.names, wide.row.task);
        (CsvCells(wide), name).offer(out);
    }
}

/// Its open job, unless it has ended, with details and its name or without.
#[derive(Clone, Copy)]
pub(crate) struct OpenLine<'n, 'a> {
    pub(crate) details: bool,
    pub(crate) names: &'n TaskNames<'a>,
}

impl<'n, 'a> Line<LazyTally> for OpenLine<'n, 'a> {
    ghost may = { λ by x. ⊤ };

    ghost fact = { λ by x. Prim.hlevel props };

    ghost line = { λ by number x. flat_map (unfinished_line by.details by.names.now) (unfinished_at x) };

    ghost most = { 4096 };

    fn offer_line<O: Out>(&self, _number: u32, item: &LazyTally, out: &mut O) {
        if let Some(job) = item.unfinished() {
            UnfinishedLine {
                details: self.details,
                names: self.names,
                job,
            }
            .offer(out);
        }
    }
}
