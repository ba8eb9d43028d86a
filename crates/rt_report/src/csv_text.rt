//! The lines of a wide report as comma-separated values.

ghost use Rattle.std.specs.Prelude.{◌≡◌, ◌≤◌, ◌++◌, length, codes};
ghost use Rattle.rt_report.specs.JobText.{number_cell};
ghost use Rattle.rt_report.specs.WideText.{stands_text};
ghost use Rattle.rt_report.specs.CsvText.{optional_cell, csv_row_cells, csv_wide_cells};

use crate::job_text::NumberCell;
use crate::wide_row::WideRow;
use crate::wide_text::stands_word;
use itoa::Buffer;
use rt_history::Mode;
use rt_text_out::{Byte, InOne, Out, Text};

/// The first line.
pub(crate) const CSV_HEADER: &[u8] =
    b"task,jobs,ticks,min,max,hard,late,stands,most,over,fresh,kept,postponed,yields,granted,refused,response,budget,period,name\n";

/// A number, where there is one, and a comma.
#[derive(Clone, Copy)]
pub(crate) struct OptionalCell(pub(crate) Option<u64>);

impl Text for OptionalCell {
    ghost text = { λ x. optional_cell x.0 };

    ghost most = { 21 };

    fn offer<O: Out>(&self, out: &mut O) {
        match self.0 {
            Some(number) => NumberCell(number).offer(out),
            None => Byte(b',').offer(out),
        }
    }
}

/// A number that may be over 2^64, and a comma.
#[derive(Clone, Copy)]
pub(crate) struct SumCell(pub(crate) u128);

impl Text for SumCell {
    ghost text = { λ x. number_cell x.0 };

    ghost most = { 41 };

    fn offer<O: Out>(&self, out: &mut O) {
        let mut digits = Buffer::new();
        out.put(digits.format(self.0).as_bytes());
        out.put(b",");
    }
}

/// How a task stands, and a comma.
#[derive(Clone, Copy)]
struct StandsCell(Mode);

impl Text for StandsCell {
    ghost text = { λ x. stands_text x.0 ++ codes "," };

    ghost most = { 16 };

    fn offer<O: Out>(&self, out: &mut O) {
        out.put(stands_word(self.0));
        out.put(b",");
    }
}

/// The cells of a wide row as comma-separated values, up to the name.
#[derive(Clone, Copy)]
pub(crate) struct CsvCells(pub(crate) WideRow);

impl Text for CsvCells {
    ghost text = { λ x. csv_row_cells x.0.row ++ csv_wide_cells x.0 };

    ghost most = { 1024 };

    fn offer<O: Out>(&self, out: &mut O) {
        let row = self.0.row;
        let counts = self.0.counts;
        let front = (
            NumberCell(u64::from(row.task)),
            NumberCell(row.jobs),
            NumberCell(row.ticks),
        );
        let responses = (front, OptionalCell(row.least), OptionalCell(row.greatest));
        let jobs = (
            StandsCell(self.0.stands),
            OptionalCell(counts.most_ticks),
            NumberCell(counts.overtimes),
        );
        let wakes = (
            jobs,
            NumberCell(counts.fresh_wakes),
            NumberCell(counts.kept_wakes),
        );
        let server = (
            wakes,
            NumberCell(counts.postponements),
            NumberCell(counts.yields),
        );
        let reserves = (NumberCell(counts.granted), NumberCell(counts.refused));
        let last = (
            reserves,
            SumCell(counts.response),
            NumberCell(u64::from(self.0.budget)),
            NumberCell(u64::from(self.0.period)),
        );
        let rows = (responses, NumberCell(row.hard), NumberCell(row.late));
        (
            InOne { pieces: rows },
            (InOne { pieces: server }, InOne { pieces: last }),
        )
            .offer(out);
    }
}
