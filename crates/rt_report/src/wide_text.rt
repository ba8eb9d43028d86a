//! The lines of a wide report.

ghost use Rattle.std.specs.Prelude.{◌≡◌, ◌≤◌, ◌++◌, length};
ghost use Rattle.rt_report.specs.ReportText.{right};
ghost use Rattle.rt_report.specs.WideText.{stands_text, row_cells, wide_cells};

use crate::text::{Cell, Response, offer_right};
use crate::wide_row::WideRow;
use rt_history::Mode;
use rt_text_out::{InOne, Out, Text, plain};

/// The first line.
pub(crate) const WIDE_HEADER: &[u8] =
    b"task          jobs         ticks           min           max          hard          late            stands          most          over         fresh          kept     postponed        yields        budget        period  name\n";

/// How a task stands, in one word: a fault's name, where it has faulted. Takes no memory.
#[tactic(auto, using(crate::proofs::TextLemmas::named_long))]
pub fn stands_word(mode: Mode) -> &'static [u8]
    ensures text { result.now ≡ stands_text mode }
    ensures long { 4 ≤ length result.now }
    ensures short { length result.now ≤ 15 }
{
    match mode {
        Mode::Active => b"active",
        Mode::Asleep(_) => b"asleep",
        Mode::Ended => b"ended",
        Mode::Faulted(fault) => fault.name(),
    }
}

/// How a task stands, in a column.
#[derive(Clone, Copy)]
struct Stands(Mode);

impl Text for Stands {
    ghost text = { λ x. right 18 (stands_text x.0) };

    ghost most = { 18 };

    fn offer<O: Out>(&self, out: &mut O) {
        offer_right(out, 18, stands_word(self.0));
    }
}

/// The cells of a wide row, up to the name.
impl Text for WideRow {
    ghost text = { λ r. row_cells r.row ++ wide_cells r };

    ghost most = { 1024 };

    fn offer<O: Out>(&self, out: &mut O) {
        let counts = self.counts;
        let jobs = (
            Stands(self.stands),
            Response(counts.most_ticks),
            Cell(counts.overtimes),
        );
        let wakes = (jobs, Cell(counts.fresh_wakes), Cell(counts.kept_wakes));
        let server = (wakes, Cell(counts.postponements), Cell(counts.yields));
        let budget = Cell(u64::from(self.budget));
        let period = Cell(u64::from(self.period));
        (
            InOne { pieces: self.row },
            (InOne { pieces: server }, budget, period, plain(b"  ")),
        )
            .offer(out);
    }
}
