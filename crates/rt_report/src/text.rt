//! The lines of a report.

ghost use Rattle.std.specs.Prelude.{◌≡◌, ◌≤◌, ◌++◌, max, length, decimal};
ghost use Rattle.rt_report.specs.ReportText.{right as to_the_right, cell, response_cell, idle_text};
ghost use Rattle.rt_report.specs.WideText.{row_cells};

use crate::row::Row;
use itoa::Buffer;
use rt_text_out::{Byte, Out, Text, plain};

/// The most places of a column, and the most blanks before a text.
const PLACES: usize = 18;

const BLANKS: &[u8; PLACES] = b"                  ";

/// The first line.
pub(crate) const HEADER: &[u8] =
    b"task          jobs         ticks           min           max          hard          late\n";

/// Offers a text to the right of so many places, at most 18.
#[inline(always)]
pub fn offer_right<O: Out>(out: &mut O, places: usize, text: &[u8])
    requires { places ≤ PLACES }
    ensures offers { O.offers out.old (to_the_right places text.now) out.new }
    ensures size { length (to_the_right places text.now) ≡ max places (length text.now) }
{
    out.put(&BLANKS[..places.saturating_sub(text.len())]);
    out.put(text);
}

/// A number to the right of so many places, at most 18.
#[derive(Clone, Copy)]
pub struct Number {
    pub places: usize,
    pub number: u64,
    ghost few: { places ≤ 18 },
}

impl Text for Number {
    ghost text = { λ x. to_the_right x.places (decimal x.number) };

    ghost most = { 20 };

    #[inline(always)]
    fn offer<O: Out>(&self, out: &mut O) {
        let mut digits = Buffer::new();
        offer_right(out, self.places, digits.format(self.number).as_bytes());
    }
}

/// A number in a column.
#[derive(Clone, Copy)]
pub struct Cell(pub u64);

impl Text for Cell {
    ghost text = { λ x. cell x.0 };

    ghost most = { 20 };

    #[inline(always)]
    fn offer<O: Out>(&self, out: &mut O) {
        Number {
            places: 14,
            number: self.0,
        }
        .offer(out);
    }
}

/// A response, or a hyphen where no job has finished.
#[derive(Clone, Copy)]
pub(crate) struct Response(pub(crate) Option<u64>);

impl Text for Response {
    ghost text = { λ x. response_cell x.0 };

    ghost most = { 20 };

    fn offer<O: Out>(&self, out: &mut O) {
        match self.0 {
            Some(ticks) => Cell(ticks).offer(out),
            None => out.put(b"             -"),
        }
    }
}

/// The cells of a row.
impl Text for Row {
    ghost text = { row_cells };

    ghost most = { 140 };

    fn offer<O: Out>(&self, out: &mut O) {
        let task = Number {
            places: 4,
            number: u64::from(self.task),
        };
        let front = (task, Cell(self.jobs), Cell(self.ticks));
        let responses = (front, Response(self.least), Response(self.greatest));
        (responses, Cell(self.hard), Cell(self.late)).offer(out);
    }
}

/// The last line.
#[derive(Clone, Copy)]
pub struct IdleLine(pub u64);

impl Text for IdleLine {
    ghost text = { λ x. idle_text x.0 };

    ghost most = { 600 };

    fn offer<O: Out>(&self, out: &mut O) {
        (plain(b"idle"), Cell(self.0), Byte(b'\n')).offer(out);
    }
}
