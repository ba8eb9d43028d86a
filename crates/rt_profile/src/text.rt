//! The lines of a profile's rows.

ghost use Rattle.std.specs.Prelude.{◌≡◌, ◌≤◌, ◌++◌, length, codes, decimal, IfSome};
ghost use Rattle.std.specs.Option.{option_map};
ghost use Rattle.rt_words.specs.Limits.{line_limit};
ghost use Rattle.rt_image.specs.ObjectFile.{label};
ghost use Rattle.rt_profile.specs.RowsText.{address_cell, name_text, row_text};
ghost use Rattle.rt_profile.specs.Working.Told.{told};

use crate::row::Row;
use rt_image::Symbol;
use rt_report::{Cell, Number, offer_right};
use rt_text_out::{BYTES_LEN, Byte, Bytes, InOne, Out, Text, plain};
use rt_words::hex_word;

/// The first line.
pub(crate) const HEADER: &[u8] =
    b"task       address         ticks       entered          most  name\n";

/// The address at which a part begins, or a hyphen.
#[derive(Clone, Copy)]
struct AddressCell<'a>(Option<Symbol<'a>>);

impl<'a> Text for AddressCell<'a> {
    ghost text = { λ x. address_cell (option_map label x.0) };

    ghost most = { 14 };

    fn offer<O: Out>(&self, out: &mut O) {
        match self.0 {
            Some(symbol) => offer_right(out, 14, &hex_word(symbol.address)),
            None => out.put(b"             -"),
        }
    }
}

/// A name, or a hyphen.
fn name_text(symbol: Option<Symbol<'_>>) -> Bytes<'_, BYTES_LEN>
    requires { IfSome symbol (λ s. length s.name.now ≤ line_limit) }
    ensures { result.bytes.now ≡ name_text (option_map label symbol.entry) }
{
    match symbol {
        Some(symbol) => plain(symbol.name),
        None => plain(b"-"),
    }
}

/// Offers the line of a row.
pub(crate) fn offer_row<O: Out>(out: &mut O, row: &Row<'_>)
    requires { IfSome row.now.symbol (λ s. length s.name.now ≤ line_limit) }
    ensures offers { O.offers out.old (row_text (told row.now)) out.new }
    ensures short { length (row_text (told row.now)) ≤ 2048 }
{
    let task = Number {
        places: 4,
        number: u64::from(row.task),
    };
    let begin = (task, AddressCell(row.symbol));
    let cells = (begin, Cell(row.ticks), Cell(row.entered), Cell(row.most));
    let front = (InOne { pieces: cells }, plain(b"  "));
    (front, name_text(row.symbol), Byte(b'\n')).offer(out);
}
