//! What an object file holds.

ghost use Rattle.std.proofs.Props.{props};
ghost use Rattle.std.specs.Prelude.{◌≡◌, ◌≤◌, length, false, All, IfOk};
ghost use Rattle.std.specs.List.{flat_map};
ghost use Rattle.rt_words.specs.Limits.{line_limit, symbol_limit};
ghost use Rattle.rt_image.specs.ObjectFile.{IsObject, object_value, label, labels};
ghost use Rattle.rt_show.specs.ObjectShown.{IsInOrder, WritesObject, symbol_line};

use crate::image_remark::ImageRemark;
use rt_image::{Object, Symbol};
use rt_sink::{DeviceFault, Sink};
use rt_text_out::{Each, Hex, Line, Out, Text, plain, write};
use std::alloc::{AllocError, Global};
use std::marker::Model;

/// The symbols by their addresses, those at one address by their names.
fn in_order<'a>(alloc: Global, symbols: &[Symbol<'a>]) -> Result<Vec<Symbol<'a>>, AllocError>
    ensures { IfOk result (λ found. IsInOrder (labels symbols.now) (labels found.items)) }
{
    let mut found = Vec::from_slice(alloc, symbols)?;
    found.sort_by_key(|symbol| (symbol.address, symbol.name))?;
    Ok(found)
}

/// The line of a symbol.
#[derive(Clone, Copy)]
struct SymbolLine;

impl<'a> Line<Symbol<'a>> for SymbolLine {
    ghost may = { λ by symbol. length symbol.name.now ≤ line_limit };

    ghost fact = { λ by symbol. Prim.hlevel props };

    ghost line = { λ by number symbol. symbol_line (label symbol) };

    ghost most = { 2048 };

    fn offer_line<O: Out>(&self, _number: u32, symbol: &Symbol<'a>, out: &mut O) {
        let name = (Hex(symbol.address), plain(b" "), plain(symbol.name));
        (name, plain(b"\n")).offer(out);
    }
}

/// An object, with its symbols in the order of addresses. Contracts see the object.
#[derive(Drop)]
pub struct ShownObject<'o, 'a> {
    object: &'o Object<'a>,
    symbols: Vec<Symbol<'a>>,
}

impl<'o, 'a> Model for ShownObject<'o, 'a> {
    ghost use Rattle.rt_image.specs.ObjectFile.{ObjectValue, IsObject, object_value, labels};
    ghost use Rattle.rt_show.specs.ObjectShown.{IsInOrder};

    ghost Value = { ObjectValue };

    ghost view = { λ o. object_value o.object.now };

    ghost invariant = { λ o. IsObject (object_value o.object.now) × IsInOrder (labels o.object.now.symbols.items) (labels o.symbols.items) };
}

impl<'o, 'a> ShownObject<'o, 'a> {
    /// The object, whose symbols are put in order here.
    ///
    /// # Errors
    ///
    /// There is no memory for the order.
    pub fn new(alloc: Global, object: &'o Object<'a>) -> Result<ShownObject<'o, 'a>, AllocError>
        requires { IsObject (object_value object.now) }
        ensures { IfOk result (λ shown. shown ≡ object_value object.now) }
    {
        let symbols = in_order(alloc, &object.symbols)?;
        Ok(ShownObject { object, symbols })
    }

    /// Writes what the object file holds: a comment about its image, and a line for each symbol, in the order of addresses, those at
    /// one address in that of their names. The answer is the text's length in bytes. Takes no memory.
    ///
    /// # Errors
    ///
    /// The sink failed. `written` is how many of the first bytes of the text it took.
    pub fn write_text<S: Sink>(&self, out: &mut S) -> Result<u64, DeviceFault>
        requires { (S.seen out.old).failed ≡ false }
        ensures { WritesObject S.seen out.old self.now result out.new }
    {
        let remark = ImageRemark {
            object: self.object,
        };
        let symbols = Each {
            items: &self.symbols,
            by: SymbolLine,
        };
        let text = (plain(b"# object\n"), remark, plain(b"\n"), symbols);
        write(&text, out)
    }
}
