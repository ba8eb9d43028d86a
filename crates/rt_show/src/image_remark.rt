//! The comment about an image.

ghost use Rattle.std.specs.Prelude.{◌≡◌, ◌≤◌, length, codes, IfSome};
ghost use Rattle.std.specs.Option.{option_map};
ghost use Rattle.rt_words.specs.Limits.{line_limit};
ghost use Rattle.rt_image.specs.ObjectFile.{IsObject, object_value, label};
ghost use Rattle.rt_show.specs.ObjectShown.{name_cell, image_remark};

use rt_image::{Object, Symbol};
use rt_names::own_namer;
use rt_text_out::{BYTES_LEN, Byte, Bytes, Decimal, Hex, Out, Text, plain, word};

/// The name of a symbol, or a hyphen.
fn name_cell(symbol: Option<Symbol<'_>>) -> Bytes<'_, BYTES_LEN>
    requires { IfSome symbol (λ s. length s.name.now ≤ line_limit) }
    ensures { result.bytes.now ≡ name_cell (option_map label symbol.entry) }
{
    match symbol {
        Some(symbol) => plain(symbol.name),
        None => plain(b"-"),
    }
}

/// The comment about the image of an object, without the end of its line.
#[derive(Clone, Copy)]
pub(crate) struct ImageRemark<'o, 'a> {
    pub(crate) object: &'o Object<'a>,
    ghost spelled: { IsObject (object_value object.now) },
}

impl<'o, 'a> Text for ImageRemark<'o, 'a> {
    ghost text = { λ x. image_remark (object_value x.object.now) };

    ghost most = { 700 };

    fn offer<O: Out>(&self, out: &mut O) {
        let object = self.object;
        let size = Decimal(object.bytes.len() as u64);
        let count = Decimal(object.symbols.as_slice().len() as u64);
        let name = name_cell(own_namer(object));
        let entry = (word(b" bytes, entry "), Hex(object.entry), Byte(b' '));
        let front = (word(b"#   image "), size, entry, name);
        (front, word(b", "), count, word(b" symbols")).offer(out);
    }
}
