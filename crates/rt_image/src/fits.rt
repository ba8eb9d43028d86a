//! Which values have a spelling.

ghost use Rattle.std.specs.Prelude.{◌≡◌, ◌≤◌, [], length, IsTrue};
ghost use Rattle.rt_image.specs.ObjectFile.{IsObject, is_label, are_labels, label, labels};
ghost use Rattle.rt_image.specs.Working.ObjectTest.{are_parts};

use crate::object::Symbol;
use rt_token::is_word;
use rt_words::{MAX_IMAGE, MAX_LINE, MAX_SYMBOLS, RAM_BASE};

/// Whether the symbol may stand after a name, in an object of so many bytes.
fn symbol_fits(size: u32, before: &[u8], symbol: &Symbol) -> bool
    requires { size ≤ MAX_IMAGE }
    ensures { result ≡ is_label size before.now (label symbol.now) }
{
    let len = symbol.name.len();
    let address = symbol.address;
    1 <= len
        && len <= MAX_LINE as usize
        && is_word(symbol.name)
        && before.cmp(symbol.name).is_lt()
        && RAM_BASE <= address
        && address <= RAM_BASE + size
}

fn symbols_fit(size: u32, symbols: &[Symbol]) -> bool
    requires { size ≤ MAX_IMAGE }
    ensures { result ≡ are_labels size [] (labels symbols.now) }
{
    let mut before: &[u8] = &[];
    for symbol in symbols {
        if !symbol_fits(size, before, symbol) {
            return false;
        }
        before = symbol.name;
    }
    true
}

fn parts_fit(size: usize, symbols: &[Symbol]) -> bool
    ensures { result ≡ are_parts size (labels symbols.now) }
{
    let few = symbols.len() <= MAX_SYMBOLS as usize;
    size <= MAX_IMAGE as usize && few && symbols_fit(size as u32, symbols)
}

/// Whether an object of these parts has a spelling.
pub fn object_fits(entry: u32, bytes: &[u8], symbols: &[Symbol]) -> bool
    ensures fits { IsTrue result → IsObject (record { entry = entry; bytes = bytes.now; labels = labels symbols.now }) }
    ensures all { IsObject (record { entry = entry; bytes = bytes.now; labels = labels symbols.now }) → IsTrue result }
{
    let _any = entry;
    parts_fit(bytes.len(), symbols)
}
