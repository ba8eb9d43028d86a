//! Whether the image lies where its names and its entry do.

ghost use Rattle.std.specs.Prelude.{◌≡◌, ◌≤◌};
ghost use Rattle.rt_elf.specs.flat.FlatEntry.{may_be_entry};
ghost use Rattle.rt_elf.specs.flat.Misplaced.{is_inside, is_misplaced};

use crate::flat::symbols::{is_shown, symbol_of};
use rt_token::cut_line;
use rt_words::{MAX_IMAGE, RAM_BASE};

/// Whether an image of so many bytes may begin at the address.
pub fn may_be_entry(size: u32, address: u32) -> bool
    requires { size ≤ MAX_IMAGE }
    ensures { result ≡ may_be_entry size address }
{
    let end = u64::from(RAM_BASE + size);
    address % 4 == 0 && RAM_BASE <= address && u64::from(address) + 4 <= end
}

/// Whether the symbol of a line lies in an image of so many bytes, or at its end; none where nm shows no symbol of the line.
fn is_inside(size: u32, line: &[u8]) -> Option<bool>
    requires { size ≤ MAX_IMAGE }
    ensures { result ≡ is_inside size line.now }
{
    let symbol = symbol_of(line)?;
    let address = symbol.address;
    is_shown(symbol.name).then_some(RAM_BASE <= address && address <= RAM_BASE + size)
}

/// Whether there are symbols in a list of names, and none of them lies in an image of so many bytes or at its end.
pub fn is_misplaced(size: u32, text: &[u8]) -> bool
    requires { size ≤ MAX_IMAGE }
    ensures { result ≡ is_misplaced size text.now }
{
    let mut is_outside = false;
    let mut rest = text;
    while !rest.is_empty() {
        let (line, after) = cut_line(rest);
        match is_inside(size, line) {
            Some(true) => return false,
            Some(false) => is_outside = true,
            None => {}
        }
        rest = after;
    }
    is_outside
}
